//! Two seats of a pool in threads of their own, over servers in memory.
ghost use Rattle.std.specs.Prelude.{◌≡◌, ◌≤◌, ◌+◌, ◌*◌};
ghost use Rattle.shared_pool.specs.SlotRules.{HoldsNone};
ghost use Rattle.shared_pool.specs.PoolSeats.{spare_of, tally_of, IsSeatOf};

use crate::keeper::{Any, Keeper};
use conn_drivers::R2D2Connection;
use conn_manager::SimpleConnection;
use conn_model::Text;
use conn_pool::{ConnectionManager, ManageConnection, NopConnectionCustomizer};
use conn_server::{Connector, Dialect, ScriptedConnector};
use shared_pool::{Pool, Seat};
use std::alloc::{AllocError, Global};
use std::process::Abort;
use std::sync::Wait;
use std::sync::atomic::{AtomicBool, Ordering};
use std::thread::{Threads, join_mut};

/// A manager of connections to SQLite, which can close this many.
fn make_keeper<'k>(
    rt: &impl Abort,
    alloc: Global,
    connector: &'k mut ScriptedConnector,
    left: u32,
) -> Keeper<'k>
    ensures { result.left ≡ left }
{
    let url = Text::new(alloc, ":memory:").expect(rt, "memory");
    Keeper {
        opener: ConnectionManager::new(connector, Dialect::Sqlite, url),
        left,
    }
}

/// Waits for a connection, sends a text on it and gives it back. Whether its slot was with no other seat.
fn turn<C: R2D2Connection + Drop, M: ManageConnection<Connection = C>>(
    rt: &impl Wait,
    alloc: Global,
    pool: &Pool<C, 1, 2>,
    seat: &mut Seat<C, 1, 2>,
    manager: &mut M,
    is_out: &AtomicBool,
) -> bool
    requires own { IsSeatOf pool.now seat.old }
    requires empty { HoldsNone (tally_of seat.old) }
    requires room { 2 ≤ M.room manager.old }
    ensures own { IsSeatOf pool.now seat.new }
    ensures spare { spare_of seat.new ≡ spare_of seat.old }
    ensures empty { HoldsNone (tally_of seat.new) }
    ensures room { M.room manager.old ≤ M.room manager.new + 2 }
    ensures lent { M.lent manager.new ≡ M.lent manager.old }
{
    let nop = NopConnectionCustomizer;
    match pool.get(rt, alloc, seat, manager, &nop, false, u32::MAX) {
        Err(_) => false,
        Ok(mut pooled) => {
            let was_out = is_out.swap(true, Ordering::SeqCst);
            let is_sent = pooled.connection_mut().batch_execute("SELECT 1").is_ok();
            let still_out = is_out.swap(false, Ordering::SeqCst);
            let is_kept = pool.put_back(rt, seat, pooled, manager);
            !was_out && is_sent && still_out && is_kept
        }
    }
}

/// Takes so many turns. Whether each was as it should be.
fn work<C: R2D2Connection + Drop, M: ManageConnection<Connection = C>>(
    rt: &impl Wait,
    alloc: Global,
    pool: &Pool<C, 1, 2>,
    seat: &mut Seat<C, 1, 2>,
    manager: &mut M,
    is_out: &AtomicBool,
    turns: u32,
) -> bool
    requires own { IsSeatOf pool.now seat.old }
    requires empty { HoldsNone (tally_of seat.old) }
    requires room { 2 * turns ≤ M.room manager.old }
    ensures own { IsSeatOf pool.now seat.new }
    ensures spare { spare_of seat.new ≡ spare_of seat.old }
    ensures empty { HoldsNone (tally_of seat.new) }
    ensures room { M.room manager.old ≤ M.room manager.new + 2 * turns }
    ensures lent { M.lent manager.new ≡ M.lent manager.old }
{
    let mut is_fine = true;
    for _turn in 0..turns {
        let was_fine = turn(rt, alloc, pool, seat, manager, is_out);
        is_fine = is_fine && was_fine;
    }
    is_fine
}

/// Two seats take so many turns each, in threads of their own, over one slot. Whether each was as it should be.
fn share<R: Threads + Wait + Sync>(
    rt: &R,
    alloc: Global,
    first: &mut Keeper<'_>,
    second: &mut Keeper<'_>,
    turns: u32,
) -> Result<bool, AllocError>
    requires turns { turns ≤ 1000 }
    requires first { 2 * turns + 1 ≤ first.old.left }
    requires second { 2 * turns ≤ second.old.left }
{
    let (pool, mut seat) = Pool::<Any, 1, 2>::new(rt, alloc)?;
    let mut other = seat.split(&pool, 0);
    let mark = AtomicBool::new(false);
    let shared = &pool;
    let is_out = &mark;
    let (a, b) = join_mut(
        rt,
        &mut || work(rt, alloc, shared, &mut seat, first, is_out, turns),
        &mut || work(rt, alloc, shared, &mut other, second, is_out, turns),
    );
    end(rt, pool, seat, other, first);
    Ok(a && b)
}

/// Ends a pool, whose seats hold nothing.
fn end<C: R2D2Connection + Drop, M: ManageConnection<Connection = C>>(
    rt: &impl Wait,
    pool: Pool<C, 1, 2>,
    mut seat: Seat<C, 1, 2>,
    other: Seat<C, 1, 2>,
    manager: &mut M,
)
    requires own { IsSeatOf pool seat × IsSeatOf pool other }
    requires empty { HoldsNone (tally_of seat) × HoldsNone (tally_of other) }
    requires spare { spare_of seat + spare_of other ≡ 0 }
    requires room { 1 ≤ M.room manager.old }
{
    seat.join(&pool, other);
    pool.close_idle(rt, &mut seat, manager);
}

#[test]
fn no_slot_is_with_two_seats_or_lost(rt: HostRuntime) {
    let alloc = rt.alloc();
    let mut one = ScriptedConnector::new(alloc);
    let mut two = ScriptedConnector::new(alloc);
    let mut first = make_keeper(&rt, alloc, &mut one, 10_000);
    let mut second = make_keeper(&rt, alloc, &mut two, 10_000);
    let all = share(&rt, alloc, &mut first, &mut second, 1000);
    assert_eq!(rt; all, Ok(true));
    let left = first.left.saturating_add(second.left);
    assert_eq!(rt; left, 19_999);
    let Keeper { opener, .. } = first;
    let Keeper { opener: other, .. } = second;
    let opened = opener.connector.opened();
    assert_eq!(rt; opened.saturating_add(other.connector.opened()), 1);
}
