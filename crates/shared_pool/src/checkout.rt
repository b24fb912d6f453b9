//! What is handed out of a pool that threads share, and what comes back to it.
ghost use Rattle.std.specs.Prelude.{◌≡◌, ◌≤◌, ◌<◌, ◌+◌, length, false, true, IfOk, OnOk, MatchResult};
ghost use Rattle.std.specs.Option.{option_map};
ghost use Rattle.conn_result.specs.Causes.{Rose};
ghost use Rattle.conn_manager.specs.Statuses.{is_broken};
ghost use Rattle.conn_pool.specs.ErrorCauses.{IsServedCaused};
ghost use Rattle.conn_pool.specs.SlotViews.{idle_of, kept_view};
ghost use Rattle.conn_pool.specs.Checkouts.{ChecksIn, Fills, Reuses, Serves};
ghost use Rattle.shared_pool.specs.SlotRules.{HoldsAll, HoldsNone, HoldsOne, IsSettled};
ghost use Rattle.shared_pool.specs.PoolSeats.{looks_of, spare_of, tally_of, IsSeatOf};
ghost use Rattle.shared_pool.specs.SharedCheckouts.{looks_after, AnswersOnce, AnswersWithin, ClosesKept, CountsLooks, Empties, FindsNone, ReturnsSlot};

use crate::{Pool, Seat};
use conn_drivers::R2D2Connection;
use conn_pool::{
    CustomizeConnection, ManageConnection, PoolError, PooledConnection, Slot, prepare,
};
use std::alloc::Global;
use std::sync::Wait;

/// The slot of a connection that comes back, which keeps it unless it is broken. Whether it is kept is the answer.
fn settle<C: R2D2Connection + Drop, M: ManageConnection<Connection = C>>(
    connection: PooledConnection<C>,
    manager: &mut M,
) -> (Slot<C>, bool)
    requires room { 1 ≤ M.room manager.old }
    ensures settles { ChecksIn M.closes M.stays manager.old manager.new
        (C.view connection.connection) result.1 }
    ensures number { result.0.number ≡ connection.slot }
    ensures kept { option_map C.view result.0.kept
        ≡ kept_view (C.view connection.connection) result.1 }
    ensures later { M.refusals manager.old ≤ M.refusals manager.new }
    ensures cause { result.1 ≡ false → Rose (M.refusals manager.old) (M.refusals manager.new) }
    ensures kept_room { result.1 ≡ true → M.room manager.new ≡ M.room manager.old }
    ensures closed_room { result.1 ≡ false → M.room manager.new + 1 ≡ M.room manager.old }
    ensures lent { M.lent manager.new ≡ M.lent manager.old }
{
    let PooledConnection {
        slot,
        mut connection,
    } = connection;
    if manager.has_broken(&mut connection) {
        manager.close(connection);
        return (Slot::empty(slot), false);
    }
    (Slot::filled(slot, connection), true)
}

/// Closes what a slot keeps.
fn close_kept<C: R2D2Connection + Drop, M: ManageConnection<Connection = C>>(
    slot: Slot<C>,
    manager: &mut M,
)
    requires room { 1 ≤ M.room manager.old }
    ensures closes { ClosesKept M.closes C.view manager.old manager.new slot.kept }
    ensures room { M.room manager.new + idle_of slot ≡ M.room manager.old }
    ensures refusals { M.refusals manager.new ≡ M.refusals manager.old }
    ensures lent { M.lent manager.new ≡ M.lent manager.old }
{
    let Slot {
        number: _,
        connection,
    } = slot;
    match connection {
        None => {}
        Some(connection) => manager.close(connection),
    }
}

impl<C: R2D2Connection + Drop, const MAX: usize, const SEATS: usize> Pool<C, MAX, SEATS> {
    /// Hands out the connection that the front slot keeps, or a new one where it is empty, in one look. `NoneFree` comes
    /// only where the pool had no slot at that look, and never where there are no more seats than slots. After every other
    /// error the slot is at the back, empty, and a connection that there was is closed.
    pub fn try_get<R: Wait, M: ManageConnection<Connection = C>, Z: CustomizeConnection<C>>(
        &self,
        rt: &R,
        alloc: Global,
        seat: &mut Seat<C, MAX, SEATS>,
        manager: &mut M,
        customizer: &Z,
        check: bool,
    ) -> Result<PooledConnection<C>, PoolError>
        requires own { IsSeatOf self.now seat.old }
        requires empty { HoldsNone (tally_of seat.old) }
        requires room { 1 ≤ M.room manager.old }
        ensures own { IsSeatOf self.now seat.new }
        ensures spare { spare_of seat.new ≡ spare_of seat.old }
        ensures looks { looks_of seat.new ≡ looks_after (looks_of seat.old) result }
        ensures gets { let v = tally_of seat.old in
            let w = tally_of seat.new in
            AnswersOnce
            (Serves C.view
            (Fills M.opens M.fails M.closes M.stays (Z.acquires customizer.now))
            (Reuses M.checks M.closes C.view check) manager.old manager.new)
            (λ kept. IsServedCaused Z.may_refuse kept
            (M.refusals manager.old) (M.refusals manager.new))
            v w (FindsNone C MAX SEATS v w manager.old manager.new) result }
        ensures held { MatchResult result (λ p. HoldsOne (tally_of seat.new) p.slot)
            (λ e. HoldsNone (tally_of seat.new)) }
        ensures clean { check ≡ false
            → IfOk result (λ p. is_broken (C.view p.connection).status ≡ false) }
        ensures later { M.refusals manager.old ≤ M.refusals manager.new }
        ensures room { M.room manager.old ≤ M.room manager.new + 1 }
        ensures ok_room { OnOk result (M.room manager.old ≤ M.room manager.new) }
        ensures leaves_room { OnOk result (1 ≤ M.room manager.new) }
        ensures lent { M.lent manager.new ≡ M.lent manager.old }
    {
        let Some(slot) = self.look(rt, seat) else {
            return Err(PoolError::NoneFree);
        };
        match prepare(alloc, slot, manager, customizer, check) {
            Ok(connection) => Ok(connection),
            Err((slot, e)) => {
                self.give(rt, seat, slot);
                Err(PoolError::Error(e))
            }
        }
    }

    /// As `try_get`, in so many looks at most, between which it waits until a slot comes back. `TimedOut` comes only where
    /// each of them found no slot.
    pub fn get<R: Wait, M: ManageConnection<Connection = C>, Z: CustomizeConnection<C>>(
        &self,
        rt: &R,
        alloc: Global,
        seat: &mut Seat<C, MAX, SEATS>,
        manager: &mut M,
        customizer: &Z,
        check: bool,
        looks: u32,
    ) -> Result<PooledConnection<C>, PoolError>
        requires own { IsSeatOf self.now seat.old }
        requires empty { HoldsNone (tally_of seat.old) }
        requires room { 1 ≤ M.room manager.old }
        requires looks { 1 ≤ looks }
        ensures own { IsSeatOf self.now seat.new }
        ensures spare { spare_of seat.new ≡ spare_of seat.old }
        ensures gets { let v = tally_of seat.old in
            let w = tally_of seat.new in
            AnswersWithin
            (Serves C.view
            (Fills M.opens M.fails M.closes M.stays (Z.acquires customizer.now))
            (Reuses M.checks M.closes C.view check) manager.old manager.new)
            (λ kept. IsServedCaused Z.may_refuse kept
            (M.refusals manager.old) (M.refusals manager.new))
            v w looks (FindsNone C MAX SEATS v w manager.old manager.new) result }
        ensures looks { CountsLooks looks (looks_of seat.old) (looks_of seat.new) result }
        ensures held { MatchResult result (λ p. HoldsOne (tally_of seat.new) p.slot)
            (λ e. HoldsNone (tally_of seat.new)) }
        ensures clean { check ≡ false
            → IfOk result (λ p. is_broken (C.view p.connection).status ≡ false) }
        ensures later { M.refusals manager.old ≤ M.refusals manager.new }
        ensures room { M.room manager.old ≤ M.room manager.new + 1 }
        ensures ok_room { OnOk result (M.room manager.old ≤ M.room manager.new) }
        ensures leaves_room { OnOk result (1 ≤ M.room manager.new) }
        ensures lent { M.lent manager.new ≡ M.lent manager.old }
    {
        for look in 1..looks {
            let moves = self.moves_so_far(rt);
            match self.try_get(rt, alloc, seat, manager, customizer, check) {
                Err(PoolError::NoneFree) => self.wait_past(rt, moves),
                answer => return answer,
            }
        }
        match self.try_get(rt, alloc, seat, manager, customizer, check) {
            Err(PoolError::NoneFree) => Err(PoolError::TimedOut { looks }),
            answer => answer,
        }
    }

    /// Takes back the connection of a slot that the seat holds: it is kept, or closed where it is broken. Either way its slot
    /// is at the back. Whether it is kept is the answer.
    pub fn put_back<R: Wait, M: ManageConnection<Connection = C>>(
        &self,
        rt: &R,
        seat: &mut Seat<C, MAX, SEATS>,
        connection: PooledConnection<C>,
        manager: &mut M,
    ) -> bool
        requires own { IsSeatOf self.now seat.old }
        requires held { HoldsOne (tally_of seat.old) connection.slot }
        requires room { 1 ≤ M.room manager.old }
        ensures own { IsSeatOf self.now seat.new }
        ensures spare { spare_of seat.new ≡ spare_of seat.old }
        ensures looks { looks_of seat.new ≡ looks_of seat.old }
        ensures empty { HoldsNone (tally_of seat.new) }
        ensures settles { ChecksIn M.closes M.stays manager.old manager.new
            (C.view connection.connection) result }
        ensures slot { ReturnsSlot C.view (tally_of seat.old) (tally_of seat.new) connection.slot
            (kept_view (C.view connection.connection) result) }
        ensures later { M.refusals manager.old ≤ M.refusals manager.new }
        ensures cause { result ≡ false → Rose (M.refusals manager.old) (M.refusals manager.new) }
        ensures kept_room { result ≡ true → M.room manager.new ≡ M.room manager.old }
        ensures closed_room { result ≡ false → M.room manager.new + 1 ≡ M.room manager.old }
        ensures lent { M.lent manager.new ≡ M.lent manager.old }
    {
        let (slot, is_kept) = settle(connection, manager);
        self.give(rt, seat, slot);
        is_kept
    }

    /// Ends the pool: takes each slot, and closes what it keeps. The seat is the only one.
    pub fn close_idle<R: Wait, M: ManageConnection<Connection = C>>(
        self,
        rt: &R,
        seat: &mut Seat<C, MAX, SEATS>,
        manager: &mut M,
    )
        requires own { IsSeatOf self seat.old }
        requires empty { HoldsNone (tally_of seat.old) }
        requires alone { spare_of seat.old + 1 ≡ SEATS }
        requires room { MAX ≤ M.room manager.old }
        ensures empties { Empties M.closes C.view M.room MAX
            (tally_of seat.old) (tally_of seat.new) manager.old manager.new }
        ensures all { HoldsAll MAX (tally_of seat.new) }
        ensures settled { IsSettled (tally_of seat.new) }
        ensures given { (tally_of seat.new).given ≡ (tally_of seat.old).given }
        ensures spare { spare_of seat.new ≡ spare_of seat.old }
        ensures looks { looks_of seat.new ≡ looks_of seat.old }
        ensures refusals { M.refusals manager.new ≡ M.refusals manager.old }
        ensures lent { M.lent manager.new ≡ M.lent manager.old }
    {
        for _taken in 0..MAX {
            let slot = self.drain(rt, seat);
            close_kept(slot, manager);
        }
        self.settle_up(seat);
    }
}
