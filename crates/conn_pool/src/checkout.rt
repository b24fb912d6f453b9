//! What is handed out, and what comes back.
ghost use Rattle.std.specs.Prelude.{◌≡◌, ◌≤◌, ◌<◌, ◌+◌, length, false, true, Ok, Err, IfOk, IfErr, OnOk, MatchResult};
ghost use Rattle.conn_result.specs.Causes.{Rose};
ghost use Rattle.conn_manager.specs.Statuses.{is_broken};
ghost use Rattle.conn_pool.specs.ErrorCauses.{CountsErrors, IsNewCaused, IsServedCaused};
ghost use Rattle.conn_pool.specs.SlotViews.{kept_view, GivesBack, HasRoomForAll};
ghost use Rattle.conn_pool.specs.Checkouts.{seen_answer, ChecksIn, Fills, HasRoom, HasRoomForFront, Inspects, IsFrontCaused, KeepsRoom, Reuses, ServesSlot, TriesGet};

use crate::{
    CustomizeConnection, Error, ManageConnection, PoolCore, PoolError, PooledConnection, Slot,
};
use conn_drivers::R2D2Connection;
use conn_manager::Connection;
use std::alloc::Global;

/// Hands out a connection that the customizer readied, unless it is broken.
fn inspect<C: R2D2Connection + Drop, M: ManageConnection<Connection = C>>(
    manager: &mut M,
    mut connection: C,
) -> Result<C, Error>
    requires room { 1 ≤ M.room manager.old }
    ensures inspects { let v = C.view connection in
        Inspects M.closes M.stays manager.old manager.new v (is_broken v.status)
        (seen_answer C.view result) }
    ensures clean { IfOk result (λ c. is_broken (C.view c).status ≡ false) }
    ensures cause { CountsErrors (M.refusals manager.old) (M.refusals manager.new) result }
    ensures room { M.room manager.old ≤ M.room manager.new + 1 }
    ensures ok_room { OnOk result (M.room manager.new ≡ M.room manager.old) }
    ensures lent { M.lent manager.new ≡ M.lent manager.old }
{
    if manager.has_broken(&mut connection) {
        let number = connection.number();
        manager.close(connection);
        return Err(Error::LeftOpen(number));
    }
    Ok(connection)
}

/// A connection for an empty slot.
fn fill<C: R2D2Connection + Drop, M: ManageConnection<Connection = C>, Z: CustomizeConnection<C>>(
    alloc: Global,
    manager: &mut M,
    customizer: &Z,
) -> Result<C, Error>
    requires room { M.raises_room ≡ false → 1 ≤ M.room manager.old }
    ensures fills { Fills M.opens M.fails M.closes M.stays (Z.acquires customizer.now)
        manager.old manager.new (seen_answer C.view result) }
    ensures clean { IfOk result (λ c. is_broken (C.view c).status ≡ false) }
    ensures later { M.refusals manager.old ≤ M.refusals manager.new }
    ensures cause { IfErr result (IsNewCaused Z.may_refuse
        (M.refusals manager.old) (M.refusals manager.new)) }
    ensures room { M.room manager.old ≤ M.room manager.new + 1 }
    ensures ok_room { OnOk result (M.room manager.old ≤ M.room manager.new) }
    ensures leaves_room { OnOk result (1 ≤ M.room manager.new) }
    ensures raises { M.raises_room ≡ true → MatchResult result
        (λ c. M.room manager.old + 1 ≤ M.room manager.new)
        (λ e. M.room manager.old ≤ M.room manager.new) }
    ensures lent { M.lent manager.new ≡ M.lent manager.old }
{
    let mut connection = match manager.connect(alloc) {
        Ok(connection) => connection,
        Err(e) => return Err(e),
    };
    match customizer.on_acquire(&mut connection) {
        Ok(()) => inspect(manager, connection),
        Err(e) => {
            let number = connection.number();
            manager.close(connection);
            Err(Error::of_query(e, number))
        }
    }
}

/// The connection that a slot keeps.
fn reuse<C: R2D2Connection + Drop, M: ManageConnection<Connection = C>>(
    manager: &mut M,
    mut connection: C,
    check: bool,
) -> Result<C, Error>
    requires room { 1 ≤ M.room manager.old }
    ensures reuses { Reuses M.checks M.closes C.view check manager.old manager.new connection
        result }
    ensures cause { CountsErrors (M.refusals manager.old) (M.refusals manager.new) result }
    ensures room { M.room manager.old ≤ M.room manager.new + 1 }
    ensures ok_room { OnOk result (M.room manager.old ≤ M.room manager.new) }
    ensures leaves_room { OnOk result (1 ≤ M.room manager.new) }
    ensures lent { M.lent manager.new ≡ M.lent manager.old }
{
    if !check {
        return Ok(connection);
    }
    match manager.is_valid(&mut connection) {
        Ok(()) => Ok(connection),
        Err(e) => {
            manager.close(connection);
            Err(e)
        }
    }
}

/// The connection for a slot that was taken: the one that it keeps, or a new one. Else the slot comes back, empty.
pub fn prepare<C, M, Z>(
    alloc: Global,
    slot: Slot<C>,
    manager: &mut M,
    customizer: &Z,
    check: bool,
) -> Result<PooledConnection<C>, (Slot<C>, Error)>
where
    C: R2D2Connection + Drop,
    M: ManageConnection<Connection = C>,
    Z: CustomizeConnection<C>,
    requires room { HasRoom M.raises_room slot.kept (M.room manager.old) }
    ensures serves { ServesSlot C.view
        (Fills M.opens M.fails M.closes M.stays (Z.acquires customizer.now))
        (Reuses M.checks M.closes C.view check)
        manager.old manager.new slot result }
    ensures clean { check ≡ false
        → IfOk result (λ p. is_broken (C.view p.connection).status ≡ false) }
    ensures later { M.refusals manager.old ≤ M.refusals manager.new }
    ensures cause { IfErr result (λ e. IsServedCaused Z.may_refuse slot.kept
        (M.refusals manager.old) (M.refusals manager.new) e.1) }
    ensures room { M.room manager.old ≤ M.room manager.new + 1 }
    ensures ok_room { OnOk result (M.room manager.old ≤ M.room manager.new) }
    ensures leaves_room { OnOk result (1 ≤ M.room manager.new) }
    ensures all_room { M.raises_room ≡ true
        → KeepsRoom slot (M.room manager.old) (M.room manager.new) result }
    ensures lent { M.lent manager.new ≡ M.lent manager.old }
{
    let Slot { number, connection } = slot;
    let served = match connection {
        None => fill(alloc, manager, customizer),
        Some(connection) => reuse(manager, connection, check),
    };
    match served {
        Ok(connection) => Ok(PooledConnection {
            slot: number,
            connection,
        }),
        Err(e) => Err((Slot::empty(number), e)),
    }
}

/// Hands out the connection that the front slot keeps, or a new one where it is empty. `NoneFree` comes exactly where no
/// slot is in the pool. After every other error the slot is at the back, empty, and a connection that there was is closed.
pub fn try_get<M: ManageConnection, Z: CustomizeConnection<M::Connection>>(
    alloc: Global,
    core: &mut PoolCore<M::Connection>,
    manager: &mut M,
    customizer: &Z,
    check: bool,
) -> Result<PooledConnection<M::Connection>, PoolError>
    requires room { HasRoomForFront M.raises_room core.old.slots (M.room manager.old) }
    ensures gets { TriesGet M.Connection.view
        (Fills M.opens M.fails M.closes M.stays (Z.acquires customizer.now))
        (Reuses M.checks M.closes M.Connection.view check)
        core.old core.new manager.old manager.new core.old.slots result }
    ensures clean { check ≡ false
        → IfOk result (λ p. is_broken (M.Connection.view p.connection).status ≡ false) }
    ensures later { M.refusals manager.old ≤ M.refusals manager.new }
    ensures cause { IfErr result (IsFrontCaused Z.may_refuse core.old.slots
        (M.refusals manager.old) (M.refusals manager.new)) }
    ensures out { OnOk result (length core.new.slots < core.new.max_size) }
    ensures room { M.room manager.old ≤ M.room manager.new + 1 }
    ensures ok_room { OnOk result (M.room manager.old ≤ M.room manager.new) }
    ensures leaves_room { OnOk result (1 ≤ M.room manager.new) }
    ensures all_room { M.raises_room ≡ true → HasRoomForAll core.old (M.room manager.old)
        → HasRoomForAll core.new (M.room manager.new) }
    ensures lent { M.lent manager.new ≡ M.lent manager.old }
{
    let Some(slot) = core.take() else {
        return Err(PoolError::NoneFree);
    };
    match prepare(alloc, slot, manager, customizer, check) {
        Ok(pooled) => Ok(pooled),
        Err((slot, e)) => {
            core.give(slot);
            Err(PoolError::Error(e))
        }
    }
}

/// Takes a connection back: it is kept, or closed where it is broken. Either way its slot is at the back. Whether it is kept
/// is the answer.
pub fn put_back<M: ManageConnection>(
    core: &mut PoolCore<M::Connection>,
    connection: PooledConnection<M::Connection>,
    manager: &mut M,
) -> bool
    requires out { length core.old.slots < core.old.max_size }
    requires room { 1 ≤ M.room manager.old }
    ensures settles { ChecksIn M.closes M.stays manager.old manager.new
        (M.Connection.view connection.connection) result }
    ensures slot { GivesBack M.Connection.view core.old core.new connection.slot
        (kept_view (M.Connection.view connection.connection) result) }
    ensures later { M.refusals manager.old ≤ M.refusals manager.new }
    ensures cause { result ≡ false → Rose (M.refusals manager.old) (M.refusals manager.new) }
    ensures kept_room { result ≡ true → M.room manager.new ≡ M.room manager.old }
    ensures closed_room { result ≡ false → M.room manager.new + 1 ≡ M.room manager.old }
    ensures all_room { HasRoomForAll core.old (M.room manager.old)
        → HasRoomForAll core.new (M.room manager.new) }
    ensures lent { M.lent manager.new ≡ M.lent manager.old }
{
    let PooledConnection {
        slot,
        mut connection,
    } = connection;
    if manager.has_broken(&mut connection) {
        manager.close(connection);
        core.give(Slot::empty(slot));
        return false;
    }
    core.give(Slot::filled(slot, connection));
    true
}
