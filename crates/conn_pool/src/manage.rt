//! Who opens, checks and closes connections, and who readies a new one.
ghost use Rattle.std.specs.Prelude.{◌≡◌, ◌≤◌, ◌+◌, ℕ, Bool, true, false, Option, None, IfErr, MatchResult, OnOk};
ghost use Rattle.std.specs.Borrow.{GName};
ghost use Rattle.conn_result.specs.Causes.{Rose};
ghost use Rattle.conn_result.specs.declared.error.ConnectionError.{ConnectionError};
ghost use Rattle.conn_result.specs.declared.error.Error.TheVariants.{OutOfMemory};
ghost use Rattle.conn_manager.specs.Manages.{Reply};
ghost use Rattle.conn_manager.specs.Statuses.{is_broken};
ghost use Rattle.conn_manager.specs.Views.{View};
ghost use Rattle.conn_pool.specs.ErrorCauses.{CountsErrors};
ghost use Rattle.conn_pool.specs.Managing.{ConnectsBy, Validates};

use crate::Error;
use conn_drivers::R2D2Connection;
use conn_manager::Connection;
use conn_result::QueryResult;
use std::alloc::Global;

/// Opens connections, says whether one may be handed out again, and closes them.
pub trait ManageConnection {
    /// What it opens.
    type Connection: R2D2Connection + Drop;

    /// A connection with this view was opened.
    ghost opens: { Self → Self → View → Type 0 };

    /// None was opened, for this reason.
    ghost fails: { Self → Self → ConnectionError → Type 0 };

    /// A connection was checked, which may change it, with this reply.
    ghost checks: { Self → Self → View → View → Reply → Type 0 };

    /// A connection was closed.
    ghost closes: { Self → Self → View → Type 0 };

    /// No connection was opened, checked or closed.
    ghost stays: { Self → Self → Type 0 };

    /// How many connections `close` can still take.
    ghost room: { Self → ℕ };

    /// Whether each opening raises the room by one.
    ghost raises_room: { Bool };

    /// Counts errors, but want of memory, and connections that are broken.
    ghost refusals: { Self → ℕ };

    /// The name of what it borrows, where it borrows.
    ghost lent: { Self → Option GName } = { λ _. None };

    /// Opens a connection.
    fn connect(&mut self, alloc: Global) -> Result<Self::Connection, Error>
        requires room { raises_room ≡ false → 1 ≤ room self.old }
        ensures connects { ConnectsBy opens fails Self.Connection.view self.old self.new result }
        ensures room { room self.old ≤ room self.new }
        ensures leaves_room { OnOk result (1 ≤ room self.new) }
        ensures raises { raises_room ≡ true → OnOk result (room self.old + 1 ≤ room self.new) }
        ensures cause { CountsErrors (refusals self.old) (refusals self.new) result }
        ensures lent { lent self.new ≡ lent self.old };

    /// Whether a connection still answers.
    fn is_valid(&mut self, connection: &mut Self::Connection) -> Result<(), Error>
        ensures validates { let view = Self.Connection.view in
            Validates checks self.old self.new (view connection.old) (view connection.new)
            result }
        ensures room { room self.new ≡ room self.old }
        ensures cause { CountsErrors (refusals self.old) (refusals self.new) result }
        ensures lent { lent self.new ≡ lent self.old };

    /// Whether a connection may not be handed out again. It isn't changed.
    fn has_broken(&mut self, connection: &mut Self::Connection) -> bool
        ensures same { Self.Connection.view connection.new
            ≡ Self.Connection.view connection.old }
        ensures broken { result ≡ is_broken (Self.Connection.view connection.old).status }
        ensures stays { stays self.old self.new }
        ensures room { room self.new ≡ room self.old }
        ensures later { refusals self.old ≤ refusals self.new }
        ensures cause { result ≡ true → Rose (refusals self.old) (refusals self.new) }
        ensures lent { lent self.new ≡ lent self.old };

    /// Closes a connection.
    fn close(&mut self, connection: Self::Connection)
        requires room { 1 ≤ room self.old }
        ensures closes { closes self.old self.new (Self.Connection.view connection) }
        ensures room { room self.new + 1 ≡ room self.old }
        ensures refusals { refusals self.new ≡ refusals self.old }
        ensures lent { lent self.new ≡ lent self.old };
}

/// Readies a connection that was just opened.
pub trait CustomizeConnection<C: Connection> {
    /// What it does to a connection, with which reply.
    ghost acquires: { Self → View → View → Reply → Type 0 };

    /// Whether it may refuse for another cause than want of memory.
    ghost may_refuse: { Bool };

    /// Readies a connection.
    fn on_acquire(&self, connection: &mut C) -> QueryResult<()>
        ensures acquires { acquires self.now (C.view connection.old) (C.view connection.new)
            result }
        ensures number { (C.view connection.new).seen.number
            ≡ (C.view connection.old).seen.number }
        ensures memory { may_refuse ≡ false → IfErr result (λ e. e ≡ OutOfMemory) };
}
