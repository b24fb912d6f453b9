//! Transactions that take SQLite's lock as they begin.
ghost use Rattle.std.specs.Fn.{FnOnceReturnsAtMut};
ghost use Rattle.conn_model.specs.declared.transaction.BlockForm.TheVariants.{Immediate, Exclusive};
ghost use Rattle.conn_manager.specs.Causes.{begin_sql_fault};
ghost use Rattle.conn_manager.specs.Transactions.{RefusesBlockAt, TransactsAs};

use crate::SqliteConnection;
use conn_manager::{AnsiTransactionManager, Connection, Instrumentation, RollbackErrors};
use conn_result::Error;
use conn_server::Server;

/// A connection to a server of SQLite's, whose transactions can take its lock as they begin.
///
/// Both are `Connection::transaction` but for the text that begins, and that after the closure's error each error of the
/// rollback is answered in its place, also that of a manager in error. `AlreadyInTransaction` comes of the begin exactly where
/// a depth is tracked, with nothing sent or told, and the closure isn't called then.
pub trait LockingConnection: Connection {
    /// Calls the closure in a transaction that `BEGIN IMMEDIATE` begins: nobody else may write meanwhile.
    final fn immediate_transaction<
        T: Drop,
        E: From<Error> + Drop,
        F: FnOnce(&mut Self) -> Result<T, E>,
    >(&mut self, f: F) -> Result<T, E>
        requires { F.IsAlwaysCallable f }
        ensures transacts { TransactsAs Self.is_honest Self.view (FnOnceReturnsAtMut F.FnOnce f)
            E.from_gives Immediate self.old self.new result }
        ensures at_entry { RefusesBlockAt Self.view E.from_gives begin_sql_fault
            self.old self.new result }
    {
        AnsiTransactionManager::transaction_sql(self, "BEGIN IMMEDIATE", RollbackErrors::All, f)
    }

    /// Calls the closure in a transaction that `BEGIN EXCLUSIVE` begins: nobody else may read or write meanwhile.
    final fn exclusive_transaction<
        T: Drop,
        E: From<Error> + Drop,
        F: FnOnce(&mut Self) -> Result<T, E>,
    >(&mut self, f: F) -> Result<T, E>
        requires { F.IsAlwaysCallable f }
        ensures transacts { TransactsAs Self.is_honest Self.view (FnOnceReturnsAtMut F.FnOnce f)
            E.from_gives Exclusive self.old self.new result }
        ensures at_entry { RefusesBlockAt Self.view E.from_gives begin_sql_fault
            self.old self.new result }
    {
        AnsiTransactionManager::transaction_sql(self, "BEGIN EXCLUSIVE", RollbackErrors::All, f)
    }
}

impl<S: Server, H: Instrumentation + Drop> LockingConnection for SqliteConnection<S, H> {}
