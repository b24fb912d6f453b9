//! Transactions with characteristics of one's own, on PostgreSQL.
ghost use Rattle.std.specs.Fn.{FnOnceReturnsAtMut};
ghost use Rattle.std.specs.Prelude.{◌≡◌, Some};
ghost use Rattle.conn_model.specs.Beginnings.{built_text};
ghost use Rattle.conn_model.specs.declared.transaction.BlockForm.TheVariants.{Build};
ghost use Rattle.conn_model.specs.declared.transaction.Deferrable.TheVariants as deferrables;
ghost use Rattle.conn_model.specs.declared.transaction.IsolationLevel.TheVariants.{ReadCommitted, RepeatableRead, Serializable};
ghost use Rattle.conn_model.specs.declared.transaction.ReadMode.TheVariants.{ReadOnly, ReadWrite};
ghost use Rattle.conn_manager.specs.Causes.{begin_sql_fault};
ghost use Rattle.conn_manager.specs.Transactions.{RefusesBlockAt, TransactsAs};

use crate::PgConnection;
use conn_manager::{AnsiTransactionManager, Connection, Instrumentation, RollbackErrors};
use conn_model::{BeginText, Characteristics, Deferrable, IsolationLevel, ReadMode};
use conn_result::Error;
use conn_server::Server;

/// A transaction to come on a connection to PostgreSQL, with its characteristics. The connection can't be used meanwhile.
/// Nothing is sent before `run`.
#[derive(Drop)]
#[must_use]
pub struct TransactionBuilder<'c, C> {
    pub connection: &'c mut C,
    pub characteristics: Characteristics,
}

impl<S: Server, H: Instrumentation + Drop> PgConnection<S, H> {
    /// A transaction that is to begin with characteristics of one's own, of which none is given yet.
    pub fn build_transaction(&mut self) -> TransactionBuilder<'_, PgConnection<S, H>>
        ensures same_reference { result.connection.ghost_name ≡ self.entry.ghost_name }
        ensures connection { result.connection.now ≡ self.old }
        ensures none { result.characteristics ≡ Characteristics.DEFAULT }
    {
        TransactionBuilder {
            connection: self,
            characteristics: Characteristics::DEFAULT,
        }
    }
}

impl<'c, C: Connection> TransactionBuilder<'c, C> {
    /// The same with these characteristics.
    fn with(self, characteristics: Characteristics) -> Self
        ensures connection { result.connection ≡ self.entry.connection }
        ensures set { result.characteristics ≡ characteristics }
    {
        let TransactionBuilder {
            connection,
            characteristics: _,
        } = self;
        TransactionBuilder {
            connection,
            characteristics,
        }
    }

    /// It can only read, in place of what was said of that before.
    pub fn read_only(self) -> Self
        ensures connection { result.connection ≡ self.entry.connection }
        ensures set { result.characteristics
            ≡ record self.entry.characteristics { read_mode = Some ReadOnly } }
    {
        let characteristics = Characteristics {
            read_mode: Some(ReadMode::ReadOnly),
            ..self.characteristics
        };
        self.with(characteristics)
    }

    /// It can write, in place of what was said of that before.
    pub fn read_write(self) -> Self
        ensures connection { result.connection ≡ self.entry.connection }
        ensures set { result.characteristics
            ≡ record self.entry.characteristics { read_mode = Some ReadWrite } }
    {
        let characteristics = Characteristics {
            read_mode: Some(ReadMode::ReadWrite),
            ..self.characteristics
        };
        self.with(characteristics)
    }

    /// It may wait for its snapshot, in place of what was said of that before.
    pub fn deferrable(self) -> Self
        ensures connection { result.connection ≡ self.entry.connection }
        ensures set { result.characteristics
            ≡ record self.entry.characteristics { deferrable = Some deferrables.Deferrable } }
    {
        let characteristics = Characteristics {
            deferrable: Some(Deferrable::Deferrable),
            ..self.characteristics
        };
        self.with(characteristics)
    }

    /// It doesn't wait for its snapshot, in place of what was said of that before.
    pub fn not_deferrable(self) -> Self
        ensures connection { result.connection ≡ self.entry.connection }
        ensures set { result.characteristics
            ≡ record self.entry.characteristics { deferrable = Some deferrables.NotDeferrable } }
    {
        let characteristics = Characteristics {
            deferrable: Some(Deferrable::NotDeferrable),
            ..self.characteristics
        };
        self.with(characteristics)
    }

    /// Its isolation level is `READ COMMITTED`, in place of one given before.
    pub fn read_committed(self) -> Self
        ensures connection { result.connection ≡ self.entry.connection }
        ensures set { result.characteristics
            ≡ record self.entry.characteristics { isolation_level = Some ReadCommitted } }
    {
        let characteristics = Characteristics {
            isolation_level: Some(IsolationLevel::ReadCommitted),
            ..self.characteristics
        };
        self.with(characteristics)
    }

    /// Its isolation level is `REPEATABLE READ`, in place of one given before.
    pub fn repeatable_read(self) -> Self
        ensures connection { result.connection ≡ self.entry.connection }
        ensures set { result.characteristics
            ≡ record self.entry.characteristics { isolation_level = Some RepeatableRead } }
    {
        let characteristics = Characteristics {
            isolation_level: Some(IsolationLevel::RepeatableRead),
            ..self.characteristics
        };
        self.with(characteristics)
    }

    /// Its isolation level is `SERIALIZABLE`, in place of one given before.
    pub fn serializable(self) -> Self
        ensures connection { result.connection ≡ self.entry.connection }
        ensures set { result.characteristics
            ≡ record self.entry.characteristics { isolation_level = Some Serializable } }
    {
        let characteristics = Characteristics {
            isolation_level: Some(IsolationLevel::Serializable),
            ..self.characteristics
        };
        self.with(characteristics)
    }

    /// The text that begins it.
    pub fn sql(&self) -> BeginText
        ensures { result.bytes ≡ built_text self.now.characteristics }
    {
        self.characteristics.sql()
    }

    /// Begins the transaction by its text, and is `Connection::transaction` from there on; the builder can be run again.
    /// `AlreadyInTransaction` comes of the begin exactly where a depth is tracked, with nothing sent or told, and the closure
    /// isn't called then.
    pub fn run<T: Drop, E: From<Error> + Drop, F: FnOnce(&mut C) -> Result<T, E>>(
        &mut self,
        f: F,
    ) -> Result<T, E>
        requires { F.IsAlwaysCallable f }
        ensures same_reference { self.new.connection.ghost_name ≡ self.old.connection.ghost_name }
        ensures same { self.new.characteristics ≡ self.old.characteristics }
        ensures transacts { TransactsAs C.is_honest C.view (FnOnceReturnsAtMut F.FnOnce f)
            E.from_gives (Build self.old.characteristics)
            self.old.connection.now self.new.connection.now result }
        ensures at_entry { RefusesBlockAt C.view E.from_gives begin_sql_fault
            self.old.connection.now self.new.connection.now result }
    {
        let begin = self.sql();
        let connection = &mut *self.connection;
        AnsiTransactionManager::transaction_sql(
            connection,
            begin.as_str(),
            RollbackErrors::AllButBroken,
            f,
        )
    }
}
