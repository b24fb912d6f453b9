//! What readies a new connection.
use crate::CustomizeConnection;
use conn_manager::{AnsiTransactionManager, Connection};
use conn_result::QueryResult;

/// Does nothing.
#[derive(Clone, Copy, Debug)]
pub struct NopConnectionCustomizer;

impl<C: Connection> CustomizeConnection<C> for NopConnectionCustomizer {
    ghost use Rattle.std.specs.Prelude.{false};
    ghost use Rattle.conn_pool.specs.Customizers.{AcquiresPlain};

    ghost acquires = { λ z. AcquiresPlain };

    ghost may_refuse = { false };

    fn on_acquire(&self, _connection: &mut C) -> QueryResult<()> {
        Ok(())
    }
}

/// Begins a transaction that is never kept.
#[derive(Clone, Copy, Debug)]
pub struct TestCustomizer;

impl<C: Connection> CustomizeConnection<C> for TestCustomizer {
    ghost use Rattle.std.specs.Prelude.{true};
    ghost use Rattle.conn_manager.specs.Manages.{begin_test_process};
    ghost use Rattle.conn_pool.specs.Customizers.{AcquiresBy};

    ghost acquires = { λ z. AcquiresBy C.is_honest begin_test_process };

    ghost may_refuse = { true };

    fn on_acquire(&self, connection: &mut C) -> QueryResult<()> {
        connection.begin_test_transaction()
    }
}

/// Begins a transaction, and so leaves one open.
#[derive(Clone, Copy, Debug)]
pub struct BeginCustomizer;

impl<C: Connection> CustomizeConnection<C> for BeginCustomizer {
    ghost use Rattle.std.specs.Prelude.{true};
    ghost use Rattle.conn_manager.specs.Manages.{begin_process};
    ghost use Rattle.conn_pool.specs.Customizers.{AcquiresBy};

    ghost acquires = { λ z. AcquiresBy C.is_honest begin_process };

    ghost may_refuse = { true };

    fn on_acquire(&self, connection: &mut C) -> QueryResult<()> {
        AnsiTransactionManager::begin_transaction(connection)
    }
}
