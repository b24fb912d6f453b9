//! A connection that is handed out.
ghost use Rattle.std.specs.Prelude.{◌≡◌};
ghost use Rattle.std.specs.Borrow.{sem};
ghost use Rattle.conn_pool.specs.Lending.{LendsConnection};

use conn_drivers::{CacheSize, CachingConnection, LoadConnection, Query, R2D2Connection};
use conn_manager::{Connection, InstrumentationEvent, SimpleConnection, TransactionManagerStatus};
use conn_result::{ConnectionError, ConnectionResult, QueryResult};
use conn_rows::RowReader;
use std::alloc::Global;

/// A slot's number and the connection that was handed out for it. It must be given back.
pub struct PooledConnection<C> {
    /// The number of the slot that is out.
    pub slot: u32,
    /// What was handed out.
    pub connection: C,
}

impl<C> PooledConnection<C> {
    ghost use Rattle.std.specs.Prelude.{Err, negsuc};
    ghost use Rattle.conn_result.specs.declared.error.ConnectionError.TheVariants.{BadConnection};

    /// A pooled connection comes from a pool alone, so none is established.
    pub fn establish(_database_url: &str) -> ConnectionResult<PooledConnection<C>>
        ensures { result ≡ Err (BadConnection (negsuc 3)) }
    {
        Err(ConnectionError::BadConnection(-4))
    }

    /// Lends the connection.
    pub fn connection_mut(&mut self) -> &mut C
        ensures* writes_back { sem 𝓛 (LendsConnection C.row self.entry result) }
        ensures value { result.now ≡ self.old.connection }
    {
        &mut self.connection
    }
}

impl<C: SimpleConnection> SimpleConnection for PooledConnection<C> {
    ghost is_honest = { C.is_honest };

    ghost view = { λ p. C.view p.connection };

    fn batch_execute(&mut self, query: &str) -> QueryResult<()> {
        self.connection.batch_execute(query)
    }

    ghost honesty = { λ e p. C.honesty e p.connection };
}

impl<C: Connection> Connection for PooledConnection<C> {
    type Handler = C::Handler;

    fn status(&self) -> &TransactionManagerStatus {
        self.connection.status()
    }

    fn set_status(&mut self, status: TransactionManagerStatus) {
        self.connection.set_status(status)
    }

    fn event(&mut self, event: InstrumentationEvent<'_>) {
        self.connection.event(event)
    }

    fn set_instrumentation(&mut self, instrumentation: C::Handler) {
        self.connection.set_instrumentation(instrumentation)
    }

    fn reserve(&mut self, items: usize, bytes: usize) -> QueryResult<()> {
        self.connection.reserve(items, bytes)
    }

    fn send(&mut self, query: &str) -> QueryResult<()> {
        self.connection.send(query)
    }

    fn sent(&self) -> u64 {
        self.connection.sent()
    }

    fn number(&self) -> u32 {
        self.connection.number()
    }
}

impl<C: CachingConnection> CachingConnection for PooledConnection<C> {
    fn execute_returning_count<Q: Query>(&mut self, source: &Q) -> QueryResult<usize> {
        self.connection.execute_returning_count(source)
    }

    fn set_prepared_statement_cache_size(&mut self, size: CacheSize) {
        self.connection.set_prepared_statement_cache_size(size)
    }
}

impl<C: LoadConnection> LoadConnection for PooledConnection<C> {
    fn load_list_by<Q: Query, R: RowReader>(
        &mut self,
        alloc: Global,
        source: &Q,
        reader: &R,
        row_by_row: bool,
    ) -> QueryResult<Vec<R::Value>> {
        self.connection
            .load_list_by(alloc, source, reader, row_by_row)
    }

    fn get_result_by<Q: Query, R: RowReader>(
        &mut self,
        alloc: Global,
        source: &Q,
        reader: &R,
    ) -> QueryResult<R::Value> {
        self.connection.get_result_by(alloc, source, reader)
    }
}

impl<C: R2D2Connection> R2D2Connection for PooledConnection<C> {}
