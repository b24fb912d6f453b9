//! A connection to any of the three.
use crate::{
    CachingConnection, Driver, Establish, LoadConnection, MultiConnection, Mysql, Pg,
    R2D2Connection, RawConnection, Sqlite,
};
use conn_cache::{CacheSize, Query};
use conn_manager::{
    Connection, DynInstrumentation, Instrumentation, InstrumentationEvent, SimpleConnection,
    TransactionManagerStatus,
};
use conn_model::Dialect;
use conn_result::{ConnectionResult, QueryResult};
use conn_rows::RowReader;
use conn_server::{Connector, Server};
use std::alloc::Global;

/// A connection to a server of a kind that is chosen while the program runs.
#[derive(Drop)]
pub enum AnyConnection<S: Server, H = DynInstrumentation> {
    Pg(Driver<S, Pg, H>),
    Mysql(Driver<S, Mysql, H>),
    Sqlite(Driver<S, Sqlite, H>),
}

impl<S: Server, H: Instrumentation + Drop> AnyConnection<S, H> {
    ghost use Rattle.std.specs.Prelude.{◌≡◌};
    ghost use Rattle.conn_drivers.specs.Raws.{raw_of};

    /// The connection of this kind.
    fn of(dialect: Dialect, raw: RawConnection<S, H>) -> AnyConnection<S, H>
        ensures { raw_of result ≡ raw }
    {
        match dialect {
            Dialect::Pg => AnyConnection::Pg(Driver::new(raw)),
            Dialect::Mysql => AnyConnection::Mysql(Driver::new(raw)),
            Dialect::Sqlite => AnyConnection::Sqlite(Driver::new(raw)),
        }
    }
}

impl<S: Server, H: Instrumentation + Drop> SimpleConnection for AnyConnection<S, H> {
    ghost use Rattle.conn_drivers.specs.Raws.{raw_of, shows};

    ghost is_honest = { S.is_honest };

    ghost view = { λ c. shows S.seen H.told (raw_of c) };

    fn batch_execute(&mut self, query: &str) -> QueryResult<()> {
        match self {
            AnyConnection::Pg(c) => c.batch_execute(query),
            AnyConnection::Mysql(c) => c.batch_execute(query),
            AnyConnection::Sqlite(c) => c.batch_execute(query),
        }
    }

    ghost honesty = { λ e c. S.honesty e (raw_of c).wire.server };
}

impl<S: Server, H: Instrumentation + Drop> Connection for AnyConnection<S, H> {
    type Handler = H;

    fn status(&self) -> &TransactionManagerStatus {
        match self {
            AnyConnection::Pg(c) => c.status(),
            AnyConnection::Mysql(c) => c.status(),
            AnyConnection::Sqlite(c) => c.status(),
        }
    }

    fn set_status(&mut self, status: TransactionManagerStatus) {
        match self {
            AnyConnection::Pg(c) => c.set_status(status),
            AnyConnection::Mysql(c) => c.set_status(status),
            AnyConnection::Sqlite(c) => c.set_status(status),
        }
    }

    fn event(&mut self, event: InstrumentationEvent<'_>) {
        match self {
            AnyConnection::Pg(c) => c.event(event),
            AnyConnection::Mysql(c) => c.event(event),
            AnyConnection::Sqlite(c) => c.event(event),
        }
    }

    fn set_instrumentation(&mut self, instrumentation: H) {
        match self {
            AnyConnection::Pg(c) => c.set_instrumentation(instrumentation),
            AnyConnection::Mysql(c) => c.set_instrumentation(instrumentation),
            AnyConnection::Sqlite(c) => c.set_instrumentation(instrumentation),
        }
    }

    fn reserve(&mut self, items: usize, bytes: usize) -> QueryResult<()> {
        match self {
            AnyConnection::Pg(c) => c.reserve(items, bytes),
            AnyConnection::Mysql(c) => c.reserve(items, bytes),
            AnyConnection::Sqlite(c) => c.reserve(items, bytes),
        }
    }

    fn send(&mut self, query: &str) -> QueryResult<()> {
        match self {
            AnyConnection::Pg(c) => c.send(query),
            AnyConnection::Mysql(c) => c.send(query),
            AnyConnection::Sqlite(c) => c.send(query),
        }
    }

    fn sent(&self) -> u64 {
        match self {
            AnyConnection::Pg(c) => c.sent(),
            AnyConnection::Mysql(c) => c.sent(),
            AnyConnection::Sqlite(c) => c.sent(),
        }
    }

    fn number(&self) -> u32 {
        match self {
            AnyConnection::Pg(c) => c.number(),
            AnyConnection::Mysql(c) => c.number(),
            AnyConnection::Sqlite(c) => c.number(),
        }
    }
}

impl<S: Server, H: Instrumentation + Drop> CachingConnection for AnyConnection<S, H> {
    fn execute_returning_count<Q: Query>(&mut self, source: &Q) -> QueryResult<usize> {
        match self {
            AnyConnection::Pg(c) => c.execute_returning_count(source),
            AnyConnection::Mysql(c) => c.execute_returning_count(source),
            AnyConnection::Sqlite(c) => c.execute_returning_count(source),
        }
    }

    fn set_prepared_statement_cache_size(&mut self, size: CacheSize) {
        match self {
            AnyConnection::Pg(c) => c.set_prepared_statement_cache_size(size),
            AnyConnection::Mysql(c) => c.set_prepared_statement_cache_size(size),
            AnyConnection::Sqlite(c) => c.set_prepared_statement_cache_size(size),
        }
    }
}

impl<S: Server, H: Instrumentation + Drop> LoadConnection for AnyConnection<S, H> {
    fn load_list_by<Q: Query, R: RowReader>(
        &mut self,
        alloc: Global,
        source: &Q,
        reader: &R,
        row_by_row: bool,
    ) -> QueryResult<Vec<R::Value>> {
        match self {
            AnyConnection::Pg(c) => c.load_list_by(alloc, source, reader, row_by_row),
            AnyConnection::Mysql(c) => c.load_list_by(alloc, source, reader, row_by_row),
            AnyConnection::Sqlite(c) => c.load_list_by(alloc, source, reader, row_by_row),
        }
    }

    fn get_result_by<Q: Query, R: RowReader>(
        &mut self,
        alloc: Global,
        source: &Q,
        reader: &R,
    ) -> QueryResult<R::Value> {
        match self {
            AnyConnection::Pg(c) => c.get_result_by(alloc, source, reader),
            AnyConnection::Mysql(c) => c.get_result_by(alloc, source, reader),
            AnyConnection::Sqlite(c) => c.get_result_by(alloc, source, reader),
        }
    }
}

impl<S: Server, H: Instrumentation + Drop> R2D2Connection for AnyConnection<S, H> {}

impl<S: Server, H: Instrumentation + Drop> Establish for AnyConnection<S, H> {
    ghost use Rattle.std.specs.Prelude.{refl, true};

    type S = S;

    ghost takes = { λ d. true };

    fn establish<K: Connector<S = S>>(
        alloc: Global,
        connector: &mut K,
        dialect: Dialect,
        database_url: &str,
        handler: H,
    ) -> ConnectionResult<Self> {
        let raw = RawConnection::establish(alloc, connector, dialect, database_url, handler)?;
        Ok(AnyConnection::of(dialect, raw))
    }

    fn into_server(self) -> S {
        match self {
            AnyConnection::Pg(c) => c.into_server(),
            AnyConnection::Mysql(c) => c.into_server(),
            AnyConnection::Sqlite(c) => c.into_server(),
        }
    }

    fn close<K: Connector<S = S>>(self, connector: &mut K) {
        connector.take_back(self.into_server())
    }

    ghost same_honesty = { refl };
}

impl<S: Server, H: Instrumentation + Drop> MultiConnection for AnyConnection<S, H> {
    ghost use Rattle.std.specs.Prelude.{refl};

    ghost takes_each = { λ d. refl };
}
