//! The three connections, each over the one that they have in common.
use crate::{
    CachingConnection, Establish, Kind, LoadConnection, Mysql, Pg, R2D2Connection, RawConnection,
    Sqlite,
};
use conn_cache::{CacheSize, Query};
use conn_manager::{
    Connection, DynInstrumentation, Instrumentation, InstrumentationEvent, SimpleConnection,
    TransactionManagerStatus,
};
use conn_model::Dialect;
use conn_result::{ConnectionResult, QueryResult};
use conn_rows::RowReader;
use conn_server::{Connector, Server};
use std::alloc::Global;
use std::marker::PhantomData;

/// A connection to a server of one kind.
#[derive(Drop)]
pub struct Driver<S: Server, D, H = DynInstrumentation> {
    pub raw: RawConnection<S, H>,
    pub kind: PhantomData<D>,
}

/// A connection to PostgreSQL.
pub type PgConnection<S, H = DynInstrumentation> = Driver<S, Pg, H>;

/// A connection to MySQL.
pub type MysqlConnection<S, H = DynInstrumentation> = Driver<S, Mysql, H>;

/// A connection to SQLite.
pub type SqliteConnection<S, H = DynInstrumentation> = Driver<S, Sqlite, H>;

impl<S: Server, D: Kind, H: Instrumentation + Drop> Driver<S, D, H> {
    ghost use Rattle.std.specs.Prelude.{◌≡◌};

    /// The connection over this one.
    pub(crate) fn new(raw: RawConnection<S, H>) -> Driver<S, D, H>
        ensures { result.raw ≡ raw }
    {
        Driver {
            raw,
            kind: PhantomData,
        }
    }
}

impl<S: Server, D: Kind, H: Instrumentation + Drop> SimpleConnection for Driver<S, D, H> {
    ghost use Rattle.conn_drivers.specs.Raws.{shows};

    ghost is_honest = { S.is_honest };

    ghost view = { λ c. shows S.seen H.told c.raw };

    fn batch_execute(&mut self, query: &str) -> QueryResult<()> {
        self.raw.batch_execute(query)
    }

    ghost honesty = { λ e c. S.honesty e c.raw.wire.server };
}

impl<S: Server, D: Kind, H: Instrumentation + Drop> Connection for Driver<S, D, H> {
    type Handler = H;

    fn status(&self) -> &TransactionManagerStatus {
        self.raw.status()
    }

    fn set_status(&mut self, status: TransactionManagerStatus) {
        self.raw.set_status(status)
    }

    fn event(&mut self, event: InstrumentationEvent<'_>) {
        self.raw.event(event)
    }

    fn set_instrumentation(&mut self, instrumentation: H) {
        self.raw.set_instrumentation(instrumentation)
    }

    fn reserve(&mut self, items: usize, bytes: usize) -> QueryResult<()> {
        self.raw.reserve(items, bytes)
    }

    fn send(&mut self, query: &str) -> QueryResult<()> {
        self.raw.send(query)
    }

    fn sent(&self) -> u64 {
        self.raw.sent()
    }

    fn number(&self) -> u32 {
        self.raw.number()
    }
}

impl<S: Server, D: Kind, H: Instrumentation + Drop> CachingConnection for Driver<S, D, H> {
    fn execute_returning_count<Q: Query>(&mut self, source: &Q) -> QueryResult<usize> {
        self.raw.execute_returning_count(source)
    }

    fn set_prepared_statement_cache_size(&mut self, size: CacheSize) {
        self.raw.set_prepared_statement_cache_size(size)
    }
}

impl<S: Server, D: Kind, H: Instrumentation + Drop> LoadConnection for Driver<S, D, H> {
    fn load_list_by<Q: Query, R: RowReader>(
        &mut self,
        alloc: Global,
        source: &Q,
        reader: &R,
        row_by_row: bool,
    ) -> QueryResult<Vec<R::Value>> {
        self.raw.load_list_by(alloc, source, reader, row_by_row)
    }

    fn get_result_by<Q: Query, R: RowReader>(
        &mut self,
        alloc: Global,
        source: &Q,
        reader: &R,
    ) -> QueryResult<R::Value> {
        self.raw.get_result_by(alloc, source, reader)
    }
}

impl<S: Server, D: Kind, H: Instrumentation + Drop> R2D2Connection for Driver<S, D, H> {}

impl<S: Server, D: Kind, H: Instrumentation + Drop> Establish for Driver<S, D, H> {
    ghost use Rattle.std.specs.Prelude.{refl};
    ghost use Rattle.conn_model.specs.Dialects.{is_dialect};

    type S = S;

    ghost takes = { is_dialect D.dialect };

    fn establish<K: Connector<S = S>>(
        alloc: Global,
        connector: &mut K,
        dialect: Dialect,
        database_url: &str,
        handler: H,
    ) -> ConnectionResult<Self> {
        let raw = RawConnection::establish(alloc, connector, dialect, database_url, handler)?;
        Ok(Driver::new(raw))
    }

    fn into_server(self) -> S {
        self.raw.wire.server
    }

    fn close<K: Connector<S = S>>(self, connector: &mut K) {
        connector.take_back(self.raw.wire.server)
    }

    ghost same_honesty = { refl };
}
