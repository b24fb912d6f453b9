//! A connection over any server: what the three have in common, once.
ghost use Rattle.std.specs.Prelude.{◌≡◌};
ghost use Rattle.std.specs.Prelude.{◌+◌, length, IfErr};
ghost use Rattle.conn_result.specs.declared.error.Error.TheVariants.{OutOfMemory};
ghost use Rattle.conn_model.specs.Served.{Reserves};
ghost use Rattle.conn_model.specs.Statements.{run_bytes};
ghost use Rattle.conn_drivers.specs.Standing.{AreHeld, held_prop};

use crate::faults::query_fault;
use crate::gather::{FirstOf, Gather, ListOf};
use crate::opening::open_telling;
use crate::room::query_bytes;
use crate::rows::RowsReply;
use crate::{CachingConnection, LoadConnection, Statement, Wire};
use conn_cache::{CacheSize, Query, StatementCache};
use conn_manager::{
    Connection, Instrumentation, InstrumentationEvent, SimpleConnection, StrQueryHelper,
    TransactionManagerStatus,
};
use conn_model::{Dialect, Notification};
use conn_result::{ConnectionResult, Error, QueryResult};
use conn_rows::RowReader;
use conn_server::{Connector, Server};
use std::alloc::Global;

/// A wire, the handler that is told of what happens on it, and the cache of its statements.
#[derive(Drop)]
pub struct RawConnection<S: Server, H> {
    pub wire: Wire<S>,
    pub handler: H,
    pub cache: StatementCache<Statement>,
    /// Each kept statement is open on the server, with its entry's text.
    pub ghost held: { AreHeld (S.seen wire.server).open_statements cache } by { held_prop (S.seen wire.server).open_statements cache },
}

impl<S: Server, H: Instrumentation + Drop> RawConnection<S, H> {
    ghost use Rattle.conn_model.specs.Caches.{nothing_known};
    ghost use Rattle.conn_cache.specs.QueryProcesses.{without_value};
    ghost use Rattle.conn_manager.specs.Manages.{HasServerCause};
    ghost use Rattle.conn_model.specs.Rows.{Notifies};
    ghost use Rattle.conn_drivers.specs.Establishing.{Establishes};
    ghost use Rattle.conn_drivers.specs.Loading.{AsksBy};
    ghost use Rattle.conn_drivers.specs.Loadings.{LoadsBetween, LoadsBy};
    ghost use Rattle.conn_drivers.specs.Queried.{known_of, QueriesBetween};
    ghost use Rattle.conn_drivers.specs.Raws.{shows};

    /// A connection over this wire, which keeps no statement yet.
    pub fn new(alloc: Global, wire: Wire<S>, handler: H) -> RawConnection<S, H>
        ensures wire { result.wire ≡ wire }
        ensures handler { result.handler ≡ handler }
        ensures cache { known_of result.cache ≡ nothing_known }
    {
        RawConnection {
            wire,
            handler,
            cache: StatementCache::new(alloc),
        }
    }

    /// Opens a connection, as `Establish::establish` says.
    pub(crate) fn establish<K: Connector<S = S>>(
        alloc: Global,
        connector: &mut K,
        dialect: Dialect,
        database_url: &str,
        handler: H,
    ) -> ConnectionResult<RawConnection<S, H>>
        ensures { Establishes K.is_honest S.is_honest dialect database_url.now
            (K.held connector.old) (shows S.seen H.told) (H.told handler)
            (K.held connector.new) result }
    {
        let mut handler = handler;
        let wire = open_telling(alloc, connector, dialect, database_url, &mut handler)?;
        Ok(RawConnection::new(alloc, wire, handler))
    }

    /// Takes the room that a query may need: for a prepare, a run, and a row that is refused.
    pub(crate) fn reserve_for<Q: Query>(&mut self, source: &Q) -> QueryResult<()>
        ensures reserved { let q = Q.view source.now in Reserves 3
            (length q.sql + run_bytes q.sql q.binds)
            (S.seen self.old.wire.server) (S.seen self.new.wire.server) result }
        ensures err { IfErr result (λ e. e ≡ OutOfMemory) }
        ensures status { self.new.wire.status ≡ self.old.wire.status }
        ensures handler { self.new.handler ≡ self.old.handler }
        ensures cache { self.new.cache ≡ self.old.cache }
    {
        match query_bytes(source) {
            Some(bytes) => Ok(self.wire.server.reserve(3, bytes)?),
            None => Err(Error::OutOfMemory),
        }
    }

    /// What a query does between its two events.
    fn query<Q: Query>(&mut self, source: &Q) -> QueryResult<usize>
        ensures queries { QueriesBetween S.is_honest (Q.view source.now)
            (shows S.seen H.told self.old) (shows S.seen H.told self.new) result }
        ensures cause { HasServerCause (S.seen self.old.wire.server)
            (S.seen self.new.wire.server) (without_value result) }
    {
        self.reserve_for(source)?;
        match query_fault(self.wire.server.dialect(), source) {
            Some(e) => Err(e),
            None => self.wire.query(&mut self.cache, source, &mut self.handler),
        }
    }

    /// Takes the notification that waits longest, where one does.
    pub(crate) fn notify(&mut self) -> Option<Notification>
        ensures takes { Notifies (S.seen self.old.wire.server) (S.seen self.new.wire.server)
            result }
        ensures same { (shows S.seen H.told self.new) ≡ record (shows S.seen H.told self.old)
            { seen = S.seen self.new.wire.server } }
    {
        self.wire.server.notify()
    }

    /// What a load does between its two events.
    fn load<Q: Query, G: Gather>(
        &mut self,
        alloc: Global,
        source: &Q,
        gather: &G,
    ) -> RowsReply<G::Value>
        ensures loads { LoadsBetween S.is_honest (Q.view source.now) (G.makes gather.now)
            (shows S.seen H.told self.old) (shows S.seen H.told self.new) result.error
            result.reply }
        ensures cause { HasServerCause (S.seen self.old.wire.server)
            (S.seen self.new.wire.server) (without_value result.reply) }
        ensures asks { let old = S.seen self.old.wire.server in
            AsksBy (G.asks_all gather.now old.dialect) old (S.seen self.new.wire.server)
            result.reply }
    {
        match self.reserve_for(source) {
            Ok(()) => {}
            Err(e) => return RowsReply::refused(e),
        }
        match query_fault(self.wire.server.dialect(), source) {
            Some(e) => RowsReply::refused(e),
            None => self
                .wire
                .load(&mut self.cache, source, &mut self.handler, alloc, gather),
        }
    }

    /// Loads a query, and tells its handler of its start and of its end.
    pub(crate) fn load_by<Q: Query, G: Gather>(
        &mut self,
        alloc: Global,
        source: &Q,
        gather: &G,
    ) -> QueryResult<G::Value>
        ensures loads { LoadsBy S.is_honest (Q.view source.now) (G.makes gather.now)
            (shows S.seen H.told self.old) (shows S.seen H.told self.new) result }
        ensures cause { HasServerCause (S.seen self.old.wire.server)
            (S.seen self.new.wire.server) (without_value result) }
        ensures asks { let old = S.seen self.old.wire.server in
            AsksBy (G.asks_all gather.now old.dialect) old (S.seen self.new.wire.server)
            result }
    {
        let query = StrQueryHelper::new(source.sql());
        self.handler
            .on_connection_event(InstrumentationEvent::StartQuery { query });
        let loaded = self.load(alloc, source, gather);
        let told = loaded.error.as_ref();
        self.handler
            .on_connection_event(InstrumentationEvent::FinishQuery { query, error: told });
        loaded.reply
    }
}

impl<S: Server, H: Instrumentation + Drop> SimpleConnection for RawConnection<S, H> {
    ghost use Rattle.conn_drivers.specs.Raws.{shows};

    ghost is_honest = { S.is_honest };

    ghost view = { λ c. shows S.seen H.told c };

    fn batch_execute(&mut self, query: &str) -> QueryResult<()> {
        self.reserve(1, query.len())?;
        self.send(query)
    }

    ghost honesty = { λ e c. S.honesty e c.wire.server };
}

impl<S: Server, H: Instrumentation + Drop> Connection for RawConnection<S, H> {
    type Handler = H;

    fn status(&self) -> &TransactionManagerStatus {
        &self.wire.status
    }

    fn set_status(&mut self, status: TransactionManagerStatus) {
        self.wire.status = status;
    }

    fn event(&mut self, event: InstrumentationEvent<'_>) {
        self.handler.on_connection_event(event)
    }

    fn set_instrumentation(&mut self, instrumentation: H) {
        self.handler = instrumentation;
    }

    fn reserve(&mut self, items: usize, bytes: usize) -> QueryResult<()> {
        Ok(self.wire.server.reserve(items, bytes)?)
    }

    fn send(&mut self, query: &str) -> QueryResult<()> {
        let shown = StrQueryHelper::new(query);
        self.event(InstrumentationEvent::StartQuery { query: shown });
        let reply = self.wire.try_exec(query);
        let error = reply.as_ref().err();
        self.event(InstrumentationEvent::FinishQuery {
            query: shown,
            error,
        });
        reply
    }

    fn sent(&self) -> u64 {
        self.wire.server.sent()
    }

    fn number(&self) -> u32 {
        self.wire.server.number()
    }
}

impl<S: Server, H: Instrumentation + Drop> CachingConnection for RawConnection<S, H> {
    fn execute_returning_count<Q: Query>(&mut self, source: &Q) -> QueryResult<usize> {
        let query = StrQueryHelper::new(source.sql());
        self.handler
            .on_connection_event(InstrumentationEvent::StartQuery { query });
        let reply = self.query(source);
        let error = reply.as_ref().err();
        self.handler
            .on_connection_event(InstrumentationEvent::FinishQuery { query, error });
        reply
    }

    fn set_prepared_statement_cache_size(&mut self, size: CacheSize) {
        self.cache.set_cache_size(size, &mut self.wire);
    }
}

impl<S: Server, H: Instrumentation + Drop> LoadConnection for RawConnection<S, H> {
    fn load_list_by<Q: Query, R: RowReader>(
        &mut self,
        alloc: Global,
        source: &Q,
        reader: &R,
        row_by_row: bool,
    ) -> QueryResult<Vec<R::Value>> {
        self.load_by(alloc, source, &ListOf { reader, row_by_row })
    }

    fn get_result_by<Q: Query, R: RowReader>(
        &mut self,
        alloc: Global,
        source: &Q,
        reader: &R,
    ) -> QueryResult<R::Value> {
        self.load_by(alloc, source, &FirstOf { reader })
    }
}
