//! How a connection begins a load whose rows are asked later, and ends it.
ghost use Rattle.std.specs.Prelude.{◌≡◌, IfOk, MatchResult};
ghost use Rattle.conn_cache.specs.QueryProcesses.{without_value};
ghost use Rattle.conn_manager.specs.Manages.{HasServerCause};
ghost use Rattle.conn_drivers.specs.Cursors.{AreHeldAfter, Begins, EndsEarly, FinishesBy, SkipsLeft, StartsBetween, error_at_end, cursor_end};
ghost use Rattle.conn_drivers.specs.Loading.{BeginsIf, TakesRow, seen_shut, shut_by};
ghost use Rattle.conn_drivers.specs.Raws.{shows};
ghost use Rattle.conn_drivers.specs.Standing.{AreHeld};

use crate::RawConnection;
use crate::faults::query_fault;
use crate::progress::Progress;
use crate::rows::row_error;
use conn_cache::Query;
use conn_manager::{Instrumentation, InstrumentationEvent, StrQueryHelper};
use conn_model::Row;
use conn_result::{Error, QueryResult};
use conn_server::Server;
use std::alloc::Global;

/// The error that the handler is told of: that of the rows that were left, or of those before.
fn error_at_end(progress: Progress, skipped: QueryResult<()>) -> Option<Error>
    ensures { result ≡ error_at_end progress skipped }
{
    match skipped {
        Ok(()) => progress.refusal(),
        Err(e) => row_error(e),
    }
}

impl<S: Server, H: Instrumentation + Drop> RawConnection<S, H> {
    /// What a load does between its first event and its rows, and which statement is to be closed after them, where it isn't kept.
    fn start<Q: Query>(&mut self, source: &Q) -> QueryResult<Option<u64>>
        ensures starts { StartsBetween S.is_honest (Q.view source.now)
            (shows S.seen H.told self.old) (shows S.seen H.told self.new) result }
        ensures cause { HasServerCause (S.seen self.old.wire.server)
            (S.seen self.new.wire.server) (without_value result) }
        ensures dialect { (S.seen self.new.wire.server).dialect
            ≡ (S.seen self.old.wire.server).dialect }
        ensures held { AreHeld (shut_by (S.seen self.new.wire.server).open_statements result)
            self.new.cache }
        ensures begins { BeginsIf S.is_honest (Q.view source.now).sql
            (S.seen self.old.wire.server) (S.seen self.new.wire.server) result }
    {
        match self.reserve_for(source) {
            Ok(()) => {}
            Err(e) => return Err(e),
        }
        match query_fault(self.wire.server.dialect(), source) {
            Some(e) => Err(e),
            None => self.wire.start(&mut self.cache, source, &mut self.handler),
        }
    }

    /// Begins a load: which statement is to be closed after its rows. Where it is over with an error, its end is told too.
    pub(crate) fn begin<Q: Query>(&mut self, source: &Q) -> QueryResult<Option<u64>>
        ensures begins { let old = shows S.seen H.told self.old in
            let new = shows S.seen H.told self.new in
            MatchResult result (λ _. Begins S.is_honest (Q.view source.now) old new)
            (EndsEarly S.is_honest (Q.view source.now) old new) }
        ensures held { IfOk result (λ statement.
            AreHeldAfter statement (S.seen self.new.wire.server) self.new.cache) }
    {
        let query = StrQueryHelper::new(source.sql());
        self.handler
            .on_connection_event(InstrumentationEvent::StartQuery { query });
        match self.start(source) {
            Ok(statement) => Ok(statement),
            Err(e) => {
                let error = Some(&e);
                self.handler
                    .on_connection_event(InstrumentationEvent::FinishQuery { query, error });
                Err(e)
            }
        }
    }

    /// The next row of the last run, as its wire answers it.
    pub(crate) fn next_row(&mut self, alloc: Global) -> QueryResult<Option<Row>>
        ensures takes { TakesRow (S.seen self.old.wire.server) (S.seen self.new.wire.server)
            self.old.wire.status self.new.wire.status result }
        ensures handler { self.new.handler ≡ self.old.handler }
        ensures cache { self.new.cache ≡ self.old.cache }
    {
        self.wire.next_row(alloc)
    }

    /// Asks the rows that are left, where some may be, and holds none.
    fn skip_left(&mut self, alloc: Global, progress: Progress) -> QueryResult<()>
        ensures skips { SkipsLeft progress (shows S.seen H.told self.old)
            (shows S.seen H.told self.new) result }
        ensures open { (S.seen self.new.wire.server).open_statements
            ≡ (S.seen self.old.wire.server).open_statements }
        ensures cache { self.new.cache ≡ self.old.cache }
    {
        match progress {
            Progress::Going => self.wire.skip_rows(alloc),
            Progress::Ended | Progress::Refused(_) => Ok(()),
        }
    }

    /// Closes the statement of a load that isn't kept, and tells of its end.
    pub(crate) fn finish(&mut self, sql: &str, statement: Option<u64>, error: Option<Error>)
        requires held { AreHeldAfter statement (S.seen self.old.wire.server) self.old.cache }
        ensures view { shows S.seen H.told self.new
            ≡ cursor_end statement sql.now error (shows S.seen H.told self.old) }
        ensures cache { self.new.cache ≡ self.old.cache }
    {
        self.wire.end(statement);
        let query = StrQueryHelper::new(sql);
        let error = error.as_ref();
        self.handler
            .on_connection_event(InstrumentationEvent::FinishQuery { query, error });
    }

    /// So it does after the rows that are left were asked; that one was refused is told and answered, want of memory answered alone.
    pub(crate) fn finish_all(
        &mut self,
        alloc: Global,
        sql: &str,
        statement: Option<u64>,
        progress: Progress,
    ) -> QueryResult<()>
        requires held { AreHeldAfter statement (S.seen self.old.wire.server) self.old.cache }
        ensures finishes { FinishesBy progress statement sql.now (shows S.seen H.told self.old)
            (shows S.seen H.told self.new) result }
        ensures cache { self.new.cache ≡ self.old.cache }
        ensures open { (S.seen self.new.wire.server).open_statements
            ≡ (seen_shut statement (S.seen self.old.wire.server)).open_statements }
    {
        let skipped = self.skip_left(alloc, progress);
        self.finish(sql, statement, error_at_end(progress, skipped));
        skipped
    }
}
