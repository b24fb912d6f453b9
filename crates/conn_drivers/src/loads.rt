//! How wires load queries through the cache of statements.
ghost use Rattle.std.specs.Prelude.{◌≡◌, ◌≤◌, ◌+◌, length, Some};
ghost use Rattle.conn_cache.specs.QueryProcesses.{lacks_metadata, without_value};
ghost use Rattle.conn_manager.specs.Manages.{HasServerCause};
ghost use Rattle.conn_model.specs.Statements.{run_bytes, source_text};
ghost use Rattle.conn_drivers.specs.Loading.{AsksBy, BeginsIf, LoadsOn, RunsRows, Starts, seen_shut, shut_by};
ghost use Rattle.conn_drivers.specs.Queried.{CanRun, shut_in};
ghost use Rattle.conn_drivers.specs.Standing.{AreHeld, HasLogRoom};
ghost use Rattle.std.specs.Prelude.{true};

use crate::gather::Gather;
use crate::rows::RowsReply;
use crate::{Statement, Wire};
use conn_cache::{MaybeCached, Query, StatementCache};
use conn_manager::Instrumentation;
use conn_model::{Dialect, RunSource};
use conn_result::{Error, QueryResult, RowFault};
use conn_server::Server;
use std::alloc::Global;

/// MySQL tells no columns of a statement without rows, and none can be loaded.
fn lacks_metadata(dialect: Dialect, columns: u32) -> bool
    ensures { result ≡ lacks_metadata true dialect columns }
{
    match dialect {
        Dialect::Mysql => columns == 0,
        Dialect::Pg | Dialect::Sqlite => false,
    }
}

impl<S: Server> Wire<S> {
    /// Runs a query by a statement with so many columns, or by its text, and leaves its rows to be asked.
    fn run_for_rows<Q: Query>(
        &mut self,
        by: RunSource<'_>,
        columns: u32,
        source: &Q,
    ) -> QueryResult<()>
        requires opened { source_text (S.seen self.old.server).open_statements by
            ≡ Some (Q.view source.now).sql }
        requires room { HasLogRoom 2 (run_bytes (Q.view source.now).sql (Q.view source.now).binds)
            (S.seen self.old.server) }
        ensures runs { RunsRows S.is_honest (Q.view source.now) columns (S.seen self.old.server)
            (S.seen self.new.server) self.old.status self.new.status result }
        ensures cause { HasServerCause (S.seen self.old.server) (S.seen self.new.server) result }
        ensures open { (S.seen self.new.server).open_statements
            ≡ (S.seen self.old.server).open_statements }
        ensures dialect { (S.seen self.new.server).dialect ≡ (S.seen self.old.server).dialect }
        ensures begins { BeginsIf S.is_honest (Q.view source.now).sql (S.seen self.old.server)
            (S.seen self.new.server) result }
    {
        if lacks_metadata(self.server.dialect(), columns) {
            return Err(Error::DeserializationError(RowFault::NoMetadata));
        }
        match self.run_query(by, source) {
            Ok(_) => Ok(()),
            Err(e) => Err(e),
        }
    }

    /// Runs a query whose statement isn't kept, and answers which statement is to be closed after its rows.
    fn run_plain_for_rows<Q: Query>(
        &mut self,
        statement: Statement,
        source: &Q,
    ) -> QueryResult<Option<u64>>
        requires opened { CanRun (S.seen self.old.server).dialect
            (S.seen self.old.server).open_statements statement (Q.view source.now).sql }
        requires room { HasLogRoom 2 (run_bytes (Q.view source.now).sql (Q.view source.now).binds)
            (S.seen self.old.server) }
        ensures runs { RunsRows S.is_honest (Q.view source.now) statement.columns
            (S.seen self.old.server) (S.seen self.new.server) self.old.status self.new.status
            result }
        ensures cause { HasServerCause (S.seen self.old.server) (S.seen self.new.server)
            (without_value result) }
        ensures shut { let old = S.seen self.old.server in
            shut_by (S.seen self.new.server).open_statements result
            ≡ shut_in old.dialect old.open_statements statement }
        ensures dialect { (S.seen self.new.server).dialect ≡ (S.seen self.old.server).dialect }
        ensures begins { BeginsIf S.is_honest (Q.view source.now).sql (S.seen self.old.server)
            (S.seen self.new.server) result }
    {
        let columns = statement.columns;
        match self.server.dialect() {
            Dialect::Pg => {
                match self.run_for_rows(RunSource::Unnamed(source.sql()), columns, source) {
                    Ok(()) => Ok(None),
                    Err(e) => Err(e),
                }
            }
            Dialect::Mysql | Dialect::Sqlite => {
                let number = statement.number;
                match self.run_for_rows(RunSource::Prepared(number), columns, source) {
                    Ok(()) => Ok(Some(number)),
                    Err(e) => {
                        self.server.close_statement(number);
                        Err(e)
                    }
                }
            }
        }
    }

    /// Looks a query up and runs it, and answers which statement is to be closed after its rows, where it isn't kept.
    pub(crate) fn start<Q: Query, I: Instrumentation>(
        &mut self,
        cache: &mut StatementCache<Statement>,
        source: &Q,
        handler: &mut I,
    ) -> QueryResult<Option<u64>>
        requires room { let q = Q.view source.now in HasLogRoom 3
            (length q.sql + run_bytes q.sql q.binds) (S.seen self.old.server) }
        requires held { AreHeld (S.seen self.old.server).open_statements cache.old }
        ensures starts { Starts S.is_honest (Q.view source.now) (λ w. S.seen w.server)
            (λ w. w.status) I.told self.old self.new cache.old cache.new handler.old handler.new
            result }
        ensures cause { HasServerCause (S.seen self.old.server) (S.seen self.new.server)
            (without_value result) }
        ensures dialect { (S.seen self.new.server).dialect ≡ (S.seen self.old.server).dialect }
        ensures held { AreHeld (shut_by (S.seen self.new.server).open_statements result) cache.new }
        ensures begins { BeginsIf S.is_honest (Q.view source.now).sql (S.seen self.old.server)
            (S.seen self.new.server) result }
    {
        match self.ready(cache, source, handler) {
            Ok(MaybeCached::Cached(place)) => match cache.statement(place) {
                Some(statement) => {
                    let by = RunSource::Prepared(statement.number);
                    match self.run_for_rows(by, statement.columns, source) {
                        Ok(()) => Ok(None),
                        Err(e) => Err(e),
                    }
                }
                None => unreachable!(),
            },
            Ok(MaybeCached::CannotCache(statement)) => self.run_plain_for_rows(statement, source),
            Err(e) => Err(e),
        }
    }

    /// Closes the statement of a load that isn't kept.
    pub(crate) fn end(&mut self, statement: Option<u64>)
        ensures seen { S.seen self.new.server ≡ seen_shut statement (S.seen self.old.server) }
        ensures status { self.new.status ≡ self.old.status }
    {
        if let Some(statement) = statement {
            self.server.close_statement(statement);
        }
    }

    /// Loads a query that has no fault and for which there is room.
    pub(crate) fn load<Q: Query, I: Instrumentation, G: Gather>(
        &mut self,
        cache: &mut StatementCache<Statement>,
        source: &Q,
        handler: &mut I,
        alloc: Global,
        gather: &G,
    ) -> RowsReply<G::Value>
        requires room { let q = Q.view source.now in HasLogRoom 3
            (length q.sql + run_bytes q.sql q.binds) (S.seen self.old.server) }
        requires held { AreHeld (S.seen self.old.server).open_statements cache.old }
        ensures loads { LoadsOn S.is_honest (Q.view source.now) (λ w. S.seen w.server)
            (λ w. w.status) I.told self.old self.new cache.old cache.new handler.old handler.new
            (G.makes gather.now) result.error result.reply }
        ensures cause { HasServerCause (S.seen self.old.server) (S.seen self.new.server)
            (without_value result.reply) }
        ensures asks { let old = S.seen self.old.server in
            AsksBy (G.asks_all gather.now old.dialect) old (S.seen self.new.server)
            result.reply }
        ensures held { AreHeld (S.seen self.new.server).open_statements cache.new }
    {
        match self.start(cache, source, handler) {
            Ok(statement) => {
                let gathered = gather.gather(self, alloc);
                self.end(statement);
                gathered
            }
            Err(e) => RowsReply::refused(e),
        }
    }
}
