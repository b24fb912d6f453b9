//! How a wire executes queries through the cache of statements.
ghost use Rattle.std.specs.Prelude.{◌≡◌, ◌≤◌, ◌+◌, length, Some};
ghost use Rattle.conn_cache.specs.QueryProcesses.{affected_count, types_for, without_value};
ghost use Rattle.conn_manager.specs.Manages.{HasServerCause};
ghost use Rattle.conn_model.specs.Statements.{run_bytes, source_text};
ghost use Rattle.conn_model.specs.declared.item.Call.TheVariants.{Run};
ghost use Rattle.conn_model.specs.declared.reply.RunSource.TheVariants.{Prepared};
ghost use Rattle.conn_drivers.specs.Loading.{BeginsIf};
ghost use Rattle.conn_drivers.specs.Queried.{CanRun, KeepsNone, Queries, Readies, RunsOut, Spends, counted_by, shut_in};
ghost use Rattle.conn_drivers.specs.Standing.{AreHeld, HasLogRoom, stands_in};
ghost use Rattle.conn_drivers.specs.Wires.{HearsBy};
ghost use Rattle.conn_cache.specs.Soundness.{IsOwnAnswer};
ghost use Rattle.std.specs.Prelude.{false};

use crate::{Statement, Wire};
use conn_cache::{MaybeCached, Query, StatementCache};
use conn_manager::Instrumentation;
use conn_model::{BindType, Dialect, RunSource};
use conn_result::{Error, QueryResult};
use conn_server::Server;

/// The types by which a query is looked up: MySQL and SQLite know a statement by its text alone.
fn types_for<'a, Q: Query>(dialect: Dialect, source: &'a Q) -> &'a [BindType]
    ensures { result.now ≡ types_for dialect (Q.view source.now) }
{
    match dialect {
        Dialect::Pg => source.bind_types(),
        Dialect::Mysql | Dialect::Sqlite => &[],
    }
}

/// The affected rows as an answer.
fn counted_by(affected: QueryResult<u64>) -> QueryResult<usize>
    ensures { result ≡ counted_by affected }
{
    match affected {
        Ok(affected) => affected_count(affected),
        Err(e) => Err(e),
    }
}

fn affected_count(affected: u64) -> QueryResult<usize>
    ensures { result ≡ affected_count affected }
{
    match usize::try_from(affected) {
        Ok(count) => Ok(count),
        Err(_) => Err(Error::IntegerConversion),
    }
}

impl<S: Server> Wire<S> {
    /// Looks a query up: its statement is there then, or it is over.
    pub(crate) fn ready<Q: Query, I: Instrumentation>(
        &mut self,
        cache: &mut StatementCache<Statement>,
        source: &Q,
        handler: &mut I,
    ) -> QueryResult<MaybeCached<Statement>>
        requires room { HasLogRoom 1 (length (Q.view source.now).sql) (S.seen self.old.server) }
        requires held { AreHeld (S.seen self.old.server).open_statements cache.old }
        ensures readies { Readies S.is_honest (Q.view source.now) (λ w. S.seen w.server)
            (λ w. w.status) I.told self.old self.new cache.old cache.new handler.old handler.new
            result }
        ensures cause { HasServerCause (S.seen self.old.server) (S.seen self.new.server)
            (without_value result) }
        ensures spends { Spends 1 (length (Q.view source.now).sql)
            (S.seen self.old.server) (S.seen self.new.server) }
        ensures held { AreHeld (S.seen self.new.server).open_statements cache.new }
        ensures own { IsOwnAnswer (stands_in (S.seen self.new.server).open_statements) false
            (Q.view source.now).sql cache.new.statements result }
        ensures none { KeepsNone (S.seen self.old.server).dialect (Q.view source.now).sql
            (S.seen self.old.server).open_statements (S.seen self.new.server).open_statements
            cache.old cache.new result }
    {
        let types = types_for(self.server.dialect(), source);
        cache.cached_statement(source, types, self, handler)
    }

    /// Runs a query by a statement of its text, or by its text, and answers how many rows it affected.
    pub(crate) fn run_query<Q: Query>(&mut self, by: RunSource<'_>, source: &Q) -> QueryResult<u64>
        requires opened { source_text (S.seen self.old.server).open_statements by
            ≡ Some (Q.view source.now).sql }
        requires room { HasLogRoom 2 (run_bytes (Q.view source.now).sql (Q.view source.now).binds)
            (S.seen self.old.server) }
        ensures runs { RunsOut S.is_honest (Q.view source.now) (S.seen self.old.server)
            (S.seen self.new.server) self.old.status self.new.status result }
        ensures cause { HasServerCause (S.seen self.old.server) (S.seen self.new.server)
            (without_value result) }
        ensures open { (S.seen self.new.server).open_statements
            ≡ (S.seen self.old.server).open_statements }
        ensures dialect { (S.seen self.new.server).dialect ≡ (S.seen self.old.server).dialect }
        ensures begins { BeginsIf S.is_honest (Q.view source.now).sql (S.seen self.old.server)
            (S.seen self.new.server) result }
    {
        self.run_with(by, source.binds())
    }

    /// Runs a query whose statement isn't kept: PostgreSQL runs its text, the others its statement, which is closed then.
    fn run_plain<Q: Query>(&mut self, statement: Statement, source: &Q) -> QueryResult<u64>
        requires opened { CanRun (S.seen self.old.server).dialect
            (S.seen self.old.server).open_statements statement (Q.view source.now).sql }
        requires room { HasLogRoom 2 (run_bytes (Q.view source.now).sql (Q.view source.now).binds)
            (S.seen self.old.server) }
        ensures runs { RunsOut S.is_honest (Q.view source.now) (S.seen self.old.server)
            (S.seen self.new.server) self.old.status self.new.status result }
        ensures cause { HasServerCause (S.seen self.old.server) (S.seen self.new.server)
            (without_value result) }
        ensures open { let old = S.seen self.old.server in (S.seen self.new.server).open_statements
            ≡ shut_in old.dialect old.open_statements statement }
    {
        match self.server.dialect() {
            Dialect::Pg => self.run_query(RunSource::Unnamed(source.sql()), source),
            Dialect::Mysql | Dialect::Sqlite => {
                let reply = self.run_query(RunSource::Prepared(statement.number), source);
                self.server.close_statement(statement.number);
                reply
            }
        }
    }

    /// Executes a query that has no fault and for which there is room, and answers how many rows it affected.
    pub(crate) fn query<Q: Query, I: Instrumentation>(
        &mut self,
        cache: &mut StatementCache<Statement>,
        source: &Q,
        handler: &mut I,
    ) -> QueryResult<usize>
        requires room { let q = Q.view source.now in HasLogRoom 3
            (length q.sql + run_bytes q.sql q.binds) (S.seen self.old.server) }
        requires held { AreHeld (S.seen self.old.server).open_statements cache.old }
        ensures queries { Queries S.is_honest (Q.view source.now) (λ w. S.seen w.server)
            (λ w. w.status) I.told self.old self.new cache.old cache.new handler.old handler.new
            result }
        ensures cause { HasServerCause (S.seen self.old.server) (S.seen self.new.server)
            (without_value result) }
        ensures held { AreHeld (S.seen self.new.server).open_statements cache.new }
    {
        match self.ready(cache, source, handler) {
            Ok(MaybeCached::Cached(place)) => match cache.statement(place) {
                Some(statement) => {
                    counted_by(self.run_query(RunSource::Prepared(statement.number), source))
                }
                None => unreachable!(),
            },
            Ok(MaybeCached::CannotCache(statement)) => {
                counted_by(self.run_plain(statement, source))
            }
            Err(e) => Err(e),
        }
    }
}
