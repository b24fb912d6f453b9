//! Connections that execute queries through a cache of statements.
ghost use Rattle.conn_cache.specs.QueryProcesses.{execute_process, without_value};
ghost use Rattle.conn_manager.specs.Manages.{HasServerCause};
ghost use Rattle.conn_drivers.specs.Queried.{QueriesFrom, SetsCacheSize};

use conn_cache::{CacheSize, Query};
use conn_manager::Connection;
use conn_result::QueryResult;

/// A connection that keeps the statements of its queries.
pub trait CachingConnection: Connection {
    /// Executes a query, and answers how many rows it affected. The handler is told of its start first and of its end last, with
    /// the error where one came. Refused without being sent are, in this order: a query for which memory is wanting, one
    /// without changes, one with a bind that doesn't fit, with a NUL, and on SQLite a text of blanks.
    fn execute_returning_count<Q: Query>(&mut self, source: &Q) -> QueryResult<usize>
        ensures queries { QueriesFrom Self.is_honest (Q.view source.now)
            (λ d. execute_process d (Q.view source.now)) (Self.view self.old)
            (Self.view self.new) result }
        ensures cause { HasServerCause (Self.view self.old).seen (Self.view self.new).seen
            (without_value result) };

    /// Keeps so many statements from now on. Another size closes those that are kept.
    fn set_prepared_statement_cache_size(&mut self, size: CacheSize)
        ensures { SetsCacheSize size (Self.view self.old) (Self.view self.new) };
}

/// Executes a query, and answers how many rows it affected.
pub fn execute<C: CachingConnection, Q: Query>(conn: &mut C, query: &Q) -> QueryResult<usize>
    ensures queries { QueriesFrom C.is_honest (Q.view query.now)
        (λ d. execute_process d (Q.view query.now)) (C.view conn.old)
        (C.view conn.new) result }
    ensures cause { HasServerCause (C.view conn.old).seen (C.view conn.new).seen
        (without_value result) }
{
    conn.execute_returning_count(query)
}
