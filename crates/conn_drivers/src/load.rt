//! Connections that load rows.
ghost use Rattle.conn_cache.specs.QueryProcesses.{without_value};
ghost use Rattle.conn_manager.specs.Manages.{HasServerCause};
ghost use Rattle.conn_rows.specs.Lists.{first_answer, list_answer};
ghost use Rattle.conn_drivers.specs.Loaded.{listed, AsksAll, AsksFirst, LoadsFrom};

use crate::CachingConnection;
use conn_cache::Query;
use conn_result::QueryResult;
use conn_rows::{FromRow, RowReader, Typed};
use std::alloc::Global;

/// A connection that loads the rows of its queries.
pub trait LoadConnection: CachingConnection {
    /// All rows of a query in order, as the reader takes them. The first error ends it; but on PostgreSQL, which gives every row
    /// whatever the reader says of it, a row that it refuses is answered in place of a fault of an earlier one. Row by row
    /// differs on PostgreSQL alone: no row is held that was read. Before anything is sent it is refused as
    /// `execute_returning_count` is.
    fn load_list_by<Q: Query, R: RowReader>(
        &mut self,
        alloc: Global,
        source: &Q,
        reader: &R,
        row_by_row: bool,
    ) -> QueryResult<Vec<R::Value>>
        ensures loads { LoadsFrom Self.is_honest (Q.view source.now)
            (list_answer (R.reads reader.now)) (Self.view self.old) (Self.view self.new)
            (listed result) }
        ensures cause { HasServerCause (Self.view self.old).seen (Self.view self.new).seen
            (without_value result) }
        ensures asks { AsksAll (Self.view self.new).seen result };

    /// The first row of a query, as the reader takes it, or `NotFound`; likewise. MySQL and SQLite are asked for no further row.
    fn get_result_by<Q: Query, R: RowReader>(
        &mut self,
        alloc: Global,
        source: &Q,
        reader: &R,
    ) -> QueryResult<R::Value>
        ensures loads { LoadsFrom Self.is_honest (Q.view source.now)
            (first_answer (R.reads reader.now)) (Self.view self.old) (Self.view self.new)
            result }
        ensures cause { HasServerCause (Self.view self.old).seen (Self.view self.new).seen
            (without_value result) }
        ensures asks { AsksFirst (Self.view self.old).seen.dialect (Self.view self.old).seen
            (Self.view self.new).seen result };
}

/// All rows of a query in order, in a type.
pub fn load_list<C: LoadConnection, Q: Query, U: FromRow>(
    alloc: Global,
    conn: &mut C,
    query: &Q,
    row_by_row: bool,
) -> QueryResult<Vec<U>>
    ensures loads { LoadsFrom C.is_honest (Q.view query.now) (list_answer U.from_row_gives)
        (C.view conn.old) (C.view conn.new) (listed result) }
    ensures cause { HasServerCause (C.view conn.old).seen (C.view conn.new).seen
        (without_value result) }
    ensures asks { AsksAll (C.view conn.new).seen result }
{
    conn.load_list_by(alloc, query, &Typed::<U>::new(), row_by_row)
}

/// The first row of a query, in a type.
pub fn get_result<C: LoadConnection, Q: Query, U: FromRow>(
    alloc: Global,
    conn: &mut C,
    query: &Q,
) -> QueryResult<U>
    ensures loads { LoadsFrom C.is_honest (Q.view query.now) (first_answer U.from_row_gives)
        (C.view conn.old) (C.view conn.new) result }
    ensures cause { HasServerCause (C.view conn.old).seen (C.view conn.new).seen
        (without_value result) }
    ensures asks { AsksFirst (C.view conn.old).seen.dialect (C.view conn.old).seen
        (C.view conn.new).seen result }
{
    conn.get_result_by(alloc, query, &Typed::<U>::new())
}
