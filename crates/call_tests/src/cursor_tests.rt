//! Cursors over servers in memory: their rows in order, what ends them, and what their handler is told of it.
ghost use Rattle.std.specs.Prelude.{[], None, codes, false, refl, true};

use crate::plans::{Cell, Planned, server_of};
use crate::recorder::Recorder;
use conn_drivers::{Driver, Kind, Mysql, Pg, Query, RawConnection, Sqlite, Wire};
use conn_manager::Instrumentation;
use conn_model::{Bind, BindType, Row, Value};
use conn_result::QueryResult;
use conn_server::{Dialect, ScriptedServer, Server};
use std::alloc::Global;
use std::fmt::Write;
use std::marker::PhantomData;
use std::test::Fail;

/// A query without binds, whose statement isn't kept.
struct Select;

impl Query for Select {
    ghost view = { λ q. record {
      sql = codes "SELECT a";
      types = [];
      binds = [];
      is_safe = false;
      has_changes = true;
      id = None;
    } };

    fn sql(&self) -> &str {
        "SELECT a"
    }

    fn bind_types(&self) -> &[BindType] {
        &[]
    }

    fn binds(&self) -> &[Bind] {
        &[]
    }

    fn is_safe_to_cache_prepared(&self) -> bool {
        false
    }

    fn has_changes(&self) -> bool {
        true
    }

    fn query_id(&self) -> Option<u64> {
        None
    }

    ghost law = { λ q. refl };
}

/// The row that the run of an item refuses, how many rows are asked, the ways in which these are what is seen: each row, the answer, and
/// after a bar what the handler is told.
type Case<'a> = (Option<(u64, u32)>, usize, &'a str, &'a str);

/// The refusal of a row of an item, or of the item where the row is 0.
fn refusal_of(item: u64, row: u32) -> Planned {
    if row == 0 {
        Planned::Refused(item)
    } else {
        Planned::RowRefused(item, row)
    }
}

/// A server that gives the rows 1, 2 and 3, and refuses one.
fn server_with_rows(
    alloc: Global,
    dialect: Dialect,
    refused: Option<(u64, u32)>,
) -> Result<ScriptedServer, Fail> {
    let mut plan = Vec::new(alloc);
    plan.push(Planned::Row(&[Cell::Number(1)]))?;
    plan.push(Planned::Row(&[Cell::Number(2)]))?;
    plan.push(Planned::Row(&[Cell::Number(3)]))?;
    if let Some((item, row)) = refused {
        plan.push(refusal_of(item, row))?;
    }
    match server_of(alloc, dialect, plan.as_slice()) {
        Ok(server) => Ok(server),
        Err(_) => Err("no server".into()),
    }
}

/// A way in which a connection is asked for rows.
trait Way {
    type D: Kind;

    /// Asks for so many rows, and writes each down.
    fn ask<S: Server, H: Instrumentation + Drop>(
        alloc: Global,
        conn: &mut Driver<S, Self::D, H>,
        count: usize,
        words: &mut String,
    ) -> QueryResult<()>;
}

/// Writes a row of one number, its refusal, or that there is none. What memory is wanting for is missing.
fn write_row(words: &mut String, row: Option<QueryResult<Row>>) {
    let _ = match row {
        Some(Ok(row)) => match row.get(0) {
            Some(Value::Int(number)) => write!(words, "{number} "),
            _ => write!(words, "another "),
        },
        Some(Err(e)) => write!(words, "{e:?} "),
        None => write!(words, "none "),
    };
}

/// By an iterator, on MySQL.
struct MysqlIterator;

impl Way for MysqlIterator {
    type D = Mysql;

    fn ask<S: Server, H: Instrumentation + Drop>(
        alloc: Global,
        conn: &mut Driver<S, Mysql, H>,
        count: usize,
        words: &mut String,
    ) -> QueryResult<()> {
        let mut rows = conn.load(alloc, &Select)?;
        for _ in 0..count {
            write_row(words, rows.next());
        }
        rows.finish();
        Ok(())
    }
}

/// By an iterator, on SQLite.
struct SqliteIterator;

impl Way for SqliteIterator {
    type D = Sqlite;

    fn ask<S: Server, H: Instrumentation + Drop>(
        alloc: Global,
        conn: &mut Driver<S, Sqlite, H>,
        count: usize,
        words: &mut String,
    ) -> QueryResult<()> {
        let mut rows = conn.load(alloc, &Select)?;
        for _ in 0..count {
            write_row(words, rows.next());
        }
        rows.finish();
        Ok(())
    }
}

/// The first rows alone, on SQLite.
struct FirstRows;

impl Way for FirstRows {
    type D = Sqlite;

    fn ask<S: Server, H: Instrumentation + Drop>(
        alloc: Global,
        conn: &mut Driver<S, Sqlite, H>,
        count: usize,
        words: &mut String,
    ) -> QueryResult<()> {
        for row in conn.first_rows(alloc, &Select, count)? {
            write_row(words, Some(Ok(row)));
        }
        Ok(())
    }
}

/// By a cursor row by row, on PostgreSQL.
struct RowByRow;

impl Way for RowByRow {
    type D = Pg;

    fn ask<S: Server, H: Instrumentation + Drop>(
        alloc: Global,
        conn: &mut Driver<S, Pg, H>,
        count: usize,
        words: &mut String,
    ) -> QueryResult<()> {
        let mut rows = conn.load_row_by_row(alloc, &Select)?;
        for _ in 0..count {
            write_row(words, rows.next());
        }
        rows.finish()
    }
}

/// By a cursor that holds all rows, on PostgreSQL.
struct Held;

impl Way for Held {
    type D = Pg;

    fn ask<S: Server, H: Instrumentation + Drop>(
        alloc: Global,
        conn: &mut Driver<S, Pg, H>,
        count: usize,
        words: &mut String,
    ) -> QueryResult<()> {
        let mut rows = conn.load(alloc, &Select)?;
        for _ in 0..count {
            write_row(words, rows.next().map(Ok));
        }
        Ok(())
    }
}

/// What is seen of a load in this way.
fn seen_by<W: Way>(
    alloc: Global,
    refused: Option<(u64, u32)>,
    count: usize,
) -> Result<String, Fail> {
    let server = server_with_rows(alloc, W::D::dialect(), refused)?;
    let mut conn = Driver {
        raw: RawConnection::new(alloc, Wire::new(server), Recorder::new(alloc)),
        kind: PhantomData,
    };
    let mut words = String::new(alloc);
    let answer = W::ask(alloc, &mut conn, count, &mut words);
    write!(words, "{answer:?} | {}", conn.raw.handler.log.as_str())?;
    Ok(words)
}

/// The same by the name of a way.
fn seen_of(
    alloc: Global,
    way: &str,
    refused: Option<(u64, u32)>,
    count: usize,
) -> Result<String, Fail> {
    match way {
        "mysql" => seen_by::<MysqlIterator>(alloc, refused, count),
        "sqlite" => seen_by::<SqliteIterator>(alloc, refused, count),
        "first" => seen_by::<FirstRows>(alloc, refused, count),
        "rows" => seen_by::<RowByRow>(alloc, refused, count),
        _ => seen_by::<Held>(alloc, refused, count),
    }
}

/// What is refused is of the run that is item 2, behind the prepare, or item 1, where PostgreSQL runs the text.
const CASES: [Case<'static>; 10] = [
    (
        None,
        5,
        "mysql sqlite rows held",
        "1 2 3 none none Ok(()) | > SELECT a; < SELECT a; ",
    ),
    (
        None,
        1,
        "mysql sqlite rows held",
        "1 Ok(()) | > SELECT a; < SELECT a; ",
    ),
    (None, 4, "first", "1 2 3 Ok(()) | > SELECT a; < SELECT a; "),
    (
        Some((2, 3)),
        4,
        "mysql sqlite",
        "1 2 DatabaseError(Unknown, 7) none Ok(()) | > SELECT a; < SELECT a: 7; ",
    ),
    (
        Some((2, 3)),
        2,
        "mysql sqlite first",
        "1 2 Ok(()) | > SELECT a; < SELECT a; ",
    ),
    (
        Some((2, 3)),
        3,
        "first",
        "Err(DatabaseError(Unknown, 7)) | > SELECT a; < SELECT a: 7; ",
    ),
    (
        Some((1, 3)),
        4,
        "rows",
        "1 2 DatabaseError(Unknown, 7) none Ok(()) | > SELECT a; < SELECT a: 7; ",
    ),
    (
        Some((1, 3)),
        0,
        "rows held",
        "Err(DatabaseError(Unknown, 7)) | > SELECT a; < SELECT a: 7; ",
    ),
    (
        Some((1, 0)),
        2,
        "mysql sqlite first rows held",
        "Err(DatabaseError(Unknown, 5)) | > SELECT a; < SELECT a: 5; ",
    ),
    (
        Some((2, 0)),
        2,
        "mysql sqlite first",
        "Err(DatabaseError(Unknown, 5)) | > SELECT a; < SELECT a: 5; ",
    ),
];

#[test]
fn cursors_have_their_rows_and_tell_of_their_end(rt: HostRuntime) -> Result<(), Fail> {
    for &(refused, count, ways, wanted) in &CASES {
        for way in ways.split_whitespace() {
            let seen = seen_of(rt.alloc(), way, refused, count)?;
            assert_eq!(rt; seen.as_str(), wanted, "{way}");
        }
    }
    Ok(())
}
