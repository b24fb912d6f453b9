//! What a report prints: each kind of line, each error, rows, and what servers kept.
use crate::plans::{Cell, row_of};
use crate::statuses::status_of;
use conn_report::{Entries, Entry, Reply, Rows, Servers, Texts, Transcript, Word, render};
use conn_result::{
    BindFault, BuildFault, ConnectionError, DatabaseErrorKind, Error, FlatError, RowFault,
    UrlFault, pool,
};
use std::alloc::{AllocError, Global};
use std::fmt::Write;
use std::test::Fail;

/// One value of each kind.
const EACH_VALUE: [Cell; 4] = [
    Cell::Number(i64::MIN),
    Cell::Text("(a),|é"),
    Cell::Bytes(b"\0\x9f"),
    Cell::Null,
];

/// An error by the words that are printed of it.
fn error_of(words: &str) -> Error {
    match words {
        "InvalidCString 7" => Error::InvalidCString(7),
        "DatabaseError UniqueViolation 23505" => Error::DatabaseError(
            DatabaseErrorKind::UniqueViolation,
            23505,
        ),
        "DatabaseError ClosedConnection -1" => Error::DatabaseError(
            DatabaseErrorKind::ClosedConnection,
            -1,
        ),
        "NotFound" => Error::NotFound,
        "QueryBuilderError EmptyQuery" => Error::QueryBuilderError(BuildFault::EmptyQuery),
        "QueryBuilderError EmptyChangeset" => Error::QueryBuilderError(BuildFault::EmptyChangeset),
        "DeserializationError UnexpectedNull 3" => Error::DeserializationError(
            RowFault::UnexpectedNull { column: 3 },
        ),
        "DeserializationError WrongKind 0" => Error::DeserializationError(RowFault::WrongKind {
            column: 0,
        }),
        "DeserializationError NoMetadata" => Error::DeserializationError(RowFault::NoMetadata),
        "SerializationError 1" => Error::SerializationError(BindFault { place: 1 }),
        "RollbackErrorOnCommit rollback DatabaseError Unknown 10 commit SerializationError 5" =>
            Error::RollbackErrorOnCommit {
                rollback_error: FlatError::DatabaseError(DatabaseErrorKind::Unknown, 10),
                commit_error: FlatError::SerializationError(BindFault { place: 5 }),
            },
        "RollbackTransaction" => Error::RollbackTransaction,
        "AlreadyInTransaction" => Error::AlreadyInTransaction,
        "NotInTransaction" => Error::NotInTransaction,
        "BrokenTransactionManager" => Error::BrokenTransactionManager,
        "IntegerConversion" => Error::IntegerConversion,
        "DepthExhausted" => Error::DepthExhausted,
        "CounterExhausted" => Error::CounterExhausted,
        "QueryIdClash" => Error::QueryIdClash,
        _ => Error::OutOfMemory,
    }
}

/// Why no connection was handed out, by the words that are printed of it.
fn pool_error_of(words: &str) -> pool::Error {
    match words {
        "ConnectionError InvalidCString 0" => pool::Error::ConnectionError(
            ConnectionError::InvalidCString(0),
        ),
        "ConnectionError BadConnection -10" => pool::Error::ConnectionError(
            ConnectionError::BadConnection(-10),
        ),
        "ConnectionError InvalidConnectionUrl Scheme" => pool::Error::ConnectionError(
            ConnectionError::InvalidConnectionUrl(UrlFault::Scheme),
        ),
        "ConnectionError CouldntSetupConfiguration NotFound" => pool::Error::ConnectionError(
            ConnectionError::CouldntSetupConfiguration(Error::NotFound, 4),
        ),
        "ConnectionError OutOfMemory" => pool::Error::ConnectionError(ConnectionError::OutOfMemory),
        "QueryError DatabaseError Unknown 57014" => pool::Error::QueryError(
            Error::DatabaseError(DatabaseErrorKind::Unknown, 57014),
            4,
        ),
        "LeftOpen" => pool::Error::LeftOpen(4),
        _ => pool::Error::OutOfMemory,
    }
}

/// Rows of one value of each kind, and of one number.
fn two_rows(alloc: Global) -> Result<Rows, AllocError> {
    let mut rows = Rows::new(alloc);
    rows.push(row_of(alloc, &EACH_VALUE)?)?;
    rows.push(row_of(alloc, &[Cell::Number(7)])?)?;
    Ok(rows)
}

/// A reply by its words.
fn reply_of(alloc: Global, words: &str) -> Result<Reply, AllocError> {
    if let Some(error) = words.strip_prefix("error ") {
        return Ok(Reply::Error(error_of(error)));
    }
    if let Some(error) = words.strip_prefix("poolerror ") {
        return Ok(Reply::Pool(pool_error_of(error)));
    }
    Ok(match words {
        "kept" => Reply::Kept,
        "closed" => Reply::Closed,
        "count 0" => Reply::Count(0),
        "count 18446744073709551615" => Reply::Count(u64::MAX),
        "no rows" => Reply::Rows(Rows::new(alloc)),
        "two rows" => Reply::Rows(two_rows(alloc)?),
        "one row" => Reply::OneRow(row_of(alloc, &EACH_VALUE)?),
        "none" => Reply::NoRow,
        "notout" => Reply::NotOut,
        "nonefree" => Reply::NoneFree,
        "skipped" => Reply::Skipped,
        _ => Reply::Ok,
    })
}

/// An entry: its line, its word, its connection where it has one, its reply, and what is tracked with how many items where it reached a
/// connection; and what is printed of it.
type Line<'a> = (
    u32,
    Word,
    Option<u32>,
    &'a str,
    Option<(&'a str, u64)>,
    &'a str,
);

fn entry_of(alloc: Global, line: &Line<'_>) -> Result<Entry, AllocError> {
    let (line, word, connection, words, tracked, _) = *line;
    let reply = reply_of(alloc, words)?;
    let (status, mark) = match tracked {
        Some((status, mark)) => (Some(status_of(status)), Some(mark)),
        None => (None, None),
    };
    Ok(Entry {
        line,
        word,
        connection,
        reply,
        status,
        mark,
    })
}

/// Servers that told two writes, nothing, and no write.
fn three_servers(alloc: Global) -> Result<Servers, AllocError> {
    let mut writes = Texts::new(alloc);
    writes.push("INSERT a")?;
    writes.push("UPDATE b SET c = 'd'")?;
    let mut servers = Servers::new(alloc);
    servers.push(Some(writes))?;
    servers.push(None)?;
    servers.push(Some(Texts::new(alloc)))?;
    Ok(servers)
}

/// What is printed of them.
const SERVERS: &str =
    "server 0 2\nwrite INSERT a\nwrite UPDATE b SET c = 'd'\nserver 1 untold\nserver 2 0\n";

const DEEPEST: &str = "depth 4294967295 flagged test";

const LINES: [Line<'static>; 24] = [
    (
        2,
        Word::Batch,
        Some(0),
        "ok",
        Some(("none", 1)),
        "2 batch 0 | ok | none | 1\n",
    ),
    (
        3,
        Word::Get,
        None,
        "nonefree",
        None,
        "3 get - | nonefree | - | -\n",
    ),
    (
        4,
        Word::Batch,
        Some(7),
        "notout",
        None,
        "4 batch 7 | notout | - | -\n",
    ),
    (
        5,
        Word::Batch,
        Some(0),
        "ok",
        Some(("depth 1", 1)),
        "5 batch 0 | ok | depth 1 | 1\n",
    ),
    (
        6,
        Word::Batch,
        Some(0),
        "ok",
        Some(("depth 12 flagged", 2)),
        "6 batch 0 | ok | depth 12 flagged | 2\n",
    ),
    (
        7,
        Word::TestBegin,
        Some(0),
        "ok",
        Some(("depth 2 test", 1)),
        "7 testbegin 0 | ok | depth 2 test | 1\n",
    ),
    (
        8,
        Word::Put,
        Some(0),
        "kept",
        Some(("none", 9)),
        "8 put 0 | kept | none | 9\n",
    ),
    (
        9,
        Word::Put,
        Some(0),
        "closed",
        Some(("broken", 9)),
        "9 put 0 | closed | broken | 9\n",
    ),
    (
        10,
        Word::Exec,
        Some(0),
        "count 0",
        Some(("none", 1)),
        "10 exec 0 | count 0 | none | 1\n",
    ),
    (
        11,
        Word::CacheSize,
        Some(0),
        "ok",
        Some(("none", 1)),
        "11 cachesize 0 | ok | none | 1\n",
    ),
    (
        12,
        Word::Ping,
        Some(0),
        "ok",
        Some(("none", 1)),
        "12 ping 0 | ok | none | 1\n",
    ),
    (
        13,
        Word::End,
        Some(0),
        "skipped",
        Some(("none", 1)),
        "13 end 0 | skipped | none | 1\n",
    ),
    (
        14,
        Word::Fail,
        Some(0),
        "error RollbackTransaction",
        Some(("none", 1)),
        "14 fail 0 | error RollbackTransaction | none | 1\n",
    ),
    (
        15,
        Word::Each,
        Some(0),
        "skipped",
        None,
        "15 each 0 | skipped | - | -\n",
    ),
    (
        16,
        Word::Load,
        Some(0),
        "no rows",
        Some(("none", 1)),
        "16 load 0 | rows | none | 1\n",
    ),
    (
        17,
        Word::One,
        Some(0),
        "one row",
        Some(("none", 1)),
        "17 one 0 | row (int:-9223372036854775808,text:(a),|é,bytes:009f,null) | none | 1\n",
    ),
    (
        18,
        Word::Optional,
        Some(0),
        "none",
        Some(("none", 1)),
        "18 optional 0 | none | none | 1\n",
    ),
    (
        19,
        Word::Begin,
        Some(0),
        "ok",
        Some(("broken", 1)),
        "19 begin 0 | ok | broken | 1\n",
    ),
    (
        20,
        Word::Commit,
        Some(0),
        "ok",
        Some(("none", 1)),
        "20 commit 0 | ok | none | 1\n",
    ),
    (
        1_048_577,
        Word::Rollback,
        Some(0),
        "ok",
        Some(("none", 1)),
        "1048577 rollback 0 | ok | none | 1\n",
    ),
    (
        u32::MAX,
        Word::Transaction,
        Some(u32::MAX),
        "nonefree",
        Some((DEEPEST, u64::MAX)),
        "4294967295 transaction 4294967295 | nonefree | depth 4294967295 flagged test | 18446744073709551615\n",
    ),
    (
        u32::MAX,
        Word::Transaction,
        Some(u32::MAX),
        "count 18446744073709551615",
        Some((DEEPEST, u64::MAX)),
        "4294967295 transaction 4294967295 | count 18446744073709551615 | depth 4294967295 flagged test | 18446744073709551615\n",
    ),
    (
        u32::MAX,
        Word::Transaction,
        Some(u32::MAX),
        "error RollbackTransaction",
        Some((DEEPEST, u64::MAX)),
        "4294967295 transaction 4294967295 | error RollbackTransaction | depth 4294967295 flagged test | 18446744073709551615\n",
    ),
    (
        u32::MAX,
        Word::Transaction,
        Some(u32::MAX),
        "two rows",
        Some((DEEPEST, u64::MAX)),
        "4294967295 transaction 4294967295 | rows (int:-9223372036854775808,text:(a),|é,bytes:009f,null)(int:7) | depth 4294967295 flagged test | 18446744073709551615\n",
    ),
];

/// The words that are printed of each error.
const ERRORS: [&str; 20] = [
    "InvalidCString 7",
    "DatabaseError UniqueViolation 23505",
    "DatabaseError ClosedConnection -1",
    "NotFound",
    "QueryBuilderError EmptyQuery",
    "QueryBuilderError EmptyChangeset",
    "DeserializationError UnexpectedNull 3",
    "DeserializationError WrongKind 0",
    "DeserializationError NoMetadata",
    "SerializationError 1",
    "RollbackErrorOnCommit rollback DatabaseError Unknown 10 commit SerializationError 5",
    "RollbackTransaction",
    "AlreadyInTransaction",
    "NotInTransaction",
    "BrokenTransactionManager",
    "IntegerConversion",
    "DepthExhausted",
    "CounterExhausted",
    "QueryIdClash",
    "OutOfMemory",
];

/// The words that are printed of each reason why no connection was handed out.
const POOL_ERRORS: [&str; 8] = [
    "ConnectionError InvalidCString 0",
    "ConnectionError BadConnection -10",
    "ConnectionError InvalidConnectionUrl Scheme",
    "ConnectionError CouldntSetupConfiguration NotFound",
    "ConnectionError OutOfMemory",
    "QueryError DatabaseError Unknown 57014",
    "LeftOpen",
    "OutOfMemory",
];

/// The report of these entries and servers.
fn report_of(alloc: Global, entries: Entries, servers: Servers) -> Result<Vec<u8>, AllocError> {
    render(alloc, &Transcript { entries, servers })
}

#[test]
fn each_kind_of_line_is_printed(rt: HostRuntime) -> Result<(), Fail> {
    let mut entries = Entries::new(rt.alloc());
    let mut wanted = String::new(rt.alloc());
    for line in &LINES {
        entries.push(entry_of(rt.alloc(), line)?)?;
        wanted.push_str(line.5)?;
    }
    write!(wanted, "{SERVERS}done 24 3\n")?;
    let servers = three_servers(rt.alloc())?;
    let report = report_of(rt.alloc(), entries, servers)?;
    assert_eq!(rt; report.as_slice(), wanted.as_bytes());
    Ok(())
}

#[test]
fn errors_are_printed_by_their_words(rt: HostRuntime) -> Result<(), Fail> {
    let mut entries = Entries::new(rt.alloc());
    let mut wanted = String::new(rt.alloc());
    for words in &ERRORS {
        let reply = format!(in rt.alloc(); "error {words}")?;
        let line = (
            2,
            Word::Batch,
            Some(0),
            reply.as_str(),
            Some(("none", 1)),
            "",
        );
        entries.push(entry_of(rt.alloc(), &line)?)?;
        write!(wanted, "2 batch 0 | error {words} | none | 1\n")?;
    }
    for words in &POOL_ERRORS {
        let reply = format!(in rt.alloc(); "poolerror {words}")?;
        let line: Line<'_> = (3, Word::Get, None, reply.as_str(), None, "");
        entries.push(entry_of(rt.alloc(), &line)?)?;
        write!(wanted, "3 get - | poolerror {words} | - | -\n")?;
    }
    write!(wanted, "done 28 0\n")?;
    let report = report_of(rt.alloc(), entries, Servers::new(rt.alloc()))?;
    assert_eq!(rt; report.as_slice(), wanted.as_bytes());
    Ok(())
}
