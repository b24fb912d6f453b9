//! Transactions that begin by a text of their own: each call once at a type of connection.
use crate::plans::server_of;
use crate::recorder::Recorder;
use conn_drivers::{
    Driver, LockingConnection, PgConnection, RawConnection, SqliteConnection, TransactionBuilder,
    Wire,
};
use conn_manager::{Connection, TransactionManagerStatus};
use conn_model::{Characteristics, Deferrable, IsolationLevel, ReadMode};
use conn_result::{Error, QueryResult};
use conn_server::{Dialect, ScriptedServer};
use std::alloc::Global;
use std::fmt::Write;
use std::marker::PhantomData;
use std::test::Fail;

/// What a closure does, by its word.
fn work<C: Connection>(conn: &mut C, word: &str) -> QueryResult<u32> {
    match word {
        "keep" => Ok(7),
        "break" => {
            conn.set_status(TransactionManagerStatus::InError);
            Err(Error::NotFound)
        }
        _ => Err(Error::NotFound),
    }
}

fn immediate<C: LockingConnection>(conn: &mut C, word: &str) -> QueryResult<u32> {
    conn.immediate_transaction(|conn: &mut C| -> QueryResult<u32> { work(conn, word) })
}

fn exclusive<C: LockingConnection>(conn: &mut C, word: &str) -> QueryResult<u32> {
    conn.exclusive_transaction(|conn: &mut C| -> QueryResult<u32> { work(conn, word) })
}

/// One in another, which a text of its own can't begin.
fn immediate_twice<C: LockingConnection>(conn: &mut C, word: &str) -> QueryResult<u32> {
    conn.immediate_transaction(|conn: &mut C| -> QueryResult<u32> { immediate(conn, word) })
}

/// One of PostgreSQL, of whose two read modes the later counts.
fn built<C: Connection>(builder: TransactionBuilder<'_, C>, word: &str) -> QueryResult<u32> {
    let mut builder = builder.read_only().serializable().deferrable().read_write();
    builder.run(|conn: &mut C| -> QueryResult<u32> { work(conn, word) })
}

/// What the connection's handler was told, and then the answer.
fn told(
    raw: RawConnection<ScriptedServer, Recorder>,
    answer: QueryResult<u32>,
) -> Result<String, Fail> {
    let mut log = raw.handler.log;
    write!(log, "{answer:?}")?;
    Ok(log)
}

/// What a connection to SQLite tells and answers for a call whose closure does this.
fn seen_on_sqlite(alloc: Global, call: &str, word: &str) -> Result<String, Fail> {
    let Ok(server) = server_of(alloc, Dialect::Sqlite, &[]) else {
        return Err("no server".into());
    };
    let mut conn: SqliteConnection<ScriptedServer, Recorder> = Driver {
        raw: RawConnection::new(alloc, Wire::new(server), Recorder::new(alloc)),
        kind: PhantomData,
    };
    let answer = match call {
        "immediate" => immediate(&mut conn, word),
        "exclusive" => exclusive(&mut conn, word),
        _ => immediate_twice(&mut conn, word),
    };
    let raw = conn.raw;
    told(raw, answer)
}

/// The same of the builder of a connection to PostgreSQL.
fn seen_of_builder(alloc: Global, word: &str) -> Result<String, Fail> {
    let Ok(server) = server_of(alloc, Dialect::Pg, &[]) else {
        return Err("no server".into());
    };
    let mut conn: PgConnection<ScriptedServer, Recorder> = Driver {
        raw: RawConnection::new(alloc, Wire::new(server), Recorder::new(alloc)),
        kind: PhantomData,
    };
    let answer = built(conn.build_transaction(), word);
    let raw = conn.raw;
    told(raw, answer)
}

/// Calls with what their closures do, and what is told and answered.
const CASES: [(&str, &str, &str); 7] = [
    (
        "immediate",
        "keep",
        "begin 1; > BEGIN IMMEDIATE; < BEGIN IMMEDIATE; commit 1; > COMMIT; < COMMIT; Ok(7)",
    ),
    (
        "immediate",
        "drop",
        "begin 1; > BEGIN IMMEDIATE; < BEGIN IMMEDIATE; \
        rollback 1; > ROLLBACK; < ROLLBACK; Err(NotFound)",
    ),
    (
        "exclusive",
        "keep",
        "begin 1; > BEGIN EXCLUSIVE; < BEGIN EXCLUSIVE; commit 1; > COMMIT; < COMMIT; Ok(7)",
    ),
    // SQLite's answer the rollback's error, also that of a manager in error, and the builder the closure's.
    (
        "exclusive",
        "break",
        "begin 1; > BEGIN EXCLUSIVE; < BEGIN EXCLUSIVE; Err(BrokenTransactionManager)",
    ),
    (
        "built",
        "break",
        "begin 1; > BEGIN TRANSACTION ISOLATION LEVEL SERIALIZABLE READ WRITE DEFERRABLE; \
        < BEGIN TRANSACTION ISOLATION LEVEL SERIALIZABLE READ WRITE DEFERRABLE; Err(NotFound)",
    ),
    (
        "built",
        "keep",
        "begin 1; > BEGIN TRANSACTION ISOLATION LEVEL SERIALIZABLE READ WRITE DEFERRABLE; \
        < BEGIN TRANSACTION ISOLATION LEVEL SERIALIZABLE READ WRITE DEFERRABLE; \
        commit 1; > COMMIT; < COMMIT; Ok(7)",
    ),
    (
        "immediate twice",
        "keep",
        "begin 1; > BEGIN IMMEDIATE; < BEGIN IMMEDIATE; \
        rollback 1; > ROLLBACK; < ROLLBACK; Err(AlreadyInTransaction)",
    ),
];

#[test]
fn a_form_begins_by_its_text(rt: HostRuntime) -> Result<(), Fail> {
    for &(call, word, wanted) in &CASES {
        let seen = match call {
            "built" => seen_of_builder(rt.alloc(), word)?,
            _ => seen_on_sqlite(rt.alloc(), call, word)?,
        };
        assert_eq!(rt; seen.as_str(), wanted);
    }
    Ok(())
}

/// Characteristics, and what PostgreSQL's BEGIN takes for them.
const TEXTS: [(Characteristics, &str); 3] = [
    (Characteristics::DEFAULT, "BEGIN TRANSACTION"),
    (
        Characteristics {
            isolation_level: Some(IsolationLevel::RepeatableRead),
            read_mode: Some(ReadMode::ReadWrite),
            deferrable: Some(Deferrable::NotDeferrable),
        },
        "BEGIN TRANSACTION ISOLATION LEVEL REPEATABLE READ READ WRITE NOT DEFERRABLE",
    ),
    (
        Characteristics {
            isolation_level: Some(IsolationLevel::ReadCommitted),
            read_mode: Some(ReadMode::ReadOnly),
            deferrable: None,
        },
        "BEGIN TRANSACTION ISOLATION LEVEL READ COMMITTED READ ONLY",
    ),
];

#[test]
fn characteristics_are_written_in_their_order(rt: HostRuntime) -> Result<(), Fail> {
    for (characteristics, text) in &TEXTS {
        assert_eq!(rt; characteristics.sql().as_str(), *text);
    }
    Ok(())
}
