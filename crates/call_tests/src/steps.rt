//! Steps on a connection to a server in memory, and what is seen of each.
use crate::asked::{Asked, OneBind, query_named};
use crate::plans::{Planned, server_of};
use crate::recorder::Recorder;
use crate::statuses::write_status;
use conn_drivers::{
    CacheSize, CachingConnection, LoadConnection, RawConnection, Wire, execute, get_result,
    load_list,
};
use conn_manager::{
    AnsiTransactionManager, Connection, SimpleConnection, TransactionManagerStatus,
};
use conn_result::{Error, QueryResult};
use conn_server::{Dialect, Server};
use std::alloc::{AllocError, Global};
use std::fmt::{Debug, Write};
use std::test::Fail;

/// A connection whose events are written down. What plays steps knows no more of it, so that its proof looks into none.
pub trait Recorded: LoadConnection {
    /// Writes down these words too.
    fn note(&mut self, words: &str) -> Result<(), AllocError>;
}

impl<S: Server> Recorded for RawConnection<S, Recorder> {
    fn note(&mut self, words: &str) -> Result<(), AllocError> {
        self.handler.log.push_str(words)
    }
}

/// What a closure does: it sends texts up to the first that is refused, but for those that it tries whatever comes of them, and answers.
#[derive(Clone, Copy)]
struct Work<'a> {
    texts: &'a str,
    answer: QueryResult<u32>,
}

/// Steps over a new server, of these dialects, which was told the plan, and what is seen of them: in a line for each call the events that
/// the handler is told, then the answer, what is tracked then, and how many items the server got so far. The steps stand in a line each.
pub type Case<'a> = (&'a [Dialect], &'a [Planned], &'a str, &'a str);

/// Why a step isn't made: there is none of these words, or memory was wanting.
const NO_STEP: QueryResult<u32> = Err(Error::OutOfMemory);

/// A call without a closure, by its words.
fn ask<C: Recorded>(conn: &mut C, words: &str) -> QueryResult<u32> {
    match words {
        "begin" => AnsiTransactionManager::begin_transaction(conn)?,
        "testbegin" => conn.begin_test_transaction()?,
        "commit" => AnsiTransactionManager::commit_transaction(conn)?,
        "rollback" => AnsiTransactionManager::rollback_transaction(conn)?,
        "break" => conn.set_status(TransactionManagerStatus::InError),
        _ => return NO_STEP,
    }
    Ok(0)
}

impl<'a> Work<'a> {
    fn done<C: Recorded>(self, conn: &mut C) -> QueryResult<u32> {
        for text in self.texts.split(", ") {
            match text.strip_prefix("try ") {
                Some(text) => {
                    let _ = conn.batch_execute(text);
                }
                None => conn.batch_execute(text)?,
            }
        }
        self.answer
    }
}

/// A transaction with a closure.
fn transact<C: Recorded>(conn: &mut C, work: Work<'_>) -> QueryResult<u32> {
    conn.transaction(|conn: &mut C| -> QueryResult<u32> { work.done(conn) })
}

/// A test's transaction with a closure.
fn test<C: Recorded>(conn: &mut C, work: Work<'_>) -> QueryResult<u32> {
    conn.test_transaction(|conn: &mut C| -> QueryResult<u32> { work.done(conn) })
}

/// A call by its first word, and by its texts where it has some. One that answers no number answers 0.
fn call<C: Recorded>(conn: &mut C, words: &str) -> QueryResult<u32> {
    let Some((word, texts)) = words.split_once(' ') else {
        return ask(conn, words);
    };
    let kept = Work {
        texts,
        answer: Ok(7),
    };
    let dropped = Work {
        texts,
        answer: Err(Error::NotFound),
    };
    match word {
        "batch" => conn.batch_execute(texts)?,
        "sql" => AnsiTransactionManager::begin_transaction_sql(conn, texts)?,
        "keep" => return transact(conn, kept),
        "drop" => return transact(conn, dropped),
        "test" => return test(conn, kept),
        "testdrop" => return test(conn, dropped),
        _ => return NO_STEP,
    }
    Ok(0)
}

/// Writes an answer, what is tracked then, and how many items the server got.
fn write_answer<C: Recorded, T: Debug + Drop, E: Debug + Drop>(
    alloc: Global,
    conn: &mut C,
    answer: Result<T, E>,
) -> Result<(), AllocError> {
    let mut words = String::new(alloc);
    match answer {
        Ok(value) => write!(words, "{value:?}, ")?,
        Err(e) => write!(words, "{e:?}, ")?,
    }
    write_status(&mut words, *conn.status())?;
    write!(
        words,
        ", {}
",
        conn.sent()
    )?;
    conn.note(words.as_str())
}

/// Calls one after another, each written down, and last the answer of the closure that made them.
fn calls_within<C: Recorded>(
    alloc: Global,
    conn: &mut C,
    calls: &str,
    answer: QueryResult<u32>,
) -> QueryResult<u32> {
    for words in calls.split("; ") {
        let reply = call(conn, words);
        if write_answer(alloc, conn, reply).is_err() {
            return NO_STEP;
        }
    }
    answer
}

/// A transaction around calls, which its closure keeps or not.
fn transact_around<C: Recorded>(
    alloc: Global,
    conn: &mut C,
    calls: &str,
    answer: QueryResult<u32>,
) -> QueryResult<u32> {
    conn.transaction(|conn: &mut C| -> QueryResult<u32> {
        calls_within(alloc, conn, calls, answer)
    })
}

/// The numbers of all rows.
fn numbers<C: Recorded>(
    conn: &mut C,
    alloc: Global,
    asked: Asked,
    row_by_row: bool,
) -> QueryResult<Vec<i64>> {
    load_list(alloc, conn, &OneBind::new(asked), row_by_row)
}

/// The number of the first row.
fn first_number<C: Recorded>(conn: &mut C, alloc: Global, asked: Asked) -> QueryResult<i64> {
    get_result(alloc, conn, &OneBind::new(asked))
}

/// An error of one's own.
#[derive(Clone, Copy, Debug)]
enum Fault {
    Unpaid,
    Database(Error),
}

impl From<Error> for Fault {
    fn from(e: Error) -> Fault {
        Fault::Database(e)
    }
}

/// Sends a text, and ends in an error of one's own.
fn fail_unpaid<C: Recorded>(conn: &mut C, text: &str) -> Result<(), Fault> {
    conn.batch_execute(text)?;
    Err(Fault::Unpaid)
}

/// A transaction whose closure has errors of its own.
fn unpaid<C: Recorded>(conn: &mut C, text: &str) -> Result<(), Fault> {
    conn.transaction(|conn: &mut C| -> Result<(), Fault> { fail_unpaid(conn, text) })
}

/// A test's transaction whose closure has such.
fn unpaid_test<C: Recorded>(conn: &mut C, text: &str) -> Result<(), Fault> {
    conn.test_transaction(|conn: &mut C| -> Result<(), Fault> { fail_unpaid(conn, text) })
}

/// Makes the step of this word, and writes down what is seen of it.
fn step<C: Recorded>(
    alloc: Global,
    conn: &mut C,
    word: &str,
    rest: &str,
) -> Result<(), AllocError> {
    match word {
        "keep around" => {
            let answer = transact_around(alloc, conn, rest, Ok(7));
            write_answer(alloc, conn, answer)
        }
        "drop around" => {
            let answer = transact_around(alloc, conn, rest, Err(Error::NotFound));
            write_answer(alloc, conn, answer)
        }
        "unpaid" => {
            let answer = unpaid(conn, rest);
            write_answer(alloc, conn, answer)
        }
        "unpaid test" => {
            let answer = unpaid_test(conn, rest);
            write_answer(alloc, conn, answer)
        }
        "execute" => {
            let answer = execute(conn, &OneBind::new(query_named(rest)));
            write_answer(alloc, conn, answer)
        }
        "load" => {
            let answer = numbers(conn, alloc, query_named(rest), false);
            write_answer(alloc, conn, answer)
        }
        "load by row" => {
            let answer = numbers(conn, alloc, query_named(rest), true);
            write_answer(alloc, conn, answer)
        }
        "first" => {
            let answer = first_number(conn, alloc, query_named(rest));
            write_answer(alloc, conn, answer)
        }
        _ => {
            conn.set_prepared_statement_cache_size(size(rest));
            write_answer::<C, (), Error>(alloc, conn, Ok(()))
        }
    }
}

fn size(word: &str) -> CacheSize {
    match word {
        "disabled" => CacheSize::Disabled,
        _ => CacheSize::Unbounded,
    }
}

/// Makes the steps one after another: a call, or a word, a colon and what it is about.
fn play<C: Recorded>(alloc: Global, conn: &mut C, steps: &str) -> Result<(), AllocError> {
    for words in steps.lines() {
        match words.split_once(": ") {
            Some((word, rest)) => step(alloc, conn, word, rest)?,
            None => {
                let answer = call(conn, words);
                write_answer(alloc, conn, answer)?;
            }
        }
    }
    Ok(())
}

/// What is seen of the steps.
fn seen_of(alloc: Global, dialect: Dialect, plan: &[Planned], steps: &str) -> Result<String, Fail> {
    let Ok(server) = server_of(alloc, dialect, plan) else {
        return Err("no server".into());
    };
    let mut conn = RawConnection::new(alloc, Wire::new(server), Recorder::new(alloc));
    play(alloc, &mut conn, steps)?;
    Ok(conn.handler.log)
}

/// What is seen otherwise than the cases say.
pub fn misses(alloc: Global, cases: &[Case<'_>]) -> Result<String, Fail> {
    let mut misses = String::new(alloc);
    for (dialects, plan, steps, wanted) in cases {
        for dialect in dialects.iter() {
            let seen = seen_of(alloc, *dialect, plan, steps)?;
            if seen.as_str() != *wanted {
                write!(misses, "{dialect:?}: {seen}")?;
            }
        }
    }
    Ok(misses)
}
