//! What a connection does for a command.
ghost use Rattle.std.specs.Prelude.{◌≡◌, ◌↔◌, ℕ, List, Some, IfOk, IsErr, Err};
ghost use Rattle.conn_result.specs.declared.error.Error.TheVariants.{OutOfMemory as out_of_memory};
ghost use Rattle.conn_manager.specs.Views.{ActsOrMemoryFrom, KeepsCache};
ghost use Rattle.conn_drivers.specs.Loaded.{listed};
ghost use Rattle.conn_reading.specs.Asking.{close_process, find_query, keep_process, reply_as, rollback_answer, row_reply};
ghost use Rattle.conn_report.specs.declared.entry.Reply.TheVariants.{Count, Rows, OneRow};
ghost use Rattle.conn_reading.specs.Seats.{entry_on};
ghost use Rattle.conn_reading.specs.declared.deed.Deed.{Deed as deed_type};
ghost use Rattle.conn_reading.specs.declared.deed.Deed.TheVariants.{Close as close_deed, Query as query_deed};
ghost use Rattle.conn_script.specs.declared.query.Declared.{Declared as declared_type};
ghost use Rattle.conn_session.specs.Responses.{answer_reply, done_answer, query_answer, seat_of, wants_memory, Asks, Does, CountsRefusal};

use crate::queries::{Queries, ScriptQuery};
use conn_drivers::R2D2Connection;
use conn_manager::{AnsiTransactionManager, Connection, RollbackErrors};
use conn_model::Row;
use conn_reading::Deed;
use conn_report::{Entry, Reply};
use conn_result::{Error, OptionalExtension, QueryResult};
use conn_script::{BlockKind, QueryCall, Word};
use sqlite_items::Items;
use std::alloc::{AllocError, Global};

/// Whether a call wanted memory.
fn wants_memory(answer: &QueryResult<()>) -> bool
    ensures { result ≡ wants_memory answer.now }
{
    matches!(answer, Err(Error::OutOfMemory))
}

/// The answer of a block that got this error, after its rollback.
fn rollback_answer(errors: RollbackErrors, e: Error, answer: QueryResult<()>) -> QueryResult<()>
    ensures { result ≡ rollback_answer errors e answer }
{
    match answer {
        Err(r) if errors.includes(&r) => Err(r),
        _ => Err(e),
    }
}

/// The answer of a call that counts no rows.
fn done_answer(answer: QueryResult<()>) -> QueryResult<Reply>
    ensures { result ≡ done_answer answer }
{
    match answer {
        Ok(()) => Ok(Reply::Ok),
        Err(e) => Err(e),
    }
}

/// The answer of a query that was executed.
fn count_answer(answer: QueryResult<usize>) -> QueryResult<Reply>
    ensures { result ≡ query_answer Count answer }
{
    match answer {
        Ok(count) => Ok(Reply::Count(count as u64)),
        Err(e) => Err(e),
    }
}

/// The answer of a query all of whose rows were loaded.
fn rows_answer(answer: QueryResult<Vec<Row>>) -> QueryResult<Reply>
    ensures { result ≡ query_answer Rows (listed answer) }
{
    match answer {
        Ok(rows) => Ok(Reply::Rows(Items::from_vec(rows))),
        Err(e) => Err(e),
    }
}

/// The answer of a query whose first row was to be there.
fn row_answer(answer: QueryResult<Row>) -> QueryResult<Reply>
    ensures { result ≡ query_answer OneRow answer }
{
    match answer {
        Ok(row) => Ok(Reply::OneRow(row)),
        Err(e) => Err(e),
    }
}

/// The answer of a query whose first row may be missing.
fn optional_answer(answer: QueryResult<Option<Row>>) -> QueryResult<Reply>
    ensures { result ≡ query_answer row_reply answer }
{
    match answer {
        Ok(Some(row)) => Ok(Reply::OneRow(row)),
        Ok(None) => Ok(Reply::NoRow),
        Err(e) => Err(e),
    }
}

/// The reply that a deed's answer stands for; want of memory has none.
fn reply_to(answer: QueryResult<Reply>) -> Result<Reply, AllocError>
    ensures reply { IfOk result (λ reply. reply ≡ answer_reply answer) }
    ensures memory { IsErr result ↔ (answer ≡ Err out_of_memory) }
{
    match answer {
        Ok(reply) => Ok(reply),
        Err(Error::OutOfMemory) => Err(AllocError),
        Err(e) => Ok(Reply::Error(e)),
    }
}

/// Rolls back, whereupon a test's block has this answer.
fn close_test<C: Connection>(connection: &mut C, answer: QueryResult<()>) -> QueryResult<()>
    ensures acts { ActsOrMemoryFrom C.is_honest (close_process BlockKind.Test answer)
        (C.view connection.old) (C.view connection.new) result }
    ensures cache { KeepsCache (C.view connection.old) (C.view connection.new) }
    ensures cause { CountsRefusal (close_deed BlockKind.Test answer) (C.view connection.old).seen
        (C.view connection.new).seen (reply_as result) }
{
    let rolled_back = AnsiTransactionManager::rollback_transaction(connection);
    // Without memory nothing was sent, and the block isn't closed; else a test's answer is handed on whatever became of the
    // rollback.
    if wants_memory(&rolled_back) {
        rolled_back
    } else {
        answer
    }
}

/// Closes a block that keeps what it did where all went well.
fn close_kept<C: Connection>(
    connection: &mut C,
    kind: BlockKind,
    errors: RollbackErrors,
    answer: QueryResult<()>,
) -> QueryResult<()>
    ensures acts { ActsOrMemoryFrom C.is_honest (keep_process errors answer)
        (C.view connection.old) (C.view connection.new) result }
    ensures cache { KeepsCache (C.view connection.old) (C.view connection.new) }
    ensures cause { CountsRefusal (close_deed kind answer) (C.view connection.old).seen
        (C.view connection.new).seen (reply_as result) }
{
    match answer {
        Ok(()) => AnsiTransactionManager::commit_transaction(connection),
        Err(e) => {
            let answer = AnsiTransactionManager::rollback_transaction(connection);
            rollback_answer(errors, e, answer)
        }
    }
}

/// Closes a block with this answer.
fn close<C: Connection>(
    connection: &mut C,
    kind: BlockKind,
    answer: QueryResult<()>,
) -> QueryResult<()>
    ensures acts { ActsOrMemoryFrom C.is_honest (close_process kind answer)
        (C.view connection.old) (C.view connection.new) result }
    ensures cache { KeepsCache (C.view connection.old) (C.view connection.new) }
    ensures cause { CountsRefusal (close_deed kind answer) (C.view connection.old).seen
        (C.view connection.new).seen (reply_as result) }
{
    match kind {
        BlockKind::Plain => close_kept(connection, kind, RollbackErrors::AllButBroken, answer),
        BlockKind::Form(form) => close_kept(connection, kind, RollbackErrors::of(&form), answer),
        BlockKind::Test => close_test(connection, answer),
    }
}

/// Makes a query of the script what is asked of it.
fn query<C: R2D2Connection>(
    alloc: Global,
    connection: &mut C,
    call: QueryCall,
    query: &ScriptQuery<'_>,
) -> QueryResult<Reply>
    ensures asks { (queries : List declared_type) → (n : ℕ)
        → find_query n queries ≡ Some query.now → Asks C.is_honest queries (query_deed call n)
        (C.view connection.old) (C.view connection.new) result }
    ensures cause { (deed : deed_type) → CountsRefusal deed (C.view connection.old).seen
        (C.view connection.new).seen (answer_reply result) }
{
    let reader = query.reader();
    match call {
        QueryCall::Exec => count_answer(connection.execute_returning_count(query)),
        QueryCall::Load => rows_answer(connection.load_list_by(alloc, query, &reader, false)),
        QueryCall::Each => rows_answer(connection.load_list_by(alloc, query, &reader, true)),
        QueryCall::One => row_answer(connection.get_result_by(alloc, query, &reader)),
        QueryCall::Optional => {
            optional_answer(connection.get_result_by(alloc, query, &reader).optional())
        }
    }
}

/// Asks what a deed asks.
fn ask<C: R2D2Connection>(
    alloc: Global,
    connection: &mut C,
    queries: &Queries<'_>,
    deed: &Deed<'_>,
) -> QueryResult<Reply>
    ensures asks { Asks C.is_honest queries.now deed.now
        (C.view connection.old) (C.view connection.new) result }
    ensures cause { CountsRefusal deed.now (C.view connection.old).seen
        (C.view connection.new).seen (answer_reply result) }
{
    match deed {
        Deed::Batch(text) => done_answer(connection.batch_execute(text.as_str())),
        Deed::Begin => done_answer(AnsiTransactionManager::begin_transaction(connection)),
        Deed::BeginBy(form) => {
            let text = form.sql();
            done_answer(AnsiTransactionManager::begin_transaction_sql(connection, text.as_str()))
        }
        Deed::Commit => done_answer(AnsiTransactionManager::commit_transaction(connection)),
        Deed::Rollback => done_answer(AnsiTransactionManager::rollback_transaction(connection)),
        Deed::TestBegin => done_answer(connection.begin_test_transaction()),
        Deed::Close(kind, answer) => done_answer(close(connection, *kind, *answer)),
        Deed::Query(call, number) => match queries.find(*number) {
            Some(found) => query(alloc, connection, *call, found),
            None => Err(Error::NotFound),
        },
        Deed::CacheSize(size) => {
            connection.set_prepared_statement_cache_size(*size);
            Ok(Reply::Ok)
        }
        Deed::Ping => done_answer(connection.ping()),
    }
}

/// Does a deed, and gives its reply.
pub fn act<C: R2D2Connection>(
    alloc: Global,
    connection: &mut C,
    queries: &Queries<'_>,
    deed: &Deed<'_>,
) -> Result<Reply, AllocError>
    ensures { Does C.is_honest queries.now deed.now
        (C.view connection.old) (C.view connection.new) result }
{
    reply_to(ask(alloc, connection, queries, deed))
}

/// The entry of a command on this connection.
pub fn entry_on<C: Connection>(connection: &C, line: u32, word: Word, reply: Reply) -> Entry
    ensures { result ≡ entry_on line word reply (seat_of (C.view connection.now)) }
{
    Entry {
        line,
        word,
        connection: Some(connection.number()),
        reply,
        status: Some(*connection.status()),
        mark: Some(connection.sent()),
    }
}
