//! What commands ask for.
ghost use Rattle.std.specs.Prelude.{◌≡◌};
ghost use Rattle.std.specs.Option.{option_copied};
ghost use Rattle.conn_script.specs.Grammar.{act_from, act_of, connection_alone, query_call, size_named};
ghost use Rattle.conn_script.specs.Spelling.{word_named};

use crate::blocks::block_of;
use crate::statement::is_statement_text;
use crate::words::cut_word;
use crate::{Act, QueryCall, Word};
use conn_model::{CacheSize, LentText, number_u32};

/// The word that is spelled so.
fn word_of(text: &str) -> Option<Word>
    ensures { result ≡ word_named text.now }
{
    for word in Word::ALL {
        if text == word.name() {
            return Some(word);
        }
    }
    None
}

/// A connection alone.
fn connection_in(rest: Option<&str>) -> Option<u32>
    ensures { result ≡ connection_alone (option_copied rest.entry) }
{
    number_u32(rest?)
}

/// The batch of a connection and a statement.
pub fn batch_in<'a>(rest: Option<&'a str>) -> Option<Act<'a>>
    ensures { result ≡ act_from Word.Batch (option_copied rest.entry) }
{
    let (connection, statement) = cut_word(rest?);
    let connection = number_u32(connection)?;
    let statement = statement?;
    if !is_statement_text(statement) {
        return None;
    }
    Some(Act::Batch(connection, LentText::new(statement)))
}

/// The connection and the query.
fn query_in<'a>(call: QueryCall, rest: Option<&'a str>) -> Option<Act<'a>>
    ensures { result ≡ query_call call (option_copied rest.entry) }
{
    let (connection, query) = cut_word(rest?);
    let connection = number_u32(connection)?;
    let query = number_u32(query?)?;
    Some(Act::Query(call, connection, query))
}

/// The size that is named so.
fn size_of(text: &str) -> Option<CacheSize>
    ensures { result ≡ size_named text.now }
{
    if text == "unbounded" {
        return Some(CacheSize::Unbounded);
    }
    if text == "disabled" {
        return Some(CacheSize::Disabled);
    }
    None
}

fn size_in<'a>(rest: Option<&'a str>) -> Option<Act<'a>>
    ensures { result ≡ act_from Word.CacheSize (option_copied rest.entry) }
{
    let (connection, size) = cut_word(rest?);
    let connection = number_u32(connection)?;
    let size = size_of(size?)?;
    Some(Act::Cache(connection, size))
}

fn block_in<'a>(rest: Option<&'a str>) -> Option<Act<'a>>
    ensures { result ≡ act_from Word.Transaction (option_copied rest.entry) }
{
    let (connection, kind) = cut_word(rest?);
    let connection = number_u32(connection)?;
    let kind = block_of(kind?)?;
    Some(Act::Block(connection, kind))
}

/// What a command with this word asks for.
fn act_by<'a>(word: Word, rest: Option<&'a str>) -> Option<Act<'a>>
    ensures { result ≡ act_from word (option_copied rest.entry) }
{
    match word {
        Word::Get => rest.is_none().then_some(Act::Get),
        Word::Put => connection_in(rest).map(|c| Act::Put(c)),
        Word::Batch => batch_in(rest),
        Word::Begin => connection_in(rest).map(|c| Act::Begin(c)),
        Word::Commit => connection_in(rest).map(|c| Act::Commit(c)),
        Word::Rollback => connection_in(rest).map(|c| Act::Rollback(c)),
        Word::TestBegin => connection_in(rest).map(|c| Act::TestBegin(c)),
        Word::Exec => query_in(QueryCall::Exec, rest),
        Word::Load => query_in(QueryCall::Load, rest),
        Word::Each => query_in(QueryCall::Each, rest),
        Word::One => query_in(QueryCall::One, rest),
        Word::Optional => query_in(QueryCall::Optional, rest),
        Word::CacheSize => size_in(rest),
        Word::Ping => connection_in(rest).map(|c| Act::Ping(c)),
        Word::Transaction => block_in(rest),
        Word::End => connection_in(rest).map(|c| Act::End(c)),
        Word::Fail => connection_in(rest).map(|c| Act::Fail(c)),
    }
}

/// What the line of this word and what follows it asks for, or `None` where it is no command.
pub fn act_in<'a>(word: &str, rest: Option<&'a str>) -> Option<Act<'a>>
    ensures { result ≡ act_of word.now (option_copied rest.entry) }
{
    act_by(word_of(word)?, rest)
}
