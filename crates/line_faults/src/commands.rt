//! What is wrong with a command.
use crate::above::{Place, Tally};
use crate::fields::{Judged, Rest, behind_fields, judge_end, word_field};
use crate::texts::judge_text;
use crate::{BlockFault, Field, FieldFault, Limit, LineFault};
use conn_model::{Dialect, number_u32};
use conn_script::Word;

/// The commands that a script has at most.
const MAX_COMMANDS: u32 = 1_048_576;

/// The commands that load rows at most.
const MAX_LOADS: u32 = 65_536;

/// The blocks that are open at most.
const MAX_BLOCKS: u32 = 64;

/// The bytes that a text has at most.
const MAX_TEXT: usize = 65_536;

/// What says how a transaction is built.
const CHARACTERISTICS: [Field; 3] = [Field::IsolationLevel, Field::ReadMode, Field::Deferrable];

/// The word is for servers of this dialect alone.
fn judge_dialect<'a>(tally: Tally, word: &'a str, only: Dialect) -> Judged<'a> {
    if tally.dialect != only {
        return Err(LineFault::OneDialect(word, only));
    }
    Ok(())
}

/// The query at the end of a line.
fn judge_query<'a>(place: Place, rest: Rest<'a>) -> Judged<'a> {
    let (query, rest) = word_field(Field::Query, rest)?;
    judge_end(Field::Query, rest)?;
    if !place.is_said(&["query", query]) {
        return Err(LineFault::Undeclared(query));
    }
    Ok(())
}

/// The kind of a block at the end of a line.
fn judge_block<'a>(tally: Tally, rest: Rest<'a>) -> Judged<'a> {
    let (kind, rest) = word_field(Field::Block, rest)?;
    match kind {
        "build" => {
            judge_dialect(tally, kind, Dialect::Pg)?;
            let rest = behind_fields(&CHARACTERISTICS, rest)?;
            judge_end(Field::Deferrable, rest)
        }
        "immediate" | "exclusive" => {
            judge_dialect(tally, kind, Dialect::Sqlite)?;
            judge_end(Field::Block, rest)
        }
        _ => judge_end(Field::Block, rest),
    }
}

/// What stands behind the connection of a command.
fn judge_behind<'a>(place: Place, tally: Tally, word: Word, rest: Rest<'a>) -> Judged<'a> {
    match word {
        Word::Batch => judge_text(rest, MAX_TEXT, Limit::Text),
        Word::Each => {
            judge_dialect(tally, word.name(), Dialect::Pg)?;
            judge_query(place, rest)
        }
        Word::Exec | Word::Load | Word::One | Word::Optional => judge_query(place, rest),
        Word::CacheSize => {
            let (_, rest) = word_field(Field::CacheSize, rest)?;
            judge_end(Field::CacheSize, rest)
        }
        Word::Transaction => judge_block(tally, rest),
        _ => judge_end(Field::Connection, rest),
    }
}

/// Whether a line of this word may stand in a block.
fn may_stand_inside(word: Word) -> bool {
    !matches!(
        word,
        Word::Get | Word::Put | Word::Begin | Word::Commit | Word::Rollback | Word::TestBegin
    )
}

/// Where the line stands among blocks, by the connection that it names.
fn judge_blocks<'a>(tally: Tally, word: Word, connection: &'a str) -> Judged<'a> {
    let closes = matches!(word, Word::End | Word::Fail);
    if tally.blocks == 0 {
        if closes {
            return Err(LineFault::Block(BlockFault::NoneOpen(word.name())));
        }
        return Ok(());
    }
    if number_u32(connection) != Some(tally.inside) {
        return Err(LineFault::Block(BlockFault::OtherConnection {
            open: tally.inside,
            named: connection,
        }));
    }
    if word == Word::Transaction && tally.blocks >= MAX_BLOCKS {
        return Err(LineFault::Block(BlockFault::TooDeep));
    }
    Ok(())
}

/// The counts, which are at their limits where all else is right.
fn judge_counts<'a>(tally: Tally, word: Word) -> Judged<'a> {
    let loads = matches!(word, Word::Load | Word::Each | Word::One | Word::Optional);
    if loads && tally.loads >= MAX_LOADS {
        return Err(LineFault::TooMuch(Limit::Loads));
    }
    let opens = matches!(word, Word::Transaction);
    let due = tally.blocks.saturating_add(u32::from(opens));
    if tally.commands.saturating_add(due) >= MAX_COMMANDS {
        return Err(LineFault::TooMuch(Limit::Commands));
    }
    Ok(())
}

/// The line as a command of this word.
pub fn judge_command<'a>(place: Place, tally: Tally, word: Word, rest: Rest<'a>) -> Judged<'a> {
    if tally.blocks > 0 && !may_stand_inside(word) {
        return Err(LineFault::Block(BlockFault::NotInside(word.name())));
    }
    if word == Word::Get {
        if rest.is_some() {
            return Err(LineFault::Field(FieldFault::BehindWord(word.name())));
        }
        return judge_counts(tally, word);
    }
    let (connection, rest) = word_field(Field::Connection, rest)?;
    judge_behind(place, tally, word, rest)?;
    judge_blocks(tally, word, connection)?;
    judge_counts(tally, word)
}
