//! The kinds of blocks, as the lines that open them name them.
ghost use Rattle.std.specs.Option.{option_copied, option_map};
ghost use Rattle.std.specs.Prelude.{◌≡◌};
ghost use Rattle.conn_script.specs.BlockForms.{block_alone, block_named, built_block, characteristics_of, deferrable_at, deferrable_named, level_at, level_named, mode_at, mode_named};

use crate::BlockKind;
use crate::fields::word_field;
use crate::words::cut_word;
use conn_model::{BlockForm, Characteristics, Deferrable, IsolationLevel, ReadMode};

/// The isolation level of this name, where a dash stands for none.
fn level_of(text: &str) -> Option<Option<IsolationLevel>>
    ensures { result ≡ level_named text.now }
{
    match text {
        "-" => Some(None),
        "rc" => Some(Some(IsolationLevel::ReadCommitted)),
        "rr" => Some(Some(IsolationLevel::RepeatableRead)),
        "s" => Some(Some(IsolationLevel::Serializable)),
        _ => None,
    }
}

/// The next word as an isolation level.
fn level_field(rest: Option<&str>) -> Option<(Option<IsolationLevel>, Option<&str>)>
    ensures { option_map (λ p. (p.0, option_copied p.1)) result
        ≡ level_at (option_copied rest.entry) }
{
    let (word, rest) = word_field(rest)?;
    let level = level_of(word)?;
    Some((level, rest))
}

/// The read mode of this name, where a dash stands for none.
fn mode_of(text: &str) -> Option<Option<ReadMode>>
    ensures { result ≡ mode_named text.now }
{
    match text {
        "-" => Some(None),
        "ro" => Some(Some(ReadMode::ReadOnly)),
        "rw" => Some(Some(ReadMode::ReadWrite)),
        _ => None,
    }
}

/// The next word as a read mode.
fn mode_field(rest: Option<&str>) -> Option<(Option<ReadMode>, Option<&str>)>
    ensures { option_map (λ p. (p.0, option_copied p.1)) result
        ≡ mode_at (option_copied rest.entry) }
{
    let (word, rest) = word_field(rest)?;
    let mode = mode_of(word)?;
    Some((mode, rest))
}

/// Whether a transaction is deferrable, by the word that says so, where a dash says nothing.
fn deferrable_of(text: &str) -> Option<Option<Deferrable>>
    ensures { result ≡ deferrable_named text.now }
{
    match text {
        "-" => Some(None),
        "d" => Some(Some(Deferrable::Deferrable)),
        "nd" => Some(Some(Deferrable::NotDeferrable)),
        _ => None,
    }
}

/// The next word as whether a transaction is deferrable.
fn deferrable_field(rest: Option<&str>) -> Option<(Option<Deferrable>, Option<&str>)>
    ensures { option_map (λ p. (p.0, option_copied p.1)) result
        ≡ deferrable_at (option_copied rest.entry) }
{
    let (word, rest) = word_field(rest)?;
    let deferrable = deferrable_of(word)?;
    Some((deferrable, rest))
}

/// The last three words as characteristics of a transaction.
fn characteristics_in(rest: Option<&str>) -> Option<Characteristics>
    ensures { result ≡ characteristics_of (option_copied rest.entry) }
{
    let (isolation_level, rest) = level_field(rest)?;
    let (read_mode, rest) = mode_field(rest)?;
    let (deferrable, rest) = deferrable_field(rest)?;
    if rest.is_some() {
        return None;
    }
    Some(Characteristics {
        isolation_level,
        read_mode,
        deferrable,
    })
}

/// The kind of block that begins with the characteristics that these words say.
fn built_block_in(rest: Option<&str>) -> Option<BlockKind>
    ensures { result ≡ built_block (option_copied rest.entry) }
{
    let characteristics = characteristics_in(rest)?;
    Some(BlockKind::Form(BlockForm::Build(characteristics)))
}

/// The kind of block that one word names.
fn block_by_word(text: &str) -> Option<BlockKind>
    ensures { result ≡ block_alone text.now }
{
    match text {
        "plain" => Some(BlockKind::Plain),
        "test" => Some(BlockKind::Test),
        "immediate" => Some(BlockKind::Form(BlockForm::Immediate)),
        "exclusive" => Some(BlockKind::Form(BlockForm::Exclusive)),
        _ => None,
    }
}

/// The kind of block that stands behind the connection.
pub fn block_of(text: &str) -> Option<BlockKind>
    ensures { result ≡ block_named text.now }
{
    let (word, rest) = cut_word(text);
    if word == "build" {
        return built_block_in(rest);
    }
    block_by_word(text)
}
