//! The first line of a script.
ghost use Rattle.std.specs.Option.{option_copied, option_map};
ghost use Rattle.std.specs.Prelude.{◌≡◌};
ghost use Rattle.conn_script.specs.Fields.{number_at};
ghost use Rattle.conn_script.specs.Headers.{check_at, check_named, customizer_at, customizer_named, dialect_at, dialect_named, header_of, settings_of};

use crate::Customizer;
use crate::fields::{number_field, word_field};
use crate::words::cut_word;
use conn_model::Dialect;

/// The connections that a pool has at most.
const MAX_SIZE: u64 = 64;

/// What the first line says: the dialect of the servers, how many connections the pool has at most,
/// what is done with a new one, and whether one that was kept is checked when it is handed out.
#[derive(Clone, Copy, Debug)]
pub struct Header {
    pub dialect: Dialect,
    pub max_size: u32,
    pub customizer: Customizer,
    pub check: bool,
}

/// The dialect of this name.
fn dialect_of(text: &str) -> Option<Dialect>
    ensures { result ≡ dialect_named text.now }
{
    match text {
        "pg" => Some(Dialect::Pg),
        "mysql" => Some(Dialect::Mysql),
        "sqlite" => Some(Dialect::Sqlite),
        _ => None,
    }
}

/// The next word as a dialect.
fn dialect_field(rest: Option<&str>) -> Option<(Dialect, Option<&str>)>
    ensures { option_map (λ p. (p.0, option_copied p.1)) result
        ≡ dialect_at (option_copied rest.entry) }
{
    let (word, rest) = word_field(rest)?;
    let dialect = dialect_of(word)?;
    Some((dialect, rest))
}

/// The next word as the size of a pool.
fn size_field(rest: Option<&str>) -> Option<(u32, Option<&str>)>
    ensures { option_map (λ p. (p.0, option_copied p.1)) result
        ≡ number_at 1 64 (option_copied rest.entry) }
{
    let (size, rest) = number_field(1, MAX_SIZE, rest)?;
    Some((size as u32, rest))
}

/// What is done with a new connection, by its name.
fn customizer_of(text: &str) -> Option<Customizer>
    ensures { result ≡ customizer_named text.now }
{
    match text {
        "nop" => Some(Customizer::Nop),
        "test" => Some(Customizer::Test),
        "begin" => Some(Customizer::Begin),
        _ => None,
    }
}

/// The next word as what is done with a new connection.
fn customizer_field(rest: Option<&str>) -> Option<(Customizer, Option<&str>)>
    ensures { option_map (λ p. (p.0, option_copied p.1)) result
        ≡ customizer_at (option_copied rest.entry) }
{
    let (word, rest) = word_field(rest)?;
    let customizer = customizer_of(word)?;
    Some((customizer, rest))
}

/// Whether kept connections are checked, by the word that says so.
fn check_of(text: &str) -> Option<bool>
    ensures { result ≡ check_named text.now }
{
    match text {
        "check" => Some(true),
        "nocheck" => Some(false),
        _ => None,
    }
}

/// The next word as whether kept connections are checked.
fn check_field(rest: Option<&str>) -> Option<(bool, Option<&str>)>
    ensures { option_map (λ p. (p.0, option_copied p.1)) result
        ≡ check_at (option_copied rest.entry) }
{
    let (word, rest) = word_field(rest)?;
    let check = check_of(word)?;
    Some((check, rest))
}

/// The header with the settings of a pool that stand behind the dialect.
fn settings_in(dialect: Dialect, rest: Option<&str>) -> Option<Header>
    ensures { result ≡ settings_of dialect (option_copied rest.entry) }
{
    let (max_size, rest) = size_field(rest)?;
    let (customizer, rest) = customizer_field(rest)?;
    let (check, rest) = check_field(rest)?;
    if rest.is_some() {
        return None;
    }
    Some(Header {
        dialect,
        max_size,
        customizer,
        check,
    })
}

/// The header that a line is, or `None` where it is none.
pub fn header_in(line: &str) -> Option<Header>
    ensures { result ≡ header_of line.now }
{
    let (word, rest) = cut_word(line);
    if word != "session" {
        return None;
    }
    let (dialect, rest) = dialect_field(rest)?;
    settings_in(dialect, rest)
}
