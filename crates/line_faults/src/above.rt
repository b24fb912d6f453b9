//! What the lines above a line say.
use crate::fields::cut_word;
use crate::nearest::word_of;
use conn_model::{Dialect, number_u32};
use conn_script::Word;

/// A line of a script, and the lines above it.
#[derive(Clone, Copy, Debug)]
pub struct Place<'a> {
    script: &'a [u8],
    /// How many lines stand above.
    above: usize,
}

/// What the lines above come to.
#[derive(Clone, Copy, Debug)]
pub struct Tally {
    pub dialect: Dialect,
    pub commands: u32,
    /// How many commands load rows.
    pub loads: u32,
    /// How many blocks are open, and the connection that they name.
    pub blocks: u32,
    pub inside: u32,
}

/// The dialect that the first line names.
fn dialect_of(line: &str) -> Dialect {
    match line.split(' ').nth(1) {
        Some("mysql") => Dialect::Mysql,
        Some("sqlite") => Dialect::Sqlite,
        _ => Dialect::Pg,
    }
}

impl Tally {
    /// What stands above the second line.
    fn new(first: &str) -> Tally {
        Tally {
            dialect: dialect_of(first),
            commands: 0,
            loads: 0,
            blocks: 0,
            inside: 0,
        }
    }

    /// What it is behind a command.
    fn behind(self, word: Word, rest: &str) -> Tally {
        let mut tally = self;
        tally.commands = tally.commands.saturating_add(1);
        match word {
            Word::Load | Word::Each | Word::One | Word::Optional => {
                tally.loads = tally.loads.saturating_add(1);
            }
            Word::Transaction => {
                let (connection, _) = cut_word(rest);
                tally.blocks = tally.blocks.saturating_add(1);
                tally.inside = number_u32(connection).unwrap_or(0);
            }
            Word::End | Word::Fail => tally.blocks = tally.blocks.saturating_sub(1),
            _ => {}
        }
        tally
    }
}

/// Whether the line begins with these words.
fn begins_with(line: &str, words: &[&str]) -> bool {
    let mut rest = Some(line);
    for word in words {
        let Some(text) = rest else {
            return false;
        };
        let (first, behind) = cut_word(text);
        if first != *word {
            return false;
        }
        rest = behind;
    }
    true
}

impl<'a> Place<'a> {
    /// The place of the line that has so many above it.
    pub fn new(script: &'a [u8], above: usize) -> Place<'a> {
        Place { script, above }
    }

    /// What the lines above come to.
    pub fn tally(self) -> Tally {
        let mut tally = Tally::new("");
        for (k, bytes) in self.script.split(|b| *b == b'\n').enumerate() {
            if k >= self.above {
                break;
            }
            let line = str::from_utf8(bytes).unwrap_or("");
            if k == 0 {
                tally = Tally::new(line);
            }
            let (word, rest) = cut_word(line);
            if let Some(word) = word_of(word) {
                tally = tally.behind(word, rest.unwrap_or(""));
            }
        }
        tally
    }

    /// Whether a line above begins with these words.
    pub fn is_said(self, words: &[&str]) -> bool {
        for (k, bytes) in self.script.split(|b| *b == b'\n').enumerate() {
            if k >= self.above {
                break;
            }
            if begins_with(str::from_utf8(bytes).unwrap_or(""), words) {
                return true;
            }
        }
        false
    }

    /// Whether a query that is declared above has this id.
    pub fn has_id(self, id: &str) -> bool {
        for (k, bytes) in self.script.split(|b| *b == b'\n').enumerate() {
            if k >= self.above {
                break;
            }
            let line = str::from_utf8(bytes).unwrap_or("");
            if line.starts_with("query ") && line.split(' ').nth(3) == Some(id) {
                return true;
            }
        }
        false
    }
}
