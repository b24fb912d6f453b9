//! What is wrong with the first line.
use crate::fields::{Judged, behind_fields, cut_word, judge_end};
use crate::{Field, LineFault};

/// The fields behind the word of the first line.
const FIELDS: [Field; 4] = [
    Field::Dialect,
    Field::PoolSize,
    Field::Customizer,
    Field::Check,
];

/// The line as the first one.
pub fn judge_header<'a>(line: &'a str) -> Judged<'a> {
    let (word, rest) = cut_word(line);
    if word != "session" {
        return Err(LineFault::NoHeader);
    }
    let rest = behind_fields(&FIELDS, rest)?;
    judge_end(Field::Check, rest)
}
