//! What is wrong with a statement's text.
use crate::fields::{Judged, Rest};
use crate::{Field, FieldFault, Limit, LineFault};

/// What no text holds.
const MARKS: [&str; 4] = [";", "#", "--", "/*"];

/// Whether the text begins with the first word of a statement.
fn begins_statement(text: &str) -> bool {
    text.starts_with("SELECT")
        || text.starts_with("INSERT")
        || text.starts_with("UPDATE")
        || text.starts_with("DELETE")
}

/// The rest of the line as a text of at most so many bytes, past which the limit is overstepped.
pub fn judge_text<'a>(rest: Rest<'a>, most: usize, limit: Limit) -> Judged<'a> {
    let Some(text) = rest else {
        return Err(LineFault::Field(FieldFault::Missing(Field::Text)));
    };
    if !begins_statement(text) && !text.bytes().all(|b| b == b' ') {
        return Err(LineFault::NoStatement);
    }
    for mark in MARKS {
        if text.contains(mark) {
            return Err(LineFault::Mark(mark));
        }
    }
    if text.len() > most {
        return Err(LineFault::TooMuch(limit));
    }
    Ok(())
}
