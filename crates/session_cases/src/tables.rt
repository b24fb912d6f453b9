//! Tables: each line tells a script and the last lines of its report, or the line in which it is bad.
use crate::differences::{from_end, from_last_lines};
use crate::pieces::push_piece;
use crate::reports::text_of;
use crate::runs::run_whole;
use std::alloc::{AllocError, Global};
use std::fmt::Write;

/// What stands around the piece of each line below it.
#[derive(Clone, Copy)]
struct Frame<'a> {
    before: &'a str,
    behind: &'a str,
}

/// A line of a table.
enum Row<'a> {
    /// Only its reader is told something, or nothing.
    Remark,
    Before(&'a str),
    Behind(&'a str),
    /// How the report of a script ends, and its piece.
    Tried(&'a str, &'a str),
}

impl<'a> Row<'a> {
    /// The row that a line writes.
    fn of(line: &'a str) -> Option<Row<'a>> {
        if line.is_empty() || line.starts_with("--") {
            return Some(Row::Remark);
        }
        if let Some(piece) = line.strip_prefix("before ") {
            return Some(Row::Before(piece));
        }
        if let Some(piece) = line.strip_prefix("behind ") {
            return Some(Row::Behind(piece));
        }
        let (end, piece) = line.split_once(" <- ")?;
        Some(Row::Tried(end, piece))
    }
}

/// What differs where the report of these pieces must end so.
fn tried(
    alloc: Global,
    frame: &Frame<'_>,
    end: &str,
    piece: &str,
) -> Result<Option<String>, AllocError> {
    let mut script = Vec::new(alloc);
    let mut lines = Vec::new(alloc);
    for piece in [frame.before, piece, frame.behind] {
        if !push_piece(alloc, &mut script, piece)? {
            return Ok(Some(String::from_str(alloc, "no piece is written so")?));
        }
    }
    if !push_piece(alloc, &mut lines, end)? {
        return Ok(Some(String::from_str(alloc, "no report is written so")?));
    }
    let ended = run_whole(alloc, &script)?;
    if !end.starts_with("bad line ") {
        return from_last_lines(alloc, &ended, text_of(&lines));
    }
    lines.push(b'\n')?;
    from_end(alloc, &ended, 1, &lines)
}

/// What differs at the first row where something does.
pub fn table_difference(alloc: Global, table: &str) -> Result<Option<String>, AllocError> {
    let mut frame = Frame {
        before: "",
        behind: "",
    };
    let mut rows = 0u64;
    for line in table.lines() {
        let found = match Row::of(line) {
            None => Some(String::from_str(alloc, "no row is written so")?),
            Some(Row::Remark) => None,
            Some(Row::Before(piece)) => {
                frame.before = piece;
                None
            }
            Some(Row::Behind(piece)) => {
                frame.behind = piece;
                None
            }
            Some(Row::Tried(end, piece)) => {
                rows = rows.saturating_add(1);
                tried(alloc, &frame, end, piece)?
            }
        };
        if let Some(text) = found {
            return Ok(Some(format!(in alloc; "{line}: {text}")?));
        }
    }
    if rows == 0 {
        return Ok(Some(String::from_str(alloc, "the table has no row")?));
    }
    Ok(None)
}
