//! How the end of a run differs from the one that is wanted.
use crate::reports::{entries_to, first_difference, last_line, text_of};
use crate::runs::Ended;
use std::alloc::{AllocError, Global};
use std::fmt::Write;

/// What differs where a run must have this status, with each server back.
pub fn from_status(alloc: Global, ended: &Ended, status: u8) -> Result<Option<String>, AllocError> {
    if ended.status != status {
        return Ok(Some(format!(in alloc; "status {}, and not {status}", ended.status)?));
    }
    if !ended.all_back {
        return Ok(Some(String::from_str(alloc, "a server isn't back")?));
    }
    Ok(None)
}

/// What differs where it must have written these bytes too.
pub fn from_end(
    alloc: Global,
    ended: &Ended,
    status: u8,
    wanted: &[u8],
) -> Result<Option<String>, AllocError> {
    if ended.status == status && ended.written() != wanted {
        let found = first_difference(alloc, text_of(ended.written()), text_of(wanted))?;
        return Ok(Some(found));
    }
    from_status(alloc, ended, status)
}

/// What differs where it must have written that this line is bad.
pub fn from_bad_line(
    alloc: Global,
    ended: &Ended,
    line: u64,
) -> Result<Option<String>, AllocError> {
    let wanted = format!(in alloc; "bad line {line}\n")?;
    from_end(alloc, ended, 1, wanted.as_bytes())
}

/// What differs where it must tell of the commands up to this line of the script as the report does.
pub fn from_entries(
    alloc: Global,
    ended: &Ended,
    report: &[u8],
    line: u64,
) -> Result<Option<String>, AllocError> {
    let told = entries_to(alloc, text_of(ended.written()), u64::MAX)?;
    let wanted = entries_to(alloc, text_of(report), line)?;
    if told.as_str() != wanted.as_str() {
        return Ok(Some(first_difference(alloc, &told, &wanted)?));
    }
    from_status(alloc, ended, 0)
}

/// What differs where these must be the last lines that it has written.
pub fn from_last_lines(
    alloc: Global,
    ended: &Ended,
    wanted: &str,
) -> Result<Option<String>, AllocError> {
    let written = text_of(ended.written());
    let last = last_line(written);
    let behind = written.strip_suffix('\n').unwrap_or("");
    let is_due = match behind.strip_suffix(wanted) {
        Some(before) => before.is_empty() || before.ends_with('\n'),
        None => false,
    };
    if !is_due {
        return Ok(Some(format!(in alloc; "it ends with '{last}', and not with '{wanted}'")?));
    }
    from_status(alloc, ended, 0)
}
