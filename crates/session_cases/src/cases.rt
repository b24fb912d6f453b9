//! What is done with the script of a case.
use crate::differences::{from_bad_line, from_end, from_entries, from_last_lines};
use crate::kinds::{CaseKind, Refusals};
use crate::reports::{last_line, text_of};
use crate::runs::{Failing, READ_TAKES, WRITE_TAKES, run, run_whole};
use crate::tables::table_difference;
use std::alloc::{AllocError, Global};
use std::fmt::Write;

/// The files of a case.
#[derive(Clone, Copy)]
pub struct Files<'a> {
    pub script: &'a [u8],
    pub report: &'a [u8],
}

/// How many blocks are open behind a line, if so many are before it.
fn open_behind(open: u64, line: &str) -> u64 {
    match line.split_once(' ') {
        Some(("transaction", _)) => open.saturating_add(1),
        Some(("end" | "fail", _)) => open.saturating_sub(1),
        _ => open,
    }
}

/// What differs where the script is cut.
fn cut(alloc: Global, files: &Files<'_>) -> Result<Option<String>, AllocError> {
    let mut lines = 0u64;
    let mut open = 0u64;
    let mut beginning = Vec::new(alloc);
    let mut found = from_bad_line(alloc, &run_whole(alloc, &beginning)?, 1)?;
    for byte in files.script {
        if found.is_some() {
            return Ok(found);
        }
        beginning.push(*byte)?;
        let ended = run_whole(alloc, &beginning)?;
        if *byte == b'\n' {
            lines = lines.saturating_add(1);
            open = open_behind(open, last_line(text_of(&beginning)));
        }
        found = if *byte == b'\n' && open == 0 {
            from_entries(alloc, &ended, files.report, lines)?
        } else {
            from_bad_line(alloc, &ended, lines.saturating_add(1))?
        };
    }
    Ok(found)
}

/// What differs where a read fails: one of those that bytes move by, or the one behind them, which finds the end.
fn reads(alloc: Global, files: &Files<'_>) -> Result<Option<String>, AllocError> {
    let mut k = 1u64;
    for _ in (0..files.script.len()).step_by(READ_TAKES) {
        let ended = run(alloc, "run", files.script, Failing::Read(k))?;
        let found = from_end(alloc, &ended, 2, b"")?;
        if found.is_some() {
            return Ok(found);
        }
        k = k.saturating_add(1);
    }
    let ended = run(alloc, "run", files.script, Failing::Read(k))?;
    from_end(alloc, &ended, 2, b"")
}

/// What differs where a write fails.
fn writes(alloc: Global, files: &Files<'_>) -> Result<Option<String>, AllocError> {
    let mut k = 1u64;
    for start in (0..files.report.len()).step_by(WRITE_TAKES) {
        let ended = run(alloc, "run", files.script, Failing::Write(k))?;
        let found = from_end(alloc, &ended, 3, &files.report[..start])?;
        if found.is_some() {
            return Ok(found);
        }
        k = k.saturating_add(1);
    }
    let ended = run(alloc, "run", files.script, Failing::Write(k))?;
    from_end(alloc, &ended, 0, files.report)
}

/// What differs where this item is refused.
fn refused_at(
    alloc: Global,
    files: &Files<'_>,
    refusals: &Refusals<'_>,
    item: u64,
) -> Result<Option<String>, AllocError> {
    let (header, rest) = text_of(files.script).split_once('\n').unwrap_or(("", ""));
    let order = refusals.order;
    let script = format!(in alloc; "{header}\nrefuse 0 {item} {order}\n{rest}")?;
    let ended = run_whole(alloc, script.as_bytes())?;
    if !text_of(ended.written()).contains(refusals.error) {
        return Ok(Some(format!(in alloc; "item {item} is refused, and not reported so")?));
    }
    from_last_lines(alloc, &ended, last_line(text_of(files.report)))
}

/// What differs where an item is refused.
fn refused(
    alloc: Global,
    files: &Files<'_>,
    refusals: &Refusals<'_>,
) -> Result<Option<String>, AllocError> {
    for item in 1..=refusals.items {
        let found = refused_at(alloc, files, refusals, item)?;
        if found.is_some() {
            return Ok(found);
        }
    }
    Ok(None)
}

/// What differs at a case of this kind, and none where nothing does.
pub fn difference(
    alloc: Global,
    kind: &CaseKind<'_>,
    files: &Files<'_>,
) -> Result<Option<String>, AllocError> {
    match kind {
        CaseKind::Run(status) => {
            let ended = run_whole(alloc, files.script)?;
            from_end(alloc, &ended, *status, files.report)
        }
        CaseKind::Cut => cut(alloc, files),
        CaseKind::Reads => reads(alloc, files),
        CaseKind::Writes => writes(alloc, files),
        CaseKind::Words(words) => {
            let ended = run(alloc, words, files.script, Failing::Read(1))?;
            from_end(alloc, &ended, 5, b"")
        }
        CaseKind::Generated(words) => {
            let ended = run(alloc, words, files.script, Failing::Read(1))?;
            from_end(alloc, &ended, 0, files.report)
        }
        CaseKind::Refused(refusals) => refused(alloc, files, refusals),
        CaseKind::Table => table_difference(alloc, text_of(files.script)),
    }
}
