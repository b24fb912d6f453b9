//! Parts of a report, and the first line in which it differs from the one that is wanted.
use std::alloc::{AllocError, Global};
use std::fmt::Write;

/// The text of these bytes, where they are one.
pub fn text_of(bytes: &[u8]) -> &str {
    str::from_utf8(bytes).unwrap_or("no text")
}

/// The last line of a text.
pub fn last_line(text: &str) -> &str {
    let lines = text.strip_suffix('\n').unwrap_or(text);
    match lines.rsplit_once('\n') {
        Some((_, last)) => last,
        None => lines,
    }
}

/// The line of the script that a line of a report tells of, where it tells of a command.
fn told_line(line: &str) -> Option<u64> {
    let (number, _) = line.split_once(' ')?;
    number.parse::<u64>().ok()
}

/// The lines of a report that tell of the commands up to this line of the script.
pub fn entries_to(alloc: Global, report: &str, most: u64) -> Result<String, AllocError> {
    let mut entries = String::new(alloc);
    for line in report.lines() {
        let Some(told) = told_line(line) else {
            continue;
        };
        if told <= most {
            entries.push_str(line)?;
            entries.push('\n')?;
        }
    }
    Ok(entries)
}

/// The first line of the report that isn't as the wanted one has it.
pub fn first_difference(alloc: Global, report: &str, wanted: &str) -> Result<String, AllocError> {
    let mut number = 0u64;
    let mut left = wanted.lines();
    for line in report.lines() {
        number = number.saturating_add(1);
        let due = left.next();
        if due != Some(line) {
            let due = due.unwrap_or("");
            return format!(in alloc; "line {number} is '{line}', and not '{due}'");
        }
    }
    let next = left.next().unwrap_or("");
    format!(in alloc; "behind line {number} stands no '{next}'")
}
