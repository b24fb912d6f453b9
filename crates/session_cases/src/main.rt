//! Runs the whole sessions that the file `index` names, and says of each case whether it ends as it must.
#![tactic(auto)]

mod cases;
mod differences;
mod kinds;
mod pieces;
mod reports;
mod runs;
mod tables;

use cases::{Files, difference};
use kinds::Case;
use std::alloc::AllocError;
use std::process::ExitCode;
use std::{fs, io};

/// The status where a case differs.
const DIFFERS: u8 = 1;

/// The status where the index isn't read, or where nothing can be printed.
const UNREAD: u8 = 2;

/// The bytes of the file with this name and this ending, and none where it isn't read.
fn bytes_of(rt: &HostRuntime, name: &str, ending: &str) -> Result<Vec<u8>, AllocError> {
    let mut path = String::from_str(rt.alloc(), name)?;
    path.push_str(ending)?;
    match fs::read(rt, path.as_str()) {
        Ok(bytes) => Ok(bytes),
        Err(_) => Ok(Vec::new(rt.alloc())),
    }
}

/// What differs at this case, and none where nothing does. No case is as it must be without its files.
fn checked(rt: &HostRuntime, case: &Case<'_>) -> Result<Option<String>, AllocError> {
    let script = bytes_of(rt, case.name, case.kind.ending())?;
    let report = bytes_of(rt, case.name, ".report")?;
    let files = Files {
        script: &script,
        report: &report,
    };
    difference(rt.alloc(), &case.kind, &files)
}

/// Says what differs at this line of the index, and whether nothing does.
fn told(rt: &HostRuntime, line: &str) -> io::Result<bool> {
    let Some(case) = Case::of(line) else {
        println!(rt; "DIFFERS {line}: no case is written so")?;
        return Ok(false);
    };
    match checked(rt, &case)? {
        None => {
            println!(rt; "ok {line}")?;
            Ok(true)
        }
        Some(text) => {
            println!(rt; "DIFFERS {line}: {text}")?;
            Ok(false)
        }
    }
}

/// Says it of each line, then how many there are and how many of them differ. Whether none does.
fn all_told(rt: &HostRuntime) -> io::Result<bool> {
    let index = fs::read_to_string(rt, "index")?;
    let mut cases = 0u64;
    let mut differ = 0u64;
    for line in index.lines() {
        cases = cases.saturating_add(1);
        if !told(rt, line)? {
            differ = differ.saturating_add(1);
        }
    }
    println!(rt; "{cases} cases, {differ} differ")?;
    Ok(differ == 0)
}

fn main(rt: HostRuntime) -> ExitCode {
    match all_told(&rt) {
        Ok(true) => ExitCode::from(0),
        Ok(false) => ExitCode::from(DIFFERS),
        Err(_) => ExitCode::from(UNREAD),
    }
}
