//! Says what is wrong with each of the scripts that the file `index` names, which are all bad.
#![tactic(auto)]

use conn_script::{SessionError, parse_script};
use line_faults::line_fault;
use std::process::ExitCode;
use std::{fs, io};

/// The status where a file isn't read, or a line isn't written.
const FAILED: u8 = 1;

/// Says of the script with this name which line is bad, and why.
fn tell(rt: &HostRuntime, name: &str) -> io::Result<()> {
    let mut path = String::from_str(rt.alloc(), name)?;
    path.push_str(".script")?;
    let script = fs::read(rt, path.as_str())?;
    match parse_script(rt.alloc(), &script) {
        Err(SessionError::BadScript { line }) => {
            println!(rt; "{name}: line {line}: {}", line_fault(&script, line))
        }
        Err(SessionError::OutOfMemory) => println!(rt; "{name}: out of memory"),
        Ok(_) => println!(rt; "{name}: good"),
    }
}

/// Says it of each name.
fn tell_all(rt: &HostRuntime) -> io::Result<()> {
    let index = fs::read_to_string(rt, "index")?;
    for name in index.lines() {
        tell(rt, name)?;
    }
    Ok(())
}

fn main(rt: HostRuntime) -> ExitCode {
    match tell_all(&rt) {
        Ok(()) => ExitCode::from(0),
        Err(_) => ExitCode::from(FAILED),
    }
}
