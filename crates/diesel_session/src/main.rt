//! Runs a session script from standard input, and writes its report to standard output.
#![tactic(auto)]

mod complaints;
mod streams;

use complaints::complain;
use conn_server::ScriptedConnector;
use conn_session::run_command;
use std::process::ExitCode;
use std::{env, io};
use streams::{Input, Output};

/// The status for want of memory.
const OUT_OF_MEMORY: u8 = 4;

/// The words of the command line behind the program's name; `None` where memory is wanting.
fn words_in(rt: &HostRuntime) -> Option<Vec<String>> {
    let mut words = Vec::new(rt.alloc());
    for word in env::args(rt).ok()?.skip(1) {
        words.push(word).ok()?;
    }
    Some(words)
}

fn main(rt: HostRuntime) -> ExitCode {
    let mut source = Input::new(rt.alloc(), rt.reader());
    let mut sink = Output::new(io::writer(&rt));
    let mut connector = ScriptedConnector::new(rt.alloc());
    let status = match words_in(&rt) {
        Some(words) => run_command(rt.alloc(), &words, &mut source, &mut sink, &mut connector),
        None => OUT_OF_MEMORY,
    };
    // The status tells it too, to whom standard error can't be written.
    let _ = complain(&rt, status, source.given(), &connector);
    ExitCode::from(status)
}
