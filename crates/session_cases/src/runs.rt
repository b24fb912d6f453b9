//! One run of a session over servers in memory.
ghost use Rattle.std.specs.Prelude.{◌<◌};

use conn_server::{Connector, ScriptedConnector};
use conn_session::{BytesSink, BytesSource, run_command};
use std::alloc::{AllocError, Global};

/// How many bytes a read moves at most, where one fails.
pub const READ_TAKES: usize = 64;

/// How many bytes a write takes at most, where one fails.
pub const WRITE_TAKES: usize = 16;

/// How many bytes a read or a write moves at most, where none fails.
const WHOLE: usize = 65_536;

/// Room for the report of each case.
const ROOM: usize = 67_108_864;

/// The call of the source or of the sink that fails, from 1.
#[derive(Clone, Copy)]
pub enum Failing {
    Nothing,
    Read(u64),
    Write(u64),
}

/// How a run ended: its status, what was written, and whether each server that was opened is back.
#[derive(Drop)]
pub struct Ended {
    pub status: u8,
    written: BytesSink,
    pub all_back: bool,
}

impl Ended {
    /// The bytes that were written.
    pub fn written(&self) -> &[u8] {
        self.written.bytes()
    }
}

/// Whether each server that was opened is back.
fn are_back(connector: &ScriptedConnector) -> bool {
    for server in 0..connector.opened() {
        if connector.sent(server).is_none() {
            return false;
        }
    }
    true
}

/// Runs a script under words, which a space parts.
pub fn run(
    alloc: Global,
    line: &str,
    script: &[u8],
    failing: Failing,
) -> Result<Ended, AllocError> {
    let mut words = Vec::new(alloc);
    for word in line.split(' ') {
        words.push(String::from_str(alloc, word)?)?;
    }
    let (mut source, mut sink) = match failing {
        Failing::Nothing => (
            BytesSource::new(alloc, script, WHOLE, &[])?,
            BytesSink::new(alloc, ROOM, WHOLE, &[])?,
        ),
        Failing::Read(k) => (
            BytesSource::new(alloc, script, READ_TAKES, &[k])?,
            BytesSink::new(alloc, ROOM, WHOLE, &[])?,
        ),
        Failing::Write(k) => (
            BytesSource::new(alloc, script, WHOLE, &[])?,
            BytesSink::new(alloc, ROOM, WRITE_TAKES, &[k])?,
        ),
    };
    let mut connector = ScriptedConnector::new(alloc);
    let status = run_command(alloc, &words, &mut source, &mut sink, &mut connector);
    Ok(Ended {
        status,
        written: sink,
        all_back: are_back(&connector),
    })
}

/// Runs a script where nothing fails.
pub fn run_whole(alloc: Global, script: &[u8]) -> Result<Ended, AllocError> {
    run(alloc, "run", script, Failing::Nothing)
}
