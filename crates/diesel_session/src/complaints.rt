//! What a person is told on standard error: why a session gave no report, and which refusals it planned in vain.
use conn_server::{Connector, ScriptedConnector};
use conn_session::{SessionError, parse_script};
use line_faults::line_fault;
use std::io;

/// What the program can be asked.
const USAGE: &str = "\
usage: diesel_session run < SCRIPT
           runs the script over servers in memory, and writes its report
       diesel_session gen SEED COUNT
           runs the script that SEED generates with COUNT stanzas, at most 100000, and writes a summary";

/// Says which line of the script is bad, and why; nothing where memory is wanting.
fn complain_of_script(rt: &HostRuntime, script: &[u8]) -> io::Result<()> {
    match parse_script(rt.alloc(), script) {
        Err(SessionError::BadScript { line }) => {
            eprintln!(rt; "line {line}: {}", line_fault(script, line))
        }
        _ => Ok(()),
    }
}

/// The words of the lines that stand before the first command.
const SETUP: [&str; 7] = [
    "session",
    "url",
    "refuse",
    "refuserow",
    "noconnect",
    "query",
    "row",
];

/// The item that a `refuse` line names: its server, and its number there.
fn refused_item(line: &str) -> Option<(u32, u64)> {
    let mut words = line.strip_prefix("refuse ")?.split(' ');
    let server = words.next()?.parse::<u32>().ok()?;
    let item = words.next()?.parse::<u64>().ok()?;
    Some((server, item))
}

/// Says which `refuse` lines refused nothing, since their servers got fewer items.
fn tell_unreached(
    rt: &HostRuntime,
    script: &[u8],
    connector: &ScriptedConnector,
) -> io::Result<()> {
    let mut number = 0u32;
    for bytes in script.split(|byte| *byte == b'\n') {
        number = number.saturating_add(1);
        let line = str::from_utf8(bytes).unwrap_or("");
        let (word, _) = line.split_once(' ').unwrap_or((line, ""));
        if !SETUP.contains(&word) {
            return Ok(());
        }
        if let Some((server, item)) = refused_item(line) {
            if connector.sent(server).unwrap_or(0) < item {
                eprintln!(rt;
                    "line {number}: nothing is refused, server {server} got no item {item}"
                )?;
            }
        }
    }
    Ok(())
}

/// Says why the status is not 0, and where it is, which refusals were planned in vain. The bytes that were read are there where memory
/// sufficed to keep them.
pub fn complain(
    rt: &HostRuntime,
    status: u8,
    read: Option<&[u8]>,
    connector: &ScriptedConnector,
) -> io::Result<()> {
    match (status, read) {
        (0, Some(script)) => tell_unreached(rt, script, connector),
        (0, None) => Ok(()),
        (1, Some(script)) => complain_of_script(rt, script),
        (1, None) => Ok(()),
        (2, _) => eprintln!(rt; "standard input can't be read"),
        (3, _) => eprintln!(rt; "standard output can't be written"),
        (4, _) => eprintln!(rt; "out of memory"),
        _ => eprintln!(rt; "{USAGE}"),
    }
}
