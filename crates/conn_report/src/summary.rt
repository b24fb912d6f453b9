//! The summary of a session.
ghost use Rattle.std.specs.Prelude.{◌≡◌, ◌≤◌, ◌++◌, count_by, decimal, length, sum_by, IfOk, OnOk};
ghost use Rattle.conn_report.specs.Summary.{count_text, is_done, summary, writes_told};
ghost use Rattle.conn_report.specs.declared.entry.Entry.{Entry as entry_type};

use crate::{Entry, Reply, Texts, Transcript};
use itoa::Buffer;
use std::alloc::{AllocError, Global};

/// Whether what was asked was done.
fn is_done(reply: &Reply) -> bool
    ensures { result ≡ is_done reply.now }
{
    matches!(
        reply,
        Reply::Ok
            | Reply::Kept
            | Reply::Closed
            | Reply::Count(_)
            | Reply::Rows(_)
            | Reply::OneRow(_)
            | Reply::NoRow
    )
}

/// How many of the entries say that what was asked was done.
fn count_done(entries: &[Entry]) -> usize
    ensures count { result ≡ count_by (λ (e : entry_type). is_done e.reply) entries.now }
    ensures within { result ≤ length entries.now }
{
    let mut count = 0;
    for entry in entries {
        if is_done(&entry.reply) {
            count += 1;
        }
    }
    count
}

/// How many writes are told of all servers. More than a number counts wouldn't fit in memory.
fn count_writes(servers: &[Option<Texts>]) -> Result<usize, AllocError>
    ensures { IfOk result (λ count. count ≡ sum_by writes_told servers.now) }
{
    let mut count = 0usize;
    for writes in servers {
        if let Some(writes) = writes {
            match count.checked_add(writes.len()) {
                Some(more) => count = more,
                None => return Err(AllocError),
            }
        }
    }
    Ok(count)
}

/// Adds the name of a count, and the count.
fn push_count(out: &mut Vec<u8>, name: &[u8], count: usize) -> Result<(), AllocError>
    ensures { OnOk result (out.new.items ≡ out.old.items ++ count_text name.now count) }
{
    let mut digits = Buffer::new();
    out.extend_from_slice(name)?;
    out.extend_from_slice(digits.format(count).as_bytes())
}

/// One line with the counts of a session: entries, those of what was done and the others, servers, and their committed writes.
/// Only want of memory is an error.
pub fn summarize(alloc: Global, transcript: &Transcript) -> Result<Vec<u8>, AllocError>
    ensures { IfOk result (λ bytes. bytes.items
        ≡ summary transcript.now.entries transcript.now.servers) }
{
    let entries = transcript.entries.as_slice();
    let servers = transcript.servers.as_slice();
    let done = count_done(entries);
    let writes = count_writes(servers)?;
    let mut out = Vec::new(alloc);
    push_count(&mut out, b"entries ", entries.len())?;
    push_count(&mut out, b" ok ", done)?;
    push_count(&mut out, b" refused ", entries.len() - done)?;
    push_count(&mut out, b" servers ", servers.len())?;
    push_count(&mut out, b" writes ", writes)?;
    out.extend_from_slice(b"\n")?;
    Ok(out)
}
