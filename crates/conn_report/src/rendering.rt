//! The text of a report.
ghost use Rattle.std.specs.Prelude.{◌≡◌, ◌≤◌, ◌+◌, ◌++◌, length, drop, codes, decimal, IfOk, IfSome, OnOk};
ghost use Rattle.conn_script.specs.Spelling.{word_text};
ghost use Rattle.conn_report.specs.Report.{pool_error_text, error_text, or_dash, reply_text, words_if, depth_text, status_text, entry_head, entry_end, entry_line, write_line, server_lines, last_line, report};

use crate::errors::{ErrorText, PoolErrorText};
use crate::rows::{push_one_row, push_rows};
use crate::{Entry, Reply, Texts, Transcript, Word};
use conn_manager::{InTransactionStatus, TransactionManagerStatus};
use conn_result::{Error, pool};
use itoa::{Buffer, write_digits};
use std::alloc::{AllocError, Global};

/// Writes the words so that they end at `end`, and answers where they start.
#[inline(always)]
fn put(place: &mut [u8], end: usize, words: &[u8]) -> usize
    requires { (length words.now ≤ end) × (end ≤ length place.old) }
    ensures start { result + length words.now ≡ end }
    ensures written { drop result place.new ≡ words.now ++ drop end place.old }
    ensures len { length place.new ≡ length place.old }
{
    let start = end - words.len();
    place[start..end].copy_from_slice(words);
    start
}

/// The same of a bar between spaces. It goes byte by byte, since a copy of more of them tests first whether they overlap.
#[inline(always)]
fn put_bar(place: &mut [u8], end: usize) -> usize
    requires { (3 ≤ end) × (end ≤ length place.old) }
    ensures start { result + 3 ≡ end }
    ensures written { drop result place.new ≡ codes " | " ++ drop end place.old }
    ensures len { length place.new ≡ length place.old }
{
    let at = put(place, end, b" ");
    let at = put(place, at, b"|");
    put(place, at, b" ")
}

/// Writes the number so that it ends at `end`, and answers where it starts.
fn put_number(place: &mut [u8], end: usize, n: u64) -> usize
    requires { (20 ≤ end) × (end ≤ length place.old) }
    ensures room { (end ≤ result + 20) × (result ≤ end) }
    ensures written { drop result place.new ≡ decimal n ++ drop end place.old }
    ensures len { length place.new ≡ length place.old }
{
    write_digits(n, place, end)
}

/// The same of a number or a dash.
fn put_number_or_dash(place: &mut [u8], end: usize, n: Option<u64>) -> usize
    requires { (20 ≤ end) × (end ≤ length place.old) }
    ensures room { (end ≤ result + 20) × (result ≤ end) }
    ensures written { drop result place.new ≡ or_dash decimal n ++ drop end place.old }
    ensures len { length place.new ≡ length place.old }
{
    match n {
        None => put(place, end, b"-"),
        Some(n) => put_number(place, end, n),
    }
}

/// The same of words where a test holds.
fn put_if(place: &mut [u8], end: usize, holds: bool, words: &[u8]) -> usize
    requires { (length words.now ≤ end) × (end ≤ length place.old) }
    ensures room { (end ≤ result + length words.now) × (result ≤ end) }
    ensures written { drop result place.new ≡ words_if holds words.now ++ drop end place.old }
    ensures len { length place.new ≡ length place.old }
{
    if holds { put(place, end, words) } else { end }
}

/// The same of a transaction.
fn put_depth(place: &mut [u8], end: usize, t: InTransactionStatus) -> usize
    requires { (39 ≤ end) × (end ≤ length place.old) }
    ensures room { (end ≤ result + 39) × (result ≤ end) }
    ensures written { drop result place.new ≡ depth_text t ++ drop end place.old }
    ensures len { length place.new ≡ length place.old }
{
    let at = put_if(place, end, t.test_transaction, b" test");
    let at = put_if(
        place,
        at,
        t.requires_rollback_maybe_up_to_top_level,
        b" flagged",
    );
    let at = put_number(place, at, u64::from(t.transaction_depth));
    put(place, at, b"depth ")
}

/// The same of a tracked status or a dash.
fn put_status_or_dash(
    place: &mut [u8],
    end: usize,
    status: Option<TransactionManagerStatus>,
) -> usize
    requires { (39 ≤ end) × (end ≤ length place.old) }
    ensures room { (end ≤ result + 39) × (result ≤ end) }
    ensures written { drop result place.new ≡ or_dash status_text status ++ drop end place.old }
    ensures len { length place.new ≡ length place.old }
{
    match status {
        None => put(place, end, b"-"),
        Some(TransactionManagerStatus::InError) => put(place, end, b"broken"),
        Some(TransactionManagerStatus::Valid(status)) => match status.in_transaction {
            None => put(place, end, b"none"),
            Some(transaction) => put_depth(place, end, transaction),
        },
    }
}

/// The same of a command's word. An arm for each, so that its length is known when this is built.
fn put_word(place: &mut [u8], end: usize, word: Word) -> usize
    requires { (11 ≤ end) × (end ≤ length place.old) }
    ensures room { (end ≤ result + 11) × (result ≤ end) }
    ensures written { drop result place.new ≡ word_text word ++ drop end place.old }
    ensures len { length place.new ≡ length place.old }
{
    match word {
        Word::Get => put(place, end, Word::Get.name().as_bytes()),
        Word::Put => put(place, end, Word::Put.name().as_bytes()),
        Word::Batch => put(place, end, Word::Batch.name().as_bytes()),
        Word::Begin => put(place, end, Word::Begin.name().as_bytes()),
        Word::Commit => put(place, end, Word::Commit.name().as_bytes()),
        Word::Rollback => put(place, end, Word::Rollback.name().as_bytes()),
        Word::TestBegin => put(place, end, Word::TestBegin.name().as_bytes()),
        Word::Exec => put(place, end, Word::Exec.name().as_bytes()),
        Word::Load => put(place, end, Word::Load.name().as_bytes()),
        Word::Each => put(place, end, Word::Each.name().as_bytes()),
        Word::One => put(place, end, Word::One.name().as_bytes()),
        Word::Optional => put(place, end, Word::Optional.name().as_bytes()),
        Word::CacheSize => put(place, end, Word::CacheSize.name().as_bytes()),
        Word::Ping => put(place, end, Word::Ping.name().as_bytes()),
        Word::Transaction => put(place, end, Word::Transaction.name().as_bytes()),
        Word::End => put(place, end, Word::End.name().as_bytes()),
        Word::Fail => put(place, end, Word::Fail.name().as_bytes()),
    }
}

/// The same of an entry's head.
fn put_head(place: &mut [u8], end: usize, entry: &Entry) -> usize
    requires { (64 ≤ end) × (end ≤ length place.old) }
    ensures room { result ≤ end }
    ensures written { drop result place.new ≡ entry_head entry.now ++ drop end place.old }
    ensures len { length place.new ≡ length place.old }
{
    let at = put_number_or_dash(place, end, entry.connection.map(u64::from));
    let at = put(place, at, b" ");
    let at = put_word(place, at, entry.word);
    let at = put(place, at, b" ");
    put_number(place, at, u64::from(entry.line))
}

/// The same of what stands behind an entry's reply.
fn put_end(place: &mut [u8], end: usize, entry: &Entry) -> usize
    requires { (72 ≤ end) × (end ≤ length place.old) }
    ensures room { (end ≤ result + 72) × (result ≤ end) }
    ensures written { drop result place.new ≡ entry_end entry.now ++ drop end place.old }
    ensures len { length place.new ≡ length place.old }
{
    let at = put(place, end, b"\n");
    let at = put_number_or_dash(place, at, entry.mark);
    let at = put_bar(place, at);
    let at = put_status_or_dash(place, at, entry.status);
    put_bar(place, at)
}

/// The same of how many rows were affected.
fn put_count(place: &mut [u8], end: usize, n: u64) -> usize
    requires { (32 ≤ end) × (end ≤ length place.old) }
    ensures room { (end ≤ result + 32) × (result ≤ end) }
    ensures written { drop result place.new
        ≡ codes " | count " ++ decimal n ++ drop end place.old }
    ensures len { length place.new ≡ length place.old }
{
    let at = put_number(place, end, n);
    put(place, at, b" | count ")
}

/// The same of a reply that is neither rows nor an error, and `None` for another.
fn put_reply(place: &mut [u8], end: usize, reply: &Reply) -> Option<usize>
    requires { (32 ≤ end) × (end ≤ length place.old) }
    ensures room { IfSome result (λ at. (end ≤ at + 32) × (at ≤ end)) }
    ensures written { IfSome result (λ at. drop at place.new
        ≡ codes " | " ++ reply_text reply.now ++ drop end place.old) }
    ensures len { length place.new ≡ length place.old }
{
    match reply {
        Reply::Ok => Some(put(place, end, b" | ok")),
        Reply::Kept => Some(put(place, end, b" | kept")),
        Reply::Closed => Some(put(place, end, b" | closed")),
        Reply::Count(n) => Some(put_count(place, end, *n)),
        Reply::NoRow => Some(put(place, end, b" | none")),
        Reply::NotOut => Some(put(place, end, b" | notout")),
        Reply::NoneFree => Some(put(place, end, b" | nonefree")),
        Reply::Skipped => Some(put(place, end, b" | skipped")),
        Reply::Rows(_) | Reply::OneRow(_) | Reply::Error(_) | Reply::Pool(_) => None,
    }
}

/// Writes the entry's line to the end of the place and answers where it starts, where its reply is neither rows nor an error.
fn put_entry(place: &mut [u8], entry: &Entry) -> Option<usize>
    requires { 168 ≤ length place.old }
    ensures room { IfSome result (λ at. at ≤ length place.new) }
    ensures written { IfSome result (λ at. drop at place.new ≡ entry_line entry.now) }
{
    let end = place.len();
    let at = put_end(place, end, entry);
    let at = put_reply(place, at, &entry.reply)?;
    Some(put_head(place, at, entry))
}

/// Adds what stands before a reply.
fn push_head(out: &mut Vec<u8>, entry: &Entry) -> Result<(), AllocError>
    ensures { OnOk result (out.new.items ≡ out.old.items ++ entry_head entry.now ++ codes " | ") }
{
    let mut place = [0; 72];
    let at = put_bar(&mut place, 72);
    let at = put_head(&mut place, at, entry);
    out.extend_from_slice(&place[at..])
}

/// Adds what stands behind a reply.
fn push_end(out: &mut Vec<u8>, entry: &Entry) -> Result<(), AllocError>
    ensures { OnOk result (out.new.items ≡ out.old.items ++ entry_end entry.now) }
{
    let mut place = [0; 72];
    let at = put_end(&mut place, 72, entry);
    out.extend_from_slice(&place[at..])
}

/// Adds how many rows a query affected.
fn push_count(out: &mut Vec<u8>, n: u64) -> Result<(), AllocError>
    ensures { OnOk result (out.new.items ≡ out.old.items ++ codes "count " ++ decimal n) }
{
    let mut digits = Buffer::new();
    out.extend_from_slice(b"count ")?;
    out.extend_from_slice(digits.format(n).as_bytes())
}

/// Adds the text of an error.
fn push_error(alloc: Global, out: &mut Vec<u8>, error: Error) -> Result<(), AllocError>
    ensures { OnOk result (out.new.items ≡ out.old.items ++ codes "error " ++ error_text error) }
{
    let text = format!(in alloc; "error {}", ErrorText(error))?;
    out.extend_from_slice(text.as_bytes())
}

/// Adds why the pool handed no connection out.
fn push_pool_error(alloc: Global, out: &mut Vec<u8>, error: pool::Error) -> Result<(), AllocError>
    ensures { OnOk result (out.new.items
        ≡ out.old.items ++ codes "poolerror " ++ pool_error_text error) }
{
    let text = format!(in alloc; "poolerror {}", PoolErrorText(error))?;
    out.extend_from_slice(text.as_bytes())
}

/// Adds the text of a reply.
pub fn push_reply(alloc: Global, out: &mut Vec<u8>, reply: &Reply) -> Result<(), AllocError>
    ensures { OnOk result (out.new.items ≡ out.old.items ++ reply_text reply.now) }
{
    match reply {
        Reply::Rows(rows) => push_rows(alloc, out, rows),
        Reply::OneRow(row) => push_one_row(alloc, out, row),
        Reply::Error(error) => push_error(alloc, out, *error),
        Reply::Pool(error) => push_pool_error(alloc, out, *error),
        Reply::Count(n) => push_count(out, *n),
        Reply::Ok => out.extend_from_slice(b"ok"),
        Reply::Kept => out.extend_from_slice(b"kept"),
        Reply::Closed => out.extend_from_slice(b"closed"),
        Reply::NoRow => out.extend_from_slice(b"none"),
        Reply::NotOut => out.extend_from_slice(b"notout"),
        Reply::NoneFree => out.extend_from_slice(b"nonefree"),
        Reply::Skipped => out.extend_from_slice(b"skipped"),
    }
}

/// Adds the line of an entry in parts.
fn push_parts(alloc: Global, out: &mut Vec<u8>, entry: &Entry) -> Result<(), AllocError>
    ensures { OnOk result (out.new.items ≡ out.old.items ++ entry_line entry.now) }
{
    push_head(out, entry)?;
    push_reply(alloc, out, &entry.reply)?;
    push_end(out, entry)
}

/// Adds the line of an entry, put together in the place.
fn push_entry(
    alloc: Global,
    place: &mut [u8],
    out: &mut Vec<u8>,
    entry: &Entry,
) -> Result<(), AllocError>
    requires { 168 ≤ length place.old }
    ensures { OnOk result (out.new.items ≡ out.old.items ++ entry_line entry.now) }
{
    match put_entry(place, entry) {
        Some(at) => out.extend_from_slice(&place[at..]),
        None => push_parts(alloc, out, entry),
    }
}

fn push_number(out: &mut Vec<u8>, n: usize) -> Result<(), AllocError>
    ensures { OnOk result (out.new.items ≡ out.old.items ++ decimal n) }
{
    let mut digits = Buffer::new();
    out.extend_from_slice(digits.format(n).as_bytes())
}

fn push_write(out: &mut Vec<u8>, text: &[u8]) -> Result<(), AllocError>
    ensures { OnOk result (out.new.items ≡ out.old.items ++ write_line text.now) }
{
    out.extend_from_slice(b"write ")?;
    out.extend_from_slice(text)?;
    out.extend_from_slice(b"\n")
}

fn push_server(out: &mut Vec<u8>, number: usize, writes: &Option<Texts>) -> Result<(), AllocError>
    ensures { OnOk result (out.new.items ≡ out.old.items ++ server_lines number writes.now) }
{
    out.extend_from_slice(b"server ")?;
    push_number(out, number)?;
    let Some(writes) = writes else {
        return out.extend_from_slice(b" untold\n");
    };
    out.extend_from_slice(b" ")?;
    push_number(out, writes.len())?;
    out.extend_from_slice(b"\n")?;
    for place in 0..writes.len() {
        push_write(out, writes.bytes(place))?;
    }
    Ok(())
}

fn push_last(out: &mut Vec<u8>, entries: usize, servers: usize) -> Result<(), AllocError>
    ensures { OnOk result (out.new.items ≡ out.old.items ++ last_line entries servers) }
{
    out.extend_from_slice(b"done ")?;
    push_number(out, entries)?;
    out.extend_from_slice(b" ")?;
    push_number(out, servers)?;
    out.extend_from_slice(b"\n")
}

/// The report: a line for each entry, then each server with its writes, then the counts. Only want of memory is an error.
pub fn render(alloc: Global, transcript: &Transcript) -> Result<Vec<u8>, AllocError>
    ensures { IfOk result (λ bytes. bytes.items
        ≡ report transcript.now.entries transcript.now.servers) }
{
    let mut out = Vec::new(alloc);
    let mut place = [0; 168];
    for entry in transcript.entries.as_slice() {
        push_entry(alloc, &mut place, &mut out, entry)?;
    }
    for (number, writes) in transcript.servers.as_slice().iter().enumerate() {
        push_server(&mut out, number, writes)?;
    }
    push_last(&mut out, transcript.entries.len(), transcript.servers.len())?;
    Ok(out)
}
