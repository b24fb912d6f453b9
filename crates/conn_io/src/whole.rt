//! Reading and writing to the end, over any source and sink.
ghost use Rattle.std.specs.Prelude.{◌≡◌, ◌<◌, ◌≤◌, ◌+◌, ℕ, List, Option, length, take, vec_len, ◌++◌, IfOk, IfSome, OnOk, OnErr};
ghost use Rattle.conn_result.specs.Causes.{HasCause};
ghost use Rattle.std.specs.Io.KnownBytes.{Consumes, IsAtEnd, Appends};
ghost use Rattle.conn_io.specs.Bytes.{AppendsPrefix, CountsRead};

use crate::traits::{Failed, Sink, Source};
use std::alloc::Global;

/// Why not all was read.
#[derive(Clone, Copy, Debug, PartialEq, Eq)]
pub enum ReadError {
    /// A read failed, and the source counted it.
    Failed,
    OutOfMemory,
}

/// Adds what one read gives, at most `room` bytes, to the end of `bytes`.
fn read_more<I: Source>(
    source: &mut I,
    room: usize,
    place: &mut [u8],
    bytes: &mut Vec<u8>,
) -> Result<usize, ReadError>
    requires room { 0 < room }
    requires place { 0 < length place.old }
    ensures count { IfOk result (λ n. (n ≤ room) × (vec_len bytes.new ≡ vec_len bytes.old + n)) }
    ensures takes { IfOk result (λ n. (taken : List ℕ)
        × (bytes.new.items ≡ bytes.old.items ++ taken)
        × Consumes (I.left source.old) (I.left source.new) taken) }
    ensures ends { IfOk result (λ n. n ≡ 0 → IsAtEnd (I.left source.new)) }
    ensures later { I.faults source.old ≤ I.faults source.new }
    ensures counts { CountsRead (I.faults source.old) (I.faults source.new) result }
{
    let end = room.min(place.len());
    match source.read(&mut place[..end]) {
        Ok(n) => {
            if bytes.extend_from_slice(&place[..n]).is_err() {
                return Err(ReadError::OutOfMemory);
            }
            Ok(n)
        }
        Err(Failed) => Err(ReadError::Failed),
    }
}

/// Reads to the end, or until `most` bytes are read. The source's count of faults rises exactly with a failure.
pub fn read_all<I: Source>(alloc: Global, source: &mut I, most: usize) -> Result<Vec<u8>, ReadError>
    ensures ok { IfOk result (λ bytes.
        IfSome (I.left source.old) (λ left. bytes.items ≡ take most left)) }
    ensures count { IfOk result (λ bytes. vec_len bytes ≤ most) }
    ensures takes { IfOk result (λ bytes.
        Consumes (I.left source.old) (I.left source.new) bytes.items) }
    ensures later { I.faults source.old ≤ I.faults source.new }
    ensures counts { CountsRead (I.faults source.old) (I.faults source.new) result }
{
    let mut place = [0u8; 4096];
    let mut bytes = Vec::new(alloc);
    while bytes.len() < most {
        let room = most - bytes.len();
        if read_more(source, room, &mut place, &mut bytes)? == 0 {
            return Ok(bytes);
        }
    }
    Ok(bytes)
}

/// Writes all of the bytes. Where a write fails, some of them, and not all, are written before.
pub fn write_all<O: Sink>(sink: &mut O, bytes: &[u8]) -> Result<(), Failed>
    ensures ok { OnOk result (Appends (O.held sink.old) (O.held sink.new) bytes.now) }
    ensures err { OnErr result (AppendsPrefix (O.held sink.old) (O.held sink.new) bytes.now) }
    ensures cause { HasCause (O.faults sink.old) (O.faults sink.new) result }
{
    let mut at = 0;
    while at < bytes.len() {
        at += sink.write(&bytes[at..])?;
    }
    Ok(())
}
