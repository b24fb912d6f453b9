//! Scripts as the tables write them: `\n` is a line feed, `\ff` the byte with these digits, `{9 ab}` nine times the piece `ab`.
use std::alloc::{AllocError, Global};

/// Adds what a piece stands for from behind an escape's `\`. False where no escape begins so.
fn push_escape(bytes: &mut Vec<u8>, part: &[u8]) -> Result<bool, AllocError> {
    if let [b'n', rest @ ..] = part {
        bytes.push(b'\n')?;
        bytes.extend_from_slice(rest)?;
        return Ok(true);
    }
    if part.len() < 2 {
        return Ok(false);
    }
    let mut byte = [0u8; 1];
    if hex::decode_to_slice(&part[..2], &mut byte).is_err() {
        return Ok(false);
    }
    bytes.extend_from_slice(&byte)?;
    bytes.extend_from_slice(&part[2..])?;
    Ok(true)
}

/// Adds what a piece without repetitions stands for. False where it has no meaning.
fn push_plain(bytes: &mut Vec<u8>, piece: &str) -> Result<bool, AllocError> {
    let mut parts = piece.split('\\');
    if let Some(first) = parts.next() {
        bytes.extend_from_slice(first.as_bytes())?;
    }
    for part in parts {
        if !push_escape(bytes, part.as_bytes())? {
            return Ok(false);
        }
    }
    Ok(true)
}

/// Adds a repetition, from behind its `{` to its `}`. False where it has no meaning.
fn push_times(alloc: Global, bytes: &mut Vec<u8>, text: &str) -> Result<bool, AllocError> {
    let Some((count, piece)) = text.split_once(' ') else {
        return Ok(false);
    };
    let Ok(count) = count.parse::<u64>() else {
        return Ok(false);
    };
    let mut once = Vec::new(alloc);
    let is_good = push_plain(&mut once, piece)?;
    for _ in 0..count {
        bytes.extend_from_slice(&once)?;
    }
    Ok(is_good)
}

/// Adds what a piece stands for. False where it has no meaning.
pub fn push_piece(alloc: Global, bytes: &mut Vec<u8>, piece: &str) -> Result<bool, AllocError> {
    let mut parts = piece.split('{');
    let Some(first) = parts.next() else {
        return Ok(true);
    };
    let mut is_good = push_plain(bytes, first)?;
    for part in parts {
        let Some((times, rest)) = part.split_once('}') else {
            return Ok(false);
        };
        is_good = push_times(alloc, bytes, times)? && push_plain(bytes, rest)? && is_good;
    }
    Ok(is_good)
}
