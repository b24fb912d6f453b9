//! Values as scripts write them.
ghost use Rattle.std.specs.Prelude.{◌≡◌, IfOk};
ghost use Rattle.std.specs.List.{list_all};
ghost use Rattle.std.specs.Option.{option_copied};
ghost use Rattle.conn_script.specs.Values.{not_negative, below_zero, bytes_named, hex_bytes, integer_by, integer_named, is_no_capital, is_shown, text_named, value_by, value_named, value_series, row_values};

use crate::words::cut_at;
use conn_model::{Bytes, Text, Value, number_u64};
use hex::FromHexError;
use sqlite_items::Items;
use std::alloc::{AllocError, Global};

/// The values that a row has at most.
const MAX_VALUES: usize = 16;

/// The number that is so far below zero, which is none of 64 bits where it is too far.
fn below_zero(size: u64) -> Option<i64>
    ensures { result ≡ below_zero size }
{
    if size == 0 {
        return None;
    }
    0i64.checked_sub_unsigned(size)
}

/// The number that is so far above zero, likewise.
fn not_negative(size: u64) -> Option<i64>
    ensures { result ≡ not_negative size }
{
    if size > i64::MAX as u64 {
        return None;
    }
    Some(size as i64)
}

/// The number that is written with this in front of a minus, and this behind it where there is one.
fn integer_by(front: &str, size: Option<&str>) -> Option<i64>
    ensures { result ≡ integer_by front.now (option_copied size.entry) }
{
    let Some(size) = size else {
        return not_negative(number_u64(front)?);
    };
    if !front.is_empty() {
        return None;
    }
    below_zero(number_u64(size)?)
}

/// The number that is written so.
fn integer_of(text: &str) -> Option<i64>
    ensures { result ≡ integer_named text.now }
{
    let (front, size) = cut_at(text, b'-');
    integer_by(front, size)
}

/// Whether each character is one of ASCII that is shown, and no space.
fn is_shown(text: &str) -> bool
    ensures { result ≡ list_all is_shown text.now }
{
    text.bytes().all(|b| b > 32 && b < 127)
}

/// A text of shown characters.
fn text_of(alloc: Global, text: &str) -> Result<Option<Value>, AllocError>
    ensures { IfOk result (λ value. value ≡ text_named text.now) }
{
    if !is_shown(text) {
        return Ok(None);
    }
    Ok(Some(Value::Text(Text::new(alloc, text)?)))
}

/// Whether no letter is an upper case one.
fn is_lower(text: &str) -> bool
    ensures { result ≡ list_all is_no_capital text.now }
{
    text.bytes().all(|b| b < b'A' || b > b'Z')
}

/// The bytes that two hexadecimal digits each write.
fn hex_bytes(alloc: Global, digits: &str) -> Result<Option<Value>, AllocError>
    ensures { IfOk result (λ value. value ≡ hex_bytes digits.now) }
{
    match hex::decode(alloc, digits) {
        Ok(bytes) => Ok(Some(Value::Bytes(Bytes::new(alloc, bytes.as_slice())?))),
        Err(FromHexError::OutOfMemory) => Err(AllocError),
        Err(_) => Ok(None),
    }
}

/// The same of digits in lower case.
fn bytes_of(alloc: Global, digits: &str) -> Result<Option<Value>, AllocError>
    ensures { IfOk result (λ value. value ≡ bytes_named digits.now) }
{
    if !is_lower(digits) {
        return Ok(None);
    }
    hex_bytes(alloc, digits)
}

/// The value of this kind with this content.
fn value_by(alloc: Global, kind: &str, content: Option<&str>) -> Result<Option<Value>, AllocError>
    ensures { IfOk result (λ value. value ≡ value_by kind.now (option_copied content.entry)) }
{
    let Some(content) = content else {
        return Ok((kind == "null").then_some(Value::Null));
    };
    match kind {
        "int" => Ok(integer_of(content).map(|n| Value::Int(n))),
        "text" => text_of(alloc, content),
        "bytes" => bytes_of(alloc, content),
        _ => Ok(None),
    }
}

/// The value that is written so.
pub fn value_of(alloc: Global, text: &str) -> Result<Option<Value>, AllocError>
    ensures { IfOk result (λ value. value ≡ value_named text.now) }
{
    let (kind, content) = cut_at(text, b':');
    value_by(alloc, kind, content)
}

/// Values with commas between them.
fn value_series(alloc: Global, text: &str) -> Result<Option<Items<Value>>, AllocError>
    ensures { IfOk result (λ values. values ≡ value_series text.now) }
{
    let mut values = Items::new(alloc);
    let mut rest = text;
    loop {
        let (piece, more) = cut_at(rest, b',');
        let Some(value) = value_of(alloc, piece)? else {
            return Ok(None);
        };
        values.push(value)?;
        let Some(more) = more else {
            return Ok(Some(values));
        };
        rest = more;
    }
}

/// The values of a row that are written so.
pub fn values_of(alloc: Global, text: &str) -> Result<Option<Items<Value>>, AllocError>
    ensures { IfOk result (λ values. values ≡ row_values text.now) }
{
    let Some(values) = value_series(alloc, text)? else {
        return Ok(None);
    };
    if values.len() > MAX_VALUES {
        return Ok(None);
    }
    Ok(Some(values))
}
