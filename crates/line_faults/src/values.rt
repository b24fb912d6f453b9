//! Values, binds and shapes, by how they are written.
use conn_model::number_u64;

/// The bytes that the binds of a query have at most.
const MAX_BINDS: usize = 256;

/// The values that a row has at most.
const MAX_VALUES: usize = 16;

/// The columns that a shape has at most.
const MAX_COLUMNS: usize = 4;

/// How far a number of 64 bits lies below zero at most.
const LOWEST: u64 = 9_223_372_036_854_775_808;

/// Whether a number of 64 bits is written so.
fn is_integer(text: &str) -> bool {
    match text.strip_prefix("-") {
        Some(size) => number_u64(size).is_some_and(|n| 0 < n && n <= LOWEST),
        None => number_u64(text).is_some_and(|n| n < LOWEST),
    }
}

/// Whether bytes are written so: by two digits each.
fn are_bytes(digits: &str) -> bool {
    digits.len() % 2 == 0
        && digits
            .bytes()
            .all(|b| matches!(b, b'0'..=b'9' | b'a'..=b'f'))
}

/// Whether a value is written so.
pub fn is_value(text: &str) -> bool {
    match text.split_once(':') {
        None => text == "null",
        Some(("int", number)) => is_integer(number),
        Some(("text", shown)) => shown.bytes().all(|b| b > 32 && b < 127),
        Some(("bytes", digits)) => are_bytes(digits),
        Some(_) => false,
    }
}

/// Whether a row of values is written so.
pub fn is_row(text: &str) -> bool {
    text.split(',').all(|value| is_value(value)) && text.split(',').count() <= MAX_VALUES
}

/// Whether a bind is written so.
pub fn is_bind(text: &str) -> bool {
    match text.split_once('=') {
        Some(("smallint" | "integer" | "bigint" | "text" | "binary" | "bool", value)) => {
            is_value(value)
        }
        _ => false,
    }
}

/// Whether the binds of a query are written so.
pub fn are_binds(text: &str) -> bool {
    text == "-" || text.len() <= MAX_BINDS && text.split(',').all(|bind| is_bind(bind))
}

/// Whether the shape of a query's rows is written so.
pub fn is_shape(text: &str) -> bool {
    if text == "*" {
        return true;
    }
    let mut columns = 0usize;
    let mut may_be_marked = false;
    for letter in text.bytes() {
        match letter {
            b'i' | b't' | b'b' => {
                columns = columns.saturating_add(1);
                may_be_marked = true;
            }
            b'?' if may_be_marked => may_be_marked = false,
            _ => return false,
        }
    }
    1 <= columns && columns <= MAX_COLUMNS
}
