//! What rows are in each type, and each fault.
use crate::plans::{Cell, row_of};
use conn_model::{Bytes, Row, Text};
use conn_result::Error;
use conn_rows::{FromRow, RowReader, Typed};
use std::alloc::Global;
use std::fmt::Debug;
use std::test::Fail;

/// What a row is in a type, or its fault.
fn read<T: FromRow + Debug>(alloc: Global, row: &Row) -> Result<String, Fail> {
    Ok(match T::from_row(alloc, row) {
        Ok(value) => format!(in alloc; "{value:?}")?,
        Err(Error::DeserializationError(fault)) => format!(in alloc; "{fault:?}")?,
        Err(e) => format!(in alloc; "{e:?}")?,
    })
}

/// The value of a word: Null, two bytes, a text or a number.
fn cell_of(word: &str) -> Cell {
    match word {
        "null" => Cell::Null,
        "00ff" => Cell::Bytes(b"\x00\xff"),
        _ => match word.parse::<i64>() {
            Ok(number) => Cell::Number(number),
            Err(_) => Cell::Text("a"),
        },
    }
}

/// The values of some words.
fn cells_of(alloc: Global, words: &str) -> Result<Vec<Cell>, Fail> {
    let mut cells = Vec::new(alloc);
    for word in words.split_whitespace() {
        cells.push(cell_of(word))?;
    }
    Ok(cells)
}

/// What a row of these values is in a type, or its fault; of a row as it is its length is told.
fn seen_of(alloc: Global, kind: &str, words: &str) -> Result<String, Fail> {
    let cells = cells_of(alloc, words)?;
    let row = row_of(alloc, cells.as_slice())?;
    match kind {
        "i16" => read::<i16>(alloc, &row),
        "i32" => read::<i32>(alloc, &row),
        "i64" => read::<i64>(alloc, &row),
        "text" => read::<Text>(alloc, &row),
        "bytes" => read::<Bytes>(alloc, &row),
        "i16?" => read::<Option<i16>>(alloc, &row),
        "text?" => read::<Option<Text>>(alloc, &row),
        "i16 i16" => read::<(i16, i16)>(alloc, &row),
        "i16? i16" => read::<(Option<i16>, i16)>(alloc, &row),
        "i16? i32 i16" => read::<(Option<i16>, i32, i16)>(alloc, &row),
        "i16 i32? text bytes" => read::<(i16, Option<i32>, Text, Bytes)>(alloc, &row),
        _ => {
            let whole = Typed::<Row>::new().read(alloc, row)?;
            Ok(format!(in alloc; "{}", whole.len())?)
        }
    }
}

/// Types, rows by their values, and what each row is in the type.
const ROWS: [(&str, &str, &str); 36] = [
    ("i16", "32767", "32767"),
    ("i16", "-32768", "-32768"),
    ("i16", "32768", "WrongKind { column: 0 }"),
    ("i16", "-32769", "WrongKind { column: 0 }"),
    ("i16", "a", "WrongKind { column: 0 }"),
    ("i16", "null", "UnexpectedNull { column: 0 }"),
    ("i16", "", "UnexpectedEndOfRow"),
    ("i16", "3 null", "3"),
    ("i32", "2147483647", "2147483647"),
    ("i32", "-2147483648", "-2147483648"),
    ("i32", "2147483648", "WrongKind { column: 0 }"),
    ("i32", "-2147483649", "WrongKind { column: 0 }"),
    ("i32", "null", "UnexpectedNull { column: 0 }"),
    ("i32", "", "UnexpectedEndOfRow"),
    ("i64", "-9223372036854775808", "-9223372036854775808"),
    ("i64", "a", "WrongKind { column: 0 }"),
    ("i64", "null", "UnexpectedNull { column: 0 }"),
    ("i64", "", "UnexpectedEndOfRow"),
    ("text", "a", "Text { inner: \"a\" }"),
    ("text", "1", "WrongKind { column: 0 }"),
    ("text", "null", "UnexpectedNull { column: 0 }"),
    ("text", "", "UnexpectedEndOfRow"),
    ("bytes", "00ff", "Bytes { inner: [0, 255] }"),
    ("bytes", "a", "WrongKind { column: 0 }"),
    ("bytes", "null", "UnexpectedNull { column: 0 }"),
    ("bytes", "", "UnexpectedEndOfRow"),
    ("i16?", "null", "None"),
    ("i16?", "a", "WrongKind { column: 0 }"),
    ("i16?", "", "UnexpectedEndOfRow"),
    ("text?", "null", "None"),
    ("text?", "a", "Some(Text { inner: \"a\" })"),
    ("i16 i16", "null 32768", "UnexpectedNull { column: 0 }"),
    ("i16? i16", "null 32768", "WrongKind { column: 1 }"),
    ("i16? i32 i16", "null 32768", "UnexpectedEndOfRow"),
    (
        "i16 i32? text bytes",
        "1 null a 00ff",
        "(1, None, Text { inner: \"a\" }, Bytes { inner: [0, 255] })",
    ),
    ("row", "1 null a 00ff", "4"),
];

#[test]
fn rows_are_read_in_each_type(rt: HostRuntime) -> Result<(), Fail> {
    for &(kind, words, wanted) in &ROWS {
        let seen = seen_of(rt.alloc(), kind, words)?;
        assert_eq!(rt; seen.as_str(), wanted, "{kind} of {words}");
    }
    Ok(())
}
