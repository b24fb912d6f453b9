//! Rows as a report writes them.
ghost use Rattle.std.specs.Prelude.{◌≡◌, ◌<◌, ◌++◌, ◌==◌, Some, codes, length, OnOk, if◌then◌else◌, slice_get};
ghost use Rattle.std.specs.Fmt.{signed_decimal};
ghost use Rattle.hex.specs.Hex.{encode_lower};
ghost use Rattle.conn_report.specs.Report.{row_text, rows_text, value_text};

use crate::Rows;
use conn_model::{Row, Value};
use itoa::Buffer;
use std::alloc::{AllocError, Global};

/// Adds the number.
fn push_integer(out: &mut Vec<u8>, n: i64) -> Result<(), AllocError>
    ensures { OnOk result (out.new.items ≡ out.old.items ++ codes "int:" ++ signed_decimal n) }
{
    let mut digits = Buffer::new();
    out.extend_from_slice(b"int:")?;
    out.extend_from_slice(digits.format(n).as_bytes())
}

/// Adds the bytes in hexadecimal digits.
fn push_hex(alloc: Global, out: &mut Vec<u8>, bytes: &[u8]) -> Result<(), AllocError>
    ensures { OnOk result (out.new.items
        ≡ out.old.items ++ codes "bytes:" ++ encode_lower bytes.now) }
{
    let digits = hex::encode(alloc, bytes)?;
    out.extend_from_slice(b"bytes:")?;
    out.extend_from_slice(digits.as_bytes())
}

/// Adds a value as scripts write it, a text as it stands.
fn push_value(alloc: Global, out: &mut Vec<u8>, value: &Value) -> Result<(), AllocError>
    ensures { OnOk result (out.new.items ≡ out.old.items ++ value_text value.now) }
{
    match value {
        Value::Null => out.extend_from_slice(b"null"),
        Value::Int(n) => push_integer(out, *n),
        Value::Text(text) => {
            out.extend_from_slice(b"text:")?;
            out.extend_from_slice(text.as_str().as_bytes())
        }
        Value::Bytes(bytes) => push_hex(alloc, out, bytes.as_slice()),
    }
}

/// Adds the value of a column, behind a comma where it isn't the first.
fn push_column(
    alloc: Global,
    out: &mut Vec<u8>,
    column: usize,
    value: &Value,
) -> Result<(), AllocError>
    ensures { OnOk result (out.new.items ≡ out.old.items
        ++ (if column == 0 then value_text value.now else (codes "," ++ value_text value.now))) }
{
    if column == 0 {
        return push_value(alloc, out, value);
    }
    out.extend_from_slice(b",")?;
    push_value(alloc, out, value)
}

/// The value of a column, from 0.
fn value_at(row: &Row, column: usize) -> &Value
    requires { column < length row.now }
    ensures { slice_get row.now column ≡ Some result.now }
{
    row.get(column).unwrap()
}

/// Adds the row.
fn push_row(alloc: Global, out: &mut Vec<u8>, row: &Row) -> Result<(), AllocError>
    ensures { OnOk result (out.new.items ≡ out.old.items ++ row_text row.now) }
{
    out.extend_from_slice(b"(")?;
    for column in 0..row.len() {
        push_column(alloc, out, column, value_at(row, column))?;
    }
    out.extend_from_slice(b")")
}

/// Adds the reply that is one row.
pub fn push_one_row(alloc: Global, out: &mut Vec<u8>, row: &Row) -> Result<(), AllocError>
    ensures { OnOk result (out.new.items ≡ out.old.items ++ codes "row " ++ row_text row.now) }
{
    out.extend_from_slice(b"row ")?;
    push_row(alloc, out, row)
}

/// Adds the reply that is rows.
#[tactic(auto, using(crate::proofs::RowTexts::rows_there))]
pub fn push_rows(alloc: Global, out: &mut Vec<u8>, rows: &Rows) -> Result<(), AllocError>
    ensures { OnOk result (out.new.items ≡ out.old.items ++ rows_text rows.now) }
{
    if rows.is_empty() {
        return out.extend_from_slice(b"rows");
    }
    out.extend_from_slice(b"rows ")?;
    for row in rows.as_slice() {
        push_row(alloc, out, row)?;
    }
    Ok(())
}
