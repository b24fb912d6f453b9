//! The value of one column as a value of a type.
ghost use Rattle.std.specs.Prelude.{◌≡◌, ◌^◌, ℕ, IfErr, Result, if◌then◌else◌};
ghost use Rattle.conn_result.specs.declared.error.Error.TheVariants.{DeserializationError};
ghost use Rattle.conn_result.specs.declared.error.RowFault.{RowFault};
ghost use Rattle.conn_result.specs.declared.error.RowFault.TheVariants.{WrongKind};
ghost use Rattle.conn_model.specs.Binds.{is_within};
ghost use Rattle.conn_model.specs.declared.value.Value.{Value as value};
ghost use Rattle.conn_rows.specs.Answers.{Deserializes, IsOfRow, row_answer};
ghost use Rattle.conn_rows.specs.Columns.{misfit, int_from_sql, text_from_sql, bytes_from_sql, option_from_sql};
ghost use Rattle.conn_rows.specs.RowLaws.{int_of_row, text_of_row, bytes_of_row, option_of_row};

use conn_model::{Bytes, Text, Value};
use conn_result::{Error, QueryResult, RowFault};
use std::alloc::Global;

/// A type that the value of one column can be.
pub trait FromSql: Drop + Sized {
    /// What the value of the column of a number is in this type, or its fault.
    ghost from_sql_gives: { ℕ → value → Result Self RowFault };

    /// The value in this type. A fault names the column.
    fn from_sql(alloc: Global, column: u32, value: &Value) -> QueryResult<Self>
        ensures { Deserializes (from_sql_gives column value.now) result };

    /// A fault is one of the value.
    ghost law: { (column : ℕ) (v : value) → IfErr (from_sql_gives column v) IsOfRow };
}

/// The fault of a value that isn't what its column is to have.
pub fn misfit(column: u32, value: &Value) -> RowFault
    ensures { result ≡ misfit column value.now }
{
    match value {
        Value::Null => RowFault::UnexpectedNull { column },
        _ => RowFault::WrongKind { column },
    }
}

/// The error of a value that isn't what its column is to have.
fn misfit_error(column: u32, value: &Value) -> Error
    ensures { result ≡ DeserializationError (misfit column value.now) }
{
    Error::DeserializationError(misfit(column, value))
}

/// The error of a number that the type doesn't hold.
fn out_of_range(column: u32) -> Error
    ensures { result ≡ DeserializationError (WrongKind column) }
{
    Error::DeserializationError(RowFault::WrongKind { column })
}

/// The number where 16 bits hold it.
fn narrow_i16(number: i64) -> Option<i16>
    ensures { result ≡ (if is_within (2 ^ 15) number then Some number else None) }
{
    i16::try_from(number).ok()
}

/// The number where 32 bits hold it.
fn narrow_i32(number: i64) -> Option<i32>
    ensures { result ≡ (if is_within (2 ^ 31) number then Some number else None) }
{
    i32::try_from(number).ok()
}

impl FromSql for i16 {
    ghost from_sql_gives = { int_from_sql (2 ^ 15) };

    ghost law = { int_of_row (2 ^ 15) };

    fn from_sql(_: Global, column: u32, value: &Value) -> QueryResult<i16>
        ensures { result ≡ row_answer (int_from_sql (2 ^ 15) column value.now) }
    {
        match value {
            Value::Int(number) => narrow_i16(*number).ok_or(out_of_range(column)),
            _ => Err(misfit_error(column, value)),
        }
    }
}

impl FromSql for i32 {
    ghost from_sql_gives = { int_from_sql (2 ^ 31) };

    ghost law = { int_of_row (2 ^ 31) };

    fn from_sql(_: Global, column: u32, value: &Value) -> QueryResult<i32>
        ensures { result ≡ row_answer (int_from_sql (2 ^ 31) column value.now) }
    {
        match value {
            Value::Int(number) => narrow_i32(*number).ok_or(out_of_range(column)),
            _ => Err(misfit_error(column, value)),
        }
    }
}

impl FromSql for i64 {
    ghost from_sql_gives = { int_from_sql (2 ^ 63) };

    ghost law = { int_of_row (2 ^ 63) };

    fn from_sql(_: Global, column: u32, value: &Value) -> QueryResult<i64>
        ensures { result ≡ row_answer (int_from_sql (2 ^ 63) column value.now) }
    {
        match value {
            Value::Int(number) => Ok(*number),
            _ => Err(misfit_error(column, value)),
        }
    }
}

impl FromSql for Text {
    ghost from_sql_gives = { text_from_sql };

    ghost law = { text_of_row };

    fn from_sql(alloc: Global, column: u32, value: &Value) -> QueryResult<Text> {
        match value {
            Value::Text(text) => Ok(text.copy(alloc)?),
            _ => Err(misfit_error(column, value)),
        }
    }
}

impl FromSql for Bytes {
    ghost from_sql_gives = { bytes_from_sql };

    ghost law = { bytes_of_row };

    fn from_sql(alloc: Global, column: u32, value: &Value) -> QueryResult<Bytes> {
        match value {
            Value::Bytes(bytes) => Ok(bytes.copy(alloc)?),
            _ => Err(misfit_error(column, value)),
        }
    }
}

impl<T: FromSql> FromSql for Option<T> {
    ghost from_sql_gives = { option_from_sql T.from_sql_gives };

    ghost law = { option_of_row T.from_sql_gives T.law };

    fn from_sql(alloc: Global, column: u32, value: &Value) -> QueryResult<Option<T>> {
        match value {
            Value::Null => Ok(None),
            _ => {
                let value = T::from_sql(alloc, column, value)?;
                Ok(Some(value))
            }
        }
    }
}
