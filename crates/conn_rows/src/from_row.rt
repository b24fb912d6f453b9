//! A row as a value of a type.
ghost use Rattle.std.specs.Prelude.{◌≡◌, ◌^◌, List, None, Ok, Result, Some, IfErr, IfOk, slice_get};
ghost use Rattle.conn_result.specs.declared.error.Error.TheVariants.{DeserializationError};
ghost use Rattle.conn_result.specs.declared.error.RowFault.{RowFault};
ghost use Rattle.conn_result.specs.declared.error.RowFault.TheVariants.{UnexpectedEndOfRow};
ghost use Rattle.conn_model.specs.declared.value.Value.{Value as value};
ghost use Rattle.conn_rows.specs.Answers.{Deserializes, IsOfRow, row_answer};
ghost use Rattle.conn_rows.specs.Columns.{int_from_sql, text_from_sql, bytes_from_sql, option_from_sql};
ghost use Rattle.conn_rows.specs.Rows.{column_from_row, pair_from_row, triple_from_row, quadruple_from_row};
ghost use Rattle.conn_rows.specs.RowLaws.{int_of_row, text_of_row, bytes_of_row, option_of_row, column_of_row, pair_of_row, triple_of_row, quadruple_of_row};

use crate::FromSql;
use conn_model::{Bytes, Row, Text, Value};
use conn_result::{Error, QueryResult, RowFault};
use std::alloc::Global;

/// A type that a row can be. Columns behind the last one that it takes are not looked at.
pub trait FromRow: Drop + Sized {
    /// What a row is in this type, or its first fault.
    ghost from_row_gives: { List value → Result Self RowFault };

    /// The row in this type.
    fn from_row(alloc: Global, row: &Row) -> QueryResult<Self>
        ensures { Deserializes (from_row_gives row.now) result };

    /// A fault is one of the row.
    ghost law: { (row : List value) → IfErr (from_row_gives row) IsOfRow };
}

/// The value of a column.
fn value_at(row: &Row, place: u32) -> QueryResult<&Value>
    ensures found { IfOk result (λ value. slice_get row.now place ≡ Some value.now) }
    ensures missing { IfErr result (λ e. (slice_get row.now place ≡ None)
        × (e ≡ DeserializationError UnexpectedEndOfRow)) }
{
    match row.get(place as usize) {
        Some(value) => Ok(value),
        None => Err(Error::DeserializationError(RowFault::UnexpectedEndOfRow)),
    }
}

/// The value of a column in the type.
fn column<T: FromSql>(alloc: Global, row: &Row, place: u32) -> QueryResult<T>
    ensures { Deserializes (column_from_row T.from_sql_gives place row.now) result }
{
    T::from_sql(alloc, place, value_at(row, place)?)
}

impl FromRow for i16 {
    ghost from_row_gives = { column_from_row (int_from_sql (2 ^ 15)) 0 };

    ghost law = { column_of_row (int_from_sql (2 ^ 15)) (int_of_row (2 ^ 15)) 0 };

    fn from_row(alloc: Global, row: &Row) -> QueryResult<i16>
        ensures { result ≡ row_answer (column_from_row (int_from_sql (2 ^ 15)) 0 row.now) }
    {
        i16::from_sql(alloc, 0, value_at(row, 0)?)
    }
}

impl FromRow for i32 {
    ghost from_row_gives = { column_from_row (int_from_sql (2 ^ 31)) 0 };

    ghost law = { column_of_row (int_from_sql (2 ^ 31)) (int_of_row (2 ^ 31)) 0 };

    fn from_row(alloc: Global, row: &Row) -> QueryResult<i32>
        ensures { result ≡ row_answer (column_from_row (int_from_sql (2 ^ 31)) 0 row.now) }
    {
        i32::from_sql(alloc, 0, value_at(row, 0)?)
    }
}

impl FromRow for i64 {
    ghost from_row_gives = { column_from_row (int_from_sql (2 ^ 63)) 0 };

    ghost law = { column_of_row (int_from_sql (2 ^ 63)) (int_of_row (2 ^ 63)) 0 };

    fn from_row(alloc: Global, row: &Row) -> QueryResult<i64>
        ensures { result ≡ row_answer (column_from_row (int_from_sql (2 ^ 63)) 0 row.now) }
    {
        i64::from_sql(alloc, 0, value_at(row, 0)?)
    }
}

impl FromRow for Text {
    ghost from_row_gives = { column_from_row text_from_sql 0 };

    ghost law = { column_of_row text_from_sql text_of_row 0 };

    fn from_row(alloc: Global, row: &Row) -> QueryResult<Text> {
        column(alloc, row, 0)
    }
}

impl FromRow for Bytes {
    ghost from_row_gives = { column_from_row bytes_from_sql 0 };

    ghost law = { column_of_row bytes_from_sql bytes_of_row 0 };

    fn from_row(alloc: Global, row: &Row) -> QueryResult<Bytes> {
        column(alloc, row, 0)
    }
}

impl<T: FromSql> FromRow for Option<T> {
    ghost from_row_gives = { column_from_row (option_from_sql T.from_sql_gives) 0 };

    ghost law = { column_of_row
        (option_from_sql T.from_sql_gives) (option_of_row T.from_sql_gives T.law) 0 };

    fn from_row(alloc: Global, row: &Row) -> QueryResult<Option<T>> {
        column(alloc, row, 0)
    }
}

impl<A: FromSql, B: FromSql> FromRow for (A, B) {
    ghost from_row_gives = { pair_from_row A.from_sql_gives B.from_sql_gives };

    ghost law = { pair_of_row A.from_sql_gives B.from_sql_gives A.law B.law };

    fn from_row(alloc: Global, row: &Row) -> QueryResult<(A, B)> {
        let first = column(alloc, row, 0)?;
        let second = column(alloc, row, 1)?;
        Ok((first, second))
    }
}

impl<A: FromSql, B: FromSql, C: FromSql> FromRow for (A, B, C) {
    ghost from_row_gives = { triple_from_row A.from_sql_gives B.from_sql_gives C.from_sql_gives };

    ghost law = { triple_of_row
        A.from_sql_gives B.from_sql_gives C.from_sql_gives A.law B.law C.law };

    fn from_row(alloc: Global, row: &Row) -> QueryResult<(A, B, C)> {
        let first = column(alloc, row, 0)?;
        let second = column(alloc, row, 1)?;
        let third = column(alloc, row, 2)?;
        Ok((first, second, third))
    }
}

impl<A: FromSql, B: FromSql, C: FromSql, D: FromSql> FromRow for (A, B, C, D) {
    ghost from_row_gives = { quadruple_from_row
        A.from_sql_gives B.from_sql_gives C.from_sql_gives D.from_sql_gives };

    ghost law = { quadruple_of_row
        A.from_sql_gives B.from_sql_gives C.from_sql_gives D.from_sql_gives
        A.law B.law C.law D.law };

    fn from_row(alloc: Global, row: &Row) -> QueryResult<(A, B, C, D)> {
        let first = column(alloc, row, 0)?;
        let second = column(alloc, row, 1)?;
        let third = column(alloc, row, 2)?;
        let fourth = column(alloc, row, 3)?;
        Ok((first, second, third, fourth))
    }
}

impl FromRow for Row {
    ghost from_row_gives = { λ row. Ok row };

    ghost law = { λ row. tt };

    fn from_row(alloc: Global, row: &Row) -> QueryResult<Row> {
        Ok(row.copy(alloc)?)
    }
}
