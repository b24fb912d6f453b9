//! Rows by the shape of their query.
ghost use Rattle.std.specs.Prelude.{◌≡◌, None, Some};
ghost use Rattle.std.specs.Option.{option_copied};
ghost use Rattle.conn_reading.specs.RowShapes.{column_fault, columns_fault, fits_column, is_of_kind, shape_fault};

use conn_model::{Row, Value};
use conn_result::{Error, QueryResult, RowFault};
use conn_rows::{RowReader, misfit};
use conn_script::{Shape, ShapeKind};
use std::alloc::Global;
use std::marker::Model;

/// Whether a value is of the kind.
fn is_of_kind(kind: ShapeKind, value: &Value) -> bool
    ensures { result ≡ is_of_kind kind value.now }
{
    matches!(
        (kind, value),
        (ShapeKind::Int, Value::Int(_))
            | (ShapeKind::Text, Value::Text(_))
            | (ShapeKind::Bytes, Value::Bytes(_))
    )
}

/// Whether a value is of the column's kind, or null where that may be.
fn fits_column(column: (ShapeKind, bool), value: &Value) -> bool
    ensures { result ≡ fits_column column value.now }
{
    match (column, value) {
        ((_, true), Value::Null) => true,
        ((kind, _), value) => is_of_kind(kind, value),
    }
}

/// The fault of the value in a column, where there is one. A column past the last number is named by that.
fn column_fault(place: usize, column: (ShapeKind, bool), value: Option<&Value>) -> Option<RowFault>
    ensures { result ≡ column_fault place column (option_copied value.entry) }
{
    let Some(value) = value else {
        return Some(RowFault::UnexpectedEndOfRow);
    };
    if fits_column(column, value) {
        return None;
    }
    Some(misfit(place.min(u32::MAX as usize) as u32, value))
}

/// The fault of the first column that doesn't fit.
fn columns_fault(columns: &[(ShapeKind, bool)], row: &Row) -> Option<RowFault>
    ensures { result ≡ columns_fault 0 columns.now row.now }
{
    for (place, column) in columns.iter().enumerate() {
        if let Some(fault) = column_fault(place, *column, row.get(place)) {
            return Some(fault);
        }
    }
    None
}

/// The fault of a row by the shape.
fn shape_fault(shape: &Shape, row: &Row) -> Option<RowFault>
    ensures { result ≡ shape_fault shape.now row.now }
{
    match shape {
        Some(columns) => columns_fault(columns.as_slice(), row),
        None => None,
    }
}

/// Takes whole rows that are of a shape.
#[derive(Drop)]
pub struct ShapeReader<'s> {
    shape: &'s Shape,
}

impl<'s> Model for ShapeReader<'s> {
    ghost use Rattle.conn_reading.specs.RowShapes.{RowShape};

    ghost Value = { RowShape };

    ghost view = { λ r. r.shape.now };
}

impl<'s> ShapeReader<'s> {
    /// The reader of rows of the shape.
    pub fn new(shape: &'s Shape) -> ShapeReader<'s>
        ensures { result ≡ shape.now }
    {
        ShapeReader { shape }
    }
}

impl<'s> RowReader for ShapeReader<'s> {
    ghost use Rattle.conn_reading.specs.RowShapes.{shape_reads};
    ghost use Rattle.conn_reading.specs.RowShapeLaws.{shape_of_row};

    type Value = Row;

    ghost reads = { shape_reads };

    ghost law = { shape_of_row };

    fn read(&self, _: Global, row: Row) -> QueryResult<Row> {
        match shape_fault(self.shape, &row) {
            None => Ok(row),
            Some(fault) => Err(Error::DeserializationError(fault)),
        }
    }
}
