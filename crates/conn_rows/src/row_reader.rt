//! Readers of rows.
ghost use Rattle.std.specs.Prelude.{List, Result, IfErr};
ghost use Rattle.conn_result.specs.declared.error.RowFault.{RowFault};
ghost use Rattle.conn_model.specs.declared.value.Value.{Value as value};
ghost use Rattle.conn_rows.specs.Answers.{Deserializes, IsOfRow};

use crate::FromRow;
use conn_model::Row;
use conn_result::QueryResult;
use std::alloc::Global;
use std::marker::PhantomData;

/// What rows are read by: a type, or what is known only while the program runs.
pub trait RowReader {
    /// What a row becomes.
    type Value: Drop;

    /// What a row is to this reader, or its first fault.
    ghost reads: { Self → List value → Result Self.Value RowFault };

    /// The row as this reader takes it.
    fn read(&self, alloc: Global, row: Row) -> QueryResult<Self::Value>
        ensures { Deserializes (reads self.now row) result };

    /// A fault is one of the row.
    ghost law: { (reader : Self) (row : List value) → IfErr (reads reader row) IsOfRow };
}

/// Reads rows in a type.
#[derive(Drop)]
pub struct Typed<U> {
    kind: PhantomData<U>,
}

impl<U: FromRow> Typed<U> {
    /// The reader of the type.
    pub fn new() -> Typed<U> {
        Typed { kind: PhantomData }
    }
}

impl<U: FromRow> RowReader for Typed<U> {
    type Value = U;

    ghost reads = { λ reader. U.from_row_gives };

    ghost law = { λ reader. U.law };

    fn read(&self, alloc: Global, row: Row) -> QueryResult<U> {
        U::from_row(alloc, &row)
    }
}
