//! Rows as values of Rust's types.
#![tactic(auto)]

mod from_row;
mod from_sql;
mod row_reader;

pub use from_row::FromRow;
pub use from_sql::{FromSql, misfit};
pub use row_reader::{RowReader, Typed};
