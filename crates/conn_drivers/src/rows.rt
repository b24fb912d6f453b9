//! The rows of a run, read on its wire.
ghost use Rattle.std.specs.Prelude.{◌≡◌, ◌++◌, ◌∷◌, [], Err, MatchResult, Some};
ghost use Rattle.conn_result.specs.declared.error.Error.TheVariants.{OutOfMemory};
ghost use Rattle.conn_drivers.specs.Loaded.{listed};
ghost use Rattle.conn_drivers.specs.Loading.{row_error};
ghost use Rattle.conn_drivers.specs.Reading.{AnswersBy, HoldsRows, ReadsOnto, ReadsRows, SkipsRows};
ghost use Rattle.conn_rows.specs.Lists.{first_answer, list_answer};

use crate::Wire;
use conn_model::Row;
use conn_result::{Error, QueryResult};
use conn_rows::RowReader;
use conn_server::Server;
use std::alloc::Global;

/// What was made of the rows of a run, and the error that its handler is told of, which a fault of a row isn't.
#[derive(Drop)]
pub(crate) struct RowsReply<T> {
    pub error: Option<Error>,
    pub reply: QueryResult<T>,
}

impl<T> RowsReply<T> {
    /// The reply of a load that is over with an error before its rows are read, which the handler is told of.
    pub(crate) fn refused(e: Error) -> RowsReply<T>
        ensures error { result.error ≡ Some e }
        ensures reply { result.reply ≡ Err e }
    {
        RowsReply {
            error: Some(e),
            reply: Err(e),
        }
    }
}

/// The error of a row as the handler is told of it: want of memory for one row is none.
pub(crate) fn row_error(e: Error) -> Option<Error>
    ensures { result ≡ row_error e }
{
    match e {
        Error::OutOfMemory => None,
        _ => Some(e),
    }
}

/// Reads a row, and puts it behind the values.
fn read_onto<R: RowReader>(
    alloc: Global,
    reader: &R,
    row: Row,
    values: &mut Vec<R::Value>,
) -> QueryResult<()>
    ensures { ReadsOnto (R.reads reader.now row) values.old.items values.new.items result }
{
    match reader.read(alloc, row) {
        Ok(value) => Ok(values.push(value)?),
        Err(e) => Err(e),
    }
}

/// Each of the rows, as the reader takes it.
pub(crate) fn read_all<R: RowReader>(
    alloc: Global,
    reader: &R,
    rows: Vec<Row>,
) -> QueryResult<Vec<R::Value>>
    ensures { AnswersBy (list_answer (R.reads reader.now) rows.items) (listed result) }
{
    let mut values = Vec::new(alloc);
    for row in rows {
        match read_onto(alloc, reader, row, &mut values) {
            Ok(()) => {}
            Err(e) => return Err(e),
        }
    }
    Ok(values)
}

/// The first of the rows, as the reader takes it.
pub(crate) fn read_first<R: RowReader>(
    alloc: Global,
    reader: &R,
    rows: Vec<Row>,
) -> QueryResult<R::Value>
    ensures { AnswersBy (first_answer (R.reads reader.now) rows.items) result }
{
    match rows.into_iter().next() {
        Some(row) => reader.read(alloc, row),
        None => Err(Error::NotFound),
    }
}

/// Puts a row behind the others.
pub(crate) fn hold(rows: &mut Vec<Row>, row: Row) -> QueryResult<()>
    ensures { MatchResult result (λ _. rows.new.items ≡ rows.old.items ++ row ∷ [])
        (λ e. e ≡ OutOfMemory) }
{
    Ok(rows.push(row)?)
}

impl<S: Server> Wire<S> {
    /// All rows, held at once.
    pub(crate) fn hold_rows(&mut self, alloc: Global) -> QueryResult<Vec<Row>>
        ensures { HoldsRows (S.seen self.old.server) (S.seen self.new.server) self.old.status
            self.new.status (listed result) }
    {
        let mut rows = Vec::new(alloc);
        loop {
            match self.next_row(alloc) {
                Ok(Some(row)) => match hold(&mut rows, row) {
                    Ok(()) => {}
                    Err(e) => return Err(e),
                },
                Ok(None) => return Ok(rows),
                Err(e) => return Err(e),
            }
        }
    }

    /// Each row as the reader takes it, up to the first fault.
    pub(crate) fn read_rows<R: RowReader>(
        &mut self,
        alloc: Global,
        reader: &R,
    ) -> RowsReply<Vec<R::Value>>
        ensures { ReadsRows (R.reads reader.now) (S.seen self.old.server)
            (S.seen self.new.server) self.old.status self.new.status result.error
            (listed result.reply) }
    {
        let mut values = Vec::new(alloc);
        loop {
            match self.next_row(alloc) {
                Ok(Some(row)) => match read_onto(alloc, reader, row, &mut values) {
                    Ok(()) => {}
                    Err(e) => {
                        return RowsReply {
                            error: None,
                            reply: Err(e),
                        };
                    }
                },
                Ok(None) => {
                    return RowsReply {
                        error: None,
                        reply: Ok(values),
                    };
                }
                Err(e) => {
                    return RowsReply {
                        error: row_error(e),
                        reply: Err(e),
                    };
                }
            }
        }
    }

    /// Asks the rows that are left, and holds none.
    pub(crate) fn skip_rows(&mut self, alloc: Global) -> QueryResult<()>
        ensures { SkipsRows (S.seen self.old.server) (S.seen self.new.server) self.old.status
            self.new.status result }
    {
        loop {
            match self.next_row(alloc) {
                Ok(Some(_)) => {}
                Ok(None) => return Ok(()),
                Err(e) => return Err(e),
            }
        }
    }
}
