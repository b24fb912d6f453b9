//! How the rows of a load are asked, and what is made of them.
ghost use Rattle.std.specs.Prelude.{◌≡◌, ◌≤◌, ◌+◌, Bool, List, Result, true};
ghost use Rattle.conn_result.specs.declared.error.Error.{Error as error};
ghost use Rattle.conn_cache.specs.QueryProcesses.{without_value};
ghost use Rattle.conn_manager.specs.Manages.{IsRefusal};
ghost use Rattle.conn_model.specs.Armed.{Values};
ghost use Rattle.conn_model.specs.declared.item.Dialect.{Dialect as dialect};
ghost use Rattle.conn_drivers.specs.GatherLaws.{MakesFirst, MakesHeld, MakesList, asks_all_first, first_law, held_law, list_law};
ghost use Rattle.conn_drivers.specs.Loaded.{AsksAll, listed};
ghost use Rattle.conn_drivers.specs.Loading.{AsksBy, LooksFor, Makes};
ghost use Rattle.conn_drivers.specs.Reading.{ReadsRows};

use crate::Wire;
use crate::rows::{RowsReply, read_all, read_first, row_error};
use conn_model::{Dialect, Row};
use conn_result::{Error, QueryResult};
use conn_rows::RowReader;
use conn_server::Server;
use std::alloc::Global;

/// How the rows of a load are asked, and what is made of them.
pub(crate) trait Gather {
    /// What they are made into.
    type Value: Drop;

    /// That all rows of a run are made into this.
    ghost makes: { Self → List Values → Result Self.Value error → Type 0 };

    /// Whether all rows are asked of a server of this dialect, or one at most.
    ghost asks_all: { Self → dialect → Bool };

    /// Asks the rows of the run that was accepted last, of which none was asked yet.
    fn gather<S: Server>(&self, wire: &mut Wire<S>, alloc: Global) -> RowsReply<Self::Value>
        requires fresh { (S.seen wire.old.server).given ≡ 0 }
        ensures makes { Makes (LooksFor (S.seen wire.old.server) (S.seen wire.new.server)
            wire.old.status wire.new.status) (makes self.now) result.error result.reply }
        ensures asks { let old = S.seen wire.old.server in
            AsksBy (asks_all self.now old.dialect) old (S.seen wire.new.server) result.reply };

    /// What rows are made into is no refusal of a server.
    ghost law: { (gather : Self) (rows : List Values) (reply : Result Self.Value error)
        → makes gather rows reply → IsRefusal (without_value reply) → ⊥ };
}

/// All rows, in a list. On PostgreSQL they are held at once, unless they are to be read row by row.
#[derive(Drop)]
pub(crate) struct ListOf<'r, R> {
    pub reader: &'r R,
    pub row_by_row: bool,
}

/// All rows as they are, held at once.
#[derive(Drop)]
pub(crate) struct RowsHeld;

/// The first row alone.
#[derive(Drop)]
pub(crate) struct FirstOf<'r, R> {
    pub reader: &'r R,
}

/// All rows are held at once, and then read.
fn list_at_once<S: Server, R: RowReader>(
    wire: &mut Wire<S>,
    alloc: Global,
    reader: &R,
) -> RowsReply<Vec<R::Value>>
    ensures makes { Makes (LooksFor (S.seen wire.old.server) (S.seen wire.new.server)
        wire.old.status wire.new.status) (MakesList (R.reads reader.now)) result.error result.reply }
    ensures asks { AsksAll (S.seen wire.new.server) result.reply }
{
    match wire.hold_rows(alloc) {
        Ok(rows) => RowsReply {
            error: None,
            reply: read_all(alloc, reader, rows),
        },
        Err(e) => RowsReply::refused(e),
    }
}

/// Each row is read as it comes, and after a fault the rest is asked and let go.
fn list_by_row<S: Server, R: RowReader>(
    wire: &mut Wire<S>,
    alloc: Global,
    reader: &R,
) -> RowsReply<Vec<R::Value>>
    ensures { ReadsRows (R.reads reader.now) (S.seen wire.old.server) (S.seen wire.new.server)
        wire.old.status wire.new.status result.error (listed result.reply) }
{
    let read = wire.read_rows(alloc, reader);
    if read.error.is_some() {
        return read;
    }
    match wire.skip_rows(alloc) {
        Ok(()) => read,
        Err(e) => RowsReply {
            error: row_error(e),
            reply: Err(e),
        },
    }
}

/// The first row is read, of all that are held.
fn first_at_once<S: Server, R: RowReader>(
    wire: &mut Wire<S>,
    alloc: Global,
    reader: &R,
) -> RowsReply<R::Value>
    ensures makes { Makes (LooksFor (S.seen wire.old.server) (S.seen wire.new.server)
        wire.old.status wire.new.status) (MakesFirst (R.reads reader.now)) result.error result.reply }
    ensures asks { AsksAll (S.seen wire.new.server) result.reply }
{
    match wire.hold_rows(alloc) {
        Ok(rows) => RowsReply {
            error: None,
            reply: read_first(alloc, reader, rows),
        },
        Err(e) => RowsReply::refused(e),
    }
}

/// One row is asked and read.
fn first_alone<S: Server, R: RowReader>(
    wire: &mut Wire<S>,
    alloc: Global,
    reader: &R,
) -> RowsReply<R::Value>
    ensures makes { Makes (LooksFor (S.seen wire.old.server) (S.seen wire.new.server)
        wire.old.status wire.new.status) (MakesFirst (R.reads reader.now)) result.error
        result.reply }
    ensures asks { (S.seen wire.new.server).given ≤ (S.seen wire.old.server).given + 1 }
{
    match wire.next_row(alloc) {
        Ok(Some(row)) => RowsReply {
            error: None,
            reply: reader.read(alloc, row),
        },
        Ok(None) => RowsReply {
            error: None,
            reply: Err(Error::NotFound),
        },
        Err(e) => RowsReply {
            error: row_error(e),
            reply: Err(e),
        },
    }
}

impl<R: RowReader> Gather for ListOf<'_, R> {
    type Value = Vec<R::Value>;

    ghost makes = { λ g. MakesList (R.reads g.reader.now) };

    ghost asks_all = { λ g d. true };

    ghost law = { λ g. list_law (R.reads g.reader.now) };

    fn gather<S: Server>(&self, wire: &mut Wire<S>, alloc: Global) -> RowsReply<Vec<R::Value>> {
        match wire.server.dialect() {
            Dialect::Pg if self.row_by_row => list_by_row(wire, alloc, self.reader),
            Dialect::Pg => list_at_once(wire, alloc, self.reader),
            Dialect::Mysql | Dialect::Sqlite => wire.read_rows(alloc, self.reader),
        }
    }
}

impl<R: RowReader> Gather for FirstOf<'_, R> {
    type Value = R::Value;

    ghost makes = { λ g. MakesFirst (R.reads g.reader.now) };

    ghost asks_all = { λ g. asks_all_first };

    ghost law = { λ g. first_law (R.reads g.reader.now) };

    fn gather<S: Server>(&self, wire: &mut Wire<S>, alloc: Global) -> RowsReply<R::Value> {
        match wire.server.dialect() {
            Dialect::Pg => first_at_once(wire, alloc, self.reader),
            Dialect::Mysql | Dialect::Sqlite => first_alone(wire, alloc, self.reader),
        }
    }
}

impl Gather for RowsHeld {
    type Value = Vec<Row>;

    ghost makes = { λ g. MakesHeld };

    ghost asks_all = { λ g d. true };

    ghost law = { λ g. held_law };

    fn gather<S: Server>(&self, wire: &mut Wire<S>, alloc: Global) -> RowsReply<Vec<Row>> {
        match wire.hold_rows(alloc) {
            Ok(rows) => RowsReply {
                error: None,
                reply: Ok(rows),
            },
            Err(e) => RowsReply::refused(e),
        }
    }
}
