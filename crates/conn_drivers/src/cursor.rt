//! All rows of a load on PostgreSQL, held at once.
ghost use Rattle.std.specs.Prelude.{◌≡◌, ◌+◌, drop, length, slice_get, Some};
ghost use Rattle.conn_drivers.specs.Held.{TakesFirst, all_held};
ghost use Rattle.conn_cache.specs.QueryProcesses.{without_value};
ghost use Rattle.conn_drivers.specs.Loaded.{AsksAll, LoadsFrom};
ghost use Rattle.conn_manager.specs.Manages.{HasServerCause};

use crate::PgConnection;
use crate::gather::RowsHeld;
use conn_cache::Query;
use conn_manager::{Instrumentation, SimpleConnection};
use conn_model::Row;
use conn_result::QueryResult;
use conn_server::Server;
use std::alloc::Global;
use std::marker::Model;
use std::vec::IntoIter;

/// The rows of a load that are left, seen as their list. It owns them, and borrows nothing.
#[derive(Drop)]
pub struct Cursor {
    rows: IntoIter<Row>,
}

impl Model for Cursor {
    ghost use Rattle.std.specs.Prelude.{List};
    ghost use Rattle.std.specs.Vec.Iter.{into_iter_items};
    ghost use Rattle.conn_model.specs.declared.value.Value.{Value as value};

    ghost Value = { List (List value) };

    ghost view = { λ c. into_iter_items c.rows };
}

impl Cursor {
    /// Over these rows.
    pub(crate) fn new(rows: Vec<Row>) -> Cursor
        ensures { result ≡ rows.items }
    {
        Cursor {
            rows: rows.into_iter(),
        }
    }

    /// The first of the rows that are left.
    pub fn next(&mut self) -> Option<Row>
        ensures { TakesFirst self.old self.new result }
    {
        self.rows.next()
    }

    /// The row after so many of those that are left, which are let go; all are where fewer are left.
    pub fn nth(&mut self, skipped: usize) -> Option<Row>
        ensures row { result ≡ slice_get self.old skipped }
        ensures left { self.new ≡ drop (skipped + 1) self.old }
    {
        let mut left = skipped;
        while left > 0 {
            if self.next().is_none() {
                return None;
            }
            left -= 1;
        }
        self.next()
    }

    /// How many rows are left.
    pub fn len(&self) -> usize
        ensures { result ≡ length self.now }
    {
        self.rows.len()
    }

    /// How many rows are left, which are let go.
    pub fn count(self) -> usize
        ensures { result ≡ length self }
    {
        self.len()
    }

    /// How many rows are left, as the least and the most that may come.
    pub fn size_hint(&self) -> (usize, Option<usize>)
        ensures least { result.0 ≡ length self.now }
        ensures most { result.1 ≡ Some (length self.now) }
    {
        (self.len(), Some(self.len()))
    }
}

impl<S: Server, H: Instrumentation + Drop> PgConnection<S, H> {
    ghost use Rattle.conn_drivers.specs.Raws.{shows};

    /// Loads a query, all of whose rows are held then; it is over with them.
    pub fn load<Q: Query>(&mut self, alloc: Global, source: &Q) -> QueryResult<Cursor>
        ensures loads { LoadsFrom S.is_honest (Q.view source.now) all_held
            (shows S.seen H.told self.old.raw) (shows S.seen H.told self.new.raw) result }
        ensures cause { HasServerCause (S.seen self.old.raw.wire.server)
            (S.seen self.new.raw.wire.server) (without_value result) }
        ensures asks { AsksAll (S.seen self.new.raw.wire.server) result }
    {
        match self.raw.load_by(alloc, source, &RowsHeld) {
            Ok(rows) => Ok(Cursor::new(rows)),
            Err(e) => Err(e),
        }
    }
}
