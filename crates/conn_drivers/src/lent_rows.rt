//! A connection that is lent while the rows of its last run are asked.
ghost use Rattle.std.specs.Prelude.{◌≡◌, IfOk};
ghost use Rattle.std.specs.Borrow.{sem, RestsIfErr};
ghost use Rattle.conn_drivers.specs.Cursors.{AreHeldAfter, Begins, NextsBy, RestsEarly, TakesRows, held_after_prop};
ghost use Rattle.conn_drivers.specs.Loaded.{listed};
ghost use Rattle.conn_drivers.specs.Raws.{shows};
ghost use Rattle.conn_drivers.specs.declared.progress.Progress.TheVariants.{Going};

use crate::progress::Progress;
use crate::rows::hold;
use crate::{Driver, Kind};
use conn_cache::Query;
use conn_manager::Instrumentation;
use conn_model::Row;
use conn_result::QueryResult;
use conn_server::Server;
use std::alloc::Global;

/// The rows of a query, asked one at a time. Its connection can't be used meanwhile. It has no `Drop`: `finish` spends it.
pub struct LentRows<'c, S: Server, D, H> {
    pub conn: &'c mut Driver<S, D, H>,
    pub alloc: Global,
    pub sql: &'c str,
    pub statement: Option<u64>,
    pub progress: Progress,
    /// The kept statements are open once that of the run is closed.
    pub ghost held: { AreHeldAfter statement (S.seen conn.now.raw.wire.server) conn.now.raw.cache } by { held_after_prop statement (S.seen conn.now.raw.wire.server) conn.now.raw.cache },
}

impl<S: Server, D: Kind, H: Instrumentation + Drop> Driver<S, D, H> {
    ghost use Rattle.conn_drivers.specs.contracts.driver.Driver.{the_row};

    /// Runs a query, and leaves its rows to be asked one at a time.
    pub(crate) fn lend_rows<'c, Q: Query>(
        &'c mut self,
        alloc: Global,
        source: &'c Q,
    ) -> QueryResult<LentRows<'c, S, D, H>>
        ensures* rests { sem 𝓛 (RestsIfErr (the_row S.row D.row H.row S.Server) self.entry
            (λ i. i.conn.ghost_name) result (λ n. RestsEarly S.is_honest (Q.view source.now)
            (shows S.seen H.told self.old.raw) (shows S.seen H.told n.raw) result)) }
        ensures same_reference { IfOk result (λ i. i.conn.ghost_name ≡ self.entry.ghost_name) }
        ensures begins { IfOk result (λ i. Begins S.is_honest (Q.view source.now)
            (shows S.seen H.told self.old.raw) (shows S.seen H.told i.conn.now.raw)) }
        ensures sql { IfOk result (λ i. i.sql.now ≡ (Q.view source.now).sql) }
        ensures fresh { IfOk result (λ i. i.progress ≡ Going) }
    {
        let statement = self.raw.begin(source)?;
        Ok(LentRows {
            conn: self,
            alloc,
            sql: source.sql(),
            statement,
            progress: Progress::Going,
        })
    }
}

impl<'c, S: Server, D: Kind, H: Instrumentation + Drop> LentRows<'c, S, D, H> {
    /// The next row. A row that is refused is answered by its error once, and is the last; where memory was wanting the row
    /// can be asked again.
    pub fn next(&mut self) -> Option<QueryResult<Row>>
        ensures same_reference { self.new.conn.ghost_name ≡ self.old.conn.ghost_name }
        ensures nexts { NextsBy self.old.progress (shows S.seen H.told self.old.conn.now.raw)
            (shows S.seen H.told self.new.conn.now.raw) self.new.progress result }
        ensures statement { self.new.statement ≡ self.old.statement }
        ensures sql { self.new.sql.now ≡ self.old.sql.now }
    {
        match self.progress {
            Progress::Going => {}
            Progress::Ended | Progress::Refused(_) => return None,
        }
        let conn = &mut *self.conn;
        match conn.raw.next_row(self.alloc) {
            Ok(Some(row)) => Some(Ok(row)),
            Ok(None) => {
                self.progress = Progress::Ended;
                None
            }
            Err(e) => {
                self.progress = Progress::after(e);
                Some(Err(e))
            }
        }
    }

    /// The first rows, at most so many, of which none was asked yet.
    pub(crate) fn take_rows(&mut self, alloc: Global, count: usize) -> QueryResult<Vec<Row>>
        requires fresh { self.old.progress ≡ Going }
        ensures same_reference { self.new.conn.ghost_name ≡ self.old.conn.ghost_name }
        ensures takes { TakesRows count (shows S.seen H.told self.old.conn.now.raw)
            (shows S.seen H.told self.new.conn.now.raw) self.new.progress (listed result) }
        ensures statement { self.new.statement ≡ self.old.statement }
        ensures sql { self.new.sql.now ≡ self.old.sql.now }
    {
        let mut rows = Vec::new(alloc);
        while rows.len() < count {
            match self.next() {
                Some(Ok(row)) => match hold(&mut rows, row) {
                    Ok(()) => {}
                    Err(e) => return Err(e),
                },
                Some(Err(e)) => return Err(e),
                None => return Ok(rows),
            }
        }
        Ok(rows)
    }
}
