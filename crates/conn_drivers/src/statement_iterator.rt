//! The rows of a query on MySQL or SQLite, one at a time.
ghost use Rattle.std.specs.Prelude.{◌≡◌, IfOk};
ghost use Rattle.std.specs.Borrow.{sem, RestsIfErr};
ghost use Rattle.conn_drivers.specs.Cursors.{Begins, RestsEarly, cursor_end, front_rows, refusal_in};
ghost use Rattle.conn_drivers.specs.Loaded.{LoadsFrom, listed};
ghost use Rattle.conn_drivers.specs.Raws.{shows};
ghost use Rattle.conn_drivers.specs.declared.progress.Progress.TheVariants.{Going};

use crate::lent_rows::LentRows;
use crate::{Driver, StatementKind};
use conn_cache::Query;
use conn_manager::Instrumentation;
use conn_model::Row;
use conn_result::QueryResult;
use conn_server::Server;
use std::alloc::Global;

/// The rows of a query on MySQL or SQLite. Those that aren't asked before `finish` are let go.
pub type StatementIterator<'c, S, D, H> = LentRows<'c, S, D, H>;

impl<S: Server, D: StatementKind, H: Instrumentation + Drop> Driver<S, D, H> {
    ghost use Rattle.conn_drivers.specs.contracts.driver.Driver.{the_row};

    /// Runs a query, and leaves its rows to be asked one at a time.
    pub fn load<'c, Q: Query>(
        &'c mut self,
        alloc: Global,
        source: &'c Q,
    ) -> QueryResult<StatementIterator<'c, S, D, H>>
        ensures* rests { sem 𝓛 (RestsIfErr (the_row S.row D.row H.row S.Server) self.entry
            (λ i. i.conn.ghost_name) result (λ n. RestsEarly S.is_honest (Q.view source.now)
            (shows S.seen H.told self.old.raw) (shows S.seen H.told n.raw) result)) }
        ensures same_reference { IfOk result (λ i. i.conn.ghost_name ≡ self.entry.ghost_name) }
        ensures begins { IfOk result (λ i. Begins S.is_honest (Q.view source.now)
            (shows S.seen H.told self.old.raw) (shows S.seen H.told i.conn.now.raw)) }
        ensures sql { IfOk result (λ i. i.sql.now ≡ (Q.view source.now).sql) }
        ensures fresh { IfOk result (λ i. i.progress ≡ Going) }
    {
        self.lend_rows(alloc, source)
    }

    /// Loads a query, takes at most so many of its first rows, and ends the load: they are the first ones of a whole load.
    pub fn first_rows<Q: Query>(
        &mut self,
        alloc: Global,
        source: &Q,
        count: usize,
    ) -> QueryResult<Vec<Row>>
        ensures loads { LoadsFrom S.is_honest (Q.view source.now) (front_rows count)
            (shows S.seen H.told self.old.raw) (shows S.seen H.told self.new.raw) (listed result) }
    {
        let mut rows = self.load(alloc, source)?;
        let first = rows.take_rows(alloc, count);
        rows.finish();
        first
    }
}

impl<'c, S: Server, D: StatementKind, H: Instrumentation + Drop> StatementIterator<'c, S, D, H> {
    /// Closes the statement where it isn't kept, and tells of the end, with the error that a row was refused with.
    pub fn finish(self)
        ensures { shows S.seen H.told self.exit.0.now.raw ≡ cursor_end self.entry.statement
            self.entry.sql.now (refusal_in self.entry.progress)
            (shows S.seen H.told self.entry.conn.now.raw) }
    {
        let LentRows {
            conn,
            alloc: _,
            sql,
            statement,
            progress,
        } = self;
        conn.raw.finish(sql, statement, progress.refusal());
    }
}
