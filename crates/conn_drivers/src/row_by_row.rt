//! The rows of a query on PostgreSQL, one at a time.
ghost use Rattle.std.specs.Prelude.{◌≡◌, IfOk};
ghost use Rattle.std.specs.Borrow.{sem, RestsIfErr};
ghost use Rattle.conn_drivers.specs.Cursors.{Begins, FinishesBy, RestsEarly};
ghost use Rattle.conn_drivers.specs.Raws.{shows};
ghost use Rattle.conn_drivers.specs.declared.progress.Progress.TheVariants.{Going};

use crate::lent_rows::LentRows;
use crate::{Driver, Pg};
use conn_cache::Query;
use conn_manager::Instrumentation;
use conn_result::QueryResult;
use conn_server::Server;
use std::alloc::Global;

/// The rows of a query on PostgreSQL, which aren't held. `finish` asks those that are left.
pub type RowByRowCursor<'c, S, H> = LentRows<'c, S, Pg, H>;

impl<S: Server, H: Instrumentation + Drop> Driver<S, Pg, H> {
    ghost use Rattle.conn_drivers.specs.contracts.driver.Driver.{the_row};
    ghost use Rattle.conn_drivers.specs.contracts.kinds.Pg.{the_row as pg_row};

    /// Runs a query, and leaves its rows to be asked one at a time.
    pub fn load_row_by_row<'c, Q: Query>(
        &'c mut self,
        alloc: Global,
        source: &'c Q,
    ) -> QueryResult<RowByRowCursor<'c, S, H>>
        ensures* rests { sem 𝓛 (RestsIfErr (the_row S.row pg_row H.row S.Server) self.entry
            (λ i. i.conn.ghost_name) result (λ n. RestsEarly S.is_honest (Q.view source.now)
            (shows S.seen H.told self.old.raw) (shows S.seen H.told n.raw) result)) }
        ensures same_reference { IfOk result (λ i. i.conn.ghost_name ≡ self.entry.ghost_name) }
        ensures begins { IfOk result (λ i. Begins S.is_honest (Q.view source.now)
            (shows S.seen H.told self.old.raw) (shows S.seen H.told i.conn.now.raw)) }
        ensures sql { IfOk result (λ i. i.sql.now ≡ (Q.view source.now).sql) }
        ensures fresh { IfOk result (λ i. i.progress ≡ Going) }
    {
        self.lend_rows(alloc, source)
    }
}

impl<'c, S: Server, H: Instrumentation + Drop> RowByRowCursor<'c, S, H> {
    /// Asks the rows that are left, and holds none; closes the statement where it isn't kept, and tells of the end. That a row
    /// is refused then is told and answered, want of memory for one is answered alone.
    pub fn finish(self) -> QueryResult<()>
        ensures { FinishesBy self.entry.progress self.entry.statement self.entry.sql.now
            (shows S.seen H.told self.entry.conn.now.raw) (shows S.seen H.told self.exit.0.now.raw)
            result }
    {
        let LentRows {
            conn,
            alloc,
            sql,
            statement,
            progress,
        } = self;
        conn.raw.finish_all(alloc, sql, statement, progress)
    }
}
