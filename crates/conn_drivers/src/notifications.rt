//! The notifications of PostgreSQL.
ghost use Rattle.std.specs.Prelude.{◌≡◌};
ghost use Rattle.conn_model.specs.Rows.{Notifies};

use crate::PgConnection;
use conn_manager::{DynInstrumentation, Instrumentation};
use conn_model::Notification;
use conn_server::Server;

/// The notifications that wait on a connection, which it lends.
#[derive(Drop)]
pub struct Notifications<'c, S: Server, H = DynInstrumentation> {
    conn: &'c mut PgConnection<S, H>,
}

impl<S: Server, H: Instrumentation + Drop> PgConnection<S, H> {
    /// The notifications that wait, the oldest first.
    pub fn notifications_iter<'c>(&'c mut self) -> Notifications<'c, S, H>
        ensures same_reference { result.conn.ghost_name ≡ self.entry.ghost_name }
        ensures same { result.conn.now ≡ self.old }
    {
        Notifications { conn: self }
    }
}

impl<'c, S: Server, H: Instrumentation + Drop> Notifications<'c, S, H> {
    ghost use Rattle.conn_drivers.specs.Raws.{shows};

    /// The notification that waits longest, where one does. It asks nothing of the server.
    pub fn next(&mut self) -> Option<Notification>
        ensures same_reference { self.new.conn.ghost_name ≡ self.old.conn.ghost_name }
        ensures takes { Notifies (S.seen self.old.conn.now.raw.wire.server)
            (S.seen self.new.conn.now.raw.wire.server) result }
        ensures same { shows S.seen H.told self.new.conn.now.raw
            ≡ record (shows S.seen H.told self.old.conn.now.raw)
            { seen = S.seen self.new.conn.now.raw.wire.server } }
    {
        self.conn.raw.notify()
    }
}
