//! A manager that takes back connections which others opened.
ghost use Rattle.std.specs.Prelude.{◌≡◌};

use conn_drivers::{AnyConnection, Establish};
use conn_manager::NoInstrumentation;
use conn_pool::{ConnectionManager, Error, ManageConnection};
use conn_server::{ScriptedConnector, ScriptedServer};
use std::alloc::Global;

/// A connection of any dialect to a server in memory.
pub type Any = AnyConnection<ScriptedServer, NoInstrumentation>;

/// Opens connections over its connector, and drops up to so many that are closed.
#[derive(Drop)]
pub struct Keeper<'k> {
    /// What opens.
    pub opener: ConnectionManager<'k, Any, ScriptedConnector>,
    /// How many it can still close.
    pub left: u32,
}

impl ManageConnection for Keeper<'_> {
    ghost use Rattle.std.specs.Prelude.{⊤, false};

    type Connection = Any;

    ghost opens = { λ m n v. ⊤ };

    ghost fails = { λ m n e. ⊤ };

    ghost checks = { λ m n v w reply. ⊤ };

    ghost closes = { λ m n v. ⊤ };

    ghost stays = { λ m n. ⊤ };

    ghost room = { λ m. m.left };

    ghost raises_room = { false };

    ghost refusals = { λ m. m.opener.refusals };

    fn connect(&mut self, alloc: Global) -> Result<Any, Error> {
        self.opener.connect(alloc)
    }

    fn is_valid(&mut self, connection: &mut Any) -> Result<(), Error> {
        self.opener.is_valid(connection)
    }

    fn has_broken(&mut self, connection: &mut Any) -> bool {
        self.opener.has_broken(connection)
    }

    fn close(&mut self, connection: Any) {
        let _server = connection.into_server();
        self.left -= 1;
    }
}
