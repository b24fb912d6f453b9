//! How a connection that was just opened sets itself up.
ghost use Rattle.std.specs.Prelude.{◌≡◌, ◌≤◌, ◌*◌, length, OnOk};
ghost use Rattle.conn_model.specs.declared.item.Dialect.TheVariants.{Pg, Mysql};
ghost use Rattle.conn_manager.specs.Manages.{done};
ghost use Rattle.conn_manager.specs.Setups.{setup_texts, execute_text};
ghost use Rattle.conn_drivers.specs.Wires.{prepare_text, Asks, HasRoomFor, IsSetUp};

use crate::Wire;
use conn_model::{Dialect, RunSource};
use conn_result::QueryResult;
use conn_server::Server;
use std::alloc::AllocError;

/// How many texts a connection of the dialect sends first.
fn setup_len(dialect: Dialect) -> usize
    ensures { result ≡ length (setup_texts dialect) }
{
    match dialect {
        Dialect::Pg => 2,
        Dialect::Mysql => 4,
        Dialect::Sqlite => 0,
    }
}

impl<S: Server> Wire<S> {
    /// Prepares a text, runs it without binds, and closes its statement.
    fn run_prepared(&mut self, text: &str) -> QueryResult<()>
        requires items { 3 ≤ (S.seen self.old.server).item_room }
        requires bytes { 2 * length text.now ≤ (S.seen self.old.server).byte_room }
        ensures { Asks S.is_honest prepare_text text.now (S.seen self.old.server)
            (S.seen self.new.server) self.old.status self.new.status result }
    {
        let statement = self.prepare(text)?;
        let reply = self.run(RunSource::Prepared(statement));
        self.server.close_statement(statement);
        reply
    }

    /// Executes a text without binds: PostgreSQL runs it at once, MySQL and SQLite prepare it first.
    fn execute(&mut self, text: &str) -> QueryResult<()>
        requires items { 3 ≤ (S.seen self.old.server).item_room }
        requires bytes { 2 * length text.now ≤ (S.seen self.old.server).byte_room }
        ensures { Asks S.is_honest execute_text text.now (S.seen self.old.server)
            (S.seen self.new.server) self.old.status self.new.status result }
    {
        match self.server.dialect() {
            Dialect::Pg => self.run(RunSource::Unnamed(text)),
            Dialect::Mysql | Dialect::Sqlite => self.run_prepared(text),
        }
    }

    /// Tells PostgreSQL the time zone and the encoding.
    fn set_up_pg(&mut self) -> QueryResult<()>
        requires dialect { (S.seen self.old.server).dialect ≡ Pg }
        requires room { HasRoomFor 2 (S.seen self.old.server) }
        ensures { IsSetUp S.is_honest (S.seen self.old.server) (S.seen self.new.server)
            self.old.status (done result self.new.status) }
    {
        self.execute("SET TIME ZONE 'UTC'")?;
        self.execute("SET CLIENT_ENCODING TO 'UTF8'")
    }

    /// Tells MySQL the time zone and the character sets.
    fn set_up_mysql(&mut self) -> QueryResult<()>
        requires dialect { (S.seen self.old.server).dialect ≡ Mysql }
        requires room { HasRoomFor 4 (S.seen self.old.server) }
        ensures { IsSetUp S.is_honest (S.seen self.old.server) (S.seen self.new.server)
            self.old.status (done result self.new.status) }
    {
        self.execute("SET time_zone = '+00:00';")?;
        self.execute("SET character_set_client = 'utf8mb4'")?;
        self.execute("SET character_set_connection = 'utf8mb4'")?;
        self.execute("SET character_set_results = 'utf8mb4'")
    }

    /// Takes the memory that the texts of the setup may need.
    pub(crate) fn take_setup_room(&mut self) -> Result<(), AllocError>
        ensures room { let old = S.seen self.old.server in
            OnOk result (HasRoomFor (length (setup_texts old.dialect)) (S.seen self.new.server)) }
        ensures status { self.new.status ≡ self.old.status }
        ensures keeps { let new = S.seen self.new.server in new ≡ record (S.seen self.old.server)
            { item_room = new.item_room; byte_room = new.byte_room } }
    {
        let texts = setup_len(self.server.dialect());
        self.server.reserve(3 * texts, 128 * texts)
    }

    /// Executes the texts of the setup, for which there is room, up to the first that is refused.
    pub(crate) fn set_up(&mut self) -> QueryResult<()>
        requires { let old = S.seen self.old.server in
            HasRoomFor (length (setup_texts old.dialect)) old }
        ensures { IsSetUp S.is_honest (S.seen self.old.server) (S.seen self.new.server)
            self.old.status (done result self.new.status) }
    {
        match self.server.dialect() {
            Dialect::Pg => self.set_up_pg(),
            Dialect::Mysql => self.set_up_mysql(),
            Dialect::Sqlite => Ok(()),
        }
    }
}
