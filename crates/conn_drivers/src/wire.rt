//! A server, and what is tracked of its transaction.
ghost use Rattle.std.specs.Prelude.{◌≡◌, ◌≤◌, ◌+◌, length, IsSome, None, []};
ghost use Rattle.conn_result.specs.declared.error.Error.TheVariants.{DatabaseError};
ghost use Rattle.conn_model.specs.Acts.{Acts};
ghost use Rattle.conn_model.specs.Statements.{run_bytes, source_text, text_of};
ghost use Rattle.conn_model.specs.declared.item.Call.TheVariants.{Exec, Prepare, Run};
ghost use Rattle.conn_manager.specs.Manages.{done, bare_process, HasServerCause};
ghost use Rattle.conn_manager.specs.Statuses.{no_depth, retold};
ghost use Rattle.conn_cache.specs.QueryProcesses.{without_value};
ghost use Rattle.conn_drivers.specs.Loading.{BeginsIf, TakesRow};
ghost use Rattle.conn_drivers.specs.Prepares.{count_by, count_heard};
ghost use Rattle.conn_drivers.specs.Wires.{Hears, HearsBy, OpensIf};

use conn_manager::{TransactionManagerStatus, reply_of, retold};
use conn_model::{Bind, Refusal, Row, RowRefusal, RunReply, RunSource, nul_fault};
use conn_result::{Error, QueryResult};
use conn_server::Server;
use std::alloc::Global;

/// A server, and what is tracked of its transaction. It has no handler: its connection tells what is sent on it.
#[derive(Drop)]
pub struct Wire<S> {
    pub server: S,
    pub status: TransactionManagerStatus,
}

/// The error that hands a refusal on.
pub(crate) fn error_of(refusal: Refusal) -> Error
    ensures { result ≡ DatabaseError refusal.kind refusal.code }
{
    Error::DatabaseError(refusal.kind, refusal.code)
}

/// The affected rows of a run, or its refusal.
fn count_by(ran: Result<RunReply, Refusal>) -> QueryResult<u64>
    ensures { result ≡ count_by ran }
{
    match ran {
        Ok(reply) => Ok(reply.affected),
        Err(refusal) => Err(error_of(refusal)),
    }
}

impl<S: Server> Wire<S> {
    /// Over a server that was just opened.
    pub fn new(server: S) -> Wire<S>
        ensures server { result.server ≡ server }
        ensures status { result.status ≡ no_depth }
    {
        Wire {
            server,
            status: TransactionManagerStatus::default(),
        }
    }

    /// Tracks what the server tells after a call that was refused or not.
    #[inline(always)]
    pub(crate) fn follow(&mut self, refusal: Option<Refusal>)
        ensures same { S.seen self.new.server ≡ S.seen self.old.server }
        ensures status { let seen = S.seen self.old.server in self.new.status
            ≡ retold seen.dialect refusal seen.told self.old.status }
    {
        let dialect = self.server.dialect();
        let told = self.server.told();
        self.status = retold(dialect, refusal, told, self.status);
    }

    /// Sends a text for which there is room.
    fn exec(&mut self, query: &str) -> QueryResult<()>
        requires items { 1 ≤ (S.seen self.old.server).item_room }
        requires bytes { length query.now ≤ (S.seen self.old.server).byte_room }
        ensures hears { Hears S.is_honest Exec query.now (S.seen self.old.server)
            (S.seen self.new.server) self.old.status self.new.status result }
        ensures cause { HasServerCause (S.seen self.old.server) (S.seen self.new.server) result }
        ensures open { (S.seen self.new.server).open_statements
            ≡ (S.seen self.old.server).open_statements }
        ensures item_room { (S.seen self.old.server).item_room
            ≤ (S.seen self.new.server).item_room + 1 }
        ensures byte_room { (S.seen self.old.server).byte_room
            ≤ (S.seen self.new.server).byte_room + length query.now }
    {
        let refusal = self.server.exec(query).err();
        self.follow(refusal);
        reply_of(refusal)
    }

    /// Sends a text for which there is room, unless its NUL stops it.
    pub fn try_exec(&mut self, query: &str) -> QueryResult<()>
        requires items { 1 ≤ (S.seen self.old.server).item_room }
        requires bytes { length query.now ≤ (S.seen self.old.server).byte_room }
        ensures acts { Acts S.is_honest
            (bare_process (S.seen self.old.server).dialect query.now self.old.status)
            (S.seen self.old.server) (S.seen self.new.server) (done result self.new.status) }
        ensures cause { HasServerCause (S.seen self.old.server) (S.seen self.new.server) result }
        ensures open { (S.seen self.new.server).open_statements
            ≡ (S.seen self.old.server).open_statements }
        ensures item_room { (S.seen self.old.server).item_room
            ≤ (S.seen self.new.server).item_room + 1 }
        ensures byte_room { (S.seen self.old.server).byte_room
            ≤ (S.seen self.new.server).byte_room + length query.now }
    {
        match nul_fault(self.server.dialect(), query) {
            Some(place) => Err(Error::InvalidCString(place)),
            None => self.exec(query),
        }
    }

    /// Prepares a text, and gives the number of its statement.
    pub(crate) fn prepare(&mut self, text: &str) -> QueryResult<u64>
        requires items { 1 ≤ (S.seen self.old.server).item_room }
        requires bytes { length text.now ≤ (S.seen self.old.server).byte_room }
        ensures hears { Hears S.is_honest (Prepare None) text.now (S.seen self.old.server)
            (S.seen self.new.server) self.old.status self.new.status (without_value result) }
        ensures cause { HasServerCause (S.seen self.old.server) (S.seen self.new.server)
            (without_value result) }
        ensures opens { OpensIf text.now (S.seen self.old.server).open_statements
            (S.seen self.new.server).open_statements result }
        ensures item_room { (S.seen self.old.server).item_room
            ≤ (S.seen self.new.server).item_room + 1 }
        ensures byte_room { (S.seen self.old.server).byte_room
            ≤ (S.seen self.new.server).byte_room + length text.now }
    {
        match self.server.prepare(text, None, &[]) {
            Ok(prepared) => {
                self.follow(None);
                Ok(prepared.statement)
            }
            Err(refusal) => {
                self.follow(Some(refusal));
                Err(error_of(refusal))
            }
        }
    }

    /// Runs a text, or an open statement, without binds.
    pub(crate) fn run(&mut self, source: RunSource<'_>) -> QueryResult<()>
        requires opened { IsSome (source_text (S.seen self.old.server).open_statements source) }
        requires items { 2 ≤ (S.seen self.old.server).item_room }
        requires bytes { length (text_of (S.seen self.old.server).open_statements source)
            ≤ (S.seen self.old.server).byte_room }
        ensures hears { let old = S.seen self.old.server in
            Hears S.is_honest (Run []) (text_of old.open_statements source.entry) old
            (S.seen self.new.server) self.old.status self.new.status result }
        ensures cause { HasServerCause (S.seen self.old.server) (S.seen self.new.server) result }
        ensures open { (S.seen self.new.server).open_statements
            ≡ (S.seen self.old.server).open_statements }
        ensures item_room { (S.seen self.old.server).item_room
            ≤ (S.seen self.new.server).item_room + 2 }
        ensures byte_room { let old = S.seen self.old.server in
            old.byte_room ≤ (S.seen self.new.server).byte_room
            + length (text_of old.open_statements source.entry) }
    {
        let refusal = self.server.run(source, &[]).err();
        self.follow(refusal);
        reply_of(refusal)
    }

    /// Runs a text, or an open statement, with these binds, and answers how many rows it affected.
    pub(crate) fn run_with(&mut self, source: RunSource<'_>, binds: &[Bind]) -> QueryResult<u64>
        requires opened { IsSome (source_text (S.seen self.old.server).open_statements source) }
        requires items { 2 ≤ (S.seen self.old.server).item_room }
        requires bytes { run_bytes (text_of (S.seen self.old.server).open_statements source)
            binds.now ≤ (S.seen self.old.server).byte_room }
        ensures hears { let old = S.seen self.old.server in
            HearsBy count_heard S.is_honest (Run binds.now)
            (text_of old.open_statements source.entry) old
            (S.seen self.new.server) self.old.status self.new.status result }
        ensures cause { HasServerCause (S.seen self.old.server) (S.seen self.new.server)
            (without_value result) }
        ensures open { (S.seen self.new.server).open_statements
            ≡ (S.seen self.old.server).open_statements }
        ensures dialect { (S.seen self.new.server).dialect ≡ (S.seen self.old.server).dialect }
        ensures begins { let old = S.seen self.old.server in
            BeginsIf S.is_honest (text_of old.open_statements source.entry) old
            (S.seen self.new.server) result }
    {
        let ran = self.server.run(source, binds);
        self.follow(ran.err());
        count_by(ran)
    }

    /// The next row of the last run. A refused one ends the rows, and is an error; so is want of memory, which changes nothing.
    pub(crate) fn next_row(&mut self, alloc: Global) -> QueryResult<Option<Row>>
        ensures { TakesRow (S.seen self.old.server) (S.seen self.new.server) self.old.status
            self.new.status result }
    {
        match self.server.next_row(alloc) {
            Ok(row) => Ok(row),
            Err(RowRefusal::Memory) => Err(Error::OutOfMemory),
            Err(RowRefusal::Refused(refusal)) => {
                self.follow(Some(refusal));
                Err(error_of(refusal))
            }
        }
    }
}
