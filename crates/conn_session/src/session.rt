//! The pool of a session, and the connections that are handed out.

use crate::calls::entry_on;
use crate::customizer::ScriptCustomizer;
use crate::places::{act_in, entry_without, give_back, give_slot_back, unserved};
use crate::queries::Queries;
use conn_drivers::{MultiConnection, R2D2Connection};
use conn_manager::{Connection, NoInstrumentation};
use conn_pool::{ConnectionManager, PoolCore, PooledConnection, put_back, try_get};
use conn_reading::{Blocks, Deed};
use conn_report::{Entry, Reply};
use conn_script::{Command, Customizer, Request, Verb, Word};
use conn_server::Connector;
use std::alloc::{AllocError, Global};
use std::mem::replace;

/// The slots that are in the pool, the connections that are handed out, each at the place of its number, the open blocks, the
/// queries that commands name, and what `get` asks.
pub struct Session<'s, C: R2D2Connection + Drop> {
    alloc: Global,
    core: PoolCore<C>,
    out: Vec<Option<PooledConnection<C>>>,
    blocks: Blocks,
    queries: Queries<'s>,
    customizer: Customizer,
    check: bool,
}

impl<'s, C: MultiConnection + Connection<Handler = NoInstrumentation> + Drop> Session<'s, C> {
    ghost use Rattle.std.specs.Prelude.{◌≡◌, ◌<◌, ℕ, List, Ok, None, Some, slice_get, slice_set, vec_len, vec_capacity, IfOk};
    ghost use Rattle.std.specs.Option.{option_map};
    ghost use Rattle.conn_reading.specs.Seats.{at_number};
    ghost use Rattle.conn_script.specs.Requests.{request_of};
    ghost use Rattle.conn_script.specs.declared.request.Request.TheVariants.{Get as get, Put as put, On as on};
    ghost use Rattle.conn_session.specs.Worlds.{filled_to, new_pool, policy_with, pool_of, seats_of, views_of, world_at, Invariant};
    ghost use Rattle.conn_pool.specs.Managers.{Managed};
    ghost use Rattle.conn_model.specs.declared.item.Dialect.{Dialect};
    ghost use Rattle.conn_session.specs.Steps.{entry_at, AnswersOn, AnswersVerb, KeepsAll, RunsAll, Steps, Closes};

    /// A pool of so many empty slots, for commands that name these queries.
    pub fn new(
        alloc: Global,
        size: u32,
        customizer: Customizer,
        check: bool,
        queries: Queries<'s>,
    ) -> Result<Session<'s, C>, AllocError>
        ensures { IfOk result (λ s. (m : Managed) → pool_of C.view s m
            ≡ new_pool m.dialect m.url size (policy_with customizer check) queries.entry) }
    {
        let core = PoolCore::new(alloc, size)?;
        Ok(Session {
            alloc,
            core,
            out: Vec::new(alloc),
            blocks: Blocks::new(alloc),
            queries,
            customizer,
            check,
        })
    }

    /// Takes the connection of a number, where it is out.
    fn take_out(&mut self, n: u32) -> Option<PooledConnection<C>>
        ensures taken { option_map (λ p. C.view p.connection) result
            ≡ at_number n (views_of C.view self.old.out.items) }
        ensures left { self.new.out.items ≡ slice_set self.old.out.items n None }
        ensures rest { self.new ≡ record self.old { out = self.new.out } }
    {
        let place = n as usize;
        if place >= self.out.len() {
            return None;
        }
        self.out[place].take()
    }

    /// Puts a connection at the place of its number, where none is.
    fn put_out(&mut self, connection: PooledConnection<C>)
        requires { let n = (C.view connection.connection).seen.number in
            slice_get self.old.out.items n ≡ Some None }
        ensures out { let n = (C.view connection.connection).seen.number in
            self.new.out.items ≡ slice_set self.old.out.items n (Some connection) }
        ensures rest { self.new ≡ record self.old { out = self.new.out } }
    {
        let place = connection.number() as usize;
        match replace(&mut self.out[place], Some(connection)) {
            None => {}
            Some(_) => unreachable!(),
        }
    }

    /// A server that was opened has a place.
    fn fill_places<K: Connector<S = C::S>>(&mut self, manager: &ConnectionManager<'_, C, K>)
        requires { vec_len self.old.out < vec_capacity self.old.out }
        ensures out { self.new.out.items
            ≡ filled_to (K.held manager.now.connector.now).opened self.old.out.items }
        ensures rest { self.new ≡ record self.old { out = self.new.out } }
    {
        if self.out.len() < manager.connector.opened() as usize {
            self.out.push_reserved(None);
        }
    }

    /// Hands a connection out: the one in the front slot, or a new one where that slot is empty.
    fn get<K: Connector<S = C::S>>(
        &mut self,
        line: u32,
        manager: &mut ConnectionManager<'_, C, K>,
    ) -> Result<Entry, AllocError>
        requires { Invariant (world_at C.view self.old (K.held manager.old.connector.now)
            manager.old.dialect manager.old.database_url) }
        ensures steps { Steps K.is_honest line get
            (world_at C.view self.old (K.held manager.old.connector.now)
            manager.old.dialect manager.old.database_url)
            (world_at C.view self.new (K.held manager.new.connector.now)
            manager.new.dialect manager.new.database_url) result }
        ensures lent { manager.new.connector.ghost_name ≡ manager.old.connector.ghost_name }
    {
        self.out.reserve(1)?;
        let customizer = ScriptCustomizer(self.customizer);
        let got = try_get(self.alloc, &mut self.core, manager, &customizer, self.check);
        self.fill_places(manager);
        match got {
            Ok(connection) => {
                let entry = entry_on(&connection.connection, line, Word::Get, Reply::Ok);
                self.put_out(connection);
                Ok(entry)
            }
            Err(error) => unserved(line, error, manager.connector),
        }
    }

    /// Gives a connection back to the pool, which keeps or closes it.
    fn put<K: Connector<S = C::S>>(
        &mut self,
        line: u32,
        n: u32,
        manager: &mut ConnectionManager<'_, C, K>,
    ) -> Entry
        requires { Invariant (world_at C.view self.old (K.held manager.old.connector.now)
            manager.old.dialect manager.old.database_url) }
        ensures steps { Steps K.is_honest line (put n)
            (world_at C.view self.old (K.held manager.old.connector.now)
            manager.old.dialect manager.old.database_url)
            (world_at C.view self.new (K.held manager.new.connector.now)
            manager.new.dialect manager.new.database_url) (Ok result) }
        ensures lent { manager.new.connector.ghost_name ≡ manager.old.connector.ghost_name }
    {
        let Some(connection) = self.take_out(n) else {
            return entry_without(line, Word::Put, Some(n), Reply::NotOut);
        };
        let entry = entry_on(&connection.connection, line, Word::Put, Reply::Kept);
        if put_back(&mut self.core, connection, manager) {
            entry
        } else {
            Entry {
                reply: Reply::Closed,
                ..entry
            }
        }
    }

    /// Does a deed on the connection of a number, and gives its reply.
    fn act<K: Connector<S = C::S>>(
        &mut self,
        n: u32,
        deed: &Deed<'_>,
        manager: &ConnectionManager<'_, C, K>,
    ) -> Result<Reply, AllocError>
        requires { Invariant (world_at C.view self.old (K.held manager.now.connector.now)
            manager.now.dialect manager.now.database_url) }
        ensures { AnswersOn K.is_honest n deed.now
            (world_at C.view self.old (K.held manager.now.connector.now)
            manager.now.dialect manager.now.database_url)
            (world_at C.view self.new (K.held manager.now.connector.now)
            manager.now.dialect manager.now.database_url) result }
    {
        let place = n as usize;
        if place >= self.out.len() {
            return Ok(Reply::NotOut);
        }
        match act_in(self.alloc, &mut self.out[place], &self.queries, deed) {
            Some(result) => result,
            None => Ok(Reply::NotOut),
        }
    }

    /// The entry of a command with this reply, which shows its connection where it is out.
    fn entry(&self, line: u32, n: u32, word: Word, reply: Reply) -> Entry
        ensures { result ≡ entry_at line word n reply
            (at_number n (seats_of (views_of C.view self.now.out.items))) }
    {
        let place = n as usize;
        if place < self.out.len() {
            if let Some(connection) = &self.out[place] {
                return entry_on(&connection.connection, line, word, reply);
            }
        }
        entry_without(line, word, Some(n), reply)
    }

    /// Does what a command says of the connection of a number, or skips it, as the open blocks say; gives the reply.
    fn do_or_skip<K: Connector<S = C::S>>(
        &mut self,
        n: u32,
        verb: &Verb<'_>,
        manager: &ConnectionManager<'_, C, K>,
    ) -> Result<Reply, AllocError>
        requires { Invariant (world_at C.view self.old (K.held manager.now.connector.now)
            manager.now.dialect manager.now.database_url) }
        ensures { AnswersVerb K.is_honest n verb.now
            (world_at C.view self.old (K.held manager.now.connector.now)
            manager.now.dialect manager.now.database_url)
            (world_at C.view self.new (K.held manager.now.connector.now)
            manager.now.dialect manager.now.database_url) result }
    {
        match self.blocks.deed(n, verb) {
            Some(deed) => self.act(n, &deed, manager),
            None => Ok(Reply::Skipped),
        }
    }

    /// One command on the connection of a number, whose reply then tells the blocks.
    fn on<K: Connector<S = C::S>>(
        &mut self,
        line: u32,
        n: u32,
        verb: &Verb<'_>,
        manager: &ConnectionManager<'_, C, K>,
    ) -> Result<Entry, AllocError>
        requires { Invariant (world_at C.view self.old (K.held manager.now.connector.now)
            manager.now.dialect manager.now.database_url) }
        ensures { Steps K.is_honest line (on n verb.now)
            (world_at C.view self.old (K.held manager.now.connector.now)
            manager.now.dialect manager.now.database_url)
            (world_at C.view self.new (K.held manager.now.connector.now)
            manager.now.dialect manager.now.database_url) result }
    {
        let reply = self.do_or_skip(n, verb, manager)?;
        self.blocks.follow(n, verb, &reply)?;
        Ok(self.entry(line, n, verb.word(), reply))
    }

    /// One command.
    fn run<K: Connector<S = C::S>>(
        &mut self,
        command: &Command<'_>,
        manager: &mut ConnectionManager<'_, C, K>,
    ) -> Result<Entry, AllocError>
        requires { Invariant (world_at C.view self.old (K.held manager.old.connector.now)
            manager.old.dialect manager.old.database_url) }
        ensures steps { Steps K.is_honest command.now.line (request_of command.now.act)
            (world_at C.view self.old (K.held manager.old.connector.now)
            manager.old.dialect manager.old.database_url)
            (world_at C.view self.new (K.held manager.new.connector.now)
            manager.new.dialect manager.new.database_url) result }
        ensures lent { manager.new.connector.ghost_name ≡ manager.old.connector.ghost_name }
    {
        let line = command.line;
        match command.act.request() {
            Request::Get => self.get(line, manager),
            Request::Put(n) => Ok(self.put(line, n, manager)),
            Request::On(n, verb) => self.on(line, n, &verb, manager),
        }
    }

    /// The commands in order. An `Err` loses no server.
    pub fn run_all<K: Connector<S = C::S>>(
        &mut self,
        commands: &[Command<'_>],
        manager: &mut ConnectionManager<'_, C, K>,
    ) -> Result<Vec<Entry>, AllocError>
        requires { Invariant (world_at C.view self.old (K.held manager.old.connector.now)
            manager.old.dialect manager.old.database_url) }
        ensures keeps { KeepsAll
            (world_at C.view self.old (K.held manager.old.connector.now)
            manager.old.dialect manager.old.database_url)
            (world_at C.view self.new (K.held manager.new.connector.now)
            manager.new.dialect manager.new.database_url) }
        ensures runs { IfOk result (λ entries. RunsAll K.is_honest commands.now
            (world_at C.view self.old (K.held manager.old.connector.now)
            manager.old.dialect manager.old.database_url)
            (world_at C.view self.new (K.held manager.new.connector.now)
            manager.new.dialect manager.new.database_url) entries.items) }
        ensures lent { manager.new.connector.ghost_name ≡ manager.old.connector.ghost_name }
    {
        let mut entries = Vec::with_capacity(self.alloc, commands.len())?;
        for command in commands {
            let entry = self.run(command, manager)?;
            entries.push(entry)?;
        }
        Ok(entries)
    }

    /// Gives every server back.
    pub fn close<K: Connector<S = C::S>>(self, connector: &mut K)
        requires { (d : Dialect) → (url : List ℕ)
            → Invariant (world_at C.view self (K.held connector.old) d url) }
        ensures { (d : Dialect) → (url : List ℕ)
            → Closes (world_at C.view self.entry (K.held connector.old) d url) (K.held connector.new) }
    {
        let Session {
            alloc: _,
            mut core,
            mut out,
            blocks: _,
            queries: _,
            customizer: _,
            check: _,
        } = self;
        while let Some(place) = out.pop() {
            give_back(place, connector);
        }
        out.destroy_empty();
        while let Some(slot) = core.take() {
            give_slot_back(slot, connector);
        }
    }
}
