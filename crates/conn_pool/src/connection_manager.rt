//! A manager over a connector.
ghost use Rattle.std.specs.Prelude.{◌≡◌, true};

use crate::{Error, ManageConnection};
use conn_drivers::{Establish, R2D2Connection};
use conn_manager::{Connection, NoInstrumentation};
use conn_model::{Dialect, Text};
use conn_server::Connector;
use std::alloc::Global;
use std::marker::PhantomData;

/// What a manager over a connector holds. Its URL has a type of its own, since a borrow ends at the manager's end only
/// where nothing that stands beside it owns memory.
pub struct Managing<'k, T: Establish, K, U> {
    /// What opens the servers and takes them back.
    pub connector: &'k mut K,
    dialect: Dialect,
    database_url: U,
    refusals: u64,
    of: PhantomData<T>,
    ghost taken: { T.takes dialect ≡ true },
}

/// Opens and closes the connections of a pool over a connector, without a handler.
pub type ConnectionManager<'k, T, K> = Managing<'k, T, K, Text>;

impl<T: Establish, K, U: Drop> Drop for Managing<'_, T, K, U> {
    fn drop(self)
        ensures { self.exit.0.now ≡ self.entry.connector.now }
    {
        let Managing {
            connector: _,
            dialect: _,
            database_url: _,
            refusals: _,
            of: _,
        } = self;
    }
}

impl<'k, T: Establish + Drop, K: Connector<S = T::S>> Managing<'k, T, K, Text> {
    ghost use Rattle.std.specs.Prelude.{Some};

    /// Opens at a dialect, which the connections must take, and a URL.
    pub fn new(
        connector: &'k mut K,
        dialect: Dialect,
        database_url: Text,
    ) -> ConnectionManager<'k, T, K>
        requires { T.takes dialect ≡ true }
        ensures borrows { result.connector.ghost_name ≡ connector.entry.ghost_name }
        ensures connector { result.connector.now ≡ connector.old }
        ensures dialect { result.dialect ≡ dialect }
        ensures database_url { result.database_url ≡ database_url }
    {
        Managing {
            connector,
            dialect,
            database_url,
            refusals: 0,
            of: PhantomData,
        }
    }

    /// Opens at this URL from now on.
    pub fn update_database_url(&mut self, database_url: Text)
        ensures borrows { self.new.connector.ghost_name ≡ self.old.connector.ghost_name }
        ensures connector { self.new.connector.now ≡ self.old.connector.now }
        ensures dialect { self.new.dialect ≡ self.old.dialect }
        ensures database_url { self.new.database_url ≡ database_url }
    {
        self.database_url = database_url;
    }
}

impl<
    'k,
    T: Establish + Connection<Handler = NoInstrumentation> + Drop,
    K: Connector<S = T::S>,
> ManageConnection for Managing<'k, T, K, Text> {
    ghost use Rattle.std.specs.Prelude.{◌≡◌, true, Some};
    ghost use Rattle.conn_pool.specs.Managers.{managed, ChecksManaged, ClosesManaged, FailsManaged, OpensManaged};

    type Connection = T;

    ghost opens = { λ m n. OpensManaged K.is_honest T.is_honest
        (managed (K.held m.connector.now) m.dialect m.database_url)
        (managed (K.held n.connector.now) n.dialect n.database_url) };

    ghost fails = { λ m n. FailsManaged K.is_honest T.is_honest
        (managed (K.held m.connector.now) m.dialect m.database_url)
        (managed (K.held n.connector.now) n.dialect n.database_url) };

    ghost checks = { λ m n. ChecksManaged T.is_honest
        (managed (K.held m.connector.now) m.dialect m.database_url)
        (managed (K.held n.connector.now) n.dialect n.database_url) };

    ghost closes = { λ m n. ClosesManaged
        (managed (K.held m.connector.now) m.dialect m.database_url)
        (managed (K.held n.connector.now) n.dialect n.database_url) };

    ghost stays = { λ m n.
        managed (K.held n.connector.now) n.dialect n.database_url
        ≡ managed (K.held m.connector.now) m.dialect m.database_url };

    ghost room = { λ m. (K.held m.connector.now).room };

    ghost raises_room = { true };

    ghost refusals = { λ m. m.refusals };

    ghost lent = { λ m. Some m.connector.ghost_name };

    fn connect(&mut self, alloc: Global) -> Result<T, Error> {
        let url = self.database_url.as_str();
        match T::establish(alloc, self.connector, self.dialect, url, NoInstrumentation) {
            Ok(connection) => Ok(connection),
            Err(e) => {
                self.refusals = self.refusals.saturating_add(1);
                Err(Error::of_opening(e))
            }
        }
    }

    fn is_valid(&mut self, connection: &mut T) -> Result<(), Error> {
        match connection.ping() {
            Ok(()) => Ok(()),
            Err(e) => {
                self.refusals = self.refusals.saturating_add(1);
                Err(Error::of_query(e, connection.number()))
            }
        }
    }

    fn has_broken(&mut self, connection: &mut T) -> bool {
        let broken = connection.is_broken();
        self.refusals = self.refusals.saturating_add(u64::from(broken));
        broken
    }

    fn close(&mut self, connection: T) {
        connection.close(self.connector);
    }
}
