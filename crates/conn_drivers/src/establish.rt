//! How connections are opened and closed.
ghost use Rattle.std.specs.Prelude.{◌≡◌, ◌≤◌, Bool, true};
ghost use Rattle.conn_model.specs.declared.item.Dialect.{Dialect};
ghost use Rattle.conn_server.specs.Connected.{takes_back};
ghost use Rattle.conn_drivers.specs.Establishing.{Establishes};

use crate::R2D2Connection;
use conn_model::Dialect;
use conn_result::ConnectionResult;
use conn_server::{Connector, Server};
use std::alloc::Global;

/// A connection that a connector's server opens.
pub trait Establish: R2D2Connection {
    type S: Server;

    /// The dialects that it takes.
    ghost takes: { Dialect → Bool };

    /// Opens a server at the URL and sets it up, before and after which the handler is told. The refusals, in their order:
    /// that of the URL, with the connector as before; that of the connector; that of a text of the setup, with the
    /// server's number. Whatever is refused, and where memory is wanting, a server that was opened is back with the
    /// connector.
    fn establish<K: Connector<S = Self::S>>(
        alloc: Global,
        connector: &mut K,
        dialect: Dialect,
        database_url: &str,
        handler: Self::Handler,
    ) -> ConnectionResult<Self>
        requires { takes dialect ≡ true }
        ensures { Establishes K.is_honest Self.is_honest dialect database_url.now
            (K.held connector.old) Self.view (Self.Handler.told handler)
            (K.held connector.new) result };

    /// Gives the server out.
    fn into_server(self) -> Self::S
        ensures { Self.S.seen result ≡ (Self.view self).seen };

    /// Gives the server back to the connector.
    fn close<K: Connector<S = Self::S>>(self, connector: &mut K)
        requires { 1 ≤ (K.held connector.old).room }
        ensures { K.held connector.new ≡ takes_back (Self.view self).seen (K.held connector.old) };

    /// Its honesty is its server's.
    ghost same_honesty: { Self.is_honest ≡ Self.S.is_honest };
}

/// A connection whose server may be of any kind.
pub trait MultiConnection: Establish {
    /// It takes each dialect.
    ghost takes_each: { (d : Dialect) → Self.takes d ≡ true };
}
