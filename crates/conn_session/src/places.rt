//! What is done at one place, and entries of commands where no connection is there.
ghost use Rattle.std.specs.Prelude.{◌≡◌, ◌≤◌};
ghost use Rattle.std.specs.Option.{option_map};
ghost use Rattle.conn_reading.specs.Seats.{entry_without as entry_of_none};
ghost use Rattle.conn_session.specs.Transfers.{gives_back};
ghost use Rattle.conn_session.specs.Responses.{closed_number, ActsIn, ShowsUnserved};
ghost use Rattle.conn_session.specs.Worlds.{part, each_server};

use crate::calls::act;
use crate::queries::Queries;
use conn_drivers::{Establish, R2D2Connection};
use conn_pool::{PoolError, PooledConnection, Slot};
use conn_reading::Deed;
use conn_report::{Entry, Reply};
use conn_result::{ConnectionError, pool};
use conn_script::Word;
use conn_server::Connector;
use std::alloc::{AllocError, Global};

/// The entry of a command where no connection is there.
pub fn entry_without(line: u32, word: Word, connection: Option<u32>, reply: Reply) -> Entry
    ensures { result ≡ entry_of_none line word connection reply }
{
    Entry {
        line,
        word,
        connection,
        reply,
        status: None,
        mark: None,
    }
}

/// The connection that was closed where none was handed out.
fn closed_by(error: &pool::Error) -> Option<u32>
    ensures { result ≡ closed_number error.now }
{
    match error {
        pool::Error::ConnectionError(ConnectionError::CouldntSetupConfiguration(_, number))
        | pool::Error::QueryError(_, number)
        | pool::Error::LeftOpen(number) => Some(*number),
        _ => None,
    }
}

/// The entry of a `get` that handed no connection out; want of memory has none. Where a connection was closed, the entry shows
/// its number and how many items its server got, where the connector tells that.
pub fn unserved<K: Connector>(
    line: u32,
    error: PoolError,
    connector: &K,
) -> Result<Entry, AllocError>
    ensures { ShowsUnserved line error (K.held connector.now).returned result }
{
    match error {
        PoolError::Error(pool::Error::OutOfMemory) => Err(AllocError),
        PoolError::Error(error) => {
            let connection = closed_by(&error);
            let mark = match connection {
                Some(number) => connector.sent(number),
                None => None,
            };
            Ok(Entry {
                line,
                word: Word::Get,
                connection,
                reply: Reply::Pool(error),
                status: None,
                mark,
            })
        }
        _ => Ok(entry_without(line, Word::Get, None, Reply::NoneFree)),
    }
}

/// Does a deed on the connection at a place, where there is one.
pub fn act_in<C: R2D2Connection>(
    alloc: Global,
    place: &mut Option<PooledConnection<C>>,
    queries: &Queries<'_>,
    deed: &Deed<'_>,
) -> Option<Result<Reply, AllocError>>
    ensures { ActsIn C.is_honest queries.now deed.now
        (option_map (λ p. C.view p.connection) place.old)
        (option_map (λ p. C.view p.connection) place.new) result }
{
    match place {
        None => None,
        Some(connection) => Some(act(alloc, &mut connection.connection, queries, deed)),
    }
}

/// Gives the server of a connection back, where there is one.
pub fn give_back<C: Establish, K: Connector<S = C::S>>(
    place: Option<PooledConnection<C>>,
    connector: &mut K,
)
    requires { part each_server (option_map (λ p. C.view p.connection) place)
        ≤ (K.held connector.old).room }
    ensures { K.held connector.new
        ≡ gives_back (option_map (λ p. C.view p.connection) place) (K.held connector.old) }
{
    if let Some(connection) = place {
        let PooledConnection {
            slot: _,
            connection,
        } = connection;
        connection.close(connector);
    }
}

/// Gives the server of a slot's connection back, where there is one.
pub fn give_slot_back<C: Establish + R2D2Connection + Drop, K: Connector<S = C::S>>(
    slot: Slot<C>,
    connector: &mut K,
)
    requires { part each_server (option_map C.view slot.kept) ≤ (K.held connector.old).room }
    ensures { K.held connector.new
        ≡ gives_back (option_map C.view slot.kept) (K.held connector.old) }
{
    let Slot {
        number: _,
        connection,
    } = slot;
    if let Some(connection) = connection {
        connection.close(connector);
    }
}
