//! How a server is opened for a connection, and goes back where none is made of it.
ghost use Rattle.std.specs.Prelude.{◌≡◌, ◌∷◌, [], option_copied};
ghost use Rattle.std.specs.Result.{result_err};
ghost use Rattle.conn_model.specs.Events.{with_events, FinishEstablishConnection};
ghost use Rattle.mysql_url.specs.Outcomes.{GivesOrMemory};
ghost use Rattle.conn_drivers.specs.Establishing.{target_in, establish_events, OpensServer, OpensWire};

use crate::Wire;
use conn_manager::{Instrumentation, InstrumentationEvent};
use conn_model::{Dialect, Target, Text, nul_place};
use conn_result::{ConnectionError, ConnectionResult};
use conn_server::{ConnectRefusal, Connector, Server};
use mysql_url::ConnectionOptions;
use std::alloc::Global;

/// Where to connect to by a URL, or the URL's fault.
fn target_in(alloc: Global, dialect: Dialect, database_url: &str) -> ConnectionResult<Target>
    ensures { GivesOrMemory result (target_in dialect database_url.now) }
{
    if dialect == Dialect::Mysql {
        return Ok(ConnectionOptions::parse(alloc, database_url)?.into_target());
    }
    if let Some(place) = nul_place(database_url) {
        return Err(ConnectionError::InvalidCString(place));
    }
    match Text::new(alloc, database_url) {
        Ok(url) => Ok(Target::Url(url)),
        Err(_) => Err(ConnectionError::OutOfMemory),
    }
}

/// Opens a server at the URL.
fn connect<S: Server, K: Connector<S = S>>(
    alloc: Global,
    connector: &mut K,
    dialect: Dialect,
    database_url: &str,
) -> ConnectionResult<S>
    ensures { OpensServer K.is_honest S.is_honest dialect database_url.now
        (K.held connector.old) S.seen (K.held connector.new) result }
{
    let target = target_in(alloc, dialect, database_url)?;
    match connector.connect(alloc, dialect, &target) {
        Ok(server) => Ok(server),
        Err(ConnectRefusal::Refused(code)) => Err(ConnectionError::BadConnection(code)),
        Err(ConnectRefusal::Memory) => Err(ConnectionError::OutOfMemory),
    }
}

/// Opens a server at the URL and sets it up; where that isn't done, the server is back.
fn open<S: Server, K: Connector<S = S>>(
    alloc: Global,
    connector: &mut K,
    dialect: Dialect,
    database_url: &str,
) -> ConnectionResult<Wire<S>>
    ensures { OpensWire K.is_honest S.is_honest dialect database_url.now (K.held connector.old)
        (λ w. S.seen w.server) (λ w. w.status) (K.held connector.new) result }
{
    let mut wire = Wire::new(connect(alloc, connector, dialect, database_url)?);
    if wire.take_setup_room().is_err() {
        connector.take_back(wire.server);
        return Err(ConnectionError::OutOfMemory);
    }
    match wire.set_up() {
        Ok(()) => Ok(wire),
        Err(e) => {
            let number = wire.server.number();
            connector.take_back(wire.server);
            Err(ConnectionError::CouldntSetupConfiguration(e, number))
        }
    }
}

/// Tells a handler that an opening ended, and its error where it has one.
fn tell_end<'a, H: Instrumentation>(
    handler: &mut H,
    url: &'a str,
    error: Option<&'a ConnectionError>,
)
    ensures { H.told handler.new ≡ with_events (H.told handler.old)
        (FinishEstablishConnection url.now (option_copied error.entry) ∷ []) }
{
    handler.on_connection_event(InstrumentationEvent::FinishEstablishConnection { url, error });
}

/// Opens a wire, before and after which the handler is told.
pub fn open_telling<S: Server, K: Connector<S = S>, H: Instrumentation>(
    alloc: Global,
    connector: &mut K,
    dialect: Dialect,
    database_url: &str,
    handler: &mut H,
) -> ConnectionResult<Wire<S>>
    ensures opens { OpensWire K.is_honest S.is_honest dialect database_url.now
        (K.held connector.old) (λ w. S.seen w.server) (λ w. w.status)
        (K.held connector.new) result }
    ensures tells { H.told handler.new ≡ with_events (H.told handler.old)
        (establish_events database_url.now (result_err result)) }
{
    handler.on_connection_event(InstrumentationEvent::StartEstablishConnection {
        url: database_url,
    });
    let opened = open(alloc, connector, dialect, database_url);
    tell_end(handler, database_url, opened.as_ref().err());
    opened
}
