//! How connections are established over servers in memory: what is sent first, each refusal, and what a handler is told.
use crate::plans::{Planned, armed};
use crate::recorder::Recorder;
use conn_drivers::{AnyConnection, Establish};
use conn_manager::{Instrumentation, InstrumentationEvent};
use conn_server::{Connector, Dialect, ScriptedServer, Server};
use std::alloc::{AllocError, Global};
use std::fmt::Write;
use std::test::Fail;

/// A recorder that is lent to a connection.
#[derive(Drop)]
struct Lent<'a> {
    recorder: &'a mut Recorder,
}

impl<'a> Instrumentation for Lent<'a> {
    ghost use Rattle.std.specs.Prelude.{None};

    ghost told = { λ l. None };

    fn on_connection_event(&mut self, event: InstrumentationEvent<'_>) {
        self.recorder.on_connection_event(event)
    }
}

/// A URL of a server of the dialect which was told the plan, and what is seen of its opening: the events that a handler is told, then the
/// texts that the server got or the refusal, and last how many servers were opened, and how many items the first got that is back.
type Case<'a> = (Dialect, &'a str, &'a [Planned], &'a str);

/// Writes the texts that the server got.
fn write_texts(
    alloc: Global,
    words: &mut String,
    server: &ScriptedServer,
) -> Result<(), AllocError> {
    for place in 0..server.sent() {
        if let Some(item) = server.item(alloc, place)? {
            write!(words, "{}\n", item.text.as_str())?;
        }
    }
    Ok(())
}

/// What is seen of an opening.
fn seen_of(
    alloc: Global,
    dialect: Dialect,
    url: &str,
    plan: &[Planned],
) -> Result<String, AllocError> {
    let mut connector = armed(alloc, plan)?;
    let mut recorder = Recorder::new(alloc);
    let handler = Lent {
        recorder: &mut recorder,
    };
    let mut words = String::new(alloc);
    match AnyConnection::establish(alloc, &mut connector, dialect, url, handler) {
        Ok(conn) => write_texts(alloc, &mut words, &conn.into_server())?,
        Err(e) => write!(words, "{e:?}\n")?,
    }
    write!(words, "{} {:?}", connector.opened(), connector.sent(0))?;
    recorder.log.push_str(words.as_str())?;
    Ok(recorder.log)
}

const CASES: [Case<'static>; 11] = [
    (
        Dialect::Pg,
        "postgres://localhost",
        &[],
        "opening postgres://localhost; opened postgres://localhost; \
        SET TIME ZONE 'UTC'\n\
        SET CLIENT_ENCODING TO 'UTF8'\n\
        1 None",
    ),
    (
        Dialect::Mysql,
        "mysql://localhost",
        &[],
        "opening mysql://localhost; opened mysql://localhost; \
        SET time_zone = '+00:00';\n\
        SET time_zone = '+00:00';\n\
        SET character_set_client = 'utf8mb4'\n\
        SET character_set_client = 'utf8mb4'\n\
        SET character_set_connection = 'utf8mb4'\n\
        SET character_set_connection = 'utf8mb4'\n\
        SET character_set_results = 'utf8mb4'\n\
        SET character_set_results = 'utf8mb4'\n\
        1 None",
    ),
    (
        Dialect::Sqlite,
        ":memory:",
        &[],
        "opening :memory:; opened :memory:; 1 None",
    ),
    (
        Dialect::Pg,
        "postgres://localhost",
        &[Planned::RefusedWith(2, 42601)],
        "opening postgres://localhost; not opened postgres://localhost; \
        CouldntSetupConfiguration(DatabaseError(Unknown, 42601), 0)\n1 Some(2)",
    ),
    (
        Dialect::Mysql,
        "mysql://localhost",
        &[Planned::RefusedWith(3, 42601)],
        "opening mysql://localhost; not opened mysql://localhost; \
        CouldntSetupConfiguration(DatabaseError(Unknown, 42601), 0)\n1 Some(3)",
    ),
    (
        Dialect::Mysql,
        "mysql://localhost",
        &[Planned::RefusedWith(4, 42601)],
        "opening mysql://localhost; not opened mysql://localhost; \
        CouldntSetupConfiguration(DatabaseError(Unknown, 42601), 0)\n1 Some(4)",
    ),
    (
        Dialect::Pg,
        "",
        &[Planned::NoConnect(7)],
        "opening ; not opened ; BadConnection(7)\n0 None",
    ),
    (
        Dialect::Pg,
        "ab\0c",
        &[],
        "opening ab\0c; not opened ab\0c; InvalidCString(2)\n0 None",
    ),
    (
        Dialect::Sqlite,
        "ab\0c",
        &[Planned::NoConnect(7)],
        "opening ab\0c; not opened ab\0c; InvalidCString(2)\n0 None",
    ),
    (
        Dialect::Mysql,
        "mysql://a%00@localhost",
        &[],
        "opening mysql://a%00@localhost; not opened mysql://a%00@localhost; \
        InvalidCString(1)\n0 None",
    ),
    (
        Dialect::Mysql,
        "http://localhost",
        &[],
        "opening http://localhost; not opened http://localhost; \
        InvalidConnectionUrl(Scheme)\n0 None",
    ),
];

#[test]
fn connections_are_opened_and_set_up(rt: HostRuntime) -> Result<(), Fail> {
    for &(dialect, url, plan, wanted) in &CASES {
        assert_eq!(rt; seen_of(rt.alloc(), dialect, url, plan)?.as_str(), wanted);
    }
    Ok(())
}
