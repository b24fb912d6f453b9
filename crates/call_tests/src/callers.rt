//! The callers that docs/CALLING.md shows, each run once over a server in memory.
mod block;
mod pooled;
mod users;

use block::insert_both;
use conn_drivers::{AnyConnection, Establish, PgConnection};
use conn_manager::{Connection, NoInstrumentation};
use conn_model::{Row, Text, Value};
use conn_pool::{ConnectionManager, PoolCore};
use conn_server::{Connector, Dialect, PlanLine, ScriptedConnector, ScriptedServer};
use pooled::write_once;
use sqlite_items::Items;
use users::users;

/// A connection to PostgreSQL over a server in memory, of which nothing is told.
type Pg = PgConnection<ScriptedServer, NoInstrumentation>;

#[test]
fn two_writes_are_kept_in_a_transaction(rt: HostRuntime) {
    let alloc = rt.alloc();
    let mut connector = ScriptedConnector::new(alloc);
    let url = "postgres://localhost";
    let opened = Pg::establish(alloc, &mut connector, Dialect::Pg, url, NoInstrumentation);
    let mut conn = opened.expect(&rt, "a connection");
    assert!(rt; insert_both(&mut conn).is_ok());
    // Two items of the setup, BEGIN, two writes, COMMIT.
    assert!(rt; conn.sent() == 6);
}

#[test]
fn a_connection_comes_back_to_its_pool(rt: HostRuntime) {
    let alloc = rt.alloc();
    let mut connector = ScriptedConnector::new(alloc);
    let url = Text::new(alloc, ":memory:").expect(&rt, "memory");
    let mut manager: ConnectionManager<
        '_,
        AnyConnection<ScriptedServer, NoInstrumentation>,
        ScriptedConnector,
    > = ConnectionManager::new(&mut connector, Dialect::Sqlite, url);
    let mut core = PoolCore::new(alloc, 2).expect(&rt, "memory");
    let written = write_once(alloc, &mut core, &mut manager);
    assert!(rt; matches!(written, Ok((Ok(()), true))));
}

#[test]
fn a_query_has_its_rows(rt: HostRuntime) {
    let alloc = rt.alloc();
    let mut values = Items::new(alloc);
    values.push(Value::Int(1)).expect(&rt, "memory");
    let name = Text::new(alloc, "Ada").expect(&rt, "memory");
    values.push(Value::Text(name)).expect(&rt, "memory");
    let plan = [PlanLine::Rows {
        text: Text::new(alloc, "SELECT id, name FROM users WHERE id < $1").expect(&rt, "memory"),
        row: Row::new(values),
    }];
    let mut connector = ScriptedConnector::new(alloc);
    connector.arm(alloc, &plan).expect(&rt, "memory");
    let url = "postgres://localhost";
    let opened = Pg::establish(alloc, &mut connector, Dialect::Pg, url, NoInstrumentation);
    let mut conn = opened.expect(&rt, "a connection");
    let loaded = users(alloc, &mut conn, 9).expect(&rt, "rows");
    assert!(rt; loaded.len() == 1);
}
