//! What servers in memory are told in advance.
use conn_model::{Bytes, Row, Text, Value};
use conn_result::DatabaseErrorKind;
use conn_server::{
    ConnectRefusal, Connector, Dialect, PlanLine, ScriptedConnector, ScriptedServer, Target, Wish,
};
use sqlite_items::Items;
use std::alloc::{AllocError, Global};

/// A value of a row.
#[derive(Clone, Copy)]
pub enum Cell {
    Number(i64),
    Null,
    Text(&'static str),
    Bytes(&'static [u8]),
}

/// A line of a plan for the first server and its attempt.
#[derive(Clone, Copy)]
pub enum Planned {
    /// The item is refused with code 5.
    Refused(u64),
    /// It is refused so, and the transaction ends.
    Ended(u64),
    /// It is refused so, and the server is lost.
    Lost(u64),
    /// The item is refused with this code.
    RefusedWith(u64, i32),
    /// A run of `SELECT a` gives one more row.
    Row(&'static [Cell]),
    /// The run that is this item refuses its row of this number with code 7.
    RowRefused(u64, u32),
    /// The first attempt to connect is refused with this code.
    NoConnect(i32),
}

fn value_of(alloc: Global, cell: Cell) -> Result<Value, AllocError> {
    Ok(match cell {
        Cell::Number(number) => Value::Int(number),
        Cell::Null => Value::Null,
        Cell::Text(text) => Value::Text(Text::new(alloc, text)?),
        Cell::Bytes(bytes) => Value::Bytes(Bytes::new(alloc, bytes)?),
    })
}

/// A row of these values.
pub fn row_of(alloc: Global, cells: &[Cell]) -> Result<Row, AllocError> {
    let mut values = Items::new(alloc);
    for cell in cells {
        values.push(value_of(alloc, *cell)?)?;
    }
    Ok(Row::new(values))
}

fn refusal(item: u64, code: i32, wish: Wish) -> PlanLine {
    PlanLine::Refuse {
        server: 0,
        item,
        code,
        kind: DatabaseErrorKind::Unknown,
        wish,
    }
}

fn line_of(alloc: Global, planned: Planned) -> Result<PlanLine, AllocError> {
    Ok(match planned {
        Planned::Refused(item) => refusal(item, 5, Wish::Stay),
        Planned::Ended(item) => refusal(item, 5, Wish::End),
        Planned::Lost(item) => refusal(item, 5, Wish::Lose),
        Planned::RefusedWith(item, code) => refusal(item, code, Wish::Stay),
        Planned::Row(cells) => PlanLine::Rows {
            text: Text::new(alloc, "SELECT a")?,
            row: row_of(alloc, cells)?,
        },
        Planned::RowRefused(item, row) => PlanLine::RefuseRow {
            server: 0,
            item,
            row,
            code: 7,
            kind: DatabaseErrorKind::Unknown,
            wish: Wish::Stay,
        },
        Planned::NoConnect(code) => PlanLine::NoConnect { attempt: 1, code },
    })
}

/// A connector that is armed with the plan.
pub fn armed(alloc: Global, plan: &[Planned]) -> Result<ScriptedConnector, AllocError> {
    let mut lines = Vec::new(alloc);
    for planned in plan {
        lines.push(line_of(alloc, *planned)?)?;
    }
    let mut connector = ScriptedConnector::new(alloc);
    connector.arm(alloc, lines.as_slice())?;
    Ok(connector)
}

/// The first server of such a connector, which isn't set up.
pub fn server_of(
    alloc: Global,
    dialect: Dialect,
    plan: &[Planned],
) -> Result<ScriptedServer, ConnectRefusal> {
    let memory = |_: AllocError| ConnectRefusal::Memory;
    let mut connector = armed(alloc, plan).map_err(memory)?;
    let target = Target::Url(Text::new(alloc, ":memory:").map_err(memory)?);
    connector.connect(alloc, dialect, &target)
}
