//! Rows by their texts.
ghost use Rattle.std.specs.Prelude.{◌≡◌, ◌∷◌, ◌++◌, ◌<◌, ◌+◌, ◌^◌, ◌-◌, [], OnOk, IfOk, IfSome, length, option_copied};
ghost use Rattle.conn_model.specs.Armed.{armed_of};
ghost use Rattle.conn_server.specs.RowTables.{armed_by, record_before, LeadsTo};

use crate::text_places::TextPlaces;
use conn_model::{PlanLine, Row, Text};
use sqlite_items::at;
use std::alloc::{AllocError, Global};
use std::marker::Model;
use std::sync::Arc;

/// A row of a text, and how many records there are up to the next one of it.
#[derive(Drop)]
pub struct RowRecord {
    pub text: Text,
    pub row: Row,
    pub next: usize,
}

/// Rows, the last one first, among which those of a text are found without a scan.
#[derive(Drop)]
pub struct RowTable {
    records: Vec<RowRecord>,
    /// How many records there are up to the first row of a text.
    first: TextPlaces,
}

impl Model for RowTable {
    ghost use Rattle.std.specs.Prelude.{List};
    ghost use Rattle.conn_server.specs.declared.row_table.RowRecord.{RowRecord as row_record};
    ghost use Rattle.conn_server.specs.RowTables.{IsRowTable};

    ghost Value = { List row_record };

    ghost view = { λ t. t.records.items };

    ghost invariant = { λ t. IsRowTable t.records.items t.first };
}

impl RowTable {
    /// No rows.
    fn new(alloc: Global) -> Self
        ensures { result ≡ [] }
    {
        RowTable {
            records: Vec::new(alloc),
            first: TextPlaces::new(alloc),
        }
    }

    /// A row in front of the others.
    fn push(&mut self, alloc: Global, text: Text, row: Row) -> Result<(), AllocError>
        ensures { OnOk result (armed_by self.new
            ≡ record { text = text; row = row } ∷ armed_by self.old) }
    {
        let key = String::from_str(alloc, text.as_str())?;
        self.records.reserve(1)?;
        let next = self.first.get(text.as_str()).unwrap_or(0);
        self.first.put(key, self.records.len() + 1)?;
        let _ = self.records.push(RowRecord { text, row, next });
        Ok(())
    }

    /// How many records there are up to the first row of the text.
    fn first(&self, text: &str) -> usize
        ensures { LeadsTo self.now (length self.now) text.now result }
    {
        self.first.get(text).unwrap_or(0)
    }

    /// The last of so many records.
    fn before(&self, count: usize) -> Option<&RowRecord>
        ensures found { option_copied result ≡ record_before self.now count }
        ensures linked { IfSome (option_copied result) (λ r.
            LeadsTo self.now (count - 1) r.text r.next) }
        ensures small { length self.now + 1 < 2 ^ 64 }
    {
        let records = &self.records;
        if count == 0 {
            return None;
        }
        at(records, count - 1)
    }
}

/// Puts the row of the line in front, where it has one.
fn push_line(table: &mut RowTable, alloc: Global, line: &PlanLine) -> Result<(), AllocError>
    ensures { OnOk result (armed_by table.new
        ≡ armed_of (line.now ∷ []) ++ armed_by table.old) }
{
    if let PlanLine::Rows { text, row } = line {
        table.push(alloc, text.copy(alloc)?, row.copy(alloc)?)?;
    }
    Ok(())
}

/// The rows of the plan.
fn table_of(alloc: Global, plan: &[PlanLine]) -> Result<RowTable, AllocError>
    ensures { IfOk result (λ table. armed_by table ≡ armed_of plan.now) }
{
    let mut table = RowTable::new(alloc);
    let mut left = plan.len();
    while left > 0 {
        left -= 1;
        push_line(&mut table, alloc, &plan[left])?;
    }
    Ok(table)
}

/// Rows that servers share.
#[derive(Drop)]
pub struct SharedRows {
    table: Option<Arc<RowTable>>,
}

impl Model for SharedRows {
    ghost use Rattle.std.specs.Prelude.{List, []};
    ghost use Rattle.std.specs.Arc.{arc_value};
    ghost use Rattle.std.specs.Option.{option_map, unwrap_or};
    ghost use Rattle.conn_server.specs.declared.row_table.RowRecord.{RowRecord as row_record};

    ghost Value = { List row_record };

    ghost view = { λ s. unwrap_or (option_map arc_value s.table) [] };
}

impl SharedRows {
    /// No rows.
    pub fn none() -> SharedRows
        ensures { result ≡ [] }
    {
        SharedRows { table: None }
    }

    /// The rows of the plan.
    pub fn new(alloc: Global, plan: &[PlanLine]) -> Result<SharedRows, AllocError>
        ensures { IfOk result (λ rows. armed_by rows ≡ armed_of plan.now) }
    {
        let table = table_of(alloc, plan)?;
        Ok(SharedRows {
            table: Some(Arc::new(alloc, table)?),
        })
    }

    /// The same rows for one server more.
    pub fn share(&self) -> Result<SharedRows, AllocError>
        ensures { IfOk result (λ rows. rows ≡ self.now) }
    {
        match &self.table {
            Some(table) => Ok(SharedRows {
                table: Some(Arc::try_clone(table)?),
            }),
            None => Ok(SharedRows::none()),
        }
    }

    /// How many records there are up to the first row of the text.
    pub fn first(&self, text: &str) -> usize
        ensures { LeadsTo self.now (length self.now) text.now result }
    {
        match &self.table {
            Some(table) => table.first(text),
            None => 0,
        }
    }

    /// The last of so many records.
    pub fn before(&self, count: usize) -> Option<&RowRecord>
        ensures found { option_copied result ≡ record_before self.now count }
        ensures linked { IfSome (option_copied result) (λ r.
            LeadsTo self.now (count - 1) r.text r.next) }
        ensures small { length self.now + 1 < 2 ^ 64 }
    {
        match &self.table {
            Some(table) => table.before(count),
            None => None,
        }
    }
}
