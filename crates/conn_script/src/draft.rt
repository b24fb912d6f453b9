//! What the lines so far say.
ghost use Rattle.std.specs.Prelude.{◌≡◌, ◌≤◌, ◌==◌, ℕ, true, nat_eq, is_some, IfOk, OnErr, if◌then◌else◌};
ghost use Rattle.std.specs.Option.{option_copied};
ghost use Rattle.conn_model.specs.Armed.{armed_of, rows_of};
ghost use Rattle.conn_script.specs.Options.{guard};
ghost use Rattle.conn_script.specs.Plans.{is_setup};
ghost use Rattle.conn_script.specs.Queries.{is_id, is_used, query_text};
ghost use Rattle.conn_script.specs.Requests.{request_of};
ghost use Rattle.conn_script.specs.RowCounts.{row_count_of};
ghost use Rattle.conn_script.specs.Tables.{value_at};
ghost use Rattle.conn_script.specs.Drafts.{can_close, default_url, empty_draft, empty_script, is_taken, knows, may_ask, with_command, with_query, with_refused, with_refused_attempt, with_refused_row, with_row, with_url};

use crate::header::Header;
use crate::openings::{
    bounds_block, can_end, fits_dialect, loads_behind, may_load, may_stand, open_behind,
};
use crate::plan::{
    QueryRow, Refused, RefusedAttempt, RefusedRow, refused_attempt_line, refused_line,
    refused_row_line,
};
use crate::row_counts::{RowCount, count_with_row, may_follow};
use crate::table::Table;
use crate::{Act, Command, Declared, Script};
use conn_model::{Dialect, LentText, PlanLine, Text};
use sqlite_items::Items;
use std::alloc::{AllocError, Global};
use std::collections::BTreeSet;
use std::marker::Model;

/// A script so far, seen as it stands with its open blocks, the number of its commands that ask for
/// rows, and whether a line gave its URL. Beside it are the items that its plan refuses and the runs of which it refuses a row,
/// each a server and the item's number, the attempts to connect that it refuses, the texts of its
/// queries by their numbers, their ids, and the rows of each text, counted.
#[derive(Drop)]
pub struct Draft<'a> {
    script: Script<'a>,
    /// How many blocks are open, and the connection that they name.
    blocks: u32,
    inside: u32,
    /// How many commands ask for rows.
    loads: u32,
    /// Whether a line gave the URL.
    has_url: bool,
    refused: BTreeSet<(u32, u64)>,
    refused_rows: BTreeSet<(u32, u64)>,
    refused_attempts: BTreeSet<u32>,
    texts: Table<u32, LentText<'a>>,
    ids: Table<u64, ()>,
    rows: Table<LentText<'a>, RowCount>,
}

impl<'a> Model for Draft<'a> {
    ghost use Rattle.std.specs.Ordering.{nat_cmp};
    ghost use Rattle.conn_script.specs.Keys.{AreKeys};
    ghost use Rattle.conn_script.specs.Plans.{compare_items, refused_attempt_key, refused_key, refused_row_key};
    ghost use Rattle.conn_script.specs.Queries.{AreIds, AreTexts};
    ghost use Rattle.conn_script.specs.RowCounts.{AreRowCounts};
    ghost use Rattle.conn_script.specs.Drafts.{Draft, draft_of};

    ghost Value = { Draft };

    ghost view = { λ d. draft_of d.script d.blocks d.inside d.loads d.has_url };

    ghost invariant = { λ d. AreKeys compare_items refused_key d.refused.keys d.script.plan
        × AreKeys compare_items refused_row_key d.refused_rows.keys d.script.plan
        × AreKeys nat_cmp refused_attempt_key d.refused_attempts.keys d.script.plan
        × AreTexts d.texts d.script.queries × AreIds d.ids d.script.queries
        × AreRowCounts d.rows d.script.plan };
}

/// Where a server of the dialect is found.
fn default_url(dialect: Dialect) -> &'static str
    ensures { result.now ≡ default_url dialect }
{
    match dialect {
        Dialect::Pg => "postgres://localhost",
        Dialect::Mysql => "mysql://localhost",
        Dialect::Sqlite => ":memory:",
    }
}

/// The script of the first line alone.
fn empty<'a>(alloc: Global, header: Header) -> Result<Script<'a>, AllocError>
    ensures { IfOk result (λ script. script ≡ empty_script header) }
{
    Ok(Script {
        dialect: header.dialect,
        max_size: header.max_size,
        customizer: header.customizer,
        check: header.check,
        url: Text::new(alloc, default_url(header.dialect))?,
        plan: Items::new(alloc),
        queries: Items::new(alloc),
        commands: Items::new(alloc),
    })
}

/// Puts the id into the table, where there is one.
fn add_id(ids: &mut Table<u64, ()>, id: Option<u64>)
    requires { 1 ≤ ids.old.room }
    ensures { (n : ℕ) → is_some (value_at nat_eq ids.new n)
        ≡ (if is_id id n then true else is_some (value_at nat_eq ids.old n)) }
{
    if let Some(id) = id {
        ids.put(id, ());
    }
}

impl<'a> Draft<'a> {
    /// The draft of the first line alone.
    pub fn new(alloc: Global, header: Header) -> Result<Draft<'a>, AllocError>
        ensures { IfOk result (λ draft. draft ≡ empty_draft header) }
    {
        Ok(Draft {
            script: empty(alloc, header)?,
            blocks: 0,
            inside: 0,
            loads: 0,
            has_url: false,
            refused: BTreeSet::new(alloc),
            refused_rows: BTreeSet::new(alloc),
            refused_attempts: BTreeSet::new(alloc),
            texts: Table::new(alloc),
            ids: Table::new(alloc),
            rows: Table::new(alloc),
        })
    }

    /// The dialect of its servers.
    pub fn dialect(&self) -> Dialect
        ensures { result ≡ self.now.script.dialect }
    {
        self.script.dialect
    }

    /// Whether the lines that close the open blocks can still come.
    pub fn can_be_closed(&self) -> bool
        ensures { result ≡ can_close self.now }
    {
        can_end(self.script.commands.len(), self.blocks, self.inside)
    }

    /// Whether no block is open.
    pub fn is_closed(&self) -> bool
        ensures { result ≡ (self.now.blocks == 0) }
    {
        self.blocks == 0
    }

    /// The text of a query, where it is declared.
    fn text_of(&self, query: u32) -> Option<&'a str>
        ensures { option_copied result ≡ query_text self.now.script.queries query }
    {
        match self.texts.get(&query) {
            Some(text) => Some(text.as_str()),
            None => None,
        }
    }

    /// The count of the text's rows, where it has some.
    fn count_of(&self, text: &'a str) -> Option<RowCount>
        ensures { result ≡ row_count_of (rows_of (armed_of self.now.script.plan) text.now) }
    {
        self.rows.get(&LentText::new(text)).copied()
    }

    /// Whether the command names no query, or a declared one.
    fn knows(&self, act: &Act) -> bool
        ensures { result ≡ knows self.now.script.queries (request_of act.now) }
    {
        match act {
            Act::Query(_, _, query) => self.text_of(*query).is_some(),
            _ => true,
        }
    }

    /// Whether the command can be asked of servers of its dialect, and its query is declared
    /// where it names one.
    fn may_ask(&self, act: &Act) -> bool
        ensures { result
            ≡ may_ask self.now.script.dialect self.now.script.queries (request_of act.now) }
    {
        self.knows(act) && fits_dialect(self.script.dialect, act)
    }

    /// Adds a command, and answers whether it may come here.
    pub fn add_command(&mut self, line: u32, act: Act<'a>) -> Result<bool, AllocError>
        ensures added { IfOk result
            (λ good. guard good self.new ≡ with_command line self.old act.entry) }
        ensures kept { OnErr result (self.new ≡ self.old) }
    {
        if !self.may_ask(&act) || !may_load(self.loads, &act) {
            return Ok(false);
        }
        let loads = loads_behind(self.loads, &act);
        // Most commands stand in no block and open none.
        if self.is_closed() && !bounds_block(&act) {
            self.script.commands.push(Command { line, act })?;
            self.loads = loads;
            return Ok(true);
        }
        if !may_stand(self.blocks, self.inside, &act) {
            return Ok(false);
        }
        let (blocks, inside) = open_behind(self.blocks, self.inside, &act);
        self.script.commands.push(Command { line, act })?;
        self.blocks = blocks;
        self.inside = inside;
        self.loads = loads;
        Ok(true)
    }

    /// Whether no command has been given.
    fn is_setup(&self) -> bool
        ensures { result ≡ is_setup self.now.script.commands }
    {
        self.script.commands.is_empty()
    }

    /// Puts a URL in the place of the dialect's own, and answers whether it may come here: no line
    /// gave one, and no command stands before it.
    pub fn add_url(&mut self, alloc: Global, url: &str) -> Result<bool, AllocError>
        ensures added { IfOk result (λ good. guard good self.new ≡ with_url self.old url.now) }
        ensures kept { OnErr result (self.new ≡ self.old) }
    {
        if self.has_url || !self.is_setup() {
            return Ok(false);
        }
        self.script.url = Text::new(alloc, url)?;
        self.has_url = true;
        Ok(true)
    }

    /// Adds an item that is refused, and answers whether it may come here: no other line refuses
    /// it, and no command stands before it.
    pub fn add_refused(&mut self, r: Refused) -> Result<bool, AllocError>
        ensures added { IfOk result (λ good. guard good self.new ≡ with_refused self.old r) }
        ensures kept { OnErr result (self.new ≡ self.old) }
    {
        if !self.is_setup() {
            return Ok(false);
        }
        let item = (r.server, r.item);
        if self.refused.contains(&item) {
            return Ok(false);
        }
        self.script.plan.push(refused_line(r))?;
        match self.refused.insert(item) {
            Ok(_) => Ok(true),
            Err(e) => {
                let _ = self.script.plan.pop();
                Err(e.into())
            }
        }
    }

    /// Adds a row that is refused, and answers whether it may come here: no other line refuses a
    /// row of that run, and no command stands before it.
    pub fn add_refused_row(&mut self, r: RefusedRow) -> Result<bool, AllocError>
        ensures added { IfOk result (λ good. guard good self.new ≡ with_refused_row self.old r) }
        ensures kept { OnErr result (self.new ≡ self.old) }
    {
        if !self.is_setup() {
            return Ok(false);
        }
        let run = (r.server, r.item);
        if self.refused_rows.contains(&run) {
            return Ok(false);
        }
        self.script.plan.push(refused_row_line(r))?;
        match self.refused_rows.insert(run) {
            Ok(_) => Ok(true),
            Err(e) => {
                let _ = self.script.plan.pop();
                Err(e.into())
            }
        }
    }

    /// Adds an attempt to connect that is refused, and answers whether it may come here: no other
    /// line refuses it, and no command stands before it.
    pub fn add_refused_attempt(&mut self, r: RefusedAttempt) -> Result<bool, AllocError>
        ensures added { IfOk result (λ good. guard good self.new
            ≡ with_refused_attempt self.old r) }
        ensures kept { OnErr result (self.new ≡ self.old) }
    {
        if !self.is_setup() {
            return Ok(false);
        }
        if self.refused_attempts.contains(&r.attempt) {
            return Ok(false);
        }
        self.script.plan.push(refused_attempt_line(r))?;
        match self.refused_attempts.insert(r.attempt) {
            Ok(_) => Ok(true),
            Err(e) => {
                let _ = self.script.plan.pop();
                Err(e.into())
            }
        }
    }

    /// Adds a row of the text of a query, and answers whether it may come here: the query is
    /// declared, its text has fewer than 16 rows, all of as many values, and no command stands
    /// before it.
    pub fn add_row(&mut self, alloc: Global, r: QueryRow) -> Result<bool, AllocError>
        ensures added { IfOk result (λ good. guard good self.new ≡ with_row self.old r) }
        ensures kept { OnErr result (self.new ≡ self.old) }
    {
        let Some(text) = self.text_of(r.query) else {
            return Ok(false);
        };
        let values = r.row.len();
        let count = self.count_of(text);
        if !self.is_setup() || !may_follow(count, values) {
            return Ok(false);
        }
        let line = PlanLine::Rows {
            text: Text::new(alloc, text)?,
            row: r.row,
        };
        self.rows.reserve()?;
        self.script.plan.push(line)?;
        self.rows
            .put(LentText::new(text), count_with_row(count, values));
        Ok(true)
    }

    /// Adds a query that commands may name, and answers whether it may come here: no other query
    /// has its number or its id, and no command stands before it.
    pub fn add_query(&mut self, query: Declared<'a>) -> Result<bool, AllocError>
        ensures added { IfOk result (λ good. guard good self.new
            ≡ with_query self.old query.entry) }
        ensures kept { OnErr result (self.new ≡ self.old) }
    {
        if !self.is_setup() {
            return Ok(false);
        }
        if self.is_taken(&query) {
            return Ok(false);
        }
        let number = query.number;
        let text = LentText::new(query.text.as_str());
        let id = query.id;
        self.texts.reserve()?;
        self.ids.reserve()?;
        self.script.queries.push(query)?;
        self.texts.put(number, text);
        add_id(&mut self.ids, id);
        Ok(true)
    }

    /// Whether there is an id, and one of the queries has it.
    fn is_used(&self, id: Option<u64>) -> bool
        ensures { result ≡ is_used self.now.script.queries id }
    {
        match id {
            Some(id) => self.ids.get(&id).is_some(),
            None => false,
        }
    }

    /// Whether one of the queries has its number, or its id.
    fn is_taken(&self, query: &Declared) -> bool
        ensures { result ≡ is_taken self.now.script.queries query.now }
    {
        self.text_of(query.number).is_some() || self.is_used(query.id)
    }

    /// The script of all lines.
    pub fn into_script(self) -> Script<'a>
        ensures { result ≡ self.entry.script }
    {
        let Draft {
            script,
            blocks: _,
            inside: _,
            loads: _,
            has_url: _,
            refused: _,
            refused_rows: _,
            refused_attempts: _,
            texts: _,
            ids: _,
            rows: _,
        } = self;
        script
    }
}
