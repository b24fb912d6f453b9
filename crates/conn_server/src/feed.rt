//! The rows of a server in memory, and those of its last run that are left.
ghost use Rattle.std.specs.Prelude.{◌≡◌, ◌+◌, ◌<◌, ◌^◌, [], None};
ghost use Rattle.conn_model.specs.Armed.{columns_of};
ghost use Rattle.conn_server.specs.Feeds.{armed_in, fed_after, fed_on, fed_out};

use crate::row_table::SharedRows;
use conn_model::Answer;

/// The rows that a server was armed with, and where the next one of its last run stands.
#[derive(Drop)]
pub struct Feed {
    pub rows: SharedRows,
    /// The number of the last run's item, from 1, where a row of it may be refused.
    pub run: Option<u64>,
    /// How many of its rows were given.
    pub given: u64,
    /// How many records there are up to its next row.
    pub cursor: usize,
}

/// How many columns the rows of a text have, where no row is known of it.
#[tactic(auto, unfolding(conn_model::specs::Classes::begins))]
fn unarmed_columns(text: &str) -> u32
    ensures { result ≡ columns_of [] text.now }
{
    if text.as_bytes().starts_with(b"SELECT") {
        1
    } else {
        0
    }
}

impl Feed {
    /// Without a run.
    pub fn new(rows: SharedRows) -> Feed
        ensures { result ≡ record { rows = rows; run = None; given = 0; cursor = 0 } }
    {
        Feed {
            rows,
            run: None,
            given: 0,
            cursor: 0,
        }
    }

    /// How many columns the rows of the text have.
    pub fn columns(&self, text: &str) -> u32
        ensures { result ≡ columns_of (armed_in self.now) text.now }
    {
        match self.rows.before(self.rows.first(text)) {
            Some(found) => found.row.len().min(u32::MAX as usize) as u32,
            None => unarmed_columns(text),
        }
    }

    /// An accepted run begins its rows, a refused one leaves those of the run before it.
    pub fn begin(&mut self, first: usize, run: u64, answer: Answer)
        ensures { self.new ≡ fed_after first run answer self.old }
    {
        if let Answer::Accepted = answer {
            self.run = Some(run);
            self.given = 0;
            self.cursor = first;
        }
    }

    /// A row was given, and the next one is this.
    pub fn go_on(&mut self, next: usize)
        requires { self.old.given + 1 < 2 ^ 64 }
        ensures { self.new ≡ fed_on next self.old }
    {
        self.given += 1;
        self.cursor = next;
    }

    /// No row is left.
    pub fn end(&mut self)
        ensures { self.new ≡ fed_out self.old }
    {
        self.run = None;
        self.cursor = 0;
    }
}
