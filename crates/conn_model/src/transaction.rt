//! How a transaction begins by a text of its own.
ghost use Rattle.std.specs.Prelude.{◌≡◌, ◌≤◌, length};
ghost use Rattle.conn_model.specs.Beginnings.{built_text, deferrable_text, form_dialect, form_text, isolation_text, mode_text};

use crate::Dialect;
use arrayvec::ArrayString;

/// Which changes of other transactions a transaction sees.
#[derive(Clone, Copy, Debug, PartialEq, Eq)]
pub enum IsolationLevel {
    ReadCommitted,
    RepeatableRead,
    Serializable,
}

/// Whether a transaction may write.
#[derive(Clone, Copy, Debug, PartialEq, Eq)]
pub enum ReadMode {
    ReadOnly,
    ReadWrite,
}

/// Whether a transaction that is serializable and reads alone waits for a snapshot that nothing can spoil.
#[derive(Clone, Copy, Debug, PartialEq, Eq)]
pub enum Deferrable {
    Deferrable,
    NotDeferrable,
}

/// The characteristics that PostgreSQL's `BEGIN TRANSACTION` takes; what isn't given is the server's default.
#[derive(Clone, Copy, Debug, PartialEq, Eq)]
pub struct Characteristics {
    pub isolation_level: Option<IsolationLevel>,
    pub read_mode: Option<ReadMode>,
    pub deferrable: Option<Deferrable>,
}

/// How a transaction begins by a text of its own: by SQLite's ways to take its lock at once, or by PostgreSQL's
/// characteristics.
#[derive(Clone, Copy, Debug, PartialEq, Eq)]
pub enum BlockForm {
    Immediate,
    Exclusive,
    Build(Characteristics),
}

/// A text that begins a transaction; the longest has 75 bytes.
pub type BeginText = ArrayString<96>;

fn isolation_text(level: Option<IsolationLevel>) -> &'static str
    ensures text { result.now ≡ isolation_text level }
    ensures short { length result.now ≤ 32 }
{
    match level {
        None => "",
        Some(IsolationLevel::ReadCommitted) => " ISOLATION LEVEL READ COMMITTED",
        Some(IsolationLevel::RepeatableRead) => " ISOLATION LEVEL REPEATABLE READ",
        Some(IsolationLevel::Serializable) => " ISOLATION LEVEL SERIALIZABLE",
    }
}

fn mode_text(mode: Option<ReadMode>) -> &'static str
    ensures text { result.now ≡ mode_text mode }
    ensures short { length result.now ≤ 11 }
{
    match mode {
        None => "",
        Some(ReadMode::ReadOnly) => " READ ONLY",
        Some(ReadMode::ReadWrite) => " READ WRITE",
    }
}

fn deferrable_text(deferrable: Option<Deferrable>) -> &'static str
    ensures text { result.now ≡ deferrable_text deferrable }
    ensures short { length result.now ≤ 15 }
{
    match deferrable {
        None => "",
        Some(Deferrable::Deferrable) => " DEFERRABLE",
        Some(Deferrable::NotDeferrable) => " NOT DEFERRABLE",
    }
}

impl Characteristics {
    /// None of them is given.
    pub const DEFAULT: Characteristics = Characteristics {
        isolation_level: None,
        read_mode: None,
        deferrable: None,
    };

    /// The text that begins a transaction with these characteristics.
    pub fn sql(&self) -> BeginText
        ensures text { result.bytes ≡ built_text self.now }
        ensures short { length result.bytes ≤ 75 }
    {
        let mut text = ArrayString::new();
        text.push_str("BEGIN TRANSACTION");
        text.push_str(isolation_text(self.isolation_level));
        text.push_str(mode_text(self.read_mode));
        text.push_str(deferrable_text(self.deferrable));
        text
    }
}

impl BlockForm {
    /// The text that begins a transaction of this form.
    pub fn sql(&self) -> BeginText
        ensures text { result.bytes ≡ form_text self.now }
        ensures short { length result.bytes ≤ 75 }
    {
        match self {
            BlockForm::Immediate => plain("BEGIN IMMEDIATE"),
            BlockForm::Exclusive => plain("BEGIN EXCLUSIVE"),
            BlockForm::Build(characteristics) => characteristics.sql(),
        }
    }

    /// The dialect whose servers take it.
    pub fn dialect(&self) -> Dialect
        ensures { result ≡ form_dialect self.now }
    {
        match self {
            BlockForm::Immediate | BlockForm::Exclusive => Dialect::Sqlite,
            BlockForm::Build(_) => Dialect::Pg,
        }
    }
}

/// These words alone.
fn plain(words: &str) -> BeginText
    requires { length words.now ≤ 75 }
    ensures { result.bytes ≡ words.now }
{
    let mut text = ArrayString::new();
    text.push_str(words);
    text
}
