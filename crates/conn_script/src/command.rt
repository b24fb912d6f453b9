//! What a script says.
ghost use Rattle.std.specs.Prelude.{◌≡◌};

use crate::Declareds;
use conn_model::{BlockForm, CacheSize, Dialect, LentText, PlanLine, Text};
use sqlite_items::Items;

/// The first word of a command.
#[derive(Clone, Copy, Debug, PartialEq, Eq)]
pub enum Word {
    Get,
    Put,
    Batch,
    Begin,
    Commit,
    Rollback,
    TestBegin,
    Exec,
    Load,
    Each,
    One,
    Optional,
    CacheSize,
    Ping,
    Transaction,
    End,
    Fail,
}

impl Word {
    ghost use Rattle.conn_script.specs.Spelling.{word_text};

    /// All of them.
    pub const ALL: [Word; 17] = [
        Word::Get,
        Word::Put,
        Word::Batch,
        Word::Begin,
        Word::Commit,
        Word::Rollback,
        Word::TestBegin,
        Word::Exec,
        Word::Load,
        Word::Each,
        Word::One,
        Word::Optional,
        Word::CacheSize,
        Word::Ping,
        Word::Transaction,
        Word::End,
        Word::Fail,
    ];

    /// How it is spelled.
    pub fn name(self) -> &'static str
        ensures { result.now ≡ word_text self }
    {
        match self {
            Word::Get => "get",
            Word::Put => "put",
            Word::Batch => "batch",
            Word::Begin => "begin",
            Word::Commit => "commit",
            Word::Rollback => "rollback",
            Word::TestBegin => "testbegin",
            Word::Exec => "exec",
            Word::Load => "load",
            Word::Each => "each",
            Word::One => "one",
            Word::Optional => "optional",
            Word::CacheSize => "cachesize",
            Word::Ping => "ping",
            Word::Transaction => "transaction",
            Word::End => "end",
            Word::Fail => "fail",
        }
    }
}

/// How a block begins and ends: a test never keeps what it did, and the others do where all went well.
#[derive(Clone, Copy, Debug, PartialEq, Eq)]
pub enum BlockKind {
    Plain,
    Test,
    /// It begins by the text of this form.
    Form(BlockForm),
}

/// What is made of a query.
#[derive(Clone, Copy, Debug, PartialEq, Eq)]
pub enum QueryCall {
    /// It is run, and the rows that it affected are counted.
    Exec,
    /// Its rows are loaded at once.
    Load,
    /// Its rows are loaded one after the other.
    Each,
    /// Its first row is loaded, which is to be there.
    One,
    /// Its first row is loaded, where there is one.
    Optional,
}

/// What a command asks for. The first number is the connection; a text stands in the bytes of the script.
#[derive(Debug, Drop)]
pub enum Act<'a> {
    Get,
    Put(u32),
    Batch(u32, LentText<'a>),
    Begin(u32),
    Commit(u32),
    Rollback(u32),
    TestBegin(u32),
    /// The second number is that of a declared query.
    Query(QueryCall, u32, u32),
    Cache(u32, CacheSize),
    Ping(u32),
    Block(u32, BlockKind),
    End(u32),
    Fail(u32),
}

/// A command, and the number of its line, from 1.
#[derive(Debug, Drop)]
pub struct Command<'a> {
    pub line: u32,
    pub act: Act<'a>,
}

/// Commands in order, seen as a list.
pub type Commands<'a> = Items<Command<'a>>;

/// Lines of a plan in order, seen as a list.
pub type Plan = Items<PlanLine>;

/// What is done with a connection that was just opened.
#[derive(Clone, Copy, Debug, PartialEq, Eq)]
pub enum Customizer {
    Nop,
    Test,
    Begin,
}

/// A session: how its pool is made, what its servers refuse, the queries that commands name, and what is done.
#[derive(Debug, Drop)]
pub struct Script<'a> {
    pub dialect: Dialect,
    pub max_size: u32,
    pub customizer: Customizer,
    pub check: bool,
    pub url: Text,
    pub plan: Plan,
    pub queries: Declareds<'a>,
    pub commands: Commands<'a>,
}

/// Why a session gave no transcript. Lines count from 1; 0 stands for too many bytes, and for every bad line of a session that
/// doesn't tell it.
#[derive(Clone, Copy, Debug, PartialEq, Eq)]
pub enum SessionError {
    BadScript { line: u32 },
    OutOfMemory,
}
