//! What a command asks of the pool or of a connection: the one view of an act.
ghost use Rattle.std.specs.Prelude.{◌≡◌};
ghost use Rattle.conn_script.specs.Requests.{request_of, verb_word};

use crate::{Act, BlockKind, QueryCall, Word};
use conn_model::{CacheSize, LentText};

/// What a command says of the connection that it names.
#[derive(Debug, Drop)]
pub enum Verb<'a> {
    Batch(LentText<'a>),
    Begin,
    Commit,
    Rollback,
    TestBegin,
    /// What is made of the declared query of this number.
    Query(QueryCall, u32),
    Cache(CacheSize),
    Ping,
    /// Opens a block.
    Block(BlockKind),
    /// Closes the innermost block, in which all went well.
    End,
    /// Closes the innermost block, which is to be rolled back.
    Fail,
}

/// What is asked of the pool, or of the connection of a number.
#[derive(Debug, Drop)]
pub enum Request<'a> {
    Get,
    Put(u32),
    On(u32, Verb<'a>),
}

impl<'a> Act<'a> {
    /// What it asks, and of whom.
    pub fn request(&self) -> Request<'a>
        ensures { result ≡ request_of self.now }
    {
        match self {
            Act::Get => Request::Get,
            Act::Put(n) => Request::Put(*n),
            Act::Batch(n, text) => Request::On(*n, Verb::Batch(LentText::new(text.as_str()))),
            Act::Begin(n) => Request::On(*n, Verb::Begin),
            Act::Commit(n) => Request::On(*n, Verb::Commit),
            Act::Rollback(n) => Request::On(*n, Verb::Rollback),
            Act::TestBegin(n) => Request::On(*n, Verb::TestBegin),
            Act::Query(call, n, query) => Request::On(*n, Verb::Query(*call, *query)),
            Act::Cache(n, size) => Request::On(*n, Verb::Cache(*size)),
            Act::Ping(n) => Request::On(*n, Verb::Ping),
            Act::Block(n, kind) => Request::On(*n, Verb::Block(*kind)),
            Act::End(n) => Request::On(*n, Verb::End),
            Act::Fail(n) => Request::On(*n, Verb::Fail),
        }
    }
}

impl<'a> Verb<'a> {
    /// The first word of the command.
    pub fn word(&self) -> Word
        ensures { result ≡ verb_word self.now }
    {
        match self {
            Verb::Batch(_) => Word::Batch,
            Verb::Begin => Word::Begin,
            Verb::Commit => Word::Commit,
            Verb::Rollback => Word::Rollback,
            Verb::TestBegin => Word::TestBegin,
            Verb::Query(QueryCall::Exec, _) => Word::Exec,
            Verb::Query(QueryCall::Load, _) => Word::Load,
            Verb::Query(QueryCall::Each, _) => Word::Each,
            Verb::Query(QueryCall::One, _) => Word::One,
            Verb::Query(QueryCall::Optional, _) => Word::Optional,
            Verb::Cache(_) => Word::CacheSize,
            Verb::Ping => Word::Ping,
            Verb::Block(_) => Word::Transaction,
            Verb::End => Word::End,
            Verb::Fail => Word::Fail,
        }
    }
}
