//! What a connection tells its handler.
use conn_result::{ConnectionError, Error};

/// A query's text, as a handler is shown it.
#[derive(Clone, Copy)]
pub struct StrQueryHelper<'a> {
    query: &'a str,
}

impl<'a> StrQueryHelper<'a> {
    ghost use Rattle.std.specs.Prelude.{◌≡◌};

    /// The query of this text.
    pub fn new(query: &'a str) -> StrQueryHelper<'a>
        ensures { result.query.now ≡ query.now }
    {
        StrQueryHelper { query }
    }

    /// The text.
    pub fn text(&self) -> &'a str
        ensures { result.now ≡ self.now.query.now }
    {
        self.query
    }
}

/// What happens on a connection. An error is there where what ends has failed.
#[derive(Clone, Copy)]
pub enum InstrumentationEvent<'a> {
    /// A connection to this URL is about to be opened.
    StartEstablishConnection {
        url: &'a str,
    },
    /// It was opened or not.
    FinishEstablishConnection {
        url: &'a str,
        error: Option<&'a ConnectionError>,
    },
    /// A text is about to be sent.
    StartQuery {
        query: StrQueryHelper<'a>,
    },
    /// A statement of this text is about to be kept for later.
    CacheQuery {
        sql: &'a str,
    },
    /// The server answered the text.
    FinishQuery {
        query: StrQueryHelper<'a>,
        error: Option<&'a Error>,
    },
    /// A level of this depth is about to begin: 1 for the transaction itself, and one more for each savepoint in it.
    BeginTransaction {
        depth: u32,
    },
    /// The level of this depth is about to be kept.
    CommitTransaction {
        depth: u32,
    },
    /// The level of this depth is about to be dropped.
    RollbackTransaction {
        depth: u32,
    },
}
