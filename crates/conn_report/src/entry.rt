//! What the commands of a session gave.
use crate::Texts;
use conn_manager::TransactionManagerStatus;
use conn_model::Row;
use conn_result::{Error, pool};
use conn_script::Word;
use sqlite_items::Items;

/// Rows in order, seen as a list.
pub type Rows = Items<Row>;

/// The reply to a command.
#[derive(Debug, Drop)]
pub enum Reply {
    Ok,
    /// The pool kept the connection.
    Kept,
    /// The pool closed the connection.
    Closed,
    /// How many rows a query affected.
    Count(u64),
    /// The rows of a query.
    Rows(Rows),
    /// The first row of a query.
    OneRow(Row),
    /// A query had no row.
    NoRow,
    /// The named connection isn't handed out.
    NotOut,
    /// No slot of the pool is free.
    NoneFree,
    /// Nothing was done, since its block wasn't opened, or a command of it was refused.
    Skipped,
    Error(Error),
    /// The pool handed no connection out.
    Pool(pool::Error),
}

/// What one command gave: the script's line, its first word, the connection, the reply, and, where a connection was there,
/// its tracked status and the number of items of its server after the command.
#[derive(Debug, Drop)]
pub struct Entry {
    pub line: u32,
    pub word: Word,
    pub connection: Option<u32>,
    pub reply: Reply,
    pub status: Option<TransactionManagerStatus>,
    pub mark: Option<u64>,
}

/// Entries in order, seen as a list.
pub type Entries = Items<Entry>;

/// For each server by its number the writes that it committed, where they are told; seen as a list.
pub type Servers = Items<Option<Texts>>;

/// The entries of a session, and what each of its servers kept.
#[derive(Debug, Drop)]
pub struct Transcript {
    pub entries: Entries,
    pub servers: Servers,
}
