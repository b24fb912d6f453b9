//! What is done on a connection.
use conn_model::{BlockForm, CacheSize, LentText};
use conn_result::QueryResult;
use conn_script::{BlockKind, QueryCall};

/// What a command does on its connection, by the blocks that are open.
#[derive(Debug, Drop)]
pub enum Deed<'a> {
    Batch(LentText<'a>),
    Begin,
    /// A block begins by the text of its form.
    BeginBy(BlockForm),
    Commit,
    Rollback,
    TestBegin,
    /// A block closes: what its closure would have answered decides how.
    Close(BlockKind, QueryResult<()>),
    /// What is made of the declared query of this number.
    Query(QueryCall, u32),
    CacheSize(CacheSize),
    Ping,
}
