//! The entry of a query, and what a look-up comes to.
ghost use Rattle.std.specs.Prelude.{◌≡◌, ◌&&◌, IfOk, IfErr};
ghost use Rattle.conn_result.specs.declared.error.Error.TheVariants.{OutOfMemory};
ghost use Rattle.conn_model.specs.Classes.{same_text};
ghost use Rattle.conn_cache.specs.Keys.{same_types};
ghost use Rattle.conn_cache.specs.Registers.{entry_of, is_entry_of};

use crate::Query;
use crate::key::are_same_types;
use conn_model::{BindType, BindTypes, CacheEntry, Text, is_same_text};
use conn_result::QueryResult;
use std::alloc::Global;

/// The entry of the query.
pub(crate) fn entry_of<Q: Query>(
    alloc: Global,
    source: &Q,
    types: &[BindType],
    counter: u64,
) -> QueryResult<CacheEntry>
    ensures ok { IfOk result (λ e. e ≡ entry_of (Q.view source.now) types.now counter) }
    ensures err { IfErr result (λ e. e ≡ OutOfMemory) }
{
    Ok(CacheEntry {
        id: source.query_id(),
        sql: Text::new(alloc, source.sql())?,
        types: BindTypes::from_slice(alloc, types)?,
        counter,
    })
}

/// Whether it is an entry of the query with these types: it has the query's text, and the types.
pub(crate) fn is_entry_of<Q: Query>(source: &Q, types: &[BindType], entry: &CacheEntry) -> bool
    ensures { result ≡ is_entry_of (Q.view source.now) types.now entry.now }
{
    is_same_text(entry.sql.as_str(), source.sql()) && are_same_types(entry.types.as_slice(), types)
}

/// What a look-up comes to.
#[derive(Clone, Copy, Debug)]
pub enum Due {
    /// The query's statement isn't kept: one is prepared for the caller.
    Plain,
    /// The entry of the key, at this place, is the query's.
    Found(usize),
    /// The entry of the key has another text or other types.
    Clash,
    /// The key has no entry, and there is no number for a new one.
    Exhausted,
    /// The key gets an entry.
    New,
}
