//! Queries, what prepares statements for them, and the cache of these statements.
#![tactic(auto)]

mod entry;
mod key;
mod key_table;
mod laws;
mod preparer;
mod query;
mod statement_cache;

pub use conn_model::{CacheEntry, CacheSize};
pub use entry::Due;
pub use key::StatementCacheKey;
pub use laws::{a_kept_statement_is_found, counters_rise, unsafe_adds_nothing};
pub use preparer::{PrepareForCache, Preparer};
pub use query::Query;
pub use statement_cache::{MaybeCached, StatementCache};
