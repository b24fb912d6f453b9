//! Keys of the cache.
ghost use Rattle.std.specs.Prelude.{◌≡◌, None, List, IfOk, IfErr};
ghost use Rattle.std.specs.Cmp.{partial_equiv_from_equiv};
ghost use Rattle.conn_result.specs.declared.error.Error.TheVariants.{OutOfMemory};
ghost use Rattle.conn_model.specs.declared.value.BindType.{BindType as kind};
ghost use Rattle.conn_cache.specs.KeyLaws.{key_equiv, writes_alike};
ghost use Rattle.conn_cache.specs.Keys.{key_of, key_text, key_writes, same_key, same_types};

use crate::Query;
use conn_model::{BindType, BindTypes, Text, is_same_text};
use conn_result::QueryResult;
use std::alloc::Global;
use std::hash::{Hash, Hasher};

/// What a statement is found by.
#[derive(Debug, Drop)]
pub enum StatementCacheKey {
    /// The number of the query.
    Id(u64),
    /// The text of a query without a number, with types of its binds.
    Sql { sql: Text, bind_types: BindTypes },
}

/// Whether the types are the same, in the same order.
#[tactic(auto, unfolding(crate::specs::Keys::same_types))]
pub fn are_same_types(a: &[BindType], b: &[BindType]) -> bool
    ensures { result ≡ same_types a.now b.now }
{
    a == b
}

impl PartialEq for StatementCacheKey {
    ghost eq = { same_key };

    ghost laws = { partial_equiv_from_equiv key_equiv };

    fn eq(&self, other: &StatementCacheKey) -> bool {
        match (self, other) {
            (StatementCacheKey::Id(a), StatementCacheKey::Id(b)) => *a == *b,
            (
                StatementCacheKey::Sql { sql, bind_types },
                StatementCacheKey::Sql {
                    sql: other_sql,
                    bind_types: other_types,
                },
            ) => {
                is_same_text(sql.as_str(), other_sql.as_str())
                    && are_same_types(bind_types.as_slice(), other_types.as_slice())
            }
            _ => false,
        }
    }
}

impl Eq for StatementCacheKey {
    ghost laws = { key_equiv };
}

/// The types aren't hashed: few texts have statements of several types, and `==` tells these apart.
impl Hash for StatementCacheKey {
    ghost hash_input = { key_writes };

    ghost respects_eq = { writes_alike };

    fn hash<H: Hasher>(&self, state: &mut H) {
        match self {
            StatementCacheKey::Id(id) => id.hash(state),
            StatementCacheKey::Sql { sql, .. } => sql.as_str().hash(state),
        }
    }
}

impl StatementCacheKey {
    /// The number of the query, which takes no memory, or where it has none its text with these types.
    pub fn for_source<Q: Query>(
        alloc: Global,
        source: &Q,
        types: &[BindType],
    ) -> QueryResult<StatementCacheKey>
        ensures ok { IfOk result (λ key. key ≡ key_of (Q.view source.now) types.now) }
        ensures err { IfErr result (λ e. (e ≡ OutOfMemory) × ((Q.view source.now).id ≡ None)) }
    {
        match source.query_id() {
            Some(id) => Ok(StatementCacheKey::Id(id)),
            None => Ok(StatementCacheKey::Sql {
                sql: Text::new(alloc, source.sql())?,
                bind_types: BindTypes::from_slice(alloc, types)?,
            }),
        }
    }

    /// The text of the query whose key it is. Where the key has the text it is lent from there: the crate builds a text anew at
    /// each `sql`.
    pub fn sql<'a, Q: Query>(&'a self, source: &'a Q) -> &'a str
        ensures text { result.now ≡ key_text self.now (Q.view source.now).sql }
        ensures own { (types : List kind) → self.now ≡ key_of (Q.view source.now) types
            → result.now ≡ (Q.view source.now).sql }
    {
        match self {
            StatementCacheKey::Id(_) => source.sql(),
            StatementCacheKey::Sql { sql, .. } => sql.as_str(),
        }
    }
}
