//! The cache of statements.
ghost use Rattle.std.specs.Prelude.{◌≡◌, ◌<◌, ◌^◌, ◌-◌, ℕ, List, [], length, slice_get, option_copied, IfOk, true};
ghost use Rattle.conn_cache.specs.Preparers.{EachStands, StandBeside};
ghost use Rattle.conn_cache.specs.Sizes.{ClosesBack};
ghost use Rattle.conn_cache.specs.Soundness.{AreApart};

use crate::entry::{Due, entry_of, is_entry_of};
use crate::key_table::KeyTable;
use crate::{CacheEntry, CacheSize, PrepareForCache, Preparer, Query, StatementCacheKey};
use conn_manager::{Instrumentation, InstrumentationEvent};
use conn_model::BindType;
use conn_result::{Error, QueryResult};
use std::alloc::Global;
use std::marker::Model;

/// A statement for a query.
#[derive(Drop)]
pub enum MaybeCached<T> {
    /// It is the caller's, who closes it.
    CannotCache(T),
    /// It is the cache's, at this place, which is good until another size is set.
    Cached(usize),
}

/// Statements that were prepared, each with what its query was known by. A cache that is dropped closes no statement.
#[derive(Drop)]
pub struct StatementCache<T> {
    alloc: Global,
    size: CacheSize,
    counter: u64,
    table: KeyTable,
    entries: Vec<CacheEntry>,
    statements: Vec<T>,
}

impl<T> Model for StatementCache<T> {
    ghost use Rattle.std.specs.Prelude.{◌≡◌, length};
    ghost use Rattle.conn_model.specs.Caches.{Cache};
    ghost use Rattle.conn_cache.specs.Registers.{HasPlaces};

    ghost Value = { Cache T };

    ghost view = { λ c. record {
      register = record { size = c.size; counter = c.counter; entries = c.entries.items };
      statements = c.statements.items;
    } };

    ghost invariant = { λ c. (length c.entries.items ≡ length c.statements.items)
        × HasPlaces c.table c.entries.items };
}

impl<T: Drop> StatementCache<T> {
    ghost use Rattle.conn_cache.specs.declared.key.StatementCacheKey.{StatementCacheKey as key_type};
    ghost use Rattle.conn_model.specs.declared.cache.CacheSize.TheVariants.{Unbounded};
    ghost use Rattle.conn_cache.specs.Keys.{key_of};
    ghost use Rattle.conn_cache.specs.Registers.{due, due_at, place_from, is_looked_up, IsWithin};
    ghost use Rattle.conn_cache.specs.Lookups.{LooksUp, Adds, HasPreparersCause, IsCachedWithin};
    ghost use Rattle.conn_cache.specs.Preparers.{StandStill};
    ghost use Rattle.conn_cache.specs.Sizes.{Resizes};
    ghost use Rattle.conn_cache.specs.Soundness.{IsSound, IsOwnAnswer};
    ghost use Rattle.conn_cache.specs.Turns.{TakesTurn};

    /// A cache that keeps all statements that may be kept, and has none. It takes no memory yet.
    pub fn new(alloc: Global) -> StatementCache<T>
        ensures { result ≡ record {
          register = record { size = Unbounded; counter = 0; entries = [] };
          statements = [];
        } }
    {
        StatementCache {
            alloc,
            size: CacheSize::Unbounded,
            counter: 0,
            table: KeyTable::new(alloc),
            entries: Vec::new(alloc),
            statements: Vec::new(alloc),
        }
    }

    /// How many statements were prepared to be kept, those that were refused among them.
    pub fn counter(&self) -> u64
        ensures { result ≡ self.now.register.counter }
    {
        self.counter
    }

    /// The statement at the place.
    pub fn statement(&self, place: usize) -> Option<&T>
        ensures { option_copied result ≡ slice_get self.now.statements place }
    {
        self.statements.get(place)
    }

    /// Keeps so many statements from now on. Another size closes all that are kept; the same size leaves them. The counter
    /// stays either way: a name that a server may still know isn't given again.
    pub fn set_cache_size<P: Preparer<T>>(&mut self, size: CacheSize, preparer: &mut P)
        ensures resizes { Resizes P.closes size self.old self.new preparer.old preparer.new }
        ensures uncounted { P.failures preparer.new ≡ P.failures preparer.old }
        ensures room { (text : List ℕ) → P.has_room preparer.old text
            → P.has_room preparer.new text }
        ensures sound { IsSound (P.stands preparer.old) self.old
            → IsSound (P.stands preparer.new) self.new }
        ensures others { IsSound (P.stands preparer.old) self.old → StandBeside self.old.statements
            (P.stands preparer.old) (P.stands preparer.new) }
    {
        if size != self.size {
            self.size = size;
            self.table.clear();
            self.entries.clear();
            close_all(&mut self.statements, preparer);
        }
    }

    /// A statement for the query, with binds of these types. A query that isn't safe to keep, or a cache that keeps none, has
    /// one prepared for the caller. Else the entry of the query's key is looked for. Where it is the query's, its statement is
    /// given and nothing is prepared. Where its text or its types are others, two queries have one number, and `QueryIdClash`
    /// comes; the crate runs the other query's statement then. Where there is none, one is prepared, and kept unless that is
    /// refused. Before that the counter rises and the handler is told `CacheQuery`, as in the crate: a refusal uses the number
    /// up, since the server may know its name by then. Memory is taken before the counter rises, for a new entry and for the
    /// key of a query without a number; where it is wanting nothing is changed.
    pub fn cached_statement<Q: Query, P: Preparer<T>, I: Instrumentation>(
        &mut self,
        source: &Q,
        types: &[BindType],
        preparer: &mut P,
        instrumentation: &mut I,
    ) -> QueryResult<MaybeCached<T>>
        requires { P.has_room preparer.old (Q.view source.now).sql }
        ensures looks_up { LooksUp P.prepares I.told (Q.view source.now) types.now self.old self.new
            preparer.old preparer.new instrumentation.old instrumentation.new result }
        ensures turn { TakesTurn (Q.view source.now) types.now self.old.register self.new.register }
        ensures within { IfOk result (IsCachedWithin (length self.new.statements)) }
        ensures cause { HasPreparersCause (P.failures preparer.old) (P.failures preparer.new)
            result }
        ensures sound { IsSound (P.stands preparer.old) self.old
            → IsSound (P.stands preparer.new) self.new }
        ensures own { IsSound (P.stands preparer.old) self.old
            → IsOwnAnswer (P.stands preparer.new) P.serves_no (Q.view source.now).sql
            self.new.statements result }
        ensures others { StandStill (P.stands preparer.old) (P.stands preparer.new) }
    {
        self.look_up(source, types, preparer, instrumentation)
    }

    fn look_up<Q: Query, P: Preparer<T>, I: Instrumentation>(
        &mut self,
        source: &Q,
        types: &[BindType],
        preparer: &mut P,
        instrumentation: &mut I,
    ) -> QueryResult<MaybeCached<T>>
        requires { P.has_room preparer.old (Q.view source.now).sql }
        ensures looks_up { LooksUp P.prepares I.told (Q.view source.now) types.now self.old self.new
            preparer.old preparer.new instrumentation.old instrumentation.new result }
        ensures within { IfOk result (IsCachedWithin (length self.new.statements)) }
        ensures cause { HasPreparersCause (P.failures preparer.old) (P.failures preparer.new)
            result }
    {
        if !self.is_looked_up(source) {
            let statement = preparer.prepare(source.sql(), PrepareForCache::No, types)?;
            return Ok(MaybeCached::CannotCache(statement));
        }
        let key = StatementCacheKey::for_source(self.alloc, source, types)?;
        match self.due(&key, source, types) {
            Due::Found(place) => Ok(MaybeCached::Cached(place)),
            Due::Clash => Err(Error::QueryIdClash),
            Due::Exhausted => Err(Error::CounterExhausted),
            // No query that is looked up is `Plain`.
            Due::Plain | Due::New => self.add(key, source, types, preparer, instrumentation),
        }
    }

    fn is_looked_up<Q: Query>(&self, source: &Q) -> bool
        ensures { result ≡ is_looked_up self.now.register.size (Q.view source.now).is_safe }
    {
        self.size == CacheSize::Unbounded && source.is_safe_to_cache_prepared()
    }

    fn due<Q: Query>(&self, key: &StatementCacheKey, source: &Q, types: &[BindType]) -> Due
        ensures due { result ≡ due_at (Q.view source.now) types.now self.now.register.counter
            (place_from key.now 0 self.now.register.entries) }
        ensures within { IsWithin (length self.now.statements) self.now.register.counter result }
    {
        match self.table.find(key) {
            Some(place) if is_entry_of(source, types, &self.entries[place]) => Due::Found(place),
            Some(_) => Due::Clash,
            None if self.counter == u64::MAX => Due::Exhausted,
            None => Due::New,
        }
    }

    fn add<Q: Query, P: Preparer<T>, I: Instrumentation>(
        &mut self,
        key: StatementCacheKey,
        source: &Q,
        types: &[BindType],
        preparer: &mut P,
        instrumentation: &mut I,
    ) -> QueryResult<MaybeCached<T>>
        requires key { key ≡ key_of (Q.view source.now) types.now }
        requires room { P.has_room preparer.old (Q.view source.now).sql }
        requires counter { self.old.register.counter < 2 ^ 64 - 1 }
        requires new { place_from key 0 self.old.register.entries ≡ None }
        ensures adds { Adds P.prepares I.told (Q.view source.now) types.now self.old self.new
            preparer.old preparer.new instrumentation.old instrumentation.new result }
        ensures within { IfOk result (IsCachedWithin (length self.new.statements)) }
        ensures cause { HasPreparersCause (P.failures preparer.old) (P.failures preparer.new)
            result }
    {
        let counter = self.counter + 1;
        let entry = entry_of(self.alloc, source, types, counter)?;
        self.table.reserve()?;
        self.entries.reserve(1)?;
        self.statements.reserve(1)?;
        self.counter = counter;
        let sql = source.sql();
        instrumentation.on_connection_event(InstrumentationEvent::CacheQuery { sql });
        let statement = preparer.prepare(sql, PrepareForCache::Yes { counter }, types)?;
        let place = self.statements.len();
        self.table.add(key, place);
        self.entries.push_reserved(entry);
        self.statements.push_reserved(statement);
        Ok(MaybeCached::Cached(place))
    }
}

/// Closes each statement, the last one first.
fn close_all<T: Drop, P: Preparer<T>>(statements: &mut Vec<T>, preparer: &mut P)
    ensures empty { statements.new.items ≡ [] }
    ensures closes { ClosesBack P.closes preparer.old statements.old.items preparer.new }
    ensures uncounted { P.failures preparer.new ≡ P.failures preparer.old }
    ensures room { (text : List ℕ) → P.has_room preparer.old text → P.has_room preparer.new text }
    ensures others { AreApart statements.old.items
        → EachStands (P.stands preparer.old) statements.old.items
        → StandBeside statements.old.items (P.stands preparer.old) (P.stands preparer.new) }
{
    while let Some(statement) = statements.pop() {
        preparer.close(statement);
    }
}
