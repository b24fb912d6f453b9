//! Laws of the cache. Each function does nothing: its contract is the law.
ghost use Rattle.std.specs.Prelude.{◌≡◌, Bool, true, false, List, length};
ghost use Rattle.conn_model.specs.declared.value.BindType.{BindType};
ghost use Rattle.conn_cache.specs.Keys.{key_of};
ghost use Rattle.conn_cache.specs.QueryViews.{QueryView};
ghost use Rattle.conn_model.specs.Caches.{Register};
ghost use Rattle.conn_cache.specs.Registers.{due, register_after};
ghost use Rattle.conn_cache.specs.Turns.{IsRising, StaysUnbounded, LookUp, Turn, due_beside, numbers_through, register_by, register_through};
ghost use Rattle.conn_cache.specs.declared.entry.Due.TheVariants.{New};

/// Each number that is given is greater than all that were given before, whatever sizes were set in between.
pub fn counters_rise()
    ensures { (r : Register) (turns : List Turn)
        → IsRising r.counter (numbers_through turns r) }
{}

/// Once a new entry's prepare was accepted, no look-up of its key by a query that is safe to keep prepares anything, until
/// another size is set: it finds the entry where its text and types are those of the entry's query, and clashes else.
pub fn a_kept_statement_is_found()
    ensures { (q other : QueryView) (types others : List BindType) (r : Register)
        → (turns : List Turn) → due q types r ≡ New → StaysUnbounded turns
        → other.is_safe ≡ true → key_of other others ≡ key_of q types
        → due other others (register_through turns (register_after q types true r))
        ≡ due_beside (length r.entries) q types other others }
{}

/// A query that isn't safe to keep gets no entry, and no number.
pub fn unsafe_adds_nothing()
    ensures { (q : QueryView) (types : List BindType) (accepted : Bool) (r : Register)
        → q.is_safe ≡ false → register_by (LookUp q types accepted) r ≡ r }
{}
