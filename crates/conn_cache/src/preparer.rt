//! What prepares statements.
ghost use Rattle.std.specs.Prelude.{◌≡◌, ℕ, List, [], ◌∷◌, IfErr, Bool, Result, Ok};
ghost use Rattle.conn_result.specs.Causes.{HasCause};
ghost use Rattle.conn_result.specs.declared.error.Error.{Error};
ghost use Rattle.conn_model.specs.declared.value.BindType.{BindType};
ghost use Rattle.conn_cache.specs.declared.preparer.PrepareForCache.{PrepareForCache};
ghost use Rattle.conn_cache.specs.Preparers.{IsFresh, IsPreparersError, IsServed, StandBeside, StandStill};

use conn_model::BindType;
use conn_result::QueryResult;

/// Whether a statement will be kept.
#[derive(Clone, Copy, Debug)]
pub enum PrepareForCache {
    /// It will. The number is one that no statement of the cache had before, so that it can be a part of a name.
    Yes { counter: u64 },
    /// It won't.
    No,
}

/// Prepares statements of the type, and closes them.
pub trait Preparer<T> {
    /// How many statements it refused to prepare.
    ghost failures: { Self → ℕ };

    /// The texts for which it has room.
    ghost has_room: { Self → List ℕ → Type 0 };

    /// Which statement stands for which text.
    ghost stands: { Self → T → List ℕ → Type 0 };

    /// Whether a statement that won't be kept stands for its text: where it needn't be sent before it is run, it may stand
    /// for none.
    ghost serves_no: { Bool };

    /// What one `prepare` does.
    ghost prepares: { Self → List ℕ → PrepareForCache → List BindType → Result T Error → Self → Type 0 };

    /// What one `close` does.
    ghost closes: { Self → T → Self → Type 0 };

    /// Prepares a statement of this text, with binds of these types.
    fn prepare(
        &mut self,
        sql: &str,
        is_cached: PrepareForCache,
        types: &[BindType],
    ) -> QueryResult<T>
        requires { has_room self.old sql.now }
        ensures does { prepares self.old sql.now is_cached types.now result self.new }
        ensures error { IfErr result IsPreparersError }
        ensures cause { HasCause (failures self.old) (failures self.new) result };

    /// Closes a statement.
    fn close(&mut self, statement: T)
        ensures does { closes self.old statement self.new }
        ensures uncounted { failures self.new ≡ failures self.old }
        ensures room { (text : List ℕ) → has_room self.old text → has_room self.new text };

    /// A statement that is prepared stood for no text before, and stands for its own now.
    ghost stands_after: { (p q : Self) (sql : List ℕ) (how : PrepareForCache) (types : List BindType) (t : T) → prepares p sql how types (Ok t) q → IsServed serves_no how → IsFresh (stands p) (stands q) t sql };

    /// A prepare changes nothing of the others.
    ghost others_stay: { (p q : Self) (sql : List ℕ) (how : PrepareForCache) (types : List BindType) (r : Result T Error) → prepares p sql how types r q → StandStill (stands p) (stands q) };

    /// Nor does the close of one that stood for a text.
    ghost others_stay_open: { (p q : Self) (t : T) (text : List ℕ) → stands p t text → closes p t q → StandBeside (t ∷ []) (stands p) (stands q) };
}
