//! What a query is to a connection.
ghost use Rattle.std.specs.Prelude.{◌≡◌, map};
ghost use Rattle.conn_model.specs.declared.value.Bind.{Bind};
ghost use Rattle.conn_cache.specs.QueryViews.{QueryView};

use conn_model::{Bind, BindType};

/// A query that was built: its text and its binds. It answers the same as long as it stays the same.
pub trait Query {
    /// What it answers.
    ghost view: { Self → QueryView };

    /// The text.
    fn sql(&self) -> &str
        ensures { result.now ≡ (view self.now).sql };

    /// The types of the binds.
    fn bind_types(&self) -> &[BindType]
        ensures { result.now ≡ (view self.now).types };

    /// The binds.
    fn binds(&self) -> &[Bind]
        ensures { result.now ≡ (view self.now).binds };

    /// Whether its statement may be kept. It may not where the same query has texts without end, as one with a list of any
    /// length has: each would stay for as long as the connection.
    fn is_safe_to_cache_prepared(&self) -> bool
        ensures { result ≡ (view self.now).is_safe };

    /// Whether it has anything to do: an update that sets no column has not, and has no text that a server accepts.
    fn has_changes(&self) -> bool
        ensures { result ≡ (view self.now).has_changes };

    /// The number that stands for its text and its types, where one does.
    fn query_id(&self) -> Option<u64>
        ensures { result ≡ (view self.now).id };

    /// The types are those of the binds.
    ghost law: { (q : Self) → (view q).types ≡ map (λ (b : Bind). b.kind) (view q).binds };
}
