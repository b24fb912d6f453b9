//! A query with one bind.
ghost use Rattle.std.specs.Prelude.{◌∷◌, []};
ghost use mathlib.Core.Path.{refl};

use conn_cache::Query;
use conn_model::{Bind, BindType, Value};

/// What is asked: an id, a text and a number that is bound as a smallint, whether the statement may be kept, and whether there is
/// anything to do.
#[derive(Clone, Copy)]
pub struct Asked {
    pub id: Option<u64>,
    pub text: &'static str,
    pub number: i64,
    pub is_safe: bool,
    pub has_changes: bool,
}

/// A query that is asked, by a name.
pub fn query_named(name: &str) -> Asked {
    let plain = Asked {
        id: None,
        text: "UPDATE a",
        number: 1,
        is_safe: true,
        has_changes: true,
    };
    let known = Asked {
        id: Some(7),
        ..plain
    };
    match name {
        "7" => known,
        "7 unsafe" => Asked {
            is_safe: false,
            ..known
        },
        "7 of another text" => Asked {
            text: "UPDATE b",
            ..known
        },
        "select" => Asked {
            text: "SELECT a",
            ..plain
        },
        "nothing of 70000 without changes" => Asked {
            text: "",
            number: 70_000,
            has_changes: false,
            ..plain
        },
        "nothing of 70000" => Asked {
            text: "",
            number: 70_000,
            ..plain
        },
        "nul" => Asked {
            text: "a\0",
            ..plain
        },
        "blank" => Asked {
            text: " \n",
            ..plain
        },
        _ => plain,
    }
}

/// A query with one bind.
#[derive(Drop)]
pub struct OneBind {
    asked: Asked,
    bind: Bind,
}

impl OneBind {
    /// The query by which this is asked.
    pub fn new(asked: Asked) -> OneBind {
        let value = Value::Int(asked.number);
        let kind = BindType::SmallInt;
        OneBind {
            asked,
            bind: Bind { kind, value },
        }
    }
}

impl Query for OneBind {
    ghost view = { λ q. record {
      sql = q.asked.text.now;
      types = q.bind.kind ∷ [];
      binds = q.bind ∷ [];
      is_safe = q.asked.is_safe;
      has_changes = q.asked.has_changes;
      id = q.asked.id;
    } };

    fn sql(&self) -> &str {
        self.asked.text
    }

    fn bind_types(&self) -> &[BindType] {
        std::slice::from_ref(&self.bind.kind)
    }

    fn binds(&self) -> &[Bind] {
        std::slice::from_ref(&self.bind)
    }

    fn is_safe_to_cache_prepared(&self) -> bool {
        self.asked.is_safe
    }

    fn has_changes(&self) -> bool {
        self.asked.has_changes
    }

    fn query_id(&self) -> Option<u64> {
        self.asked.id
    }

    ghost law = { λ q. refl };
}
