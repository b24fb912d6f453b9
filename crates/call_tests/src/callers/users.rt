//! A query with its rows.
ghost use Rattle.std.specs.Prelude.{◌∷◌, [], true, None};
ghost use mathlib.Core.Path.{refl};

use conn_drivers::{LoadConnection, Query, load_list};
use conn_model::{Bind, BindType, Text, Value};
use conn_result::QueryResult;
use std::alloc::Global;

/// Asks for the users with smaller numbers than this one.
#[derive(Drop)]
pub struct UsersBelow {
    number: Bind,
}

impl UsersBelow {
    pub fn new(number: i64) -> UsersBelow {
        UsersBelow {
            number: Bind {
                kind: BindType::BigInt,
                value: Value::Int(number),
            },
        }
    }
}

impl Query for UsersBelow {
    ghost use Rattle.std.specs.Prelude.{codes};

    ghost view = { λ q. record {
      sql = codes "SELECT id, name FROM users WHERE id < $1";
      types = q.number.kind ∷ [];
      binds = q.number ∷ [];
      is_safe = true;
      has_changes = true;
      id = None;
    } };

    fn sql(&self) -> &str {
        "SELECT id, name FROM users WHERE id < $1"
    }

    fn bind_types(&self) -> &[BindType] {
        std::slice::from_ref(&self.number.kind)
    }

    fn binds(&self) -> &[Bind] {
        std::slice::from_ref(&self.number)
    }

    fn is_safe_to_cache_prepared(&self) -> bool {
        true
    }

    fn has_changes(&self) -> bool {
        true
    }

    fn query_id(&self) -> Option<u64> {
        None
    }

    ghost law = { λ q. refl };
}

/// The numbers and the names of these users, in the order in which the server gives them.
pub fn users<C: LoadConnection>(
    alloc: Global,
    conn: &mut C,
    below: i64,
) -> QueryResult<Vec<(i64, Text)>> {
    load_list(alloc, conn, &UsersBelow::new(below), false)
}
