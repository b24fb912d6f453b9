//! What shows whether a server still answers.
ghost use Rattle.std.specs.Prelude.{refl};
ghost use Rattle.conn_cache.specs.QueryProcesses.{ping_view};

use conn_cache::Query;
use conn_model::{Bind, BindType};

/// The query of a ping.
pub struct Ping;

impl Query for Ping {
    ghost view = { λ q. ping_view };

    fn sql(&self) -> &str {
        "SELECT 1"
    }

    fn bind_types(&self) -> &[BindType] {
        &[]
    }

    fn binds(&self) -> &[Bind] {
        &[]
    }

    fn is_safe_to_cache_prepared(&self) -> bool {
        true
    }

    fn has_changes(&self) -> bool {
        true
    }

    fn query_id(&self) -> Option<u64> {
        Some(0)
    }

    ghost law = { λ q. refl };
}
