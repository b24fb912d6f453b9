//! The room that a query needs.
ghost use Rattle.std.specs.Prelude.{◌≡◌, ◌+◌, length, IfSome};
ghost use Rattle.conn_model.specs.Statements.{binds_bytes, run_bytes, value_bytes};

use conn_cache::Query;
use conn_model::{Bind, Value};

fn value_bytes(value: &Value) -> usize
    ensures { result ≡ value_bytes value.now }
{
    match value {
        Value::Null | Value::Int(_) => 0,
        Value::Text(text) => text.as_str().len(),
        Value::Bytes(bytes) => bytes.as_slice().len(),
    }
}

/// How many bytes the binds need, where that is a number of the type.
fn binds_bytes(binds: &[Bind]) -> Option<usize>
    ensures { IfSome result (λ n. n ≡ binds_bytes binds.now) }
{
    let mut bytes = 0usize;
    for bind in binds {
        bytes = bytes
            .checked_add(value_bytes(&bind.value))?
            .checked_add(32)?;
    }
    Some(bytes)
}

/// How many bytes a query needs: its text is prepared and run, and its binds are run with it.
pub fn query_bytes<Q: Query>(source: &Q) -> Option<usize>
    ensures { let q = Q.view source.now in
        IfSome result (λ n. n ≡ length q.sql + run_bytes q.sql q.binds) }
{
    let text = source.sql().len();
    binds_bytes(source.binds())?
        .checked_add(text)?
        .checked_add(text)
}
