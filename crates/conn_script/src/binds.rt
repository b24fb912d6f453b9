//! The binds of a query as scripts write them.
ghost use Rattle.std.specs.Prelude.{◌≡◌, IfOk};
ghost use Rattle.conn_script.specs.Binds.{bind_named, bind_series, binds_named, type_named};

use crate::values::value_of;
use crate::words::cut_at;
use conn_model::{Bind, BindType, Binds};
use sqlite_items::Items;
use std::alloc::{AllocError, Global};

/// The bytes that the binds of a query have at most.
const MAX_BINDS: usize = 256;

fn type_of(text: &str) -> Option<BindType>
    ensures { result ≡ type_named text.now }
{
    match text {
        "smallint" => Some(BindType::SmallInt),
        "integer" => Some(BindType::Integer),
        "bigint" => Some(BindType::BigInt),
        "text" => Some(BindType::Text),
        "binary" => Some(BindType::Binary),
        "bool" => Some(BindType::Bool),
        _ => None,
    }
}

/// A type and a value, with an equals sign between them.
fn bind_of(alloc: Global, text: &str) -> Result<Option<Bind>, AllocError>
    ensures { IfOk result (λ bind. bind ≡ bind_named text.now) }
{
    let (kind, value) = cut_at(text, b'=');
    let Some(kind) = type_of(kind) else {
        return Ok(None);
    };
    let Some(value) = value else {
        return Ok(None);
    };
    let Some(value) = value_of(alloc, value)? else {
        return Ok(None);
    };
    Ok(Some(Bind { kind, value }))
}

/// Binds with commas between them.
fn bind_series(alloc: Global, text: &str) -> Result<Option<Binds>, AllocError>
    ensures { IfOk result (λ binds. binds ≡ bind_series text.now) }
{
    let mut binds = Items::new(alloc);
    let mut rest = text;
    loop {
        let (piece, more) = cut_at(rest, b',');
        let Some(bind) = bind_of(alloc, piece)? else {
            return Ok(None);
        };
        binds.push(bind)?;
        let Some(more) = more else {
            return Ok(Some(binds));
        };
        rest = more;
    }
}

/// The binds that are written so: none, or a list.
pub fn binds_of(alloc: Global, text: &str) -> Result<Option<Binds>, AllocError>
    ensures { IfOk result (λ binds. binds ≡ binds_named text.now) }
{
    if text == "-" {
        return Ok(Some(Items::new(alloc)));
    }
    if text.len() > MAX_BINDS {
        return Ok(None);
    }
    bind_series(alloc, text)
}
