//! Why a query is refused before anything of it is sent.
ghost use Rattle.std.specs.Prelude.{◌≡◌};
ghost use Rattle.std.specs.List.{list_all};
ghost use Rattle.conn_cache.specs.Faults.{bind_fault, blank_fault, changes_fault, is_blank, query_fault, text_fault, unfit_place};

use conn_cache::Query;
use conn_model::{Bind, Dialect, nul_fault};
use conn_result::{BindFault, BuildFault, Error};

fn changes_fault(has_changes: bool) -> Option<Error>
    ensures { result ≡ changes_fault has_changes }
{
    if has_changes {
        None
    } else {
        Some(Error::QueryBuilderError(BuildFault::EmptyChangeset))
    }
}

fn unfit_place(binds: &[Bind]) -> Option<usize>
    ensures { result ≡ unfit_place binds.now }
{
    binds.iter().position(|bind| !bind.fits())
}

fn bind_fault(binds: &[Bind]) -> Option<Error>
    ensures { result ≡ bind_fault binds.now }
{
    let place = unfit_place(binds)?.min(4294967295) as u32;
    Some(Error::SerializationError(BindFault { place }))
}

fn text_fault(dialect: Dialect, sql: &str) -> Option<Error>
    ensures { result ≡ text_fault dialect sql.now }
{
    let place = nul_fault(dialect, sql)?;
    Some(Error::InvalidCString(place))
}

fn is_blank(byte: u8) -> bool
    ensures { result ≡ is_blank byte }
{
    byte == 32 || byte == 9 || byte == 10 || byte == 12 || byte == 13
}

fn is_all_blank(sql: &str) -> bool
    ensures { result ≡ list_all is_blank sql.now }
{
    sql.as_bytes().iter().all(|byte| is_blank(*byte))
}

fn blank_fault(dialect: Dialect, sql: &str) -> Option<Error>
    ensures { result ≡ blank_fault dialect sql.now }
{
    match dialect {
        Dialect::Sqlite if is_all_blank(sql) => {
            Some(Error::QueryBuilderError(BuildFault::EmptyQuery))
        }
        _ => None,
    }
}

/// The first fault of a query: it has nothing to do, a bind doesn't fit, its text has a NUL or is blank.
pub fn query_fault<Q: Query>(dialect: Dialect, source: &Q) -> Option<Error>
    ensures { result ≡ query_fault dialect (Q.view source.now) }
{
    let sql = source.sql();
    let of_text = text_fault(dialect, sql).or(blank_fault(dialect, sql));
    changes_fault(source.has_changes()).or(bind_fault(source.binds()).or(of_text))
}
