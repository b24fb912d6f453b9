//! The queries that a script declares.
ghost use Rattle.std.specs.Option.{option_copied, option_map};
ghost use Rattle.std.specs.Prelude.{◌≡◌, IfOk};
ghost use Rattle.conn_script.specs.Fields.{number_at};
ghost use Rattle.conn_script.specs.Queries.{declared_by, declared_of, id_at, id_named, is_query_text, safety_at, safety_named, written_of};

use crate::Shape;
use crate::binds::binds_of;
use crate::fields::{number_field, word_field};
use crate::shape::shape_of;
use crate::statement::is_statement_text;
use conn_model::{Binds, LentText, number_u64};
use sqlite_items::Items;
use std::alloc::{AllocError, Global};

/// The bytes that the text of a query has at most.
const MAX_TEXT: usize = 512;

/// Whether a query's statement may be kept, and whether the query has anything to do.
#[derive(Clone, Copy, Debug, PartialEq, Eq)]
pub enum Safety {
    /// Its statement may be kept.
    Safe,
    /// It may not.
    Unsafe,
    /// It may not, and the query has nothing to do.
    NoChange,
}

/// A query that commands name by its number.
#[derive(Debug, Drop)]
pub struct Declared<'a> {
    pub number: u32,
    pub safety: Safety,
    pub id: Option<u64>,
    pub binds: Binds,
    /// What its rows are to be.
    pub shape: Shape,
    pub text: LentText<'a>,
}

/// Queries in order, seen as a list.
pub type Declareds<'a> = Items<Declared<'a>>;

/// The fields of a `query` line, the binds and the shape as they are written.
#[derive(Debug, Drop)]
struct Written<'a> {
    number: u32,
    safety: Safety,
    id: Option<u64>,
    binds: LentText<'a>,
    shape: LentText<'a>,
    text: LentText<'a>,
}

fn safety_of(text: &str) -> Option<Safety>
    ensures { result ≡ safety_named text.now }
{
    match text {
        "safe" => Some(Safety::Safe),
        "unsafe" => Some(Safety::Unsafe),
        "nochange" => Some(Safety::NoChange),
        _ => None,
    }
}

/// The next word as what may be done with a query.
fn safety_field(rest: Option<&str>) -> Option<(Safety, Option<&str>)>
    ensures { option_map (λ p. (p.0, option_copied p.1)) result
        ≡ safety_at (option_copied rest.entry) }
{
    let (word, rest) = word_field(rest)?;
    let safety = safety_of(word)?;
    Some((safety, rest))
}

/// The id that is written so, or that there is none.
fn id_of(text: &str) -> Option<Option<u64>>
    ensures { result ≡ id_named text.now }
{
    if text == "-" {
        return Some(None);
    }
    let id = number_u64(text)?;
    if id == 0 { None } else { Some(Some(id)) }
}

/// The next word as an id.
fn id_field(rest: Option<&str>) -> Option<(Option<u64>, Option<&str>)>
    ensures { option_map (λ p. (p.0, option_copied p.1)) result
        ≡ id_at (option_copied rest.entry) }
{
    let (word, rest) = word_field(rest)?;
    let id = id_of(word)?;
    Some((id, rest))
}

/// The next word as the number of a query.
pub fn query_field(rest: Option<&str>) -> Option<(u32, Option<&str>)>
    ensures { option_map (λ p. (p.0, option_copied p.1)) result
        ≡ number_at 0 65535 (option_copied rest.entry) }
{
    let (number, rest) = number_field(0, 65_535, rest)?;
    Some((number as u32, rest))
}

fn is_query_text(text: &str) -> bool
    ensures { result ≡ is_query_text text.now }
{
    text.len() <= MAX_TEXT && is_statement_text(text)
}

/// The fields of a `query` line, behind its word.
fn written_in<'a>(rest: Option<&'a str>) -> Option<Written<'a>>
    ensures { result ≡ written_of (option_copied rest.entry) }
{
    let (number, rest) = query_field(rest)?;
    let (safety, rest) = safety_field(rest)?;
    let (id, rest) = id_field(rest)?;
    let (binds, rest) = word_field(rest)?;
    let (shape, rest) = word_field(rest)?;
    let text = rest?;
    if !is_query_text(text) {
        return None;
    }
    Some(Written {
        number,
        safety,
        id,
        binds: LentText::new(binds),
        shape: LentText::new(shape),
        text: LentText::new(text),
    })
}

/// The query that these fields declare.
fn query_of<'a>(alloc: Global, w: Written<'a>) -> Result<Option<Declared<'a>>, AllocError>
    ensures { IfOk result (λ query. query ≡ declared_by w.entry) }
{
    let Some(binds) = binds_of(alloc, w.binds.as_str())? else {
        return Ok(None);
    };
    let Some(shape) = shape_of(alloc, w.shape.as_str())? else {
        return Ok(None);
    };
    Ok(Some(Declared {
        number: w.number,
        safety: w.safety,
        id: w.id,
        binds,
        shape,
        text: w.text,
    }))
}

/// The query that a `query` line declares, by what is behind its word.
pub fn declared_in<'a>(
    alloc: Global,
    rest: Option<&'a str>,
) -> Result<Option<Declared<'a>>, AllocError>
    ensures { IfOk result (λ query. query ≡ declared_of (option_copied rest.entry)) }
{
    match written_in(rest) {
        Some(written) => query_of(alloc, written),
        None => Ok(None),
    }
}
