//! The shape of a query's rows as scripts write it.
ghost use Rattle.std.specs.Prelude.{◌≡◌, IfOk};
ghost use Rattle.conn_script.specs.Shapes.{shape_columns, kind_lettered, null_mark, shape_named};

use sqlite_items::Items;
use std::alloc::{AllocError, Global};

/// What a column is to be.
#[derive(Clone, Copy, Debug, PartialEq, Eq)]
pub enum ShapeKind {
    Int,
    Text,
    Bytes,
}

/// Each column that a row is to have, with whether it may be null; none where every row will do.
pub type Shape = Option<Items<(ShapeKind, bool)>>;

/// The columns that a shape has at most.
const MAX_COLUMNS: usize = 4;

fn kind_of_letter(letter: u8) -> Option<ShapeKind>
    ensures { result ≡ kind_lettered letter }
{
    match letter {
        b'i' => Some(ShapeKind::Int),
        b't' => Some(ShapeKind::Text),
        b'b' => Some(ShapeKind::Bytes),
        _ => None,
    }
}

/// Whether the mark of a column that may be null stands here, and what is behind it.
fn cut_null_mark(bytes: &[u8]) -> (bool, &[u8])
    ensures { (result.0, result.1.now) ≡ null_mark bytes.now }
{
    match bytes {
        [b'?', behind @ ..] => (true, behind),
        _ => (false, bytes),
    }
}

/// Columns one after another.
fn columns_in(alloc: Global, bytes: &[u8]) -> Result<Shape, AllocError>
    ensures { IfOk result (λ columns. columns ≡ shape_columns 4 bytes.now) }
{
    let mut columns = Items::new(alloc);
    let mut rest = bytes;
    let mut left = MAX_COLUMNS;
    loop {
        let Some((letter, behind)) = rest.split_first() else {
            return Ok(Some(columns));
        };
        if left == 0 {
            return Ok(None);
        }
        let Some(kind) = kind_of_letter(*letter) else {
            return Ok(None);
        };
        let (may_be_null, behind) = cut_null_mark(behind);
        columns.push((kind, may_be_null))?;
        rest = behind;
        left -= 1;
    }
}

/// The shape that is written so.
pub fn shape_of(alloc: Global, text: &str) -> Result<Option<Shape>, AllocError>
    ensures { IfOk result (λ shape. shape ≡ shape_named text.now) }
{
    if text == "*" {
        return Ok(Some(None));
    }
    if text.is_empty() {
        return Ok(None);
    }
    match columns_in(alloc, text.as_bytes())? {
        Some(columns) => Ok(Some(Some(columns))),
        None => Ok(None),
    }
}
