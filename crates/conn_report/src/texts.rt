//! Texts in order, over one buffer of bytes.
ghost use Rattle.std.specs.Prelude.{◌≡◌, ◌<◌, ◌++◌, ◌∷◌, [], Some, length, OnOk, slice_get};
ghost use Rattle.conn_report.specs.Parts.{part_text, IsTextPart};

use std::alloc::{AllocError, Global};
use std::marker::Model;

/// Where a text stands in the buffer.
#[derive(Clone, Copy, Debug)]
pub struct Part {
    start: usize,
    len: usize,
}

/// Texts in order, seen as a list.
#[derive(Debug, Drop)]
pub struct Texts {
    parts: Vec<Part>,
    buffer: Vec<u8>,
}

impl Model for Texts {
    ghost use Rattle.std.specs.Prelude.{List, ℕ};
    ghost use Rattle.std.specs.List.{AllByRecursion};
    ghost use Rattle.conn_report.specs.Parts.{part_texts, IsTextPart};

    ghost Value = { List (List ℕ) };

    ghost view = { λ t. part_texts t.parts.items t.buffer.items };

    ghost invariant = { λ t. AllByRecursion (IsTextPart t.buffer.items) t.parts.items };
}

/// The bytes of a part.
fn bytes_in<'a>(buffer: &'a [u8], part: &Part) -> &'a [u8]
    requires { IsTextPart buffer.now part.now }
    ensures { result.now ≡ part_text buffer.now part.now }
{
    &buffer[part.start..part.start + part.len]
}

/// The text of a part.
fn text_in<'a>(buffer: &'a [u8], part: &Part) -> &'a str
    requires { IsTextPart buffer.now part.now }
    ensures { result.now ≡ part_text buffer.now part.now }
{
    str::from_utf8(bytes_in(buffer, part)).unwrap()
}

impl Texts {
    /// No texts.
    pub fn new(alloc: Global) -> Self
        ensures { result ≡ [] }
    {
        Texts {
            parts: Vec::new(alloc),
            buffer: Vec::new(alloc),
        }
    }

    /// How many texts there are.
    pub fn len(&self) -> usize
        ensures { result ≡ length self.now }
    {
        self.parts.len()
    }

    /// A copy of the text, behind the others.
    pub fn push(&mut self, text: &str) -> Result<(), AllocError>
        ensures { OnOk result (self.new ≡ self.old ++ text.now ∷ []) }
    {
        self.parts.reserve(1)?;
        self.buffer.reserve(text.len())?;
        let start = self.buffer.len();
        let _ = self.buffer.extend_from_slice(text.as_bytes());
        let _ = self.parts.push(Part {
            start,
            len: text.len(),
        });
        Ok(())
    }

    /// The text in this place, from 0.
    pub fn get(&self, place: usize) -> &str
        requires { place < length self.now }
        ensures { slice_get self.now place ≡ Some result.now }
    {
        text_in(&self.buffer, &self.parts[place])
    }

    /// The bytes of the text in this place, from 0.
    pub fn bytes(&self, place: usize) -> &[u8]
        requires { place < length self.now }
        ensures { slice_get self.now place ≡ Some result.now }
    {
        bytes_in(&self.buffer, &self.parts[place])
    }
}
