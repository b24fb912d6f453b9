//! What can be taken without memory.
ghost use Rattle.std.specs.Prelude.{◌≡◌, ◌-◌, ◌+◌, ◌≤◌, ◌<◌, ◌^◌, max, IsTrue, ◌↔◌};
ghost use Rattle.conn_model.specs.Statements.{value_bytes, binds_bytes, run_bytes};

use conn_model::{Bind, Value};

/// The items for which memory is taken ahead at most.
const AHEAD: usize = 64;

/// The bytes of texts that go with each of them.
const BYTES: usize = 64;

/// How many items, and how many bytes of texts, there is surely memory for.
#[derive(Clone, Copy)]
pub struct Room {
    pub items: usize,
    pub bytes: usize,
}

impl Room {
    /// For nothing.
    pub const NONE: Room = Room { items: 0, bytes: 0 };

    /// Whether there is memory for so many.
    pub fn holds(self, items: usize, bytes: usize) -> bool
        ensures { IsTrue result ↔ ((items ≤ self.items) × (bytes ≤ self.bytes)) }
    {
        items <= self.items && bytes <= self.bytes
    }

    /// The room to make where there is to be memory for so many, once some items were taken: ahead for as many more, up to a bound,
    /// so that most calls find it there, and a server that got few items stays small.
    pub fn with(self, items: usize, bytes: usize, taken: usize) -> Room
        ensures items { items ≤ result.items }
        ensures bytes { bytes ≤ result.bytes }
        ensures more_items { self.items ≤ result.items }
        ensures more_bytes { self.bytes ≤ result.bytes }
    {
        let ahead = taken.min(AHEAD);
        Room {
            items: items.max(self.items).max(ahead),
            bytes: bytes.max(self.bytes).max(ahead * BYTES),
        }
    }

    /// One item with so many bytes was taken.
    pub fn take(&mut self, bytes: usize)
        requires items { 1 ≤ self.old.items }
        requires bytes { bytes ≤ self.old.bytes }
        ensures items { self.new.items ≡ self.old.items - 1 }
        ensures bytes { self.new.bytes ≡ self.old.bytes - bytes }
    {
        self.items -= 1;
        self.bytes -= bytes;
    }
}

fn value_bytes(value: &Value) -> usize
    ensures { result ≡ value_bytes value.now }
{
    match value {
        Value::Null | Value::Int(_) => 0,
        Value::Text(text) => text.as_str().len(),
        Value::Bytes(bytes) => bytes.as_slice().len(),
    }
}

/// How many bytes the binds need.
fn binds_bytes(binds: &[Bind]) -> usize
    requires { binds_bytes binds.now < 2 ^ 64 }
    ensures { result ≡ binds_bytes binds.now }
{
    let mut bytes = 0;
    for bind in binds {
        bytes += value_bytes(&bind.value) + 32;
    }
    bytes
}

/// What is left of the bytes after a run.
pub fn left_after(bytes: usize, text: &str, binds: &[Bind]) -> usize
    requires { run_bytes text.now binds.now ≤ bytes }
    ensures { result ≡ bytes - run_bytes text.now binds.now }
{
    bytes - text.len() - binds_bytes(binds)
}
