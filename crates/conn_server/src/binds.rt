//! Binds in memory: records over one buffer of bytes.
ghost use Rattle.std.specs.Prelude.{◌≡◌, ◌≤◌, ◌+◌, ◌-◌, ◌++◌, [], ◌∷◌, take, drop, length, IfOk, OnOk, vec_len, vec_capacity};
ghost use Rattle.conn_model.specs.Statements.{value_bytes, binds_bytes};
ghost use Rattle.conn_server.specs.BindLists.{IsValueIn, IsBindIn, value_of, bytes_of, bind_of, bind_list};
ghost use Rattle.std.specs.List.{AllByRecursion};
ghost use Rattle.conn_server.specs.Spans.{IsSpan, bytes_at};

use crate::spans::Span;
use conn_model::{Bind, BindType, Binds, Bytes, Text, Value};
use std::alloc::{AllocError, Global};
use std::marker::Model;

/// A value, whose text or bytes stand in the buffer.
#[derive(Clone, Copy)]
pub enum ValueRecord {
    Null,
    Int(i64),
    Text(Span),
    Bytes(Span),
}

/// A bind with its value.
#[derive(Clone, Copy)]
pub struct BindRecord {
    kind: BindType,
    value: ValueRecord,
}

/// Binds one after another, and the room for more.
#[derive(Drop)]
pub struct BindLog {
    records: Vec<BindRecord>,
    buffer: Vec<u8>,
}

impl Model for BindLog {
    ghost use Rattle.std.specs.Prelude.{◌-◌, vec_len, vec_capacity};
    ghost use Rattle.std.specs.List.{AllByRecursion};
    ghost use Rattle.conn_server.specs.BindLists.{BindList, bind_list, IsBindIn};

    ghost Value = { BindList };

    ghost view = { λ b. record {
      binds = bind_list b.buffer.items b.records.items;
      bind_room = vec_capacity b.records - vec_len b.records;
      value_room = vec_capacity b.buffer - vec_len b.buffer;
    } };

    ghost invariant = { λ b. AllByRecursion (IsBindIn b.buffer.items) b.records.items };
}

/// Adds bytes, for which there is room, and answers their place.
fn add_bytes(buffer: &mut Vec<u8>, bytes: &[u8]) -> Span
    requires { length bytes.now ≤ vec_capacity buffer.old - vec_len buffer.old }
    ensures bytes { buffer.new.items ≡ buffer.old.items ++ bytes.now }
    ensures is { bytes_at buffer.new.items result ≡ bytes.now }
    ensures within { IsSpan buffer.new.items result }
    ensures room { vec_capacity buffer.old - vec_len buffer.old
        ≤ vec_capacity buffer.new - vec_len buffer.new + length bytes.now }
{
    let start = buffer.len();
    let _ = buffer.extend_from_slice(bytes);
    Span {
        start,
        len: bytes.len(),
    }
}

/// Adds a value, for which there is room.
fn add_value(buffer: &mut Vec<u8>, value: &Value) -> ValueRecord
    requires { value_bytes value.now ≤ vec_capacity buffer.old - vec_len buffer.old }
    ensures bytes { buffer.new.items ≡ buffer.old.items ++ bytes_of value.now }
    ensures is { value_of buffer.new.items result ≡ value.now }
    ensures stands { IsValueIn buffer.new.items result }
    ensures room { vec_capacity buffer.old - vec_len buffer.old
        ≤ vec_capacity buffer.new - vec_len buffer.new + value_bytes value.now }
{
    match value {
        Value::Null => ValueRecord::Null,
        Value::Int(number) => ValueRecord::Int(*number),
        Value::Text(text) => ValueRecord::Text(add_bytes(buffer, text.as_str().as_bytes())),
        Value::Bytes(bytes) => ValueRecord::Bytes(add_bytes(buffer, bytes.as_slice())),
    }
}

/// A copy of the value.
fn copy_value(alloc: Global, buffer: &[u8], value: ValueRecord) -> Result<Value, AllocError>
    requires { IsValueIn buffer.now value }
    ensures { IfOk result (λ copy. copy ≡ value_of buffer.now value) }
{
    match value {
        ValueRecord::Null => Ok(Value::Null),
        ValueRecord::Int(number) => Ok(Value::Int(number)),
        ValueRecord::Text(span) => {
            let text = str::from_utf8(&buffer[span.start..span.start + span.len]).unwrap();
            Ok(Value::Text(Text::new(alloc, text)?))
        }
        ValueRecord::Bytes(span) => {
            let bytes = &buffer[span.start..span.start + span.len];
            Ok(Value::Bytes(Bytes::new(alloc, bytes)?))
        }
    }
}

/// A copy of the bind.
fn copy_bind(alloc: Global, buffer: &[u8], of: &BindRecord) -> Result<Bind, AllocError>
    requires { IsBindIn buffer.now of.now }
    ensures { IfOk result (λ copy. copy ≡ bind_of buffer.now of.now) }
{
    Ok(Bind {
        kind: of.kind,
        value: copy_value(alloc, buffer, of.value)?,
    })
}

/// Copies of the binds.
fn copy_binds(alloc: Global, buffer: &[u8], of: &[BindRecord]) -> Result<Binds, AllocError>
    requires { AllByRecursion (IsBindIn buffer.now) of.now }
    ensures { IfOk result (λ copy. copy ≡ bind_list buffer.now of.now) }
{
    let mut copy = Binds::new(alloc);
    for record in of {
        copy.push(copy_bind(alloc, buffer, record)?)?;
    }
    Ok(copy)
}

impl BindLog {
    /// No binds.
    pub fn new(alloc: Global) -> BindLog
        ensures { result.binds ≡ [] }
    {
        BindLog {
            records: Vec::new(alloc),
            buffer: Vec::new(alloc),
        }
    }

    /// How many binds there are.
    pub fn len(&self) -> usize
        ensures { result ≡ length self.now.binds }
    {
        self.records.len()
    }

    /// Takes the memory for so many further binds, with so many bytes of values.
    pub fn reserve(&mut self, binds: usize, bytes: usize) -> Result<(), AllocError>
        ensures same { self.new.binds ≡ self.old.binds }
        ensures binds { OnOk result (binds ≤ self.new.bind_room) }
        ensures bytes { OnOk result (bytes ≤ self.new.value_room) }
        ensures more_binds { self.old.bind_room ≤ self.new.bind_room }
        ensures more_bytes { self.old.value_room ≤ self.new.value_room }
    {
        self.records.reserve(binds)?;
        self.buffer.reserve(bytes)
    }

    /// One bind more, for which there is room.
    fn push(&mut self, bind: &Bind)
        requires binds { 1 ≤ self.old.bind_room }
        requires bytes { value_bytes bind.now.value ≤ self.old.value_room }
        ensures binds { self.new.binds ≡ self.old.binds ++ bind.now ∷ [] }
        ensures bind_room { self.old.bind_room ≤ self.new.bind_room + 1 }
        ensures value_room { self.old.value_room
            ≤ self.new.value_room + value_bytes bind.now.value }
    {
        let value = add_value(&mut self.buffer, &bind.value);
        let _ = self.records.push(BindRecord {
            kind: bind.kind,
            value,
        });
    }

    /// More binds, for which there is room.
    pub fn add(&mut self, binds: &[Bind])
        requires binds { length binds.now ≤ self.old.bind_room }
        requires bytes { binds_bytes binds.now ≤ self.old.value_room }
        ensures binds { self.new.binds ≡ self.old.binds ++ binds.now }
        ensures bind_room { self.old.bind_room ≤ self.new.bind_room + length binds.now }
        ensures value_room { self.old.value_room ≤ self.new.value_room + binds_bytes binds.now }
    {
        for bind in binds {
            self.push(bind);
        }
    }

    /// A copy of so many binds from a place on.
    pub fn copy(&self, alloc: Global, from: usize, count: usize) -> Result<Binds, AllocError>
        requires { from + count ≤ length self.now.binds }
        ensures { IfOk result (λ copy. copy ≡ take count (drop from self.now.binds)) }
    {
        copy_binds(alloc, &self.buffer, &self.records[from..from + count])
    }
}
