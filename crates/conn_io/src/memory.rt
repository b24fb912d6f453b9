//! A source and a sink in memory, of which chosen calls fail.
ghost use Rattle.std.specs.Prelude.{◌≡◌, ◌<◌, ◌≤◌, ◌-◌, ◌++◌, ◌↔◌, [], min, length, take, drop, vec_len, vec_capacity, IfOk, OnOk, OnErr, IsErr, IsTrue};
ghost use Rattle.conn_result.specs.Causes.{HasCause};
ghost use Rattle.std.specs.Io.KnownBytes.{Consumes, IsAtEnd, Appends, Keeps};
ghost use Rattle.conn_io.specs.Memory.{uncalled, next_count, called, faulted, is_failing, is_refused};

use crate::traits::{Failed, Sink, Source};
use std::alloc::{AllocError, Global};
use std::marker::Model;

/// How many calls were made, the numbers of those that fail, from 1, and how many failed. Both counts stay at `u64::MAX`.
#[derive(Drop)]
struct Calls {
    made: u64,
    failing: Vec<u64>,
    faults: u64,
}

impl Model for Calls {
    ghost use Rattle.conn_io.specs.Memory.{Schedule};

    ghost Value = { Schedule };

    ghost view = { λ c. record { made = c.made; failing = c.failing.items; faults = c.faults } };
}

impl Calls {
    fn new(alloc: Global, failing: &[u64]) -> Result<Calls, AllocError>
        ensures { IfOk result (λ c. c ≡ uncalled failing.now) }
    {
        Ok(Calls {
            made: 0,
            failing: Vec::from_slice(alloc, failing)?,
            faults: 0,
        })
    }

    /// Counts a call, and fails where it is one that fails.
    fn begin(&mut self) -> Result<(), Failed>
        ensures due { IsErr result ↔ IsTrue (is_failing self.old) }
        ensures ok { OnOk result (self.new ≡ called self.old) }
        ensures err { OnErr result (self.new ≡ faulted self.old) }
        ensures later { self.old.faults ≤ self.new.faults }
    {
        self.made = self.made.saturating_add(1);
        if self.failing.contains(&self.made) {
            return Err(self.fault());
        }
        Ok(())
    }

    /// Counts a fault.
    fn fault(&mut self) -> Failed
        ensures counts { self.new ≡ record self.old { faults = next_count self.old.faults } }
        ensures later { self.old.faults ≤ self.new.faults }
    {
        self.faults = self.faults.saturating_add(1);
        Failed
    }
}

/// A source in memory. A call moves at most `most` bytes, and chosen calls fail.
#[derive(Drop)]
pub struct BytesSource {
    bytes: Vec<u8>,
    at: usize,
    most: usize,
    calls: Calls,
}

impl Model for BytesSource {
    ghost use Rattle.std.specs.Prelude.{◌<◌, ◌≤◌, drop, length};
    ghost use Rattle.conn_io.specs.Memory.{Feed};

    ghost Value = { Feed };

    ghost view = { λ s. record { left = drop s.at s.bytes.items; most = s.most; calls = s.calls } };

    ghost invariant = { λ s. (s.at ≤ length s.bytes.items) × (0 < s.most) };
}

impl BytesSource {
    /// A source of a copy of `bytes`, of which a call moves at most `most`. The calls whose numbers, from 1, are in `failing` fail.
    pub fn new(
        alloc: Global,
        bytes: &[u8],
        most: usize,
        failing: &[u64],
    ) -> Result<BytesSource, AllocError>
        requires { 0 < most }
        ensures { IfOk result (λ s.
            s ≡ record { left = bytes.now; most = most; calls = uncalled failing.now }) }
    {
        Ok(BytesSource {
            bytes: Vec::from_slice(alloc, bytes)?,
            at: 0,
            most,
            calls: Calls::new(alloc, failing)?,
        })
    }
}

impl Source for BytesSource {
    ghost use Rattle.std.specs.Prelude.{Some};

    ghost left = { λ s. Some s.left };

    ghost faults = { λ s. s.calls.faults };

    /// Moves the least of the place's length, `most` and the bytes that are left.
    fn read(&mut self, into: &mut [u8]) -> Result<usize, Failed>
        ensures due { IsErr result ↔ IsTrue (is_failing self.old.calls) }
        ensures moved { IfOk result (λ n.
            n ≡ min (min (length into.old) self.old.most) (length self.old.left)) }
        ensures copied { IfOk result (λ n. into.new ≡ take n self.old.left ++ drop n into.old) }
        ensures after { IfOk result (λ n. self.new
            ≡ record self.old { left = drop n self.old.left; calls = called self.old.calls }) }
        ensures fault { OnErr result
            (self.new ≡ record self.old { calls = faulted self.old.calls }) }
        ensures untouched { OnErr result (into.new ≡ into.old) }
        ensures count { IfOk result (λ n. n ≤ length into.new) }
        ensures takes { IfOk result (λ n.
            Consumes (Some self.old.left) (Some self.new.left) (take n into.new)) }
        ensures ends { IfOk result (λ n.
            n ≡ 0 → 0 < length into.new → IsAtEnd (Some self.new.left)) }
        ensures failed { OnErr result (Keeps (Some self.old.left) (Some self.new.left)) }
        ensures cause { HasCause self.old.calls.faults self.new.calls.faults result }
    {
        self.calls.begin()?;
        let left = self.bytes.len() - self.at;
        let n = into.len().min(self.most).min(left);
        into[..n].copy_from_slice(&self.bytes[self.at..self.at + n]);
        self.at += n;
        Ok(n)
    }
}

/// A sink in memory. A call takes at most `most` bytes, all calls together take the room that it was made with, and chosen
/// calls fail.
#[derive(Drop)]
pub struct BytesSink {
    bytes: Vec<u8>,
    room: usize,
    most: usize,
    calls: Calls,
}

impl Model for BytesSink {
    ghost use Rattle.std.specs.Prelude.{◌+◌, ◌<◌, ◌≤◌, vec_len, vec_capacity};
    ghost use Rattle.conn_io.specs.Memory.{Store};

    ghost Value = { Store };

    ghost view = { λ s. record { held = s.bytes.items; room = s.room; most = s.most; calls = s.calls } };

    ghost invariant = { λ s. (vec_len s.bytes + s.room ≤ vec_capacity s.bytes) × (0 < s.most) };
}

impl BytesSink {
    /// An empty sink that takes `room` bytes, of which a call takes at most `most`. The calls whose numbers, from 1, are in
    /// `failing` fail. The memory for all of the bytes is taken here.
    pub fn new(
        alloc: Global,
        room: usize,
        most: usize,
        failing: &[u64],
    ) -> Result<BytesSink, AllocError>
        requires { 0 < most }
        ensures { IfOk result (λ s.
            s ≡ record { held = []; room = room; most = most; calls = uncalled failing.now }) }
    {
        Ok(BytesSink {
            bytes: Vec::with_capacity(alloc, room)?,
            room,
            most,
            calls: Calls::new(alloc, failing)?,
        })
    }

    /// The bytes that it holds, in the order in which they came.
    pub fn bytes(&self) -> &[u8]
        ensures { result.now ≡ self.now.held }
    {
        self.bytes.as_slice()
    }
}

impl Sink for BytesSink {
    ghost use Rattle.std.specs.Prelude.{Some};

    ghost held = { λ s. Some s.held };

    ghost faults = { λ s. s.calls.faults };

    /// Takes the least of the piece's length, `most` and the room that is left. Fails also where there is no room for a byte.
    fn write(&mut self, piece: &[u8]) -> Result<usize, Failed>
        ensures due { IsErr result ↔ IsTrue (is_refused self.old (length piece.now)) }
        ensures moved { IfOk result (λ n.
            n ≡ min (min (length piece.now) self.old.most) self.old.room) }
        ensures after { IfOk result (λ n. self.new ≡ record self.old {
          held = self.old.held ++ take n piece.now;
          room = self.old.room - n;
          calls = called self.old.calls;
        }) }
        ensures fault { OnErr result
            (self.new ≡ record self.old { calls = faulted self.old.calls }) }
        ensures count { IfOk result (λ n. n ≤ length piece.now) }
        ensures moves { IfOk result (λ n. 0 < length piece.now → 0 < n) }
        ensures adds { IfOk result (λ n.
            Appends (Some self.old.held) (Some self.new.held) (take n piece.now)) }
        ensures failed { OnErr result (Keeps (Some self.old.held) (Some self.new.held)) }
        ensures cause { HasCause self.old.calls.faults self.new.calls.faults result }
    {
        self.calls.begin()?;
        if self.room == 0 && !piece.is_empty() {
            return Err(self.calls.fault());
        }
        let n = piece.len().min(self.most).min(self.room);
        // The memory was taken in `new`, so this takes none and can't fail.
        let _ = self.bytes.extend_from_slice(&piece[..n]);
        self.room -= n;
        Ok(n)
    }
}
