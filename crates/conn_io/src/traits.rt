//! Where bytes come from and where they go.
ghost use Rattle.std.specs.Prelude.{◌≡◌, ◌<◌, ◌≤◌, ℕ, List, Option, length, take, IfOk, OnErr};
ghost use Rattle.conn_result.specs.Causes.{HasCause};
ghost use Rattle.std.specs.Io.KnownBytes.{Consumes, IsAtEnd, Appends, Keeps};

/// A read or a write failed.
#[derive(Clone, Copy, Debug, PartialEq, Eq)]
pub struct Failed;

/// Where bytes come from.
pub trait Source {
    /// The bytes that are left, where it tells them.
    ghost left: { Self → Option (List ℕ) };

    /// How many reads failed. The count never falls.
    ghost faults: { Self → ℕ };

    /// Moves the first bytes that are left to the front of the place, and answers how many. For a place that isn't empty, 0
    /// is the end. A read that fails takes nothing and is counted.
    fn read(&mut self, into: &mut [u8]) -> Result<usize, Failed>
        ensures count { IfOk result (λ n. n ≤ length into.new) }
        ensures takes { IfOk result (λ n.
            Consumes (left self.old) (left self.new) (take n into.new)) }
        ensures ends { IfOk result (λ n. n ≡ 0 → 0 < length into.new → IsAtEnd (left self.new)) }
        ensures failed { OnErr result (Keeps (left self.old) (left self.new)) }
        ensures cause { HasCause (faults self.old) (faults self.new) result };
}

/// Where bytes go.
pub trait Sink {
    /// The bytes that it holds, where it tells them.
    ghost held: { Self → Option (List ℕ) };

    /// How many writes failed. The count never falls.
    ghost faults: { Self → ℕ };

    /// Adds the first bytes of the piece, at least one of a piece that isn't empty, and answers how many. A write that fails
    /// adds nothing and is counted.
    fn write(&mut self, piece: &[u8]) -> Result<usize, Failed>
        ensures count { IfOk result (λ n. n ≤ length piece.now) }
        ensures moves { IfOk result (λ n. 0 < length piece.now → 0 < n) }
        ensures adds { IfOk result (λ n.
            Appends (held self.old) (held self.new) (take n piece.now)) }
        ensures failed { OnErr result (Keeps (held self.old) (held self.new)) }
        ensures cause { HasCause (faults self.old) (faults self.new) result };
}
