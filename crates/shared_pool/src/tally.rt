//! What a seat of a pool knows, in proofs alone. No value of these types is made.
use std::collections::LinkedList;

/// What was taken out of a pool, or given back to it.
pub struct Sums {
    /// How many slots.
    pub slots: u64,
    /// How many of them were empty.
    pub empty: u64,
}

/// What a seat has and did.
pub struct Tally {
    /// The numbers of the slots that are with it.
    pub held: LinkedList<u32>,
    /// One for itself, and one for each seat that may still be split from it.
    pub share: u64,
    /// What it took.
    pub taken: Sums,
    /// What it gave.
    pub given: Sums,
}
