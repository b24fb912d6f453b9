//! The rule of a pool, and the steps that keep it, as the queue takes them.
ghost use Rattle.std.specs.Prelude.{◌≡◌, ◌+◌, ◌-◌, ◌<◌, ◌≤◌, ℕ, length};
ghost use Rattle.shared_pool.specs.SlotRules.{HoldsAll, IsSettled};

use crate::Tally;
use conn_drivers::R2D2Connection;
use conn_pool::Slot;
use crossbeam_queue::protocol::{Join, Lesson, Outcome, Protocol, Split};
use std::marker::{Brand, PhantomData};

/// Each slot is in the queue or with one seat, and what the seats took and gave is in balance.
pub struct SlotRule<C, const MAX: usize, const SEATS: usize> {
    of: PhantomData<C>,
}

impl<C: R2D2Connection + Drop, const MAX: usize, const SEATS: usize> Protocol<Slot<C>, Tally>
    for SlotRule<C, MAX, SEATS> {
    ghost use Rattle.shared_pool.specs.SlotRules.{ObeysSlotRule, first_tally};
    ghost use Rattle.shared_pool.specs.SlotMeasures.{slot_measure};

    ghost holds = { ObeysSlotRule slot_measure MAX SEATS };

    ghost first = { first_tally MAX SEATS };
}

/// A slot leaves the queue for a seat, or the rule holds and the queue has none.
pub struct Takes<C, const MAX: usize, const SEATS: usize> {
    of: PhantomData<C>,
}

impl<C: R2D2Connection + Drop, const MAX: usize, const SEATS: usize> Outcome<Slot<C>, Tally>
    for Takes<C, MAX, SEATS> {
    ghost use Rattle.shared_pool.specs.SlotMeasures.{after_take};

    ghost then = { λ v s w. w ≡ after_take v s };
}

impl<C: R2D2Connection + Drop, const MAX: usize, const SEATS: usize> Lesson<Slot<C>, Tally>
    for Takes<C, MAX, SEATS> {
    ghost use Rattle.shared_pool.specs.SlotMeasures.{RuleAt};

    ghost fact = { λ v items. RuleAt MAX SEATS v items };
}

/// A slot leaves a seat for the back of the queue, which has room for it.
pub struct Gives<C, const MAX: usize, const SEATS: usize> {
    of: PhantomData<C>,
}

impl<C: R2D2Connection + Drop, const MAX: usize, const SEATS: usize> Outcome<Slot<C>, Tally>
    for Gives<C, MAX, SEATS> {
    ghost use Rattle.shared_pool.specs.SlotMeasures.{after_give};

    ghost then = { λ v s w. w ≡ after_give v s };
}

impl<C: R2D2Connection + Drop, const MAX: usize, const SEATS: usize> Lesson<Slot<C>, Tally>
    for Gives<C, MAX, SEATS> {
    ghost fact = { λ v items. length items + length v.held ≤ MAX };
}

/// A number that a caller picks.
pub trait Amount {
    ghost amount: { ℕ };
}

impl Amount for Brand {
    ghost amount = { 0 };
}

/// A seat with this spare is split from another one.
pub struct Splits<N> {
    of: PhantomData<N>,
}

impl<N: Amount> Split<Tally> for Splits<N> {
    ghost use Rattle.shared_pool.specs.SlotRules.{newcomer, with_share};

    ghost left = { λ v. with_share v (v.share - (N.amount + 1)) };

    ghost right = { λ v. newcomer (N.amount + 1) };
}

/// A seat is joined to another one.
pub struct Joins;

impl Join<Tally> for Joins {
    ghost use Rattle.shared_pool.specs.SlotRules.{after_join, spent};

    ghost both = { after_join };

    ghost spent = { spent };
}

/// No seat has more shares than there are.
pub struct Counts<C, const MAX: usize, const SEATS: usize> {
    of: PhantomData<C>,
}

impl<C: R2D2Connection + Drop, const MAX: usize, const SEATS: usize> Lesson<Slot<C>, Tally>
    for Counts<C, MAX, SEATS> {
    ghost fact = { λ v items. v.share ≤ SEATS };
}

/// A slot leaves the queue for the only seat, which has each slot that the queue has not.
pub struct Drains<C, const MAX: usize, const SEATS: usize> {
    of: PhantomData<C>,
}

impl<C: R2D2Connection + Drop, const MAX: usize, const SEATS: usize> Outcome<Slot<C>, Tally>
    for Drains<C, MAX, SEATS> {
    ghost use Rattle.shared_pool.specs.SlotMeasures.{after_take};

    ghost then = { λ v s w. w ≡ after_take v s };
}

impl<C: R2D2Connection + Drop, const MAX: usize, const SEATS: usize> Lesson<Slot<C>, Tally>
    for Drains<C, MAX, SEATS> {
    ghost fact = { λ v items. v.share ≡ SEATS → length items + length v.held ≡ MAX };
}

/// The only seat, which has every slot, took what it gave.
pub struct Settles<C, const MAX: usize, const SEATS: usize> {
    of: PhantomData<C>,
}

impl<C: R2D2Connection + Drop, const MAX: usize, const SEATS: usize> Lesson<Slot<C>, Tally>
    for Settles<C, MAX, SEATS> {
    ghost fact = { λ v items. v.share ≡ SEATS → length v.held ≡ MAX
        → IsSettled v × HoldsAll MAX v };
}

/// The whole rule, at one moment.
pub struct Observes<C, const MAX: usize, const SEATS: usize> {
    of: PhantomData<C>,
}

impl<C: R2D2Connection + Drop, const MAX: usize, const SEATS: usize> Lesson<Slot<C>, Tally>
    for Observes<C, MAX, SEATS> {
    ghost use Rattle.shared_pool.specs.SlotMeasures.{RuleAt};

    ghost fact = { λ v items. RuleAt MAX SEATS v items };
}
