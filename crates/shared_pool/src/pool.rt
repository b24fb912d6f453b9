//! A new pool, and the moves of its slots.
ghost use Rattle.std.specs.Prelude.{◌≡◌, ◌+◌, ◌-◌, ◌*◌, ◌<◌, ◌≤◌, [], length, min, IfOk, IfSome, IfNone};
ghost use Rattle.crossbeam_queue.specs.Passes.{view, IsPassOf, ruled_capacity};
ghost use Rattle.shared_pool.specs.SlotRules.{first_tally, filled_tally, HasSlot, HoldsAll, HoldsNone, HoldsOne, IsSettled};
ghost use Rattle.shared_pool.specs.SlotMeasures.{after_give, after_take, RuleAt};
ghost use Rattle.shared_pool.specs.PoolSeats.{looks_of, spare_of, tally_of, IsRuled, IsSeatOf};
ghost use Rattle.shared_pool.specs.SharedCheckouts.{more_looks};

use crate::rule::{Drains, Gives, Observes, Settles, Takes};
use crate::seat::Queue;
use crate::{Pool, Seat, Tally};
use conn_drivers::R2D2Connection;
use conn_pool::Slot;
use crossbeam_queue::Pass;
use std::alloc::{AllocError, Global};
use std::sync::{Condvar, Mutex, Wait};

/// A slot that the seat of a pass holds goes to the back of the queue, which has room for it.
fn push<R: Wait, C: R2D2Connection + Drop, const MAX: usize, const SEATS: usize>(
    rt: &R,
    queue: &Queue<C, MAX, SEATS>,
    pass: &mut Pass<Slot<C>, Tally>,
    slot: Slot<C>,
)
    requires queue { IsPassOf queue.now pass.old × (ruled_capacity queue.now ≡ MAX) }
    requires live { 0 < (view pass.old).share }
    requires held { HasSlot (view pass.old) slot.number }
    ensures queue { IsPassOf queue.now pass.new }
    ensures tally { view pass.new ≡ after_give (view pass.old) slot }
{
    match queue.push_as::<Gives<C, MAX, SEATS>, R>(rt, pass, slot) {
        Ok(()) => {}
        Err(_) => unreachable!(),
    }
}

/// Gives a new queue its slots, which are empty, by their numbers from 0.
fn fill<R: Wait, C: R2D2Connection + Drop, const MAX: usize, const SEATS: usize>(
    rt: &R,
    queue: &Queue<C, MAX, SEATS>,
    pass: &mut Pass<Slot<C>, Tally>,
)
    requires limits { (MAX ≤ 64) × (0 < SEATS) }
    requires queue { IsPassOf queue.now pass.old × (ruled_capacity queue.now ≡ MAX) }
    requires tally { view pass.old ≡ first_tally MAX SEATS }
    ensures pass { IsPassOf queue.now pass.new }
    ensures tally { view pass.new ≡ filled_tally MAX SEATS }
{
    for number in 0..MAX {
        push(rt, queue, pass, Slot::empty(number as u32));
    }
}

impl<C: R2D2Connection + Drop, const MAX: usize, const SEATS: usize> Pool<C, MAX, SEATS> {
    /// A pool of empty slots, and its first seat, from which the others are split.
    pub fn new<R: Wait>(
        rt: &R,
        alloc: Global,
    ) -> Result<(Pool<C, MAX, SEATS>, Seat<C, MAX, SEATS>), AllocError>
        requires slots { (0 < MAX) × (MAX ≤ 64) }
        requires seats { (0 < SEATS) × (SEATS ≤ 1024) }
        ensures own { IfOk result (λ r. IsSeatOf r.0 r.1) }
        ensures tally { IfOk result (λ r. tally_of r.1 ≡ filled_tally MAX SEATS) }
        ensures numbers { IfOk result (λ r. (spare_of r.1 + 1 ≡ SEATS) × (looks_of r.1 ≡ 0)) }
    {
        let (queue, mut pass) = Queue::<C, MAX, SEATS>::ruled(alloc, MAX)?;
        fill(rt, &queue, &mut pass);
        let seat = Seat {
            pass,
            spare: SEATS as u32 - 1,
            empty_looks: 0,
        };
        let pool = Pool {
            queue,
            moves: Mutex::new(0),
            moved: Condvar::new(),
        };
        Ok((pool, seat))
    }

    /// Shows the rule of the pool, at one moment of the call.
    pub fn observe(&self, seat: &mut Seat<C, MAX, SEATS>)
        requires own { IsSeatOf self.now seat.old }
        ensures own { IsSeatOf self.now seat.new }
        ensures tally { tally_of seat.new ≡ tally_of seat.old }
        ensures spare { spare_of seat.new ≡ spare_of seat.old }
        ensures looks { looks_of seat.new ≡ looks_of seat.old }
        ensures rule { IsRuled seat.new }
    {
        self.queue
            .learn_as::<Observes<C, MAX, SEATS>>(&mut seat.pass);
    }

    /// Takes the front slot, in one look.
    pub(crate) fn look<R: Wait>(&self, rt: &R, seat: &mut Seat<C, MAX, SEATS>) -> Option<Slot<C>>
        requires own { IsSeatOf self.now seat.old }
        requires empty { HoldsNone (tally_of seat.old) }
        ensures own { IsSeatOf self.now seat.new }
        ensures spare { spare_of seat.new ≡ spare_of seat.old }
        ensures some { IfSome result (λ s.
            tally_of seat.new ≡ after_take (tally_of seat.old) s) }
        ensures some_looks { IfSome result (λ s. looks_of seat.new ≡ looks_of seat.old) }
        ensures held { IfSome result (λ s. HoldsOne (tally_of seat.new) s.number) }
        ensures none { IfNone result (tally_of seat.new ≡ tally_of seat.old) }
        ensures none_in { IfNone result (RuleAt {C = C} MAX SEATS (tally_of seat.old) []) }
        ensures none_possible { IfNone result (MAX < SEATS) }
        ensures none_looks { IfNone result (looks_of seat.new ≡ more_looks (looks_of seat.old) 1) }
    {
        let found = self
            .queue
            .pop_as::<Takes<C, MAX, SEATS>, R>(rt, &mut seat.pass);
        if found.is_none() {
            seat.empty_looks = seat.empty_looks.saturating_add(1);
        }
        found
    }

    /// Takes a slot for the only seat, which holds fewer than all.
    pub(crate) fn drain<R: Wait>(&self, rt: &R, seat: &mut Seat<C, MAX, SEATS>) -> Slot<C>
        requires own { IsSeatOf self.now seat.old }
        requires alone { spare_of seat.old + 1 ≡ SEATS }
        requires fewer { length (tally_of seat.old).held < MAX }
        ensures own { IsSeatOf self.now seat.new }
        ensures tally { tally_of seat.new ≡ after_take (tally_of seat.old) result }
        ensures spare { spare_of seat.new ≡ spare_of seat.old }
        ensures looks { looks_of seat.new ≡ looks_of seat.old }
    {
        match self
            .queue
            .pop_as::<Drains<C, MAX, SEATS>, R>(rt, &mut seat.pass)
        {
            Some(slot) => slot,
            None => unreachable!(),
        }
    }

    /// Shows what the only seat took and gave, which holds all slots.
    pub(crate) fn settle_up(&self, seat: &mut Seat<C, MAX, SEATS>)
        requires own { IsSeatOf self.now seat.old }
        requires alone { spare_of seat.old + 1 ≡ SEATS }
        requires full { length (tally_of seat.old).held ≡ MAX }
        ensures tally { tally_of seat.new ≡ tally_of seat.old }
        ensures all { HoldsAll MAX (tally_of seat.old) }
        ensures settled { IsSettled (tally_of seat.old) }
        ensures spare { spare_of seat.new ≡ spare_of seat.old }
        ensures looks { looks_of seat.new ≡ looks_of seat.old }
    {
        self.queue
            .learn_as::<Settles<C, MAX, SEATS>>(&mut seat.pass);
    }

    /// Gives a slot that the seat holds to the back of the queue, which always has room.
    pub(crate) fn give<R: Wait>(&self, rt: &R, seat: &mut Seat<C, MAX, SEATS>, slot: Slot<C>)
        requires own { IsSeatOf self.now seat.old }
        requires held { HoldsOne (tally_of seat.old) slot.number }
        ensures own { IsSeatOf self.now seat.new }
        ensures empty { HoldsNone (tally_of seat.new) }
        ensures tally { tally_of seat.new ≡ after_give (tally_of seat.old) slot }
        ensures spare { spare_of seat.new ≡ spare_of seat.old }
        ensures looks { looks_of seat.new ≡ looks_of seat.old }
    {
        push(rt, &self.queue, &mut seat.pass, slot);
        self.tell(rt);
    }

    /// Tells those that wait that a slot came back.
    fn tell<R: Wait>(&self, rt: &R) {
        let mut moves = self.moves.lock(rt);
        *moves = moves.wrapping_add(1);
        self.moved.notify_all();
    }

    /// How many slots came back so far. A seat remembers it before it looks.
    pub(crate) fn moves_so_far<R: Wait>(&self, rt: &R) -> u64 {
        *self.moves.lock(rt)
    }

    /// Waits until a slot came back since then.
    pub(crate) fn wait_past<R: Wait>(&self, rt: &R, moves_then: u64) {
        let _moves = self
            .moved
            .wait_while(rt, self.moves.lock(rt), |moves| *moves == moves_then);
    }
}
