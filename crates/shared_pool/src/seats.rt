//! How seats are split and joined.
ghost use Rattle.std.specs.Prelude.{◌≡◌, ◌+◌, ◌-◌, ◌<◌, ◌≤◌, length};
ghost use Rattle.crossbeam_queue.specs.Fifo.{Forks};
ghost use Rattle.crossbeam_queue.specs.Passes.{view, IsPassOf};
ghost use Rattle.shared_pool.specs.SlotRules.{after_join, newcomer, with_share, HoldsNone};
ghost use Rattle.shared_pool.specs.PoolSeats.{looks_of, spare_of, tally_of, IsSeatOf};
ghost use Rattle.shared_pool.specs.SharedCheckouts.{more_looks};

use crate::rule::{Amount, Counts, Joins, Splits};
use crate::{Pool, Seat, SlotRule, Tally};
use conn_drivers::R2D2Connection;
use conn_pool::Slot;
use crossbeam_queue::protocol::Protocol;
use crossbeam_queue::{Pass, RuledArrayQueue};
use std::marker::Brand;

/// Splits a pass with this spare from another one. It has no parameter that is a number, since its caller picks the amount.
fn cut<N: Amount, T, P: Protocol<T, Tally>>(
    queue: &RuledArrayQueue<T, Tally, P>,
    pass: &mut Pass<T, Tally>,
    spare: u32,
) -> Pass<T, Tally>
    requires amount { spare ≡ N.amount }
    requires pass { IsPassOf queue.now pass.old }
    requires rule { let v = view pass.old in
        Forks P.holds pass.old.id v (with_share v (v.share - (spare + 1))) (newcomer (spare + 1)) }
    ensures pass { IsPassOf queue.now pass.new × IsPassOf queue.now result }
    ensures left { let v = view pass.old in
        view pass.new ≡ with_share v (v.share - (spare + 1)) }
    ensures right { view result ≡ newcomer (spare + 1) }
{
    queue.another::<Splits<N>>(pass)
}

impl<C: R2D2Connection + Drop, const MAX: usize, const SEATS: usize> Seat<C, MAX, SEATS> {
    /// How often this seat found no slot. It stays at `u64::MAX`.
    pub fn empty_looks(&self) -> u64
        ensures { result ≡ looks_of self.now }
    {
        self.empty_looks
    }

    /// How many seats may still be split from this one.
    pub fn spare(&self) -> u32
        ensures { result ≡ spare_of self.now }
    {
        self.spare
    }

    /// A further seat of the pool, from which so many may be split.
    pub fn split(&mut self, pool: &Pool<C, MAX, SEATS>, spare: u32) -> Seat<C, MAX, SEATS>
        requires own { IsSeatOf pool.now self.old }
        requires few { length (tally_of self.old).held ≤ 1 }
        requires spare { spare < spare_of self.old }
        ensures own { IsSeatOf pool.now self.new × IsSeatOf pool.now result }
        ensures this { let v = tally_of self.old in
            tally_of self.new ≡ with_share v (v.share - (spare + 1)) }
        ensures that { tally_of result ≡ newcomer (spare + 1) }
        ensures looks { (looks_of self.new ≡ looks_of self.old) × (looks_of result ≡ 0) }
        ensures spares { (spare_of self.new + (spare + 1) ≡ spare_of self.old)
            × (spare_of result ≡ spare) }
    {
        let pass = cut::<Brand, Slot<C>, SlotRule<C, MAX, SEATS>>(
            &pool.queue,
            &mut self.pass,
            spare,
        );
        self.spare = self.spare - spare - 1;
        Seat {
            pass,
            spare,
            empty_looks: 0,
        }
    }

    /// Takes in another seat of the pool, with its looks and its spare.
    pub fn join(&mut self, pool: &Pool<C, MAX, SEATS>, other: Seat<C, MAX, SEATS>)
        requires own { IsSeatOf pool.now self.old × IsSeatOf pool.now other }
        requires empty { HoldsNone (tally_of other) }
        ensures own { IsSeatOf pool.now self.new }
        ensures tally { tally_of self.new ≡ after_join (tally_of self.old) (tally_of other) }
        ensures looks { looks_of self.new ≡ more_looks (looks_of self.old) (looks_of other) }
        ensures spare { spare_of self.new ≡ spare_of self.old + (spare_of other + 1) }
    {
        let Seat {
            pass,
            spare,
            empty_looks,
            ..
        } = other;
        pool.queue.absorb::<Joins>(&mut self.pass, pass);
        pool.queue.learn_as::<Counts<C, MAX, SEATS>>(&mut self.pass);
        self.spare += spare + 1;
        self.empty_looks = self.empty_looks.saturating_add(empty_looks);
    }
}
