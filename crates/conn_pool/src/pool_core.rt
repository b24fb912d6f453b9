//! The slots of a pool that one thread holds.
ghost use Rattle.std.specs.Prelude.{◌≡◌, ◌<◌, ◌≤◌, length, IfOk};
ghost use Rattle.conn_pool.specs.SlotViews.{empty_slots, idle_in, pool_state, with_slot, HasRoomForAll, TakesFront};

use crate::Slot;
use conn_drivers::R2D2Connection;
use std::alloc::{AllocError, Global};
use std::collections::VecDeque;
use std::marker::Model;

/// How many connections a pool has.
#[derive(Clone, Copy, Debug, PartialEq, Eq)]
pub struct State {
    /// The slots that are out, and the connections that are kept.
    pub connections: u32,
    /// The connections that are kept.
    pub idle_connections: u32,
}

/// The slots that are in the pool, front first, and how many there are with those that are out.
#[derive(Drop)]
pub struct PoolCore<C: R2D2Connection + Drop> {
    queue: VecDeque<Slot<C>>,
    max_size: u32,
}

impl<C: R2D2Connection + Drop> Model for PoolCore<C> {
    ghost use Rattle.std.specs.Prelude.{◌≤◌};
    ghost use Rattle.std.specs.VecDeque.{deque_capacity, deque_len};
    ghost use Rattle.conn_pool.specs.SlotViews.{PoolView};

    ghost Value = { PoolView C };

    ghost view = { λ p. record { slots = p.queue.items; max_size = p.max_size } };

    ghost invariant = { λ p. (deque_len p.queue ≤ p.max_size)
        × (p.max_size ≤ deque_capacity p.queue) };
}

impl<C: R2D2Connection + Drop> PoolCore<C> {
    /// So many slots, all empty, by their numbers from 0. It takes the memory for all of them.
    pub fn new(alloc: Global, max_size: u32) -> Result<PoolCore<C>, AllocError>
        ensures slots { IfOk result (λ p. p ≡ record {
          slots = empty_slots max_size;
          max_size = max_size;
        }) }
        ensures room { IfOk result (λ p. HasRoomForAll p 0) }
    {
        let mut queue = VecDeque::with_capacity(alloc, max_size as usize)?;
        for number in 0..max_size {
            queue.push_back_reserved(Slot::empty(number));
        }
        Ok(PoolCore { queue, max_size })
    }

    /// The front slot; `None` exactly where no slot is in the pool.
    pub fn take(&mut self) -> Option<Slot<C>>
        ensures { TakesFront self.old self.new result }
    {
        self.queue.pop_front()
    }

    /// A slot that is out goes to the back.
    pub fn give(&mut self, slot: Slot<C>)
        requires out { length self.old.slots < self.old.max_size }
        ensures { self.new ≡ with_slot self.old slot }
    {
        self.queue.push_back_reserved(slot);
    }

    /// How many connections there are.
    pub fn state(&self) -> State
        ensures { result ≡ pool_state self.now }
    {
        let out = self.max_size - self.queue.len() as u32;
        let idle_connections = self.idle_connections() as u32;
        State {
            connections: out + idle_connections,
            idle_connections,
        }
    }

    /// How many slots keep a connection.
    fn idle_connections(&self) -> usize
        ensures idle { result ≡ idle_in self.now.slots }
        ensures most { result ≤ length self.now.slots }
    {
        let mut idle = 0;
        for place in 0..self.queue.len() {
            idle += self.queue[place].idle_connections();
        }
        idle
    }
}
