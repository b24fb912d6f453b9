//! One slot of a pool.
ghost use Rattle.std.specs.Prelude.{◌≡◌};

use conn_drivers::R2D2Connection;
use std::marker::Model;

/// A slot's number and the connection that it keeps, which isn't broken.
#[derive(Drop)]
pub struct Slot<C: R2D2Connection + Drop> {
    /// From 0, in the order in which the slots were made.
    pub number: u32,
    /// The connection that it keeps.
    pub connection: Option<C>,
}

impl<C: R2D2Connection + Drop> Model for Slot<C> {
    ghost use Rattle.std.specs.Prelude.{◌≡◌, false, IfSome};
    ghost use Rattle.conn_manager.specs.Statuses.{is_broken};
    ghost use Rattle.conn_pool.specs.SlotViews.{SlotView};

    ghost Value = { SlotView C };

    ghost view = { λ s. record { number = s.number; kept = s.connection } };

    ghost invariant = { λ s. IfSome s.connection (λ c. is_broken (C.view c).status ≡ false) };
}

impl<C: R2D2Connection + Drop> Slot<C> {
    ghost use Rattle.std.specs.Prelude.{◌≤◌, false, Some};
    ghost use Rattle.conn_manager.specs.Statuses.{is_broken};
    ghost use Rattle.conn_pool.specs.SlotViews.{empty_slot, idle_of};

    /// The empty slot of a number.
    pub fn empty(number: u32) -> Slot<C>
        ensures { result ≡ empty_slot number }
    {
        Slot {
            number,
            connection: None,
        }
    }

    /// The slot of a number that keeps a connection.
    pub fn filled(number: u32, connection: C) -> Slot<C>
        requires { is_broken (C.view connection).status ≡ false }
        ensures { result ≡ record { number = number; kept = Some connection } }
    {
        Slot {
            number,
            connection: Some(connection),
        }
    }

    /// One where a connection is kept.
    pub(crate) fn idle_connections(&self) -> usize
        ensures idle { result ≡ idle_of self.now }
        ensures most { result ≤ 1 }
    {
        usize::from(self.connection.is_some())
    }
}
