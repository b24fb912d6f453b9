//! A closure as a handler.
ghost use Rattle.std.specs.Prelude.{◌≡◌, None};

use crate::{Instrumentation, InstrumentationEvent};
use std::marker::Model;

/// What may be called with one event after another.
pub trait Listener {
    ghost can_listen: { Self → Type 0 };

    /// Is called with this event.
    fn listen(&mut self, event: InstrumentationEvent<'_>)
        requires { can_listen self.old }
        ensures { can_listen self.new };
}

impl<F: FnMut(InstrumentationEvent<'_>)> Listener for F {
    ghost can_listen = { λ f. F.IsAlwaysCallable f };

    /// Is called with this event.
    fn listen(&mut self, event: InstrumentationEvent<'_>) {
        self(event)
    }
}

/// A closure that is told the events. It tells none of them.
#[derive(Drop)]
pub struct Handler<F: Listener> {
    handle: F,
}

impl<F: Listener> Model for Handler<F> {
    ghost Value = { F };

    ghost view = { λ h. h.handle };

    ghost invariant = { λ h. F.can_listen h.handle };
}

impl<F: Listener> Handler<F> {
    /// A handler that calls the closure.
    pub fn new(handle: F) -> Handler<F>
        requires { F.can_listen handle }
        ensures { result ≡ handle }
    {
        Handler { handle }
    }
}

impl<F: Listener> Instrumentation for Handler<F> {
    ghost told = { λ h. None };

    fn on_connection_event(&mut self, event: InstrumentationEvent<'_>) {
        self.handle.listen(event)
    }
}
