//! Handlers of events.
ghost use Rattle.std.specs.Prelude.{◌≡◌, None, [], ◌∷◌};
ghost use Rattle.conn_model.specs.Events.{Heeded, with_events};
ghost use Rattle.conn_manager.specs.Shown.{shown, told_if};

use crate::InstrumentationEvent;

/// Is told what happens on a connection, one event after another.
pub trait Instrumentation {
    /// The events that it was told, oldest first, where it tells them.
    ghost told: { Self → Heeded };

    /// Tells it this event.
    fn on_connection_event(&mut self, event: InstrumentationEvent<'_>)
        ensures { told self.new ≡ with_events (told self.old) (shown event.entry ∷ []) };
}

/// Does nothing, and tells nothing.
#[derive(Drop)]
pub struct NoInstrumentation;

impl Instrumentation for NoInstrumentation {
    ghost told = { λ h. None };

    fn on_connection_event(&mut self, _event: InstrumentationEvent<'_>) {}
}

/// Where there is a handler, it is told.
impl<T: Instrumentation> Instrumentation for Option<T> {
    ghost told = { λ h. told_if T.told h };

    fn on_connection_event(&mut self, event: InstrumentationEvent<'_>) {
        if let Some(handler) = self {
            handler.on_connection_event(event)
        }
    }
}
