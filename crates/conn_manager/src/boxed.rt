//! A boxed handler is one.
ghost use Rattle.std.specs.Prelude.{◌≡◌};

use crate::{Instrumentation, InstrumentationEvent};

/// It tells what the handler in it tells.
impl Instrumentation for Box<dyn Instrumentation + Send + Drop> {
    ghost told = { λ b. (Instrumentation-box b).told b.value };

    fn on_connection_event(&mut self, event: InstrumentationEvent<'_>) {
        (**self).on_connection_event(event)
    }
}
