//! A handler that is chosen while the program runs.
ghost use Rattle.std.specs.Prelude.{◌≡◌, Some, None};
ghost use Rattle.conn_manager.specs.Shown.{told_if};

use crate::{Instrumentation, InstrumentationEvent};

/// A handler of any type, or none. It tells what that one tells.
#[derive(Drop)]
pub struct DynInstrumentation {
    inner: Option<Box<dyn Instrumentation + Send + Drop>>,
}

impl DynInstrumentation {
    /// No handler.
    pub fn none() -> DynInstrumentation
        ensures { result.inner ≡ None }
    {
        DynInstrumentation { inner: None }
    }

    /// This handler.
    pub fn from_box(inner: Box<dyn Instrumentation + Send + Drop>) -> DynInstrumentation
        ensures { result.inner ≡ Some inner }
    {
        DynInstrumentation { inner: Some(inner) }
    }
}

impl Instrumentation for DynInstrumentation {
    ghost told = { λ h. told_if (λ b. (Instrumentation-box b).told b.value) h.inner };

    fn on_connection_event(&mut self, event: InstrumentationEvent<'_>) {
        if let Some(handler) = &mut self.inner {
            handler.on_connection_event(event)
        }
    }
}
