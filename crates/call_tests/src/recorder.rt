//! A handler that writes down what it is told.
use conn_manager::{Instrumentation, InstrumentationEvent};
use conn_result::Error;
use std::alloc::{AllocError, Global};
use std::fmt::Write;

/// Writes down what it is told, each event before a semicolon: `> TEXT` where a text is about to be sent, `< TEXT` where
/// it was answered, with the code of a refusal or with another error. An event for which memory is wanting is missing there.
#[derive(Drop)]
pub struct Recorder {
    pub log: String,
}

impl Recorder {
    /// A handler that was told nothing yet.
    pub fn new(alloc: Global) -> Recorder {
        Recorder {
            log: String::new(alloc),
        }
    }

    fn record(&mut self, event: InstrumentationEvent<'_>) -> Result<(), AllocError> {
        match event {
            InstrumentationEvent::StartEstablishConnection { url } => {
                write!(self.log, "opening {url}; ")
            }
            InstrumentationEvent::FinishEstablishConnection { url, error: None } => {
                write!(self.log, "opened {url}; ")
            }
            InstrumentationEvent::FinishEstablishConnection {
                url,
                error: Some(_),
            } => { write!(self.log, "not opened {url}; ") }
            InstrumentationEvent::CacheQuery { sql } => write!(self.log, "cache {sql}; "),
            InstrumentationEvent::BeginTransaction { depth } => write!(self.log, "begin {depth}; "),
            InstrumentationEvent::CommitTransaction { depth } => write!(
                self.log,
                "commit {depth}; "
            ),
            InstrumentationEvent::RollbackTransaction { depth } => {
                write!(self.log, "rollback {depth}; ")
            }
            InstrumentationEvent::StartQuery { query } => write!(self.log, "> {}; ", query.text()),
            InstrumentationEvent::FinishQuery { query, error } => {
                write!(self.log, "< {}", query.text())?;
                self.record_error(error)
            }
        }
    }

    fn record_error(&mut self, error: Option<&Error>) -> Result<(), AllocError> {
        match error {
            None => write!(self.log, "; "),
            Some(Error::DatabaseError(_, code)) => write!(self.log, ": {code}; "),
            Some(e) => write!(self.log, ": {e:?}; "),
        }
    }
}

impl Instrumentation for Recorder {
    ghost use Rattle.std.specs.Prelude.{None};

    ghost told = { λ r. None };

    fn on_connection_event(&mut self, event: InstrumentationEvent<'_>) {
        let _ = self.record(event);
    }
}
