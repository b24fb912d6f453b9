//! How far the rows of a run were asked.
ghost use Rattle.std.specs.Prelude.{◌≡◌};
ghost use Rattle.conn_drivers.specs.Cursors.{progress_after, refusal_in};

use conn_result::Error;

/// How far the rows of a run were asked.
#[derive(Clone, Copy, Drop)]
pub enum Progress {
    Going,
    Ended,
    Refused(Error),
}

impl Progress {
    /// After a row was refused, or memory was wanting for it.
    pub(crate) fn after(e: Error) -> Progress
        ensures { result ≡ progress_after e }
    {
        match e {
            Error::OutOfMemory => Progress::Going,
            _ => Progress::Refused(e),
        }
    }

    /// The error that ended the rows.
    pub(crate) fn refusal(self) -> Option<Error>
        ensures { result ≡ refusal_in self }
    {
        match self {
            Progress::Going | Progress::Ended => None,
            Progress::Refused(e) => Some(e),
        }
    }
}
