//! Answers that may have no value.
ghost use Rattle.std.specs.Prelude.{◌≡◌, Option, Result};
ghost use Rattle.conn_result.specs.Optional as answers;
ghost use Rattle.conn_result.specs.declared.error.Error.{Error};

use crate::{BuildFault, Error, QueryResult};

/// An answer whose value may not be found.
pub trait OptionalExtension<T> {
    /// The answer with a value or none.
    ghost optional_gives: { Self → Result (Option T) Error };

    /// `None` in place of `NotFound`; every other error is handed on.
    fn optional(self) -> Result<Option<T>, Error>
        ensures { result ≡ optional_gives self };
}

impl<T> OptionalExtension<T> for QueryResult<T> {
    ghost optional_gives = { answers.optional };

    fn optional(self) -> Result<Option<T>, Error> {
        match self {
            Ok(value) => Ok(Some(value)),
            Err(Error::NotFound) => Ok(None),
            Err(e) => Err(e),
        }
    }
}

/// The answer of an update that may have no column to set.
pub trait OptionalEmptyChangesetExtension<T> {
    /// The answer with a value or none.
    ghost optional_empty_changeset_gives: { Self → Result (Option T) Error };

    /// `None` where the update sets no column; every other error is handed on.
    fn optional_empty_changeset(self) -> Result<Option<T>, Error>
        ensures { result ≡ optional_empty_changeset_gives self };
}

impl<T> OptionalEmptyChangesetExtension<T> for QueryResult<T> {
    ghost optional_empty_changeset_gives = { answers.optional_empty_changeset };

    fn optional_empty_changeset(self) -> Result<Option<T>, Error> {
        match self {
            Ok(value) => Ok(Some(value)),
            Err(Error::QueryBuilderError(BuildFault::EmptyChangeset)) => Ok(None),
            Err(e) => Err(e),
        }
    }
}
