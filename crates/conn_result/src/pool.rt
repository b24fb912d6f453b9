//! Why a pool hands no connection out.
ghost use Rattle.std.specs.Prelude.{◌≡◌};
ghost use Rattle.conn_result.specs.PoolErrors.{opening_error, query_error};

use crate::ConnectionError;

/// Why a manager or a customizer gave no connection. The numbers are of connections that were closed for it.
#[derive(Clone, Copy, Debug)]
pub enum Error {
    /// No connection was opened.
    ConnectionError(ConnectionError),
    /// The ping of a kept connection, or the customizer of a new one, was refused.
    QueryError(crate::Error, u32),
    /// The customizer left a transaction open that is no test's.
    LeftOpen(u32),
    /// Memory was wanting.
    OutOfMemory,
}

impl Error {
    /// The error of an opening.
    pub fn of_opening(e: ConnectionError) -> Error
        ensures { result ≡ opening_error e }
    {
        match e {
            ConnectionError::OutOfMemory => Error::OutOfMemory,
            e => Error::ConnectionError(e),
        }
    }

    /// The error of the connection of a number.
    pub fn of_query(e: crate::Error, number: u32) -> Error
        ensures { result ≡ query_error e number }
    {
        match e {
            crate::Error::OutOfMemory => Error::OutOfMemory,
            e => Error::QueryError(e, number),
        }
    }
}

/// Why a pool handed no connection out.
#[derive(Clone, Copy, Debug)]
pub enum PoolError {
    /// Every slot is out.
    NoneFree,
    /// No slot came back within so many looks.
    TimedOut { looks: u32 },
    /// The front slot gave no connection.
    Error(Error),
}
