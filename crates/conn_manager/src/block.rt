//! Transactions with a closure, over any connection.
ghost use Rattle.std.specs.Fn.{FnOnceReturnsAtMut};
ghost use Rattle.conn_manager.specs.Causes.{begin_fault, begin_sql_fault};
ghost use Rattle.conn_manager.specs.Manages.{begin_process, begin_sql_process};
ghost use Rattle.conn_manager.specs.Transactions.{RefusesBlockAt, RunsBegun, Transacts, TestTransacts};
ghost use Rattle.conn_manager.specs.declared.rollback_errors.RollbackErrors.TheVariants.{AllButBroken};

use crate::{Connection, RollbackErrors, calls};
use conn_result::Error;

/// Calls the closure in the transaction that has begun, which its answer keeps or drops.
fn run_begun<C: Connection, T: Drop, E: From<Error> + Drop, F: FnOnce(&mut C) -> Result<T, E>>(
    conn: &mut C,
    errors: RollbackErrors,
    f: F,
) -> Result<T, E>
    requires { F.IsAlwaysCallable f }
    ensures { RunsBegun C.is_honest C.view
        (FnOnceReturnsAtMut F.FnOnce f) E.from_gives errors conn.old conn.new result }
{
    match f(conn) {
        Ok(v) => {
            calls::commit(conn)?;
            Ok(v)
        }
        Err(e) => match calls::rollback(conn) {
            Ok(()) => Err(e),
            Err(r) => {
                if errors.includes(&r) {
                    Err(E::from(r))
                } else {
                    Err(e)
                }
            }
        },
    }
}

/// Calls the closure in a transaction, which its answer keeps or drops.
pub fn transaction<
    C: Connection,
    T: Drop,
    E: From<Error> + Drop,
    F: FnOnce(&mut C) -> Result<T, E>,
>(conn: &mut C, f: F) -> Result<T, E>
    requires { F.IsAlwaysCallable f }
    ensures transacts { Transacts C.is_honest C.view (FnOnceReturnsAtMut F.FnOnce f) E.from_gives
        begin_process AllButBroken conn.old conn.new result }
    ensures at_entry { RefusesBlockAt C.view E.from_gives begin_fault conn.old conn.new result }
{
    calls::begin(conn)?;
    run_begun(conn, RollbackErrors::AllButBroken, f)
}

/// The same with a text of one's own that begins, and with these errors of the rollback.
pub fn transaction_sql<
    C: Connection,
    T: Drop,
    E: From<Error> + Drop,
    F: FnOnce(&mut C) -> Result<T, E>,
>(conn: &mut C, sql: &str, errors: RollbackErrors, f: F) -> Result<T, E>
    requires { F.IsAlwaysCallable f }
    ensures transacts { Transacts C.is_honest C.view (FnOnceReturnsAtMut F.FnOnce f) E.from_gives
        (λ d. begin_sql_process d sql.now) errors conn.old conn.new result }
    ensures at_entry { RefusesBlockAt C.view E.from_gives begin_sql_fault conn.old conn.new result }
{
    calls::begin_sql(conn, sql)?;
    run_begun(conn, errors, f)
}

/// Calls the closure in a transaction that is rolled back whatever it answers.
pub fn test_transaction<
    C: Connection,
    T: Drop,
    E: From<Error> + Drop,
    F: FnOnce(&mut C) -> Result<T, E>,
>(conn: &mut C, f: F) -> Result<T, E>
    requires { F.IsAlwaysCallable f }
    ensures { TestTransacts C.is_honest C.view
        (FnOnceReturnsAtMut F.FnOnce f) E.from_gives conn.old conn.new result }
{
    calls::begin(conn)?;
    let answer = f(conn);
    // the test is about what the closure answered; where the rollback failed, the status shows it
    let _ = calls::rollback(conn);
    answer
}
