//! Whose error a transaction answers where its closure and the rollback after it have one each.
ghost use Rattle.std.specs.Prelude.{◌≡◌};
ghost use Rattle.conn_manager.specs.Transactions.{form_errors, includes, is_broken_error};

use conn_model::BlockForm;
use conn_result::Error;

/// Which errors of the rollback that follows a closure's error are answered in its place.
#[derive(Clone, Copy, Debug, PartialEq, Eq)]
pub enum RollbackErrors {
    /// Each of them.
    All,
    /// Each but that of a manager in error, which can't say more of what went wrong than the closure's error does.
    AllButBroken,
}

impl RollbackErrors {
    /// Which ones after a transaction of this form.
    pub fn of(form: &BlockForm) -> RollbackErrors
        ensures { result ≡ form_errors form.now }
    {
        match form {
            BlockForm::Immediate | BlockForm::Exclusive => RollbackErrors::All,
            BlockForm::Build(_) => RollbackErrors::AllButBroken,
        }
    }

    /// Whether this one is.
    pub fn includes(self, error: &Error) -> bool
        ensures { result ≡ includes self error.now }
    {
        match self {
            RollbackErrors::All => true,
            RollbackErrors::AllButBroken => !is_broken_error(error),
        }
    }
}

/// Whether a manager in error answered this.
fn is_broken_error(error: &Error) -> bool
    ensures { result ≡ is_broken_error error.now }
{
    matches!(*error, Error::BrokenTransactionManager)
}
