//! A connection that a pool keeps.
ghost use Rattle.std.specs.Prelude.{◌≡◌};
ghost use Rattle.conn_cache.specs.QueryProcesses.{ping_process, ping_view, without_value};
ghost use Rattle.conn_manager.specs.Manages.{HasServerCause};
ghost use Rattle.conn_manager.specs.Statuses.{is_broken};
ghost use Rattle.conn_drivers.specs.Queried.{QueriesFrom};

use crate::LoadConnection;
use crate::ping::Ping;
use conn_manager::AnsiTransactionManager;
use conn_result::QueryResult;

fn without_count(reply: QueryResult<usize>) -> QueryResult<()>
    ensures { result ≡ without_value reply }
{
    match reply {
        Ok(_) => Ok(()),
        Err(e) => Err(e),
    }
}

/// A connection that a pool keeps.
pub trait R2D2Connection: LoadConnection {
    /// Asks the server for nothing, to see whether it answers.
    final fn ping(&mut self) -> QueryResult<()>
        ensures pings { QueriesFrom Self.is_honest ping_view ping_process (Self.view self.old)
            (Self.view self.new) result }
        ensures cause { HasServerCause (Self.view self.old).seen (Self.view self.new).seen result }
    {
        without_count(self.execute_returning_count(&Ping))
    }

    /// Whether a transaction that is no test's is left open, or its state isn't known.
    final fn is_broken(&mut self) -> bool
        ensures broken { result ≡ is_broken (Self.view self.old).status }
        ensures same { Self.view self.new ≡ Self.view self.old }
    {
        AnsiTransactionManager::is_broken_transaction_manager(self)
    }
}
