//! Laws of the tracked status: of the calls of one connection, and of the entries of a session. Each function does nothing:
//! its contract is the law.
ghost use Rattle.std.specs.Prelude.{◌≡◌, ℕ, true, false, List, [], Some, Ok};
ghost use Rattle.std.specs.List.{list_any};
ghost use Rattle.std.specs.Option.{option_map};
ghost use Rattle.conn_model.specs.States.{state_of, kept};
ghost use Rattle.conn_model.specs.declared.item.Dialect.{Dialect};
ghost use Rattle.conn_model.specs.declared.item.Dialect.TheVariants.{Sqlite};
ghost use Rattle.conn_manager.specs.Statuses.{Status};
ghost use Rattle.conn_report.specs.declared.entry.Entry.{Entry};
ghost use Rattle.conn_script.specs.Grammar.{script_of};
ghost use Rattle.conn_script.specs.declared.command.Script.{Script};
ghost use Rattle.conn_cache.specs.Turns.{IsRising};
ghost use Rattle.conn_reading.specs.Answered.{ServerLogs, answered, started};
ghost use Rattle.conn_reading.specs.Asking.{policy_of};
ghost use Rattle.conn_reading.specs.Owning.{EachOwn, names_of};
ghost use Rattle.conn_reading.specs.Prepared.{EachOnce};
ghost use Rattle.conn_reading.specs.Verdicts.{Verdict, StandsOver};
ghost use Rattle.conn_reading.specs.Folds.{alone, fold_of, FoldPremises, NestedMeaning, refuses_transaction};
ghost use Rattle.conn_reading.specs.Histories.{Step, step_items, IsHistory};
ghost use Rattle.conn_reading.specs.Sessions.{EachRecorded, EachVerdict, EachStandsOver, EachClean, EntryPremises, PremisesLeft, EachNested, is_opened, unfolded, fold_entries};

/// After any calls of a new connection its status is borne out by its server's log.
pub fn status_is_borne_out()
    ensures { (d : Dialect) (steps : List Step) (S : Status)
        → IsHistory d steps S → Verdict d S (step_items steps) }
{}

/// After any calls of a new connection the depth that is tracked stands over its server.
pub fn depth_stands_over_the_server()
    ensures { (d : Dialect) (steps : List Step) (S : Status)
        → IsHistory d steps S → StandsOver d S (step_items steps) }
{}

/// After any calls of a new connection its server holds the stack of the fold, where no text of a transaction was refused,
/// no savepoint was set in an idle server, and no level in which the transaction was aborted was kept.
pub fn server_holds_the_stack()
    ensures { (d : Dialect) (steps : List Step) (S : Status)
        → IsHistory d steps S → FoldPremises d steps
        → NestedMeaning d S (step_items steps) (fold_of steps (alone [])) }
{}

/// So the writes that the server keeps are the fold of the calls.
pub fn kept_writes_are_the_fold()
    ensures { (d : Dialect) (steps : List Step) (S : Status)
        → IsHistory d steps S → FoldPremises d steps
        → option_map kept (state_of d (step_items steps)) ≡ Some (fold_of steps (alone [])).lowest }
{}

/// Each status that a session's entries show is what a history of its connection ends with, which begins with its setup, and
/// the server's log up to the entry's mark is the log of that history.
pub fn entries_are_recorded()
    ensures { (bytes : List ℕ) (script : Script) (logs : ServerLogs) (entries : List Entry)
        → script_of bytes ≡ Ok script → answered script logs ≡ Some entries
        → EachRecorded script.dialect logs entries }
{}

/// So each status is borne out by its server's log up to the mark.
pub fn entries_are_borne_out()
    ensures { (bytes : List ℕ) (script : Script) (logs : ServerLogs) (entries : List Entry)
        → script_of bytes ≡ Ok script → answered script logs ≡ Some entries
        → EachVerdict script.dialect logs entries }
{}

/// And each depth stands over its server up to the mark.
pub fn depths_stand_over_their_servers()
    ensures { (bytes : List ℕ) (script : Script) (logs : ServerLogs) (entries : List Entry)
        → script_of bytes ≡ Ok script → answered script logs ≡ Some entries
        → EachStandsOver script.dialect logs entries }
{}

/// Each connection that `get` hands out is valid, and without a depth or in a test's transaction.
pub fn connections_are_handed_out_clean()
    ensures { (bytes : List ℕ) (script : Script) (logs : ServerLogs) (entries : List Entry)
        → script_of bytes ≡ Ok script → answered script logs ≡ Some entries → EachClean entries }
{}

/// After each entry its server holds the stack of the fold of its connection's entries up to it, where no text of a
/// transaction was refused, no savepoint was set in an idle server, and no level in which the transaction was aborted was
/// kept.
pub fn servers_hold_the_stacks_of_entries()
    ensures { (bytes : List ℕ) (script : Script) (logs : ServerLogs) (entries : List Entry)
        → script_of bytes ≡ Ok script → answered script logs ≡ Some entries → (n : ℕ)
        → EntryPremises script.dialect (policy_of script) n (logs n) script.commands entries
        → EachNested script.dialect n (logs n) script.commands entries
        (unfolded (policy_of script)) }
{}

/// The writes that a server keeps in the end are the fold of its connection's entries, where no text of a transaction was
/// refused, no savepoint was set in an idle server, and no level in which the transaction was aborted was kept.
pub fn kept_writes_are_the_fold_of_entries()
    ensures { (bytes : List ℕ) (script : Script) (logs : ServerLogs) (entries : List Entry)
        → script_of bytes ≡ Ok script → answered script logs ≡ Some entries → (n : ℕ)
        → is_opened n entries ≡ true
        → EntryPremises script.dialect (policy_of script) n (logs n) script.commands entries
        → option_map kept (state_of script.dialect (logs n))
        ≡ Some (fold_entries n (logs n) script.commands entries
        (unfolded (policy_of script))).stack.lowest }
{}

/// Where no text of a transaction was refused, a dialect leaves at most one of the fold's other two premises, for the log of
/// each server that was opened.
pub fn dialects_leave_fewer_premises()
    ensures { (bytes : List ℕ) (script : Script) (logs : ServerLogs) (entries : List Entry)
        → script_of bytes ≡ Ok script → answered script logs ≡ Some entries
        → (n : ℕ) → is_opened n entries ≡ true
        → list_any refuses_transaction (logs n) ≡ false
        → PremisesLeft script.dialect (policy_of script) n (logs n) script.commands entries
        → EntryPremises script.dialect (policy_of script) n (logs n) script.commands entries }
{}

/// Each call that a command makes is its own: a query runs its own text with its own binds, and prepares it only where its
/// connection's cache has no entry of it or isn't looked up, under the next number or for one run. What is left in the cache
/// is what these items make of it.
pub fn statements_are_their_own()
    ensures { (script : Script) (logs : ServerLogs)
        → EachOwn (started script) logs script.commands }
{}

/// Each name under which a connection prepares a statement is greater than all before it, whatever sizes its cache was given
/// in between.
pub fn names_rise()
    ensures { (bytes : List ℕ) (script : Script) (logs : ServerLogs) (entries : List Entry)
        → script_of bytes ≡ Ok script → answered script logs ≡ Some entries
        → (n : ℕ) → is_opened n entries ≡ true → IsRising 0 (names_of (logs n)) }
{}

/// Once the statement of a query was accepted to be kept, its connection prepares no query of the same key that is safe to
/// keep, until its cache gets another size.
pub fn statements_are_prepared_once()
    ensures { (bytes : List ℕ) (script : Script) (logs : ServerLogs)
        → script_of bytes ≡ Ok script → EachOnce (started script) logs script.commands }
{}
