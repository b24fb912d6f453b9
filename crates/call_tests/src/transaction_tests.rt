//! Transactions with closures, and a test's: what is answered and told, and what is tracked then.
use crate::plans::Planned;
use crate::steps::{Case, misses};
use conn_server::Dialect;
use std::test::Fail;

/// Dialects that answer alike where nothing is said of a difference.
const BOTH: &[Dialect] = &[Dialect::Pg, Dialect::Sqlite];

const CASES: [Case<'static>; 21] = [
    (
        BOTH,
        &[],
        "keep INSERT a\ndrop INSERT a\ntest INSERT a\ntestdrop INSERT a",
        "begin 1; > BEGIN; < BEGIN; > INSERT a; < INSERT a; \
        commit 1; > COMMIT; < COMMIT; 7, none, 3\n\
        begin 1; > BEGIN; < BEGIN; > INSERT a; < INSERT a; \
        rollback 1; > ROLLBACK; < ROLLBACK; NotFound, none, 6\n\
        begin 1; > BEGIN; < BEGIN; > INSERT a; < INSERT a; \
        rollback 1; > ROLLBACK; < ROLLBACK; 7, none, 9\n\
        begin 1; > BEGIN; < BEGIN; > INSERT a; < INSERT a; \
        rollback 1; > ROLLBACK; < ROLLBACK; NotFound, none, 12\n",
    ),
    (
        BOTH,
        &[],
        "keep around: batch INSERT a; drop INSERT b; keep INSERT c; test INSERT a",
        "begin 1; > BEGIN; < BEGIN; > INSERT a; < INSERT a; 0, depth 1, 2\n\
        begin 2; > SAVEPOINT diesel_savepoint_1; < SAVEPOINT diesel_savepoint_1; \
        > INSERT b; < INSERT b; rollback 2; > ROLLBACK TO SAVEPOINT diesel_savepoint_1; \
        < ROLLBACK TO SAVEPOINT diesel_savepoint_1; NotFound, depth 1, 5\n\
        begin 2; > SAVEPOINT diesel_savepoint_1; < SAVEPOINT diesel_savepoint_1; \
        > INSERT c; < INSERT c; commit 2; > RELEASE SAVEPOINT diesel_savepoint_1; \
        < RELEASE SAVEPOINT diesel_savepoint_1; 7, depth 1, 8\n\
        begin 2; > SAVEPOINT diesel_savepoint_1; < SAVEPOINT diesel_savepoint_1; \
        > INSERT a; < INSERT a; rollback 2; > ROLLBACK TO SAVEPOINT diesel_savepoint_1; \
        < ROLLBACK TO SAVEPOINT diesel_savepoint_1; 7, depth 1, 11\n\
        commit 1; > COMMIT; < COMMIT; 7, none, 12\n",
    ),
    (
        &[Dialect::Sqlite],
        &[Planned::Refused(2)],
        "keep INSERT a, INSERT b",
        "begin 1; > BEGIN; < BEGIN; > INSERT a; < INSERT a: 5; \
        rollback 1; > ROLLBACK; < ROLLBACK; DatabaseError(Unknown, 5), none, 3\n",
    ),
    (
        BOTH,
        &[
            Planned::Refused(1),
            Planned::Refused(2),
            Planned::Refused(3),
        ],
        "keep INSERT a\ntest INSERT a\ntestbegin",
        "begin 1; > BEGIN; < BEGIN: 5; DatabaseError(Unknown, 5), none, 1\n\
        begin 1; > BEGIN; < BEGIN: 5; DatabaseError(Unknown, 5), none, 2\n\
        begin 1; > BEGIN; < BEGIN: 5; DatabaseError(Unknown, 5), none, 3\n",
    ),
    // The error of a commit stands in the place of the value, and that of a rollback in the place of the closure's.
    (
        &[Dialect::Sqlite],
        &[Planned::Refused(3)],
        "keep INSERT a",
        "begin 1; > BEGIN; < BEGIN; > INSERT a; < INSERT a; commit 1; > COMMIT; < COMMIT: 5; \
        rollback 1; > ROLLBACK; < ROLLBACK; DatabaseError(Unknown, 5), none, 4\n",
    ),
    (
        &[Dialect::Pg],
        &[Planned::Refused(3)],
        "keep INSERT a",
        "begin 1; > BEGIN; < BEGIN; > INSERT a; < INSERT a; commit 1; > COMMIT; < COMMIT: 5; \
        DatabaseError(Unknown, 5), none, 3\n",
    ),
    (
        BOTH,
        &[Planned::Refused(3)],
        "drop INSERT a",
        "begin 1; > BEGIN; < BEGIN; > INSERT a; < INSERT a; rollback 1; \
        > ROLLBACK; < ROLLBACK: 5; DatabaseError(Unknown, 5), broken, 3\n",
    ),
    (
        BOTH,
        &[Planned::Refused(3)],
        "test INSERT a",
        "begin 1; > BEGIN; < BEGIN; > INSERT a; < INSERT a; rollback 1; \
        > ROLLBACK; < ROLLBACK: 5; 7, broken, 3\n",
    ),
    (
        BOTH,
        &[Planned::Ended(2)],
        "keep INSERT a",
        "begin 1; > BEGIN; < BEGIN; > INSERT a; < INSERT a: 5; NotInTransaction, none, 2\n",
    ),
    (
        &[Dialect::Pg],
        &[Planned::Lost(2)],
        "keep INSERT a",
        "begin 1; > BEGIN; < BEGIN; > INSERT a; < INSERT a: 5; \
        DatabaseError(Unknown, 5), broken, 2\n",
    ),
    (
        &[Dialect::Pg],
        &[Planned::Lost(2)],
        "keep try INSERT b",
        "begin 1; > BEGIN; < BEGIN; > INSERT b; < INSERT b: 5; \
        BrokenTransactionManager, broken, 2\n",
    ),
    // A rollback in error hands the closure's error on, and then no closure is called.
    (
        BOTH,
        &[],
        "drop around: break\nkeep INSERT a\ntest INSERT a\ntestbegin",
        "begin 1; > BEGIN; < BEGIN; 0, broken, 1\n\
        NotFound, broken, 1\n\
        BrokenTransactionManager, broken, 1\n\
        BrokenTransactionManager, broken, 1\n\
        BrokenTransactionManager, broken, 1\n",
    ),
    (
        &[Dialect::Sqlite],
        &[Planned::Refused(4)],
        "drop around: keep INSERT a\nrollback",
        "begin 1; > BEGIN; < BEGIN; \
        begin 2; > SAVEPOINT diesel_savepoint_1; < SAVEPOINT diesel_savepoint_1; \
        > INSERT a; < INSERT a; commit 2; > RELEASE SAVEPOINT diesel_savepoint_1; \
        < RELEASE SAVEPOINT diesel_savepoint_1: 5; DatabaseError(Unknown, 5), depth 2, 4\n\
        rollback 2; > ROLLBACK TO SAVEPOINT diesel_savepoint_1; \
        < ROLLBACK TO SAVEPOINT diesel_savepoint_1; NotFound, depth 1, 5\n\
        rollback 1; > ROLLBACK; < ROLLBACK; 0, none, 6\n",
    ),
    (
        &[Dialect::Pg],
        &[Planned::Refused(3)],
        "keep INSERT a, try INSERT b",
        "begin 1; > BEGIN; < BEGIN; > INSERT a; < INSERT a; > INSERT b; < INSERT b: 5; \
        commit 1; > COMMIT; < COMMIT; 7, none, 4\n",
    ),
    // An aborted level is rolled back where it was to be kept.
    (
        &[Dialect::Pg],
        &[Planned::Refused(4)],
        "keep around: batch INSERT a; keep try INSERT b; batch INSERT c",
        "begin 1; > BEGIN; < BEGIN; > INSERT a; < INSERT a; 0, depth 1, 2\n\
        begin 2; > SAVEPOINT diesel_savepoint_1; < SAVEPOINT diesel_savepoint_1; \
        > INSERT b; < INSERT b: 5; commit 2; > RELEASE SAVEPOINT diesel_savepoint_1; \
        < RELEASE SAVEPOINT diesel_savepoint_1: -2; \
        rollback 2; > ROLLBACK TO SAVEPOINT diesel_savepoint_1; \
        < ROLLBACK TO SAVEPOINT diesel_savepoint_1; DatabaseError(Unknown, -2), depth 1, 6\n\
        > INSERT c; < INSERT c; 0, depth 1, 7\n\
        commit 1; > COMMIT; < COMMIT; 7, none, 8\n",
    ),
    (
        BOTH,
        &[],
        "begin\ntestbegin\nrollback\ntestbegin\ntestbegin\nbegin",
        "begin 1; > BEGIN; < BEGIN; 0, depth 1, 1\n\
        AlreadyInTransaction, depth 1, 1\n\
        rollback 1; > ROLLBACK; < ROLLBACK; 0, none, 2\n\
        begin 1; > BEGIN; < BEGIN; 0, depth 1 test, 3\n\
        AlreadyInTransaction, depth 1 test, 3\n\
        begin 2; > SAVEPOINT diesel_savepoint_1; < SAVEPOINT diesel_savepoint_1; \
        0, depth 2 test, 4\n",
    ),
    // a closure may have errors of its own
    (
        &[Dialect::Sqlite],
        &[Planned::Refused(1)],
        "unpaid: INSERT a",
        "begin 1; > BEGIN; < BEGIN: 5; Database(DatabaseError(Unknown, 5)), none, 1\n",
    ),
    (
        &[Dialect::Sqlite],
        &[Planned::Refused(2)],
        "unpaid: INSERT a",
        "begin 1; > BEGIN; < BEGIN; > INSERT a; < INSERT a: 5; \
        rollback 1; > ROLLBACK; < ROLLBACK; Database(DatabaseError(Unknown, 5)), none, 3\n",
    ),
    (
        &[Dialect::Sqlite],
        &[Planned::Refused(3)],
        "unpaid: INSERT a",
        "begin 1; > BEGIN; < BEGIN; > INSERT a; < INSERT a; \
        rollback 1; > ROLLBACK; < ROLLBACK: 5; Database(DatabaseError(Unknown, 5)), broken, 3\n",
    ),
    (
        &[Dialect::Sqlite],
        &[],
        "unpaid: INSERT a",
        "begin 1; > BEGIN; < BEGIN; > INSERT a; < INSERT a; \
        rollback 1; > ROLLBACK; < ROLLBACK; Unpaid, none, 3\n",
    ),
    (
        &[Dialect::Sqlite],
        &[Planned::Refused(3)],
        "unpaid test: INSERT a",
        "begin 1; > BEGIN; < BEGIN; > INSERT a; < INSERT a; \
        rollback 1; > ROLLBACK; < ROLLBACK: 5; Unpaid, broken, 3\n",
    ),
];

#[test]
fn transactions_are_kept_or_dropped(rt: HostRuntime) -> Result<(), Fail> {
    assert_eq!(rt; misses(rt.alloc(), &CASES)?.as_str(), "");
    Ok(())
}
