//! What a handler is told of each call of the manager, good and refused, at each depth, and what is tracked then.
use crate::plans::Planned;
use crate::steps::{Case, misses};
use conn_server::Dialect;
use std::test::Fail;

const CASES: [Case<'static>; 10] = [
    (
        &[Dialect::Pg, Dialect::Mysql, Dialect::Sqlite],
        &[],
        "commit\nrollback\nbatch INSERT a\nbegin\nsql BEGIN IMMEDIATE\nbatch INSERT a\nbegin\nsql BEGIN IMMEDIATE\nbatch INSERT a\nbegin\nrollback\ncommit\ncommit\nsql BEGIN IMMEDIATE\nrollback",
        "NotInTransaction, none, 0\n\
        NotInTransaction, none, 0\n\
        > INSERT a; < INSERT a; 0, none, 1\n\
        begin 1; > BEGIN; < BEGIN; 0, depth 1, 2\n\
        AlreadyInTransaction, depth 1, 2\n\
        > INSERT a; < INSERT a; 0, depth 1, 3\n\
        begin 2; > SAVEPOINT diesel_savepoint_1; < SAVEPOINT diesel_savepoint_1; 0, depth 2, 4\n\
        AlreadyInTransaction, depth 2, 4\n\
        > INSERT a; < INSERT a; 0, depth 2, 5\n\
        begin 3; > SAVEPOINT diesel_savepoint_2; < SAVEPOINT diesel_savepoint_2; 0, depth 3, 6\n\
        rollback 3; > ROLLBACK TO SAVEPOINT diesel_savepoint_2; \
        < ROLLBACK TO SAVEPOINT diesel_savepoint_2; 0, depth 2, 7\n\
        commit 2; > RELEASE SAVEPOINT diesel_savepoint_1; \
        < RELEASE SAVEPOINT diesel_savepoint_1; 0, depth 1, 8\n\
        commit 1; > COMMIT; < COMMIT; 0, none, 9\n\
        begin 1; > BEGIN IMMEDIATE; < BEGIN IMMEDIATE; 0, depth 1, 10\n\
        rollback 1; > ROLLBACK; < ROLLBACK; 0, none, 11\n",
    ),
    // A refused commit of the transaction is followed by a rollback where the server's transaction is still open.
    (
        &[Dialect::Sqlite],
        &[
            Planned::Refused(1),
            Planned::Refused(2),
            Planned::Refused(3),
            Planned::Refused(5),
            Planned::Refused(6),
            Planned::Refused(7),
        ],
        "begin\nsql BEGIN IMMEDIATE\nbatch INSERT a\nbegin\nbatch INSERT a\nbegin\ncommit",
        "begin 1; > BEGIN; < BEGIN: 5; DatabaseError(Unknown, 5), none, 1\n\
        begin 1; > BEGIN IMMEDIATE; < BEGIN IMMEDIATE: 5; DatabaseError(Unknown, 5), none, 2\n\
        > INSERT a; < INSERT a: 5; DatabaseError(Unknown, 5), none, 3\n\
        begin 1; > BEGIN; < BEGIN; 0, depth 1, 4\n\
        > INSERT a; < INSERT a: 5; DatabaseError(Unknown, 5), depth 1, 5\n\
        begin 2; > SAVEPOINT diesel_savepoint_1; < SAVEPOINT diesel_savepoint_1: 5; \
        DatabaseError(Unknown, 5), depth 1, 6\n\
        commit 1; > COMMIT; < COMMIT: 5; rollback 1; > ROLLBACK; < ROLLBACK; \
        DatabaseError(Unknown, 5), none, 8\n",
    ),
    (
        &[Dialect::Sqlite],
        &[Planned::Refused(2), Planned::Refused(3)],
        "begin\ncommit\nbegin\nsql BEGIN IMMEDIATE\ncommit\nrollback\nbatch INSERT a",
        "begin 1; > BEGIN; < BEGIN; 0, depth 1, 1\n\
        commit 1; > COMMIT; < COMMIT: 5; rollback 1; > ROLLBACK; < ROLLBACK: 5; \
        RollbackErrorOnCommit { rollback_error: DatabaseError(Unknown, 5), \
        commit_error: DatabaseError(Unknown, 5) }, broken, 3\n\
        BrokenTransactionManager, broken, 3\n\
        BrokenTransactionManager, broken, 3\n\
        BrokenTransactionManager, broken, 3\n\
        BrokenTransactionManager, broken, 3\n\
        > INSERT a; < INSERT a; 0, broken, 4\n",
    ),
    (
        &[Dialect::Sqlite],
        &[Planned::Refused(2)],
        "begin\nrollback",
        "begin 1; > BEGIN; < BEGIN; 0, depth 1, 1\n\
        rollback 1; > ROLLBACK; < ROLLBACK: 5; DatabaseError(Unknown, 5), broken, 2\n",
    ),
    (
        &[Dialect::Sqlite],
        &[Planned::Refused(3), Planned::Refused(4)],
        "begin\nbegin\ncommit\nrollback",
        "begin 1; > BEGIN; < BEGIN; 0, depth 1, 1\n\
        begin 2; > SAVEPOINT diesel_savepoint_1; < SAVEPOINT diesel_savepoint_1; 0, depth 2, 2\n\
        commit 2; > RELEASE SAVEPOINT diesel_savepoint_1; \
        < RELEASE SAVEPOINT diesel_savepoint_1: 5; DatabaseError(Unknown, 5), depth 2, 3\n\
        rollback 2; > ROLLBACK TO SAVEPOINT diesel_savepoint_1; \
        < ROLLBACK TO SAVEPOINT diesel_savepoint_1: 5; \
        DatabaseError(Unknown, 5), depth 1 flagged, 4\n",
    ),
    // A refused rollback to a savepoint is well where the flag was set before it.
    (
        &[Dialect::Sqlite],
        &[Planned::Refused(4), Planned::Refused(5)],
        "begin\nbegin\nbegin\nrollback\nrollback",
        "begin 1; > BEGIN; < BEGIN; 0, depth 1, 1\n\
        begin 2; > SAVEPOINT diesel_savepoint_1; < SAVEPOINT diesel_savepoint_1; 0, depth 2, 2\n\
        begin 3; > SAVEPOINT diesel_savepoint_2; < SAVEPOINT diesel_savepoint_2; 0, depth 3, 3\n\
        rollback 3; > ROLLBACK TO SAVEPOINT diesel_savepoint_2; \
        < ROLLBACK TO SAVEPOINT diesel_savepoint_2: 5; \
        DatabaseError(Unknown, 5), depth 2 flagged, 4\n\
        rollback 2; > ROLLBACK TO SAVEPOINT diesel_savepoint_1; \
        < ROLLBACK TO SAVEPOINT diesel_savepoint_1: 5; 0, depth 1 flagged, 5\n",
    ),
    // PostgreSQL tells that a refused commit ended the transaction, and that a refused release aborted it.
    (
        &[Dialect::Pg],
        &[Planned::Refused(2)],
        "begin\ncommit",
        "begin 1; > BEGIN; < BEGIN; 0, depth 1, 1\n\
        commit 1; > COMMIT; < COMMIT: 5; DatabaseError(Unknown, 5), none, 2\n",
    ),
    (
        &[Dialect::Pg],
        &[Planned::Refused(3)],
        "begin\nbegin\ncommit",
        "begin 1; > BEGIN; < BEGIN; 0, depth 1, 1\n\
        begin 2; > SAVEPOINT diesel_savepoint_1; < SAVEPOINT diesel_savepoint_1; 0, depth 2, 2\n\
        commit 2; > RELEASE SAVEPOINT diesel_savepoint_1; \
        < RELEASE SAVEPOINT diesel_savepoint_1: 5; \
        rollback 2; > ROLLBACK TO SAVEPOINT diesel_savepoint_1; \
        < ROLLBACK TO SAVEPOINT diesel_savepoint_1; DatabaseError(Unknown, 5), depth 1, 4\n",
    ),
    // A text with a NUL isn't sent to PostgreSQL and SQLite, and changes nothing.
    (
        &[Dialect::Pg, Dialect::Sqlite],
        &[],
        "batch INSERT a\0b\0\nbatch \0\nsql BEGIN\0\nbegin\nbatch INSERT a\0b\0\ncommit",
        "> INSERT a\0b\0; < INSERT a\0b\0: InvalidCString(8); InvalidCString(8), none, 0\n\
        > \0; < \0: InvalidCString(0); InvalidCString(0), none, 0\n\
        begin 1; > BEGIN\0; < BEGIN\0: InvalidCString(5); InvalidCString(5), none, 0\n\
        begin 1; > BEGIN; < BEGIN; 0, depth 1, 1\n\
        > INSERT a\0b\0; < INSERT a\0b\0: InvalidCString(8); InvalidCString(8), depth 1, 1\n\
        commit 1; > COMMIT; < COMMIT; 0, none, 2\n",
    ),
    (
        &[Dialect::Mysql],
        &[],
        "batch INSERT a\0b\0\nbatch \0\nsql BEGIN\0",
        "> INSERT a\0b\0; < INSERT a\0b\0; 0, none, 1\n\
        > \0; < \0; 0, none, 2\n\
        begin 1; > BEGIN\0; < BEGIN\0; 0, depth 1, 3\n",
    ),
];

#[test]
fn each_call_is_told_and_tracked(rt: HostRuntime) -> Result<(), Fail> {
    assert_eq!(rt; misses(rt.alloc(), &CASES)?.as_str(), "");
    Ok(())
}
