//! What texts, numbers and codes stand for, and what is tracked after a text that is refused or not.
use crate::statuses::{status_of, write_status};
use conn_manager::retold;
use conn_model::{
    Bind, BindType, Dialect, Refusal, Told, Value, class_of, mysql_kind, number_u32, number_u64,
    sqlite_kind,
};
use conn_result::DatabaseErrorKind;
use std::alloc::{AllocError, Global};
use std::test::Fail;

/// Texts, and what they ask of a transaction.
const CLASSES: [(&str, &str); 21] = [
    ("BEGIN", "Begin"),
    ("BEGIN IMMEDIATE", "Begin"),
    (
        "BEGIN TRANSACTION ISOLATION LEVEL SERIALIZABLE READ ONLY",
        "Begin",
    ),
    ("COMMIT", "Commit"),
    ("ROLLBACK", "Rollback"),
    ("INSERT a", "Write"),
    ("UPDATE a", "Write"),
    ("DELETE a", "Write"),
    ("SELECT a", "Other"),
    ("begin", "Other"),
    ("BEGIN\0", "Other"),
    ("", "Other"),
    ("SAVEPOINT diesel_savepoint_1", "Savepoint(1)"),
    (
        "SAVEPOINT diesel_savepoint_4294967295",
        "Savepoint(4294967295)",
    ),
    ("SAVEPOINT diesel_savepoint_4294967296", "Other"),
    ("SAVEPOINT diesel_savepoint_01", "Other"),
    ("SAVEPOINT diesel_savepoint_", "Other"),
    ("ROLLBACK TO SAVEPOINT diesel_savepoint_2", "RollbackTo(2)"),
    ("RELEASE SAVEPOINT diesel_savepoint_3", "Release(3)"),
    ("RELEASE SAVEPOINT diesel_savepoint_0", "Other"),
    ("RELEASE SAVEPOINT diesel_savepoint_3 ", "Other"),
];

/// Numbers have no sign, no zero in front, and a greatest.
const NUMBERS: [(&str, Option<u32>, Option<u64>); 8] = [
    ("0", Some(0), Some(0)),
    ("4294967295", Some(4_294_967_295), Some(4_294_967_295)),
    ("4294967296", None, Some(4_294_967_296)),
    (
        "18446744073709551615",
        None,
        Some(18_446_744_073_709_551_615),
    ),
    ("18446744073709551616", None, None),
    ("+1", None, None),
    ("01", None, None),
    ("", None, None),
];

/// Codes as the manuals of MySQL and SQLite have them.
const MYSQL_KINDS: [(i32, &str); 3] = [
    (1062, "UniqueViolation"),
    (1213, "SerializationFailure"),
    (2067, "Unknown"),
];

const SQLITE_KINDS: [(i32, &str); 3] = [
    (2067, "UniqueViolation"),
    (787, "ForeignKeyViolation"),
    (5, "Unknown"),
];

/// Whether a number may be bound as a type.
const BINDS: [(BindType, i64, bool); 9] = [
    (BindType::SmallInt, -32_768, true),
    (BindType::SmallInt, 32_768, false),
    (BindType::Integer, 2_147_483_647, true),
    (BindType::Integer, -2_147_483_649, false),
    (BindType::BigInt, i64::MIN, true),
    (BindType::Bool, 1, true),
    (BindType::Bool, 2, false),
    (BindType::Text, 1, false),
    (BindType::Binary, 1, false),
];

/// What a server of a dialect answers and tells, what is tracked before, and after. PostgreSQL goes by what is told; of the others a
/// refusal alone changes what is tracked.
const RETOLD: [(Dialect, &str, &str, &str, &str); 24] = [
    (Dialect::Pg, "accepted", "idle", "depth 2 test", "none"),
    (Dialect::Pg, "refused", "idle", "broken", "none"),
    (
        Dialect::Pg,
        "accepted",
        "open",
        "depth 2 flagged",
        "depth 2",
    ),
    (Dialect::Pg, "accepted", "open", "none", "none"),
    (Dialect::Pg, "accepted", "open", "broken", "broken"),
    (
        Dialect::Pg,
        "refused",
        "open",
        "depth 2 flagged",
        "depth 2 flagged",
    ),
    (Dialect::Pg, "refused", "open", "none", "broken"),
    (
        Dialect::Pg,
        "refused",
        "failed",
        "depth 2 test",
        "depth 2 flagged test",
    ),
    (Dialect::Pg, "refused", "failed", "none", "none"),
    (Dialect::Pg, "accepted", "unknown", "depth 2 test", "broken"),
    (
        Dialect::Pg,
        "refused",
        "active",
        "depth 2 test",
        "depth 2 test",
    ),
    (
        Dialect::Pg,
        "refused",
        "autocommit",
        "depth 2 test",
        "depth 2 test",
    ),
    (
        Dialect::Mysql,
        "serialization",
        "silent",
        "depth 2 test",
        "depth 2 flagged test",
    ),
    (Dialect::Mysql, "serialization", "silent", "none", "none"),
    (
        Dialect::Mysql,
        "refused",
        "idle",
        "depth 2 test",
        "depth 2 test",
    ),
    (
        Dialect::Mysql,
        "accepted",
        "unknown",
        "depth 2 test",
        "depth 2 test",
    ),
    (Dialect::Mysql, "refused", "silent", "broken", "broken"),
    (
        Dialect::Sqlite,
        "refused",
        "autocommit",
        "depth 2 test",
        "none",
    ),
    (Dialect::Sqlite, "refused", "autocommit", "broken", "none"),
    (
        Dialect::Sqlite,
        "serialization",
        "manual",
        "depth 2 test",
        "depth 2 test",
    ),
    (
        Dialect::Sqlite,
        "accepted",
        "autocommit",
        "depth 2 test",
        "depth 2 test",
    ),
    (
        Dialect::Sqlite,
        "accepted",
        "autocommit",
        "broken",
        "broken",
    ),
    (
        Dialect::Sqlite,
        "refused",
        "idle",
        "depth 2 test",
        "depth 2 test",
    ),
    (
        Dialect::Sqlite,
        "refused",
        "unknown",
        "depth 2 flagged",
        "depth 2 flagged",
    ),
];

/// What a server tells, by a word.
fn told_of(word: &str) -> Told {
    match word {
        "idle" => Told::Idle,
        "open" => Told::Open,
        "failed" => Told::Failed,
        "unknown" => Told::Unknown,
        "active" => Told::Active,
        "autocommit" => Told::Autocommit(true),
        "manual" => Told::Autocommit(false),
        _ => Told::Silent,
    }
}

/// What a server answers, by a word.
fn refusal_of(word: &str) -> Option<Refusal> {
    let kind = match word {
        "accepted" => return None,
        "serialization" => DatabaseErrorKind::SerializationFailure,
        _ => DatabaseErrorKind::Unknown,
    };
    Some(Refusal { kind, code: 1 })
}

/// What is tracked after the answer.
fn retold_words(
    alloc: Global,
    dialect: Dialect,
    answer: &str,
    told: &str,
    before: &str,
) -> Result<String, AllocError> {
    let after = retold(
        dialect,
        refusal_of(answer),
        told_of(told),
        status_of(before),
    );
    let mut words = String::new(alloc);
    write_status(&mut words, after)?;
    Ok(words)
}

#[test]
fn texts_have_their_classes(rt: HostRuntime) -> Result<(), Fail> {
    for &(text, wanted) in &CLASSES {
        let class = format!(in rt.alloc(); "{:?}", class_of(text))?;
        assert_eq!(rt; class.as_str(), wanted, "{text}");
    }
    Ok(())
}

#[test]
fn numbers_and_codes_stand_for_these(rt: HostRuntime) -> Result<(), Fail> {
    for &(text, small, large) in &NUMBERS {
        assert_eq!(rt; (number_u32(text), number_u64(text)), (small, large));
    }
    for &(code, wanted) in &MYSQL_KINDS {
        let kind = format!(in rt.alloc(); "{:?}", mysql_kind(code))?;
        assert_eq!(rt; kind.as_str(), wanted, "{code}");
    }
    for &(code, wanted) in &SQLITE_KINDS {
        let kind = format!(in rt.alloc(); "{:?}", sqlite_kind(code))?;
        assert_eq!(rt; kind.as_str(), wanted, "{code}");
    }
    for &(kind, number, fits) in &BINDS {
        let value = Value::Int(number);
        assert_eq!(rt; Bind { kind, value }.fits(), fits, "{number}");
    }
    Ok(())
}

#[test]
fn answers_change_what_is_tracked(rt: HostRuntime) -> Result<(), Fail> {
    for &(dialect, answer, told, before, wanted) in &RETOLD {
        let after = retold_words(rt.alloc(), dialect, answer, told, before)?;
        assert_eq!(rt;
            after.as_str(),
            wanted,
            "{dialect:?} {answer} {told} {before}"
        );
    }
    Ok(())
}
