//! The fields of lines: how they are called, and what may stand in them.
use crate::values::{are_binds, is_row, is_shape};
use conn_model::{Dialect, number_u64};

/// A word of a line, or what stands at the line's end.
#[derive(Clone, Copy, Debug, PartialEq, Eq)]
pub enum Field {
    Dialect,
    PoolSize,
    Customizer,
    Check,
    Server,
    Item,
    Row,
    Attempt,
    Code,
    /// The kind of a refusal by a server of the dialect.
    Kind(Dialect),
    Wish,
    Query,
    Safety,
    Id,
    Binds,
    Shape,
    Values,
    Connection,
    CacheSize,
    Block,
    IsolationLevel,
    ReadMode,
    Deferrable,
    Text,
    Url,
}

/// Whether the word is a number from the low one to the high one.
fn is_number(word: &str, low: u64, high: u64) -> bool {
    number_u64(word).is_some_and(|n| low <= n && n <= high)
}

/// Whether the word is the name of a kind.
fn is_kind_name(word: &str) -> bool {
    matches!(
        word,
        "UniqueViolation"
            | "ForeignKeyViolation"
            | "UnableToSendCommand"
            | "SerializationFailure"
            | "ReadOnlyTransaction"
            | "NotNullViolation"
            | "CheckViolation"
            | "ClosedConnection"
            | "Unknown"
            | "RestrictViolation"
            | "ExclusionViolation"
    )
}

/// Whether the word says the kind of a refusal by a server of the dialect.
fn is_kind(dialect: Dialect, word: &str) -> bool {
    match dialect {
        Dialect::Pg => is_kind_name(word),
        Dialect::Mysql | Dialect::Sqlite => word == "-",
    }
}

impl Field {
    /// How it is called.
    pub fn name(self) -> &'static str {
        match self {
            Field::Dialect => "dialect",
            Field::PoolSize => "pool size",
            Field::Customizer => "customizer",
            Field::Check => "check",
            Field::Server => "server",
            Field::Item => "item",
            Field::Row => "row",
            Field::Attempt => "attempt",
            Field::Code => "code",
            Field::Kind(_) => "kind",
            Field::Wish => "wish",
            Field::Query => "query",
            Field::Safety => "safety",
            Field::Id => "id",
            Field::Binds => "bind",
            Field::Shape => "shape",
            Field::Values => "value",
            Field::Connection => "connection",
            Field::CacheSize => "cache size",
            Field::Block => "block",
            Field::IsolationLevel => "isolation level",
            Field::ReadMode => "read mode",
            Field::Deferrable => "deferrability",
            Field::Text => "text",
            Field::Url => "URL",
        }
    }

    /// What is to be written there.
    pub fn wanted(self) -> &'static str {
        match self {
            Field::Dialect => "`pg`, `mysql` or `sqlite`",
            Field::PoolSize => "a number from 1 to 64",
            Field::Customizer => "`nop`, `test` or `begin`",
            Field::Check => "`check` or `nocheck`",
            Field::Server | Field::Query => "a number from 0 to 65535",
            Field::Item => "a number from 1 to 18446744073709551615",
            Field::Row | Field::Attempt => "a number from 1 to 4294967295",
            Field::Code => "a number from 1 to 2147483647",
            Field::Kind(Dialect::Pg) => "a kind's name on PostgreSQL, as `UniqueViolation`",
            Field::Kind(_) => "`-`, since on MySQL and SQLite the code has its kind",
            Field::Wish => "`stay`, `end` or `lose`",
            Field::Safety => "`safe`, `unsafe` or `nochange`",
            Field::Id => "`-` or a number from 1 to 18446744073709551615",
            Field::Binds => "`-`, or a type, `=` and a value, as `integer=int:7`",
            Field::Shape => "`*`, or one to four of `i`, `t` and `b`, each with `?` for nulls",
            Field::Values => "one as `null`, `int:-7`, `text:a` or `bytes:0aff`",
            Field::Connection => "a number from 0 to 4294967295",
            Field::CacheSize => "`unbounded` or `disabled`",
            Field::Block => "`plain`, `test`, `immediate`, `exclusive` or `build`",
            Field::IsolationLevel => "`-`, `rc`, `rr` or `s`",
            Field::ReadMode => "`-`, `ro` or `rw`",
            Field::Deferrable => "`-`, `d` or `nd`",
            Field::Text => "a space, and then a statement or nothing",
            Field::Url => "a space, and then the URL",
        }
    }

    /// Whether it is a number.
    pub fn is_numeric(self) -> bool {
        matches!(
            self,
            Field::PoolSize
                | Field::Server
                | Field::Item
                | Field::Row
                | Field::Attempt
                | Field::Code
                | Field::Query
                | Field::Id
                | Field::Connection
        )
    }

    /// Whether this may stand there. A text and a URL are looked at elsewhere.
    pub fn allows(self, word: &str) -> bool {
        match self {
            Field::Dialect => matches!(word, "pg" | "mysql" | "sqlite"),
            Field::PoolSize => is_number(word, 1, 64),
            Field::Customizer => matches!(word, "nop" | "test" | "begin"),
            Field::Check => matches!(word, "check" | "nocheck"),
            Field::Server | Field::Query => is_number(word, 0, 65_535),
            Field::Item => is_number(word, 1, u64::MAX),
            Field::Row | Field::Attempt => is_number(word, 1, 4_294_967_295),
            Field::Code => is_number(word, 1, 2_147_483_647),
            Field::Kind(dialect) => is_kind(dialect, word),
            Field::Wish => matches!(word, "stay" | "end" | "lose"),
            Field::Safety => matches!(word, "safe" | "unsafe" | "nochange"),
            Field::Id => word == "-" || is_number(word, 1, u64::MAX),
            Field::Binds => are_binds(word),
            Field::Shape => is_shape(word),
            Field::Values => is_row(word),
            Field::Connection => is_number(word, 0, 4_294_967_295),
            Field::CacheSize => matches!(word, "unbounded" | "disabled"),
            Field::Block => {
                matches!(word, "plain" | "test" | "immediate" | "exclusive" | "build")
            }
            Field::IsolationLevel => matches!(word, "-" | "rc" | "rr" | "s"),
            Field::ReadMode => matches!(word, "-" | "ro" | "rw"),
            Field::Deferrable => matches!(word, "-" | "d" | "nd"),
            Field::Text | Field::Url => true,
        }
    }
}
