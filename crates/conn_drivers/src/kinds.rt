//! Which kind of server a connection speaks to.
ghost use Rattle.std.specs.Prelude.{◌≡◌};
ghost use Rattle.conn_model.specs.declared.item.Dialect.{Dialect};
ghost use Rattle.conn_model.specs.declared.item.Dialect.TheVariants as dialects;

use conn_model::Dialect;

/// A kind of server.
pub trait Kind: Drop {
    /// The language of its servers.
    ghost dialect: { Dialect };

    /// The language of its servers.
    fn dialect() -> Dialect
        ensures { result ≡ dialect };
}

/// PostgreSQL.
#[derive(Drop)]
pub struct Pg;

/// MySQL.
#[derive(Drop)]
pub struct Mysql;

/// SQLite.
#[derive(Drop)]
pub struct Sqlite;

/// A kind of server whose rows are asked by a statement, one at a time.
pub trait StatementKind: Kind {}

impl Kind for Pg {
    ghost dialect = { dialects.Pg };

    fn dialect() -> Dialect {
        Dialect::Pg
    }
}

impl Kind for Mysql {
    ghost dialect = { dialects.Mysql };

    fn dialect() -> Dialect {
        Dialect::Mysql
    }
}

impl Kind for Sqlite {
    ghost dialect = { dialects.Sqlite };

    fn dialect() -> Dialect {
        Dialect::Sqlite
    }
}

impl StatementKind for Mysql {}

impl StatementKind for Sqlite {}
