//! The first NUL of a text. PostgreSQL and SQLite are handed a text as one of C, which ends there.
ghost use Rattle.std.specs.Prelude.{◌≡◌};
ghost use Rattle.conn_model.specs.Nuls.{nul_place, nul_fault};

use crate::Dialect;

/// The place of the first NUL of a text, from 0.
pub fn nul_place(text: &str) -> Option<usize>
    ensures { result ≡ nul_place text.now }
{
    let bytes = text.as_bytes();

    // Most texts have none, which is found several bytes at a time.
    if !bytes.contains(&0) {
        return None;
    }
    bytes.iter().position(|b| *b == 0)
}

/// The place of the NUL for which a text isn't sent; MySQL is sent every text.
pub fn nul_fault(dialect: Dialect, text: &str) -> Option<usize>
    ensures { result ≡ nul_fault dialect text.now }
{
    match dialect {
        Dialect::Mysql => None,
        Dialect::Pg | Dialect::Sqlite => nul_place(text),
    }
}
