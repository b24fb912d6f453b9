//! The statements that a connection keeps, and how its wire prepares them.
ghost use Rattle.std.specs.Prelude.{◌≡◌, length, false};
ghost use Rattle.conn_drivers.specs.Prepares.{name_of, sends_none, statement_by};
ghost use Rattle.conn_drivers.specs.Standing.{HasLogRoom, stands_in};

use crate::Wire;
use crate::wire::error_of;
use conn_cache::{PrepareForCache, Preparer};
use conn_model::{BindType, Dialect, Prepared, Refusal};
use conn_result::QueryResult;
use conn_server::Server;

/// A statement of a server, and how many columns its rows have. On PostgreSQL one that isn't kept stands for nothing.
#[derive(Clone, Copy, Debug, Drop)]
pub struct Statement {
    pub number: u64,
    pub columns: u32,
}

fn statement_by(prepared: Result<Prepared, Refusal>) -> QueryResult<Statement>
    ensures { result ≡ statement_by prepared }
{
    match prepared {
        Ok(p) => Ok(Statement {
            number: p.statement,
            columns: p.columns,
        }),
        Err(r) => Err(error_of(r)),
    }
}

/// The number of a statement that is kept is a part of its name.
fn name_of(is_cached: PrepareForCache) -> Option<u64>
    ensures { result ≡ name_of is_cached }
{
    match is_cached {
        PrepareForCache::Yes { counter } => Some(counter),
        PrepareForCache::No => None,
    }
}

/// PostgreSQL runs a text that isn't kept without preparing it.
fn sends_none(dialect: Dialect, is_cached: PrepareForCache) -> bool
    ensures { result ≡ sends_none dialect is_cached }
{
    matches!((dialect, is_cached), (Dialect::Pg, PrepareForCache::No))
}

impl<S: Server> Preparer<Statement> for Wire<S> {
    ghost use Rattle.conn_drivers.specs.Prepares.{WirePrepares, WireCloses};
    ghost use Rattle.conn_drivers.specs.StatementLaws.{is_fresh, stay_at_close, stay_at_prepare};

    ghost failures = { λ w. (S.seen w.server).failures };

    ghost has_room = { λ w sql. HasLogRoom 1 (length sql) (S.seen w.server) };

    ghost stands = { λ w t sql. stands_in (S.seen w.server).open_statements t sql };

    ghost serves_no = { false };

    ghost prepares = { λ w sql how types r w'. WirePrepares S.is_honest sql how
        (S.seen w.server) (S.seen w'.server) w.status w'.status r };

    ghost closes = { λ w t w'. WireCloses t (S.seen w.server) (S.seen w'.server) w.status w'.status };

    fn prepare(
        &mut self,
        sql: &str,
        is_cached: PrepareForCache,
        types: &[BindType],
    ) -> QueryResult<Statement> {
        if sends_none(self.server.dialect(), is_cached) {
            return Ok(Statement {
                number: 0,
                columns: 0,
            });
        }
        let prepared = self.server.prepare(sql, name_of(is_cached), types);
        self.follow(prepared.err());
        statement_by(prepared)
    }

    fn close(&mut self, statement: Statement) {
        self.server.close_statement(statement.number);
    }

    ghost stands_after = { λ p q sql how types t did served. is_fresh _ sql how _ _ _ _ t did served };

    ghost others_stay = { λ p q sql how types r did u text s. stay_at_prepare _ sql how _ _ _ _ r did u text s };

    ghost others_stay_open = { λ p q t own stood closed u text apart s.
        stay_at_close t own _ _ _ _ stood closed u text apart s };
}
