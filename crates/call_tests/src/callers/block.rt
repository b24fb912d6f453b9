//! A transaction with a closure.
use conn_manager::Connection;
use conn_result::QueryResult;

/// Both writes are kept, or none.
pub fn insert_both<C: Connection>(conn: &mut C) -> QueryResult<()> {
    conn.transaction(|conn: &mut C| -> QueryResult<()> {
        conn.batch_execute("INSERT INTO a VALUES (1)")?;
        conn.batch_execute("INSERT INTO b VALUES (1)")
    })
}
