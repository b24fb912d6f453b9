//! How many rows texts have, and how many values each of these.
ghost use Rattle.std.specs.Prelude.{◌≡◌, true};
ghost use Rattle.conn_script.specs.RowCounts.{may_follow, count_with_row};

/// The rows that a text has at most.
const MAX_ROWS: usize = 16;

/// How many rows there are, and how many values each of them has.
#[derive(Clone, Copy, Debug)]
pub struct RowCount {
    pub rows: usize,
    pub values: usize,
}

/// Whether a row of so many values may come behind rows that are counted so, where there are some.
pub fn may_follow(count: Option<RowCount>, values: usize) -> bool
    ensures { result ≡ may_follow count values }
{
    match count {
        Some(count) => count.rows < MAX_ROWS && values == count.values,
        None => true,
    }
}

/// The count with one row more, which has so many values where it is the first one.
pub fn count_with_row(count: Option<RowCount>, values: usize) -> RowCount
    requires { may_follow count values ≡ true }
    ensures { result ≡ count_with_row count values }
{
    match count {
        Some(count) => RowCount {
            rows: count.rows + 1,
            values: count.values,
        },
        None => RowCount { rows: 1, values },
    }
}
