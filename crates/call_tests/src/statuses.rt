//! What is tracked, in words: none, broken, or the depth and what is set.
use conn_manager::{InTransactionStatus, TransactionManagerStatus, ValidTransactionManagerStatus};
use conn_model::number_u32;
use std::alloc::AllocError;
use std::fmt::Write;

/// The depth behind the first word, or 0.
fn depth_in(words: &str) -> u32 {
    match words.split(' ').nth(1) {
        Some(depth) => number_u32(depth).unwrap_or(0),
        None => 0,
    }
}

/// What is tracked, by its words.
pub fn status_of(words: &str) -> TransactionManagerStatus {
    let in_transaction = match words {
        "broken" => return TransactionManagerStatus::InError,
        "none" => None,
        _ => Some(InTransactionStatus {
            transaction_depth: depth_in(words),
            requires_rollback_maybe_up_to_top_level: words.contains("flagged"),
            test_transaction: words.contains("test"),
        }),
    };
    TransactionManagerStatus::Valid(ValidTransactionManagerStatus { in_transaction })
}

/// Writes down what is tracked.
pub fn write_status(
    words: &mut String,
    status: TransactionManagerStatus,
) -> Result<(), AllocError> {
    let TransactionManagerStatus::Valid(valid) = status else {
        return write!(words, "broken");
    };
    let Some(t) = valid.in_transaction else {
        return write!(words, "none");
    };
    write!(words, "depth {}", t.transaction_depth)?;
    if t.requires_rollback_maybe_up_to_top_level {
        write!(words, " flagged")?;
    }
    if t.test_transaction {
        write!(words, " test")?;
    }
    Ok(())
}
