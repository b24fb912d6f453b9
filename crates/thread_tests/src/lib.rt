//! Threads that share a pool: that no slot is ever with two of them, or lost.
#![tactic(auto)]

#[cfg(test)]
mod keeper;
#[cfg(test)]
mod share_tests;
