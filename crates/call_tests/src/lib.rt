//! What calls below a session send, tell and answer, in tables: of outside values, and of what no contract says. One crate for all of
//! them, so that no library's code is proved again.
#![tactic(auto)]

#[cfg(test)]
mod asked;
#[cfg(test)]
mod call_tests;
#[cfg(test)]
mod callers;
#[cfg(test)]
mod cursor_tests;
#[cfg(test)]
mod form_tests;
#[cfg(test)]
mod generated_tests;
#[cfg(test)]
mod opening_tests;
#[cfg(test)]
mod plans;
#[cfg(test)]
mod query_tests;
#[cfg(test)]
mod recorder;
#[cfg(test)]
mod report_tests;
#[cfg(test)]
mod row_tests;
#[cfg(test)]
mod statuses;
#[cfg(test)]
mod steps;
#[cfg(test)]
mod text_tests;
#[cfg(test)]
mod transaction_tests;
#[cfg(test)]
mod url_tests;
