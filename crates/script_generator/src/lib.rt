//! Scripts that are generated from a seed.
#![tactic(auto)]

mod generator;
mod law;
mod stanza;

pub use generator::generate;
pub use law::generated_bytes_are_a_script;
