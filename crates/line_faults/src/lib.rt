//! What is wrong with the line that a script can't go on with, for a person to read.
#![tactic(auto)]

mod above;
mod commands;
mod fault;
mod field;
mod fields;
mod header;
mod lines;
mod nearest;
mod setup;
mod texts;
mod values;

pub use fault::{BlockFault, FieldFault, Layout, Limit, LineFault, Twice};
pub use field::Field;
pub use lines::line_fault;
