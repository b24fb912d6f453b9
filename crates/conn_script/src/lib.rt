//! Scripts: the lines, their words, and the script that they make.
#![tactic(auto)]

mod acts;
mod binds;
mod blocks;
mod command;
mod draft;
mod fields;
mod header;
mod kinds;
mod law;
mod openings;
mod parse;
mod plan;
mod query;
mod request;
mod row_counts;
mod shape;
mod statement;
mod table;
mod values;
mod words;

pub use command::{
    Act, BlockKind, Command, Commands, Customizer, Plan, QueryCall, Script, SessionError, Word,
};
pub use kinds::kind_name;
pub use law::{bad_line_is_the_first, bad_lines_do_not, good_lines_go_on};
pub use parse::parse_script;
pub use query::{Declared, Declareds, Safety};
pub use request::{Request, Verb};
pub use shape::{Shape, ShapeKind};
