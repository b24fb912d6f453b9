//! Runs sessions: the commands of a script over the servers that a connector opens.
#![tactic(auto)]

mod calls;
mod customizer;
mod places;
mod queries;
mod row_shapes;
mod session;
mod task;
mod top;
mod transcript;

pub use conn_io::{BytesSink, BytesSource, Failed, Sink, Source};
pub use conn_report::{Entry, Reply, Transcript, Word, render, summarize};
pub use conn_script::{Script, SessionError, parse_script};
pub use script_generator::generate;
pub use task::{Task, task_of};
pub use top::run_command;
pub use transcript::run_session;
