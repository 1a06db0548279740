//! The program: what it does with its arguments, over any files and any sinks.
#![tactic(auto)]

mod command;
pub mod laws;
mod line;
mod list;
mod program;
mod report_text;
mod sink;

pub use command::USAGE;
pub use line::lookup_line;
pub use list::{ListError, list_to};
pub use program::{run, run_bytes};
pub use sink::{Fault, Out, Sink};
