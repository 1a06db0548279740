//! The program `mmdb`: what people ask of databases.
#![tactic(auto)]

mod output;
mod program;

pub use mmdb_cmd_show::info;
pub use mmdb_console::{Io, ProgramError, Terminals, path_of};
pub use program::run;
