//! Where commands write and report, with which statuses they end, and why they give up; paths and ranges as a person writes
//! them.
#![tactic(auto)]

mod archive;
mod elsewhere;
mod error;
mod output;
mod paths;
mod place;
mod progress;
mod ranges;
mod replaced;
mod similar;

pub use archive::{Archive, note_archive};
pub use elsewhere::{file_elsewhere, path_elsewhere};
pub use error::ProgramError;
pub use mmdb_main::{BAD_ARGUMENTS, DONE, FAILED};
pub use output::{
    Console, DIFFERENT, Io, NO_MEMORY, NOT_FOUND, Terminals, line_of, opened, put, reported,
};
pub use paths::{path_of, path_with_index, path_with_key, paths_of, wanted_path};
pub use place::Where;
pub use progress::{Pace, Paced, Passed, ProgressLine, text_of_progress};
pub use ranges::{note_range, range_of};
pub use replaced::{note_remarks, report_replace};
pub use similar::Similar;
