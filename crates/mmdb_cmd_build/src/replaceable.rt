//! Whether a file may be replaced by the one that is made.
use crate::notes::report_io;
use mmdb_console::{Console, ProgramError};
use mmdb_files::{Standing, standing_of};
use std::io::Write;
use std::rt::Files;

// Why a file may not take the place of what is there, if it may not.
fn against(standing: Standing) -> Option<&'static str> {
    match standing {
        Standing::Nothing | Standing::Database => None,
        Standing::Other => Some("what is there is not a MaxMind DB file, and stays"),
        Standing::NoFile => Some("not a file"),
        Standing::DeadLink => Some("a link that leads nowhere"),
    }
}

/// Whether a file may take the place of what is there. Why not is reported.
pub(crate) fn may_replace<R: Files, O: Write, E: Write>(
    rt: &R,
    out: &str,
    console: &mut Console<'_, O, E>,
) -> Result<bool, ProgramError> {
    match standing_of(rt, console.alloc, out) {
        Ok(standing) => match against(standing) {
            None => Ok(true),
            Some(reason) => {
                console.report(out, &reason);
                Ok(false)
            }
        },
        Err(error) => {
            report_io(out, error, console)?;
            Ok(false)
        }
    }
}
