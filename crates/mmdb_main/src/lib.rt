//! What the `main` of a program does: its arguments, its standard output, and the statuses that it ends with.
#![tactic(auto)]

use std::env;
use std::io::{self, ErrorKind, Write};
use std::process::ExitCode;

/// All was done.
pub const DONE: u8 = 0;

/// Something failed.
pub const FAILED: u8 = 1;

/// The arguments are no command.
pub const BAD_ARGUMENTS: u8 = 2;

/// How a program says why it could not begin, or end.
#[derive(Clone, Copy)]
pub struct Messages<'a> {
    /// What comes before an error.
    pub error: &'a str,
    /// What comes before an error of standard output.
    pub output: &'a str,
    /// What is said where an argument is not UTF-8.
    pub not_utf8: &'a str,
    /// Whether it is an error that standard output was closed.
    pub reports_closed: bool,
}

/// The program's arguments, its own name first. An `Err` is `InvalidData` where one is not UTF-8.
pub fn arguments_of(rt: &HostRuntime) -> io::Result<Vec<String>> {
    let mut arguments = Vec::new(rt.alloc());
    for argument in env::args(rt)? {
        arguments.push(argument)?;
    }
    Ok(arguments)
}

impl Messages<'_> {
    // Reports an error of standard output, unless it was closed and that is none.
    fn report_output(&self, rt: &HostRuntime, error: &io::Error) {
        if self.reports_closed || error.kind() != ErrorKind::BrokenPipe {
            let _ = eprintln!(rt; "{}{error}", self.output);
        }
    }

    /// Writes out what is still buffered for standard output, and answers the status. What fails only here is an error as
    /// any other of standard output.
    pub fn finish<W: Write + Drop>(&self, rt: &HostRuntime, mut out: W, status: u8) -> u8 {
        match out.flush() {
            Err(error) if status == DONE => {
                self.report_output(rt, &error);
                drop(error);
                FAILED
            }
            _ => status,
        }
    }

    /// How a program ends that answered this status, or could not begin.
    pub fn exit_code(&self, rt: &HostRuntime, done: io::Result<u8>) -> ExitCode {
        match done {
            Ok(status) => ExitCode::from(status),
            Err(error) if error.kind() == ErrorKind::InvalidData => {
                let _ = rt.stderr().write_all(self.not_utf8.as_bytes());
                ExitCode::from(BAD_ARGUMENTS)
            }
            Err(error) => {
                let _ = eprintln!(rt; "{}{error}", self.error);
                ExitCode::from(FAILED)
            }
        }
    }
}
