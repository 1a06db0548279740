//! The program `mmdb_tool`: its arguments are handed on, with standard output and standard error.
#![tactic(auto)]

use mmdb_main::{Messages, arguments_of};
use mmdb_tool::{Out, USAGE, run};
use std::io::{self, BufWriter};
use std::process::ExitCode;

/// What is said outside of the program's library. Arguments come as text alone, so one that is not UTF-8 is no command's.
const MESSAGES: Messages<'static> = Messages {
    error: "",
    output: "write error: ",
    not_utf8: USAGE,
    reports_closed: true,
};

// Runs the program on its arguments, and answers its status.
fn program(rt: &HostRuntime) -> io::Result<u8> {
    let arguments = arguments_of(rt)?;
    let words = arguments.get(1..).unwrap_or(&[]);
    let mut out = Out::new(BufWriter::new(rt.alloc(), rt.stdout())?);
    let mut err = Out::new(rt.stderr());
    let status = run(rt, rt.alloc(), words, &mut out, &mut err);
    Ok(MESSAGES.finish(rt, out.into_inner(), status))
}

fn main(rt: HostRuntime) -> ExitCode {
    MESSAGES.exit_code(&rt, program(&rt))
}
