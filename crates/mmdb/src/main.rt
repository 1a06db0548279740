//! The program `mmdb`: its arguments are handed on, with the standard streams.
#![tactic(auto)]

use mmdb_main::{Messages, arguments_of};
use mmdb_program::{Io, Terminals, run};
use std::io::{self, BufReader, BufWriter, IsTerminal};
use std::process::ExitCode;

/// What is said outside of the program's library. Of an output that was closed nothing is reported.
const MESSAGES: Messages<'static> = Messages {
    error: "mmdb: ",
    output: "mmdb: standard output: ",
    // arguments come as text alone, and a file is opened by text
    not_utf8: "mmdb: a word is not UTF-8; reach the file by a link, or as /dev/fd/3 with 3< FILE\n",
    reports_closed: false,
};

/// How many bytes of standard input are read at once.
const READ: usize = 1 << 16;

/// How many bytes are gathered for standard output. What is longer is written as it is.
const WRITE: usize = 1 << 15;

// Runs the program on arguments, and answers its status.
fn program_on(rt: &HostRuntime, arguments: &[String]) -> io::Result<u8> {
    let mut out = BufWriter::with_capacity(rt.alloc(), WRITE, rt.stdout())?;
    let mut input = BufReader::with_capacity(rt.alloc(), READ, rt.stdin())?;
    let mut err = rt.stderr();
    let io = Io {
        input: &mut input,
        out: &mut out,
        errors: &mut err,
        terminals: Terminals {
            output: rt.stdout().is_terminal(),
            errors: rt.stderr().is_terminal(),
        },
    };
    let status = run(rt, rt.alloc(), arguments, io);
    Ok(MESSAGES.finish(rt, out, status))
}

// Runs the program on its arguments, and answers its status.
fn program(rt: &HostRuntime) -> io::Result<u8> {
    let arguments = arguments_of(rt)?;
    let done = program_on(rt, arguments.as_slice());
    drop(arguments);
    done
}

fn main(rt: HostRuntime) -> ExitCode {
    MESSAGES.exit_code(&rt, program(&rt))
}
