//! The command on a disk in memory.
use super::disk::{Disk, DiskRuntime};
use mmdb_arguments::{BuildArguments, InstallArguments, NoRequest, Request, request_of};
use mmdb_cmd_build::build;
use mmdb_cmd_install::install;
use mmdb_console::{Console, Paced, ProgramError, Terminals};
use mmdb_files::SharedFiles;
use mmdb_vectors::words::words_of;
use std::alloc::Global;
use std::env::Env;
use std::time::Clock;

/// What a run left.
#[derive(Drop)]
pub(crate) struct Run {
    /// None where the command answers an error.
    pub(crate) status: Option<u8>,
    /// Whether that is out of memory.
    pub(crate) is_memory: bool,
    /// What standard output got; of `build`, which writes none, nothing.
    pub(crate) written: Vec<u8>,
    pub(crate) reported: Vec<u8>,
}

impl Run {
    /// What standard error got.
    pub(crate) fn err(&self) -> &str {
        str::from_utf8(&self.reported).unwrap_or("not UTF-8")
    }

    /// What standard output got.
    pub(crate) fn out(&self) -> &str {
        str::from_utf8(&self.written).unwrap_or("not UTF-8")
    }
}

// What a command answered.
fn run_of(done: Result<u8, ProgramError>, written: Vec<u8>, reported: Vec<u8>) -> Run {
    match done {
        Ok(status) => Run {
            status: Some(status),
            is_memory: false,
            written,
            reported,
        },
        Err(error) => {
            let is_memory = error.is_memory();
            drop(error);
            Run {
                status: None,
                is_memory,
                written,
                reported,
            }
        }
    }
}

/// No stream is a terminal.
pub(crate) const NO_TERMINALS: Terminals = Terminals {
    output: false,
    errors: false,
};

// The command `build` over a runtime.
fn build_over<R: SharedFiles + Env + Clock>(
    alloc: Global,
    rt: &R,
    arguments: &BuildArguments<'_>,
    input: &[u8],
    reported: &mut Vec<u8>,
) -> Result<u8, ProgramError> {
    let mut out: Vec<u8> = Vec::new(alloc);
    let mut rows = input;
    let mut errors = Paced::new(rt, NO_TERMINALS, reported);
    let mut console = Console::new(alloc, NO_TERMINALS, &mut out, &mut errors);
    build(rt, arguments, &mut rows, &mut console)
}

// The command on a request.
fn run_request(alloc: Global, disk: &Disk, request: &Request<'_>, input: &[u8]) -> Run {
    let mut reported: Vec<u8> = Vec::new(alloc);
    let done = match request {
        Request::Build(arguments) => {
            build_over(
                alloc,
                &DiskRuntime { disk },
                arguments,
                input,
                &mut reported,
            )
        }
        _ => Ok(3),
    };
    run_of(done, Vec::new(alloc), reported)
}

/// The command on arguments, behind the program's name, over a disk and standard input.
pub(crate) fn run_on(alloc: Global, disk: &Disk, texts: &[&str], input: &[u8]) -> Run {
    let words = words_of(alloc, texts).unwrap_or(Vec::new(alloc));
    match request_of(alloc, &words) {
        Ok(request) => {
            let run = run_request(alloc, disk, &request, input);
            drop(request);
            run
        }
        Err(reason) => {
            let is_memory = matches!(&reason, NoRequest::Memory);
            drop(reason);
            Run {
                status: Some(2),
                is_memory,
                written: Vec::new(alloc),
                reported: Vec::new(alloc),
            }
        }
    }
}

// The command `install` over a runtime.
fn install_over<R: SharedFiles + Env + Clock>(
    alloc: Global,
    rt: &R,
    arguments: &InstallArguments<'_>,
    written: &mut Vec<u8>,
    reported: &mut Vec<u8>,
) -> Result<u8, ProgramError> {
    let mut errors = Paced::new(rt, NO_TERMINALS, reported);
    let mut console = Console::new(alloc, NO_TERMINALS, written, &mut errors);
    install(rt, arguments, &mut console)
}

/// The command `install` over a disk.
pub(crate) fn install_on(alloc: Global, disk: &Disk, arguments: &InstallArguments<'_>) -> Run {
    let mut written: Vec<u8> = Vec::new(alloc);
    let mut reported: Vec<u8> = Vec::new(alloc);
    let rt = DiskRuntime { disk };
    let done = install_over(alloc, &rt, arguments, &mut written, &mut reported);
    run_of(done, written, reported)
}
