//! Measures the library. The programs of `bench/`, which measure others, look up the same addresses and
//! print the same names and sums.
#![tactic(auto)]

mod addresses;
mod figures;
mod subject;
mod work;

use figures::{Figures, show_all};
use std::env;
use std::process::ExitCode;
use subject::Subject;

const USAGE: &str = "usage: mmdb_bench FILE N REPEATS | FILE N checksums";

// What the arguments ask for.
#[derive(Drop)]
struct Command<'a> {
    file: &'a str,
    count: usize,
    figures: Figures,
}

// A number that is above 0.
fn positive(word: &str) -> Option<usize> {
    match word.parse::<usize>() {
        Ok(number) if number > 0 => Some(number),
        _ => None,
    }
}

fn command_of(words: &[String]) -> Option<Command<'_>> {
    let [_, file, count, how] = words else {
        return None;
    };
    let figures = if how.as_str() == "checksums" {
        Figures::Checksums
    } else {
        Figures::Times(positive(how.as_str())?)
    };
    Some(Command {
        file: file.as_str(),
        count: positive(count.as_str())?,
        figures,
    })
}

fn main(rt: HostRuntime) -> anyhow::Result<ExitCode> {
    let mut words = Vec::new(rt.alloc());
    for word in env::args(&rt)? {
        words.push(word)?;
    }
    let Some(command) = command_of(words.as_slice()) else {
        eprintln!(rt; "{USAGE}")?;
        return Ok(ExitCode::from(2));
    };
    let subject = Subject::open(&rt, command.file, command.count)?;
    show_all(&rt, &subject, command.figures)?;
    Ok(ExitCode::SUCCESS)
}
