//! Jobs that users wait for, on databases and logs that a seed gives: what is measured by `bench/run`.
#![tactic(auto)]

mod awkward;
mod checks;
mod cities;
mod database;
mod digest;
mod enriching;
mod exports;
mod keys;
mod logs;
mod names;
mod places;
mod program;
mod random;
mod records;
mod section;
mod tree;

use digest::Digest;
use std::alloc::Global;
use std::env;
use std::process::ExitCode;

const USAGE: &str = "usage: mmdb_workloads WORKLOAD SEED [DIVISOR]";

/// The workloads, in the order in which `all` runs them.
const ALL: &[&str] = &[
    "export-city",
    "export-country",
    "enrich",
    "records",
    "checks",
    "awkward",
];

// What the arguments ask for. Inputs are the smaller the greater the divisor.
#[derive(Clone, Copy)]
struct Task<'a> {
    name: &'a str,
    seed: u64,
    divisor: u32,
}

fn task_of(words: &[String]) -> Option<Task<'_>> {
    let (name, seed, divisor) = match words {
        [_, name, seed] => (name, seed, 1),
        [_, name, seed, divisor] => (name, seed, divisor.parse::<u32>().ok()?),
        _ => return None,
    };
    Some(Task {
        name: name.as_str(),
        seed: seed.parse::<u64>().ok()?,
        divisor,
    })
}

// Runs a workload. Whether there is one of its name.
fn run_one(alloc: Global, task: Task<'_>, digest: &mut Digest) -> anyhow::Result<bool> {
    let (seed, divisor) = (task.seed, task.divisor);
    match task.name {
        "export-city" => exports::export_city(alloc, seed, divisor, digest)?,
        "export-country" => exports::export_country(alloc, seed, divisor, digest)?,
        "enrich" => enriching::enrich(alloc, seed, divisor, digest)?,
        "records" => records::records(alloc, seed, divisor, digest)?,
        "checks" => checks::checks(alloc, seed, divisor, digest)?,
        "awkward" => awkward::awkward(alloc, seed, divisor, digest)?,
        _ => return Ok(false),
    }
    Ok(true)
}

// Runs a workload, and prints the digest of its results. Whether there is one of its name.
fn show(rt: &HostRuntime, task: Task<'_>) -> anyhow::Result<bool> {
    let mut digest = Digest::new(rt.alloc());
    if !run_one(rt.alloc(), task, &mut digest)? {
        return Ok(false);
    }
    let sum = digest.sum();
    println!(rt; "{}\t{sum:016x}", task.name)?;
    Ok(true)
}

// Runs what is asked for. Whether that is there.
fn run_task(rt: &HostRuntime, task: Task<'_>) -> anyhow::Result<bool> {
    if task.name != "all" {
        return show(rt, task);
    }
    for name in ALL {
        show(
            rt,
            Task {
                name: *name,
                ..task
            },
        )?;
    }
    Ok(true)
}

fn main(rt: HostRuntime) -> anyhow::Result<ExitCode> {
    let mut words = Vec::new(rt.alloc());
    for word in env::args(&rt)? {
        words.push(word)?;
    }
    let is_run = match task_of(words.as_slice()) {
        Some(task) => run_task(&rt, task)?,
        None => false,
    };
    if is_run {
        return Ok(ExitCode::SUCCESS);
    }
    eprintln!(rt; "{USAGE}")?;
    Ok(ExitCode::from(2))
}
