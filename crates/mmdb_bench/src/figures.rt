//! Taking the time of work, and printing it.

use crate::subject::Subject;
use crate::work::Work;
use anyhow::bail;
use std::time::Instant;

/// What is printed of a piece of work.
#[derive(Clone, Copy)]
pub(crate) enum Figures {
    /// Its sum alone.
    Checksums,
    /// The best and the median time of so many runs, and the sum.
    Times(usize),
}

/// The times of the runs of a piece of work, in nanoseconds, and its sum.
#[derive(Drop)]
struct Runs {
    nanoseconds: Vec<u128>,
    sum: u64,
}

impl Runs {
    // The least.
    fn best(&self) -> u128 {
        self.nanoseconds.first().copied().unwrap_or(0)
    }

    fn median(&self) -> u128 {
        let middle = self.nanoseconds.len() / 2;
        self.nanoseconds.get(middle).copied().unwrap_or(0)
    }
}

// Runs the work so many times.
fn timed(
    rt: &HostRuntime,
    work: Work,
    subject: &Subject<'_>,
    repeats: usize,
) -> anyhow::Result<Runs> {
    let mut nanoseconds = Vec::with_capacity(rt.alloc(), repeats)?;
    let mut sum = 0;
    for _ in 0..repeats {
        let start = Instant::now(rt)?;
        sum = work.run(rt, subject)?;
        nanoseconds.push(start.elapsed(rt)?.as_nanos())?;
    }
    nanoseconds.sort_unstable();
    Ok(Runs { nanoseconds, sum })
}

// How many a second, where so many took this time.
fn rate(count: usize, nanoseconds: u128) -> u128 {
    count as u128 * 1_000_000_000 / nanoseconds.max(1)
}

// A line of a piece of work that looks addresses up.
fn show_rates(rt: &HostRuntime, name: &str, count: usize, runs: &Runs) -> anyhow::Result<()> {
    let best = rate(count, runs.best());
    let median = rate(count, runs.median());
    println!(rt; "{name}\t{best}\t{median}\t/s\t{}", runs.sum)?;
    Ok(())
}

// A line of a piece of work that is one whole: milliseconds.
fn show_times(rt: &HostRuntime, name: &str, runs: &Runs) -> anyhow::Result<()> {
    let best = runs.best() / 1_000;
    let median = runs.median() / 1_000;
    println!(rt;
        "{name}\t{}.{:03}\t{}.{:03}\tms\t{}",
        best / 1_000,
        best % 1_000,
        median / 1_000,
        median % 1_000,
        runs.sum
    )?;
    Ok(())
}

/// Does all work that suits the database, and prints a line of each.
pub(crate) fn show_all(
    rt: &HostRuntime,
    subject: &Subject<'_>,
    figures: Figures,
) -> anyhow::Result<()> {
    match figures {
        Figures::Checksums => println!(rt; "# what\tchecksum")?,
        Figures::Times(_) => println!(rt; "# what\tbest\tmedian\tunit\tchecksum")?,
    }
    for work in Work::ALL {
        if work.suits(subject) {
            show(rt, work, subject, figures)?;
        }
    }
    Ok(())
}

fn show(
    rt: &HostRuntime,
    work: Work,
    subject: &Subject<'_>,
    figures: Figures,
) -> anyhow::Result<()> {
    match figures {
        Figures::Checksums => {
            let sum = work.run(rt, subject)?;
            println!(rt; "{}\t{sum}", work.name())?;
        }
        Figures::Times(repeats) => {
            let runs = timed(rt, work, subject, repeats)?;
            match work.lookups(subject) {
                Some(count) => show_rates(rt, work.name(), count, &runs)?,
                None => show_times(rt, work.name(), &runs)?,
            }
        }
    }
    Ok(())
}
