//! Calls of the system that fail, and memory that runs out: the file is the old one or the new one, whole.
use super::disk::Disk;
use super::run::{Run, run_on};
use mmdb_vectors::base::BASE_FILE;
use mmdb_vectors::hoard::Hoard;
use std::alloc::Global;
use std::process::Abort;

const ROWS: &[u8] =
    b"{\"network\":\"1.0.0.0/8\",\"record\":\"a\"}\n{\"network\":\"2.0.0.0/8\",\"country.iso_code\":\"b\"}\n";

const WORDS: &[&str] = &[
    "mmdb",
    "build",
    "out.mmdb",
    "--from",
    "rows",
    "--types-like",
    "out.mmdb",
    "--check",
];

/// What a run left that was killed, which is taken, and other files.
const LEFT: &[&str] = &[".out.mmdb.tmp", ".other.mmdb.tmp", ".out.mmdb.tmp-5-1"];

/// Which of them stay.
const STAYING: &[&str] = &[".other.mmdb.tmp", ".out.mmdb.tmp-5-1"];

// A disk with an old file, rows, and what other runs have or left.
fn disk_with(alloc: Global, fails_at: u32) -> Disk {
    let disk = Disk::new(alloc, fails_at, Some("7"));
    let _ = disk.put("out.mmdb", BASE_FILE);
    let _ = disk.put("rows", ROWS);
    for left in LEFT {
        let _ = disk.put(left, b"left");
    }
    disk
}

// What a run without a fault makes, and how many calls it has.
fn without_fault(rt: &impl Abort, alloc: Global) -> (Vec<u8>, u32) {
    let disk = disk_with(alloc, u32::MAX);
    let run = run_on(alloc, &disk, WORDS, b"");
    assert!(rt; run.status == Some(0), "{}", run.err());
    assert!(rt; disk.len() == STAYING.len() + 2, "{} files", disk.len());
    for name in STAYING {
        assert!(rt; disk.get(name).is_some(), "{name} is removed");
    }
    assert!(rt; disk.mode() == 0o644, "the mode is {}", disk.mode());
    let made = disk.get("out.mmdb").expect(rt, "a file");
    assert!(rt; made.as_slice() != BASE_FILE, "the old file");
    (made, disk.calls())
}

// Asserts that the file is the new one where all is said to be done, and else the old one.
fn assert_whole(rt: &impl Abort, run: &Run, file: &[u8], made: &[u8]) {
    let wanted = if run.status == Some(0) {
        made
    } else {
        BASE_FILE
    };
    assert!(rt; file == wanted, "another file: {}", run.err());
}

/// How many calls there are behind the one that gives the file its name: those that bring the name to the disk.
const LAST_CALLS: u32 = 2;

#[test]
fn calls_that_fail_in_turn(rt: HostRuntime) {
    let alloc = rt.alloc();
    let (made, calls) = without_fault(&rt, alloc);
    let mut failed = 0u32;
    for fails_at in 0..calls {
        let disk = disk_with(alloc, fails_at);
        let run = run_on(alloc, &disk, WORDS, b"");
        let file = disk.get("out.mmdb").expect(&rt, "a file");
        if fails_at < calls.saturating_sub(LAST_CALLS) {
            assert_whole(&rt, &run, &file, &made);
        } else {
            assert!(rt; run.status == Some(1) && file == made, "{}", run.err());
        }
        if run.status == Some(1) {
            failed = failed.saturating_add(1);
            assert!(rt; run.err().contains("mmdb: "), "nothing is said");
        }
    }
    assert!(rt; failed > 10, "{failed} of {calls} runs failed");
}

#[test]
fn what_is_no_database_stays(rt: HostRuntime) {
    let alloc = rt.alloc();
    let disk = disk_with(alloc, u32::MAX);
    let _ = disk.put("out.mmdb", ROWS);
    let words = &["mmdb", "build", "out.mmdb", "--from", "rows"];
    let run = run_on(alloc, &disk, words, b"");
    let file = disk.get("out.mmdb").expect(&rt, "a file");
    assert!(rt;
        run.status == Some(1) && file.as_slice() == ROWS,
        "{}",
        run.err()
    );
}

/// By how many bytes budgets differ, and how many there are.
const STEP: usize = 32_768;

const BUDGETS: usize = 100;

// A run with so much memory.
fn with_budget(alloc: Global, disk: &Disk, budget: usize) -> Run {
    let hoard = Hoard::around(alloc, budget);
    let run = run_on(alloc, disk, WORDS, b"");
    drop(hoard);
    run
}

#[test]
fn memory_that_runs_out(rt: HostRuntime) {
    let alloc = rt.alloc();
    let (made, _) = without_fault(&rt, alloc);
    let (mut done, mut out_of_memory) = (0u32, 0u32);
    for step in 0..BUDGETS {
        let disk = disk_with(alloc, u32::MAX);
        let run = with_budget(alloc, &disk, step.saturating_mul(STEP));
        let file = disk.get("out.mmdb").expect(&rt, "a file");
        assert_whole(&rt, &run, &file, &made);
        if run.status == Some(0) {
            done = done.saturating_add(1);
        } else {
            out_of_memory = out_of_memory.saturating_add(1);
        }
    }
    assert!(rt;
        done > 0 && out_of_memory > 0,
        "{done} done, {out_of_memory} out of memory"
    );
}
