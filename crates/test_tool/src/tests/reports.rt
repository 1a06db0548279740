//! The reports of ranges.
use super::runs::{Row, assert_rows};
use mmdb_vectors::builder::{base_file, base_with_node, file_with_alias};
use std::alloc::{AllocError, Global};
use std::process::Abort;

#[rattlefmt::skip]
const BASE_ROWS: &[Row<'static>] = &[
    (
        &["report", "FILE", "0.0.0.0/0", "--empty"],
        "v4/1 2\nempty 1\nfaults 0\noffsets 1\n",
    ),
    (&["report", "FILE", "1.0.0.0/8"], "empty 0\nfaults 0\noffsets 0\n"),
];

#[test]
fn report_of_base_file(rt: HostRuntime) {
    assert_rows(&rt, rt.alloc(), base_file(rt.alloc()), BASE_ROWS);
}

// A line for each of these prefixes, of one network.
fn push_prefixes(
    alloc: Global,
    text: &mut String,
    kind: &str,
    first: u8,
    last: u8,
) -> Result<(), AllocError> {
    for prefix in first..=last {
        text.push_str(format!(in alloc; "{kind}/{prefix} 1\n")?.as_str())?;
    }
    Ok(())
}

// Asserts the report that is a first text, a line for each of these prefixes, and a last text.
fn assert_report(
    rt: &impl Abort,
    alloc: Global,
    file: Result<Vec<u8>, AllocError>,
    words: &[&str],
    begin: &str,
    kind: &str,
    first: u8,
    last: u8,
    end: &str,
) {
    let mut text = String::from_str(alloc, begin).expect(rt, begin);
    push_prefixes(alloc, &mut text, kind, first, last).expect(rt, kind);
    text.push_str(end).expect(rt, end);
    assert_rows(rt, alloc, file, &[(words, text.as_str())]);
}

#[rattlefmt::skip]
const FAULT_ROWS: &[Row<'static>] = &[
    (&["report", "FILE", "0.0.0.0/0"], "v4/1 1\nempty 0\nfaults 1\noffsets 1\n"),
];

#[test]
fn reports(rt: HostRuntime) {
    let alloc = rt.alloc();
    let fault = base_with_node(alloc, b"\x00\x00\x10\x00\x00\x11");
    assert_rows(&rt, alloc, fault, FAULT_ROWS);

    let spine = base_with_node(alloc, b"\x00\x00\x00\x00\x00\x11");
    let words = ["report", "FILE", "0.0.0.0/0"];
    let end = "empty 0\nfaults 1\noffsets 1\n";
    assert_report(&rt, alloc, spine, &words, "", "v4", 1, 32, end);

    let alias = file_with_alias(alloc);
    let words = ["report", "FILE", "::/0", "--aliases", "--empty"];
    let end = "empty 97\nfaults 0\noffsets 1\n";
    assert_report(
        &rt,
        alloc,
        alias,
        &words,
        "v4/1 2\nv6/2 3\n",
        "v6",
        3,
        96,
        end,
    );
}
