//! Reports with a line for each prefix of a spine: from the root on one half of each node is the node itself, and the
//! other one a network. No network has prefix 0, since the root is a node.
use mmdb_tool::{Out, run_bytes};
use mmdb_vectors::builder::{BASE_DATA, Field, changed_file};
use mmdb_vectors::words::words_of;
use std::alloc::{AllocError, Global};

/// A node, and the last prefixes of IPv4 and of IPv6 that have a line.
type Row = (&'static [u8], u8, u8);

/// A spine of zeros, whose networks behind 96 zeros are IPv4, and one of ones, which leaves the nodes at the first zero.
const ROWS: &[Row] = &[
    (b"\x00\x00\x00\x00\x00\x11", 32, 96),
    (b"\x00\x00\x11\x00\x00\x00", 0, 128),
];

const WORDS: [&str; 3] = ["report", "here.mmdb", "::/0"];

fn push_lines(alloc: Global, text: &mut String, kind: &str, last: u8) -> Result<(), AllocError> {
    for prefix in 1..=last {
        let line = format!(in alloc; "{kind}/{prefix} 1\n")?;
        text.push_str(line.as_str())?;
    }
    Ok(())
}

fn lines_of(alloc: Global, row: &Row) -> Result<String, AllocError> {
    let mut text = String::new(alloc);
    push_lines(alloc, &mut text, "v4", row.1)?;
    push_lines(alloc, &mut text, "v6", row.2)?;
    text.push_str("empty 0\nfaults 1\noffsets 1\n")?;
    Ok(text)
}

// Whether the report of the row's file is the row's lines.
fn is_reported(alloc: Global, row: &Row) -> Result<bool, AllocError> {
    let changes = [(Field::IpVersion, b"\xA1\x06".as_slice())];
    let file = changed_file(alloc, row.0, BASE_DATA, &changes)?;
    let words = words_of(alloc, &WORDS)?;
    let mut out = Out::new(Vec::new(alloc));
    let mut err = Out::new(Vec::new(alloc));
    let status = run_bytes(alloc, file.as_slice(), words.as_slice(), &mut out, &mut err);
    let lines = lines_of(alloc, row)?;
    let written = out.into_inner();
    Ok(status == 0 && written.as_slice() == lines.as_bytes())
}

#[test]
fn reports_of_spines(rt: HostRuntime) {
    for row in ROWS {
        let holds = is_reported(rt.alloc(), row).unwrap_or(false);
        assert!(rt; holds, "to prefix {} of IPv4 and {} of IPv6", row.1, row.2);
    }
}
