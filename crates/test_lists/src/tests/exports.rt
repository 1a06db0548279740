//! Networks with what their records have.
use crate::tests::asserted::assert_of;
use mmdb_vectors::builder::{BASE_NODE, changed_file};
use mmdb_vectors::section::section_of;
use std::alloc::Global;
use std::process::Abort;
use test_runs::program::{Run, run_of};
use test_runs::trees::file_of_nodes;

/// The records of the nodes: of three that lead to others, and of the eight networks of /3, where offset o is 23 + o,
/// 7 is none, and 4096 lies past the data.
const NODES: &[(u32, u32)] = &[
    (1, 2),
    (3, 4),
    (5, 6),
    (23, 42),
    (23, 7),
    (4096, 44),
    (56, 64),
];

/// At 0 the record {"a": "x,\"y\"", "n": 7, "l": ["z"]}, at 19 a text that is not UTF-8, at 21 the record
/// {"a": {"b": 1}, "n": T} with that text as T, at 33 {"a": {"b": true}}, at 41 an empty one.
const DATA: &[u8] =
    b"\xE3\x41a\x45x,\"y\"\x41n\xA1\x07\x41l\x01\x04\x41z\x41\xFF\xE2\x41a\xE1\x41b\xA1\x01\x41n\x41\xFF\xE1\x41a\xE1\x41b\x01\x07\xE0";

/// Words, standard output, and what each line of standard error has to hold.
type Row<'a> = (&'a [&'a str], &'a str, &'a [&'a str]);

const RECORDS: &str =
    "{\"network\":\"0.0.0.0/3\",\"record\":{\"a\":\"x,\\\"y\\\"\",\"n\":7,\"l\":[\"z\"]}}
{\"network\":\"64.0.0.0/3\",\"record\":{\"a\":\"x,\\\"y\\\"\",\"n\":7,\"l\":[\"z\"]}}
{\"network\":\"192.0.0.0/3\",\"record\":{\"a\":{\"b\":true}}}
{\"network\":\"224.0.0.0/3\",\"record\":{}}
";

const CELLS: &str = "network,a,n
0.0.0.0/3,\"x,\"\"y\"\"\",7
32.0.0.0/3,,
64.0.0.0/3,\"x,\"\"y\"\"\",7
192.0.0.0/3,\"{\"\"b\"\":true}\",
224.0.0.0/3,,
";

const VALUES: &str = "{\"network\":\"192.0.0.0/3\",\"a\":{\"b\":true},\"l.-1\":null}
{\"network\":\"224.0.0.0/3\",\"a\":null,\"l.-1\":null}
";

const THREE: &[&str] = &[
    "32.0.0.0/3: ",
    "a network behind 64.0.0.0/3: invalid database",
    "160.0.0.0/3: ",
    "3 networks could not be read",
];

/// A field of a text is nowhere, whatever the text is.
const TWO: &[&str] = &[
    "a network behind 64.0.0.0/3: invalid database",
    "160.0.0.0/3: ",
    "2 networks could not be read",
];

#[rattlefmt::skip]
const ROWS: &[Row<'static>] = &[
    // faults are reported in their places, and nothing before or after them is lost
    (&["export", "here.mmdb"], RECORDS, THREE),
    (&["export", "here.mmdb", "--field", "a", "--field", "n", "--format", "csv"], CELLS, TWO),
    // a fault in a field that is not asked for is none
    (
        &["export", "here.mmdb", "160.0.0.0/3", "--field", "a.b", "--format", "csv"],
        "network,a.b\n160.0.0.0/3,1\n",
        &[],
    ),
    (
        &["export", "here.mmdb", "192.0.0.0/2", "--field", "a", "--field", "l.-1"],
        VALUES,
        &["mmdb: no record has l.-1"],
    ),
    (
        &["export", "here.mmdb", "64.0.0.0/2", "--format", "jsonl", "--field", "l.-1"],
        "{\"network\":\"64.0.0.0/3\",\"l.-1\":\"z\"}\n",
        &[],
    ),
    // names of columns are quoted too
    (
        &["export", "here.mmdb", "192.0.0.0/2", "--field", "\"a\".b", "--format", "csv"],
        "network,\"\"\"a\"\".b\"\n192.0.0.0/3,true\n224.0.0.0/3,\n",
        &[],
    ),
    (&["export", "here.mmdb", "224.0.0.0/3", "--field", "", "--format", "csv"], "network,\n224.0.0.0/3,{}\n", &[]),
    // a range without data has a header alone
    (&["export", "here.mmdb", "96.0.0.0/3", "--field", "a", "--format", "csv"], "network,a\n", &[]),
    (&["export", "here.mmdb", "96.0.0.0/3", "--field", "a"], "", &[]),
    // an address is the network of one, and a row ends where it does
    (&["export", "here.mmdb", "65.0.0.1", "--field", "n"], "{\"network\":\"65.0.0.1/32\",\"n\":7}\n", &[]),
];

// Whether there are as many lines as parts, and each holds its own.
pub(crate) fn lines_hold(text: &str, parts: &[&str]) -> bool {
    for (line, part) in text.lines().zip(parts.iter()) {
        if !line.contains(part) {
            return false;
        }
    }
    text.lines().count() == parts.len()
}

// Whether it is no error that is said: that no record has a field, or no network a value that a list of plain blocks may lack.
fn is_note(part: &str) -> bool {
    part.contains("no record has ")
        || part.contains("no network has ") && !part.contains("; --allow-")
}

// Whether a run wrote a text, and reported lines that hold some parts.
pub(crate) fn is_as_wanted(run: &Run, written: &str, message: &[&str]) -> bool {
    let status = u8::from(message.iter().any(|part| !is_note(part)));
    run.out() == written && run.status == status && lines_hold(run.err(), message)
}

#[test]
fn networks_with_fields(rt: HostRuntime) {
    let bytes = file_of_nodes(rt.alloc(), NODES, b"\xC1\x07", DATA).expect(&rt, "a file");
    for (texts, written, message) in ROWS {
        let run = run_of(rt.alloc(), bytes.as_slice(), texts, "");
        assert_of(&rt, texts, &run, is_as_wanted(&run, written, message));
    }
}

/// The beginnings and the lengths of lines whose records are a text of 5,000 bytes and one of one byte, in turn.
const LONG_AND_SHORT: &[(&str, usize)] = &[
    ("{\"network\":\"0.0.0.0/2\",\"record\":\"lll", 5035),
    ("{\"network\":\"64.0.0.0/2\",\"record\":\"s\"}", 37),
    ("{\"network\":\"128.0.0.0/2\",\"record\":\"lll", 5037),
    ("{\"network\":\"192.0.0.0/2\",\"record\":\"s\"}", 38),
];

/// A text of 5,000 bytes, and one of one byte.
const LONG_AND_SHORT_DATA: &[(&[u8], usize)] = &[(b"\x5E\x12\x6B", 1), (b"l", 5000), (b"\x41s", 1)];

// Whether the lines of a text begin so, and are so long.
fn are_long_and_short(text: &str) -> bool {
    for (line, (begins, length)) in text.lines().zip(LONG_AND_SHORT.iter()) {
        if !line.starts_with(begins) || line.len() != *length {
            return false;
        }
    }
    text.lines().count() == LONG_AND_SHORT.len()
}

// Four networks have the long and the short text in turn.
#[test]
fn rows_too_long_to_be_kept(rt: HostRuntime) {
    let data = section_of(rt.alloc(), LONG_AND_SHORT_DATA);
    let nodes = [(1, 2), (19, 5022), (19, 5022)];
    let bytes = file_of_nodes(rt.alloc(), &nodes, b"\xC1\x03", data.as_slice()).expect(
        &rt, "a file",
    );
    let texts = ["export", "here.mmdb"];
    let run = run_of(rt.alloc(), bytes.as_slice(), &texts, "");
    let holds = run.status == 0 && are_long_and_short(run.out());
    assert_of(&rt, &texts, &run, holds);
}

// A text of so many bytes, behind its header: of 285 to 65,820.
fn text_of(alloc: Global, len: usize) -> Vec<u8> {
    let size = (len.saturating_sub(285) as u64 & 0xffff) as u16;
    let [high, low] = size.to_be_bytes();
    section_of(alloc, &[(&[0x5E, high, low], 1), (b"x", len)])
}

// Whether the one network of a file whose record is a text of so many bytes is written so.
fn is_whole_row(rt: &impl Abort, alloc: Global, len: usize, words: &[&str], ends: &[&str]) -> bool {
    let data = text_of(alloc, len);
    let file = changed_file(alloc, BASE_NODE, data.as_slice(), &[]).expect(rt, "a file");
    let run = run_of(alloc, file.as_slice(), words, "");
    let [before, behind] = ends else {
        return false;
    };
    let parts: &[(&[u8], usize)] = &[(before.as_bytes(), 1), (b"x", len), (behind.as_bytes(), 1)];
    let wanted = section_of(alloc, parts);
    let is_same = run.written.as_slice() == wanted.as_slice() && run.status == 0;
    drop(run);
    is_same
}

/// Words, and what stands before and behind the text of the record.
#[rattlefmt::skip]
const FORMS: &[(&[&str], &[&str])] = &[
    (&["export", "here.mmdb"], &["{\"network\":\"128.0.0.0/1\",\"record\":\"", "\"}\n"]),
    (&["export", "here.mmdb", "--field", ""], &["{\"network\":\"128.0.0.0/1\",\"\":\"", "\"}\n"]),
    (&["export", "here.mmdb", "--field", "", "--format", "csv"], &["network,\n128.0.0.0/1,", "\n"]),
];

// Rows of 1,024 bytes and longer ones are put in other ways, as rows of 4,096 are kept in others, and texts of 32,768 bytes
// laid out.
#[test]
fn rows_of_all_lengths(rt: HostRuntime) {
    for (from, to) in [(980, 1030), (4060, 4100), (32_740, 32_770)] {
        for len in from..to {
            for (words, ends) in FORMS {
                let is_whole = is_whole_row(&rt, rt.alloc(), len, words, ends);
                assert!(rt; is_whole, "{len}: {words:?}");
            }
        }
    }
}
