//! The program's arguments, and the files that it opens.
use super::runs::{assert_done, assert_done_both, assert_done_with};
use mmdb_vectors::base::BASE_FILE;
use mmdb_vectors::builder::{BASE, BASE_DATA, BASE_NODE, file};
use mmdb_vectors::file::TestFiles;
use std::alloc::Global;
use std::process::Abort;
use std::{fs, io};

const USAGE: &str =
    "usage: mmdb_tool lookup FILE ADDR | list FILE RANGE [--aliases] [--empty] [--skip-empty] | verify FILE | report FILE RANGE [--aliases] [--empty] [--skip-empty]\n";

const FOUND: [&str; 3] = ["lookup", "here.mmdb", "200.0.0.1"];

const ABSENT: [&str; 3] = ["lookup", "here.mmdb", "1.1.1.1"];

/// Words that the program runs.
#[rattlefmt::skip]
const RUN: &[(&[&str], u8, &str, &str)] = &[
    (&[], 0, USAGE, ""),
    (&FOUND, 0, "128.0.0.0/1 0\n", ""),
    (&ABSENT, 0, "0.0.0.0/1 -\n", ""),
    (
        &["lookup", "here.mmdb", "::1"],
        1,
        "",
        "invalid input: cannot look up IPv6 address in IPv4-only database\n",
    ),
    (
        &["list", "here.mmdb", "::/0"],
        1,
        "",
        "invalid input: cannot iterate IPv6 network in IPv4-only database\n",
    ),
    (&["verify", "here.mmdb"], 0, "ok\n", ""),
    (
        &["report", "here.mmdb", "0.0.0.0/0"],
        0,
        "v4/1 1\nempty 0\nfaults 0\noffsets 1\n",
        "",
    ),
    (
        &["report", "here.mmdb", "::/0"],
        1,
        "",
        "invalid input: cannot iterate IPv6 network in IPv4-only database\n",
    ),
];

/// Words that are no command: no file is opened, and that of most is missing.
#[rattlefmt::skip]
const BAD: &[&[&str]] = &[
    &[""],
    &["frob"],
    &["frob", "here.mmdb", "1.1.1.1"],
    &["LOOKUP", "here.mmdb", "1.1.1.1"],
    &["lookup"],
    &["lookup", "gone.mmdb"],
    &["lookup", "here.mmdb", "x"],
    &["lookup", "gone.mmdb", "x"],
    &["lookup", "gone.mmdb", ""],
    &["lookup", "gone.mmdb", "1.1.1.1", "extra"],
    &["lookup", "gone.mmdb", "010.0.0.1"],
    &["lookup", "gone.mmdb", "1.1.1.1/32"],
    &["lookup", "gone.mmdb", "fe80::1%1"],
    &["", "lookup", "gone.mmdb", "1.1.1.1"],
    &["verify"],
    &["verify", "gone.mmdb", "extra"],
    &["VERIFY", "gone.mmdb"],
    &["list", "gone.mmdb"],
    &["list", "gone.mmdb", "x"],
    &["list", "--empty", "gone.mmdb", "0.0.0.0/0"],
    // An option in the place of the range, with and without the range after it.
    &["list", "gone.mmdb", "--empty"],
    &["list", "gone.mmdb", "--empty", "0.0.0.0/0"],
    &["list", "gone.mmdb", "--aliases", "0.0.0.0/0"],
    &["list", "gone.mmdb", "--skip-empty", "0.0.0.0/0"],
    &["list", "here.mmdb", "--empty", "0.0.0.0/0"],
    // An option twice.
    &["list", "gone.mmdb", "0.0.0.0/0", "--empty", "--empty"],
    &["list", "gone.mmdb", "0.0.0.0/0", "--aliases", "--aliases"],
    &["list", "gone.mmdb", "0.0.0.0/0", "--skip-empty", "--skip-empty"],
    &["list", "gone.mmdb", "0.0.0.0/0", "--empty", "--aliases", "--empty"],
    &["list", "here.mmdb", "0.0.0.0/0", "--empty", "--empty"],
    // An option that there is not, and words that are no option.
    &["list", "gone.mmdb", "0.0.0.0/0", "--all"],
    &["list", "gone.mmdb", "0.0.0.0/0", "--empty", "--all"],
    &["list", "gone.mmdb", "0.0.0.0/0", "--Empty"],
    &["list", "gone.mmdb", "0.0.0.0/0", "-empty"],
    &["list", "gone.mmdb", "0.0.0.0/0", ""],
    &["list", "gone.mmdb", "0.0.0.0/0", "1.0.0.0/8"],
    &["list", "here.mmdb", "0.0.0.0/0", "--all"],
    &["report", "gone.mmdb"],
    &["report", "gone.mmdb", "x"],
    &["report", "--empty", "gone.mmdb", "0.0.0.0/0"],
    &["report", "gone.mmdb", "--empty", "0.0.0.0/0"],
    &["report", "gone.mmdb", "0.0.0.0/0", "--empty", "--empty"],
    &["report", "gone.mmdb", "0.0.0.0/0", "--all"],
    &["REPORT", "here.mmdb", "0.0.0.0/0"],
];

#[test]
fn words_of_the_program(rt: HostRuntime) {
    for (texts, status, out, err) in RUN {
        assert_done_both(
            &rt,
            rt.alloc(),
            BASE_FILE,
            1000,
            texts,
            (*status, *out, *err),
        );
    }
}

#[test]
fn bad_words(rt: HostRuntime) {
    let done = (2, "", USAGE);
    for texts in BAD {
        assert_done_both(&rt, rt.alloc(), BASE_FILE, 1000, texts, done);
        // No file, and one that can't be read: neither is reported.
        assert_done_both(&rt, rt.alloc(), b"", 0, texts, done);
    }
}

// Asserts that a file which can't be opened, or is no database, is reported by `lookup` and by `verify`.
fn assert_rejected(rt: &impl Abort, alloc: Global, files: &TestFiles<'_>, path: &str, text: &str) {
    let lookup = ["lookup", path, "1.1.1.1"];
    assert_done(rt, alloc, files, &lookup, (1, "", text));
    assert_done(rt, alloc, files, &["verify", path], (1, "", text));
}

#[test]
fn rejected_files(rt: HostRuntime) {
    let no_marker = "invalid database: could not find MaxMind DB metadata in file\n";
    let empty = TestFiles::new(b"", 1000);
    assert_rejected(&rt, rt.alloc(), &empty, "here.mmdb", no_marker);
    assert_done_with(&rt, rt.alloc(), b"", &FOUND, (1, "", no_marker));
}

/// A path, the read of the base file that fails, and why the file can't be read.
const UNREAD: [(&str, u32, io::ErrorKind); 2] = [
    ("gone.mmdb", 1000, io::ErrorKind::NotFound),
    ("here.mmdb", 2, io::ErrorKind::InvalidData),
];

// Asserts that the base file can't be read, and why.
fn assert_unread(rt: &impl Abort, alloc: Global, path: &str, fails_at: u32, kind: io::ErrorKind) {
    let text = format!(in alloc; "i/o error: {}\n", io::Error::from(kind)).expect(rt, path);
    let files = TestFiles::new(BASE_FILE, fails_at);
    assert_rejected(rt, alloc, &files, path, text.as_str());
}

#[test]
fn unread_files(rt: HostRuntime) {
    for (path, fails_at, kind) in UNREAD {
        assert_unread(&rt, rt.alloc(), path, fails_at, kind);
    }
}

/// A node, data, and what is reported of their file.
#[rattlefmt::skip]
const DAMAGED: &[(&[u8], &[u8], &str)] = &[
    (
        b"\x00\x00\x10\x00\x00\x11",
        BASE_DATA,
        "invalid database: the MaxMind DB file's data pointer resolves to an invalid location\n",
    ),
    (
        BASE_NODE,
        b"\x20\x00",
        "invalid database at offset 22: cyclic data pointer references offset 0\n",
    ),
];

#[test]
fn damaged_files(rt: HostRuntime) {
    for (node, data, text) in DAMAGED {
        let bytes = file(rt.alloc(), node, data, BASE).expect(&rt, text);
        let words = ["verify", "here.mmdb"];
        assert_done_with(&rt, rt.alloc(), bytes.as_slice(), &words, (1, "", *text));
    }
}

/// Words that the program runs over a file on the disk, and what it writes.
const ON_DISK: [(&[&str], &str); 2] = [(&FOUND, "128.0.0.0/1 0\n"), (&ABSENT, "0.0.0.0/1 -\n")];

#[test]
fn files_through_the_program(rt: HostRuntime) {
    fs::write(&rt, "here.mmdb", BASE_FILE).expect(&rt, "a file");
    for (texts, text) in ON_DISK {
        assert_done(&rt, rt.alloc(), &rt, texts, (0, text, ""));
    }
    fs::remove_file(&rt, "here.mmdb").expect(&rt, "no file");
}
