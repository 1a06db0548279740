//! Which options and metadata are equal, and which are not.
use super::answers::{assert_holds, assert_row, opened};
use maxminddb::{Metadata, WithinOptions};
use mmdb_vectors::answer::is_ok;
use mmdb_vectors::builder::{BASE_DATA, Field, base_file, changed_file};
use mmdb_vectors::equality::equality;
use std::alloc::{AllocError, Global};
use std::process::Abort;

// The options that the bits of a number switch on.
fn options_of(bits: u8) -> WithinOptions {
    let mut options = WithinOptions::default();
    if bits % 2 == 1 {
        options = options.include_aliased_networks();
    }
    if bits / 2 % 2 == 1 {
        options = options.include_networks_without_data();
    }
    if bits / 4 % 2 == 1 {
        options = options.skip_empty_values();
    }
    options
}

#[test]
fn options(rt: HostRuntime) {
    for a in 0..8u8 {
        for b in 0..8u8 {
            let reported = equality(&options_of(a), &options_of(b));
            assert_row(&rt, reported == Some(a == b), &(a, b));
        }
    }
}

/// Another value in one of the base file's fields, by its name.
#[rattlefmt::skip]
const OTHERS: &[(&str, (Field, &[u8]))] = &[
    ("minor version", (Field::MinorVersion, b"\xA1\x01")),
    ("build epoch", (Field::BuildEpoch, b"\x01\x02\x02")),
    ("database type", (Field::DatabaseType, b"\x41U")),
    ("version of IP", (Field::IpVersion, b"\xA1\x06")),
    ("node count", (Field::NodeCount, b"\xC1\x02")),
    ("record size", (Field::RecordSize, b"\xA1\x1C")),
];

/// The node of the base file, in fourteen bytes of nodes, which have room for each of the trees.
const NODES: &[u8] = b"\x00\x00\x01\x00\x00\x11\0\0\0\0\0\0\0\0";

// Asserts what equality says of the metadata of the base file and of another one.
fn assert_equal_to_base(
    rt: &impl Abort,
    alloc: Global,
    file: Result<Vec<u8>, AllocError>,
    is_equal: bool,
    case: &str,
) {
    let base = opened(rt, alloc, base_file(alloc));
    let other = opened(rt, alloc, file);
    let reported = equality(base.metadata(), other.metadata());
    assert_holds(rt, reported == Some(is_equal), case);
}

#[test]
fn metadata_of_files(rt: HostRuntime) {
    let alloc = rt.alloc();
    assert_equal_to_base(&rt, alloc, base_file(alloc), true, "the base file");
    for (name, change) in OTHERS {
        let file = changed_file(alloc, NODES, BASE_DATA, &[*change]);
        assert_equal_to_base(&rt, alloc, file, false, name);
    }
}

/// What is changed by hand in a clone.
enum Change {
    Nothing,
    MajorVersion,
    Languages,
    Description,
}

fn text(rt: &impl Abort, alloc: Global, text: &str) -> String {
    String::from_str(alloc, text).expect(rt, text)
}

fn apply(rt: &impl Abort, alloc: Global, metadata: &mut Metadata, change: &Change) {
    match change {
        Change::Nothing => {}
        Change::MajorVersion => metadata.binary_format_major_version = 3,
        Change::Languages => {
            let language = text(rt, alloc, "en");
            assert_holds(rt, is_ok(metadata.languages.push(language)), "a language");
        }
        Change::Description => {
            let (language, text) = (text(rt, alloc, "de"), text(rt, alloc, "d"));
            let is_put = is_ok(metadata.description.insert(language, text));
            assert_holds(rt, is_put, "a description");
        }
    }
}

#[rattlefmt::skip]
const CHANGES: &[(&str, Change, bool)] = &[
    ("nothing", Change::Nothing, true),
    ("major version", Change::MajorVersion, false),
    ("languages", Change::Languages, false),
    ("description", Change::Description, false),
];

// Asserts what equality says of metadata and of a clone that is changed by hand.
fn assert_changed(rt: &impl Abort, alloc: Global, base: &Metadata, row: &(&str, Change, bool)) {
    let (name, change, is_equal) = row;
    let mut other = base.clone().expect(rt, "a clone");
    apply(rt, alloc, &mut other, change);
    assert_holds(rt, equality(base, &other) == Some(*is_equal), name);
}

#[test]
fn metadata_made_by_hand(rt: HostRuntime) {
    let base = opened(&rt, rt.alloc(), base_file(rt.alloc()));
    for row in CHANGES {
        assert_changed(&rt, rt.alloc(), base.metadata(), row);
    }
}
