//! Rows that are wrong, and arguments.
use super::disk::{DEAD_LINK, Disk, PIPE};
use super::run::{Run, run_on};
use mmdb_vectors::base::BASE_FILE;
use mmdb_vectors::builder::{Field, changed_file, nodes_24};
use std::alloc::Global;
use std::process::Abort;

/// Options, rows of which one is wrong, and what is said of it.
const BAD: &[(&[&str], &str, &str)] = &[
    (
        &[],
        "{\"network\":\"1.0.0.0/33\",\"record\":1}",
        "1: network: not a network: 1.0.0.0/33",
    ),
    (
        &[],
        "\n{\"network\":\"1.0.0.1/8\",\"record\":1}",
        "2: network: a network with bits behind its prefix: 1.0.0.1/8",
    ),
    (
        &[],
        "{\"network\":1,\"record\":1}",
        "1: network: not a network",
    ),
    (&[], "{\"record\":1}", "1: names no network"),
    (&[], "{\"network\":\"1.0.0.0/8\"}", "1: has no record"),
    (
        &[],
        "{\"network\":\"1.0.0.0/8\",\"range\":[\"1.1.1.1\",\"1.1.1.2\"],\"record\":1}",
        "1: names a network and a range",
    ),
    (
        &[],
        "{\"range\":[\"1.1.1.2\",\"1.1.1.1\"],\"record\":1}",
        "1: range: a range that ends before it begins",
    ),
    (
        &[],
        "{\"range\":[\"1.1.1.2\",\"::1\"],\"record\":1}",
        "1: range: a range from IPv4 to IPv6 or back",
    ),
    (
        &[],
        "{\"range\":[\"1.1.1.2\"],\"record\":1}",
        "1: range: not an array of two addresses",
    ),
    (
        &[],
        "{\"range\":[\"1.1.1.2\",\"x\"],\"record\":1}",
        "1: range: not an address: x",
    ),
    (&[], "[]", "1: not an object"),
    (
        &[],
        "{\"network\":\"1.0.0.0/8\",\"record\":1",
        "1: not JSON, or nested more than 128 deep",
    ),
    (
        &[],
        "{\"network\":\"1.0.0.0/8\",\"record\":\"\0\"}",
        "1: not JSON, or nested more than 128 deep",
    ),
    (
        &[],
        "{\"network\":\"1.0.0.0/8\",\"record\":{\"a\":1,\"\\u0061\":2}}",
        "1: an object has a key twice",
    ),
    (
        &[],
        "{\"network\":\"1.0.0.0/8\",\"record\":{\"a\":[null]}}",
        "1: a.0: null, which is no value of this format",
    ),
    (
        &[],
        "{\"network\":\"1.0.0.0/8\",\"record\":{\"a.b\":[1,{\"c\":null}]}}",
        "1: \"a.b\".1.c: null, which is no value of this format",
    ),
    (
        &[],
        "{\"network\":\"1.0.0.0/8\",\"record\":-2147483649}",
        "1: record: not a number that this format has: -2147483649",
    ),
    (
        &["--type", "a=uint16"],
        "{\"network\":\"1.0.0.0/8\",\"record\":{\"a\":1}}\n{\"network\":\"1.0.0.0/8\",\"record\":{\"a\":65536}}",
        "2: a: not of the type uint16: 65536",
    ),
    (
        &["--type", "a=string"],
        "{\"network\":\"1.0.0.0/8\",\"a\":{}}",
        "1: a: not of the type string",
    ),
    (
        &["--type", "a=bytes"],
        "{\"network\":\"1.0.0.0/8\",\"a\":\"?\"}",
        "1: a: not of the type bytes: ?",
    ),
    (
        &[],
        "{\"network\":\"1.0.0.0/8\",\"record\":1,\"a\":1}",
        "1: a: stands beside a record",
    ),
    (
        &[],
        "{\"network\":\"1.0.0.0/8\",\"a.-1\":1}",
        "1: a.-1: not a path, or with an index from the end",
    ),
    (
        &[],
        "{\"network\":\"1.0.0.0/8\",\"a\":1,\"a.b\":1}",
        "1: a.b: leads into another column's value, or beside its keys or indexes",
    ),
    (
        &[],
        "{\"network\":\"1.0.0.0/8\",\"a.0\":null,\"a.1\":1}",
        "1: a.1: an array's value without the one before it",
    ),
    (
        &[],
        "{\"network\":\"1.0.0.0/8\",\"b\":3,\"a.1\":1,\"a.0.x\":2,\"a.3\":1}",
        "1: a.3: leads into another column's value, or beside its keys or indexes",
    ),
    (
        &[],
        "{\"network\":\"1.0.0.0/8\",\"a.1\":1,\"a.2\":1}",
        "1: a.2: leads into another column's value, or beside its keys or indexes",
    ),
    (
        &["--ip-version", "4"],
        "{\"network\":\"::/8\",\"record\":1}",
        "1: a network of IPv6, in a file of IPv4",
    ),
    (
        &["--reserved", "error"],
        "{\"network\":\"10.1.0.0/16\",\"record\":1}",
        "1: a reserved network",
    ),
    (
        &["--reserved", "error"],
        "{\"network\":\"2001:db8:1::/48\",\"record\":1}",
        "1: a reserved network",
    ),
    (
        &["--equal", "error"],
        "{\"network\":\"1.0.0.0/8\",\"record\":1}\n{\"network\":\"1.0.0.0/9\",\"record\":1}\n{\"network\":\"::1.0.0.0/104\",\"record\":1}",
        "3: a network that another line has too",
    ),
    (
        &["--format", "csv"],
        "net,a\n1.0.0.0/8,1\n",
        "1: network: no such column in the header",
    ),
    (
        &["--format", "csv"],
        "network,a,network\n",
        "1: network: stands twice in the header",
    ),
    (
        &["--format", "csv"],
        "network,a\r1.0.0.0/8,x\r",
        "1: has a carriage return without a line feed, outside of quotes",
    ),
    (
        &["--format", "csv"],
        "network,a\r\n1.0.0.0/8,x\r2.0.0.0/8,y\r\n",
        "2: has a carriage return without a line feed, outside of quotes",
    ),
    (
        &["--format", "csv"],
        "network,a\n1.0.0.0/8,\"x\"\r2.0.0.0/8,y\n",
        "2: has a carriage return without a line feed, outside of quotes",
    ),
    (
        &["--format", "csv"],
        "network,a\n1.0.0.0/8\n",
        "2: has not as many cells as the header",
    ),
    (
        &["--format", "csv"],
        "network,a\n1.0.0.0/8,\"x\ny\"\n1.0.0.0/8,\0\n",
        "4: has a NUL byte",
    ),
    (
        &["--format", "csv", "--type", "a=uint32"],
        "network,a\n1.0.0.0/8,x\n",
        "2: a: not of the type uint32: x",
    ),
    (
        &["--format", "csv", "--range-columns", "a,b"],
        "a,b,c\n1.0.0.0,0.0.0.0,x\n",
        "2: a: a range that ends before it begins",
    ),
    (
        &["--format", "csv", "--range-columns", "a,b"],
        "a,b,c\n1.0.0.0,1.0.0.256,x\n",
        "2: b: not an address: 1.0.0.256",
    ),
    (
        &["--range-columns", "a,b"],
        "{\"a\":\"1.0.0.0\",\"b\":\"\",\"record\":1}\n",
        "1: b: not an address",
    ),
    (
        &["--range-columns", "a,b"],
        "{\"a\":1,\"b\":\"1.0.0.0\",\"record\":1}\n",
        "1: a: not an address",
    ),
    (
        &["--format", "tsv"],
        "network\ta.-1\n",
        "1: a.-1: not a path, or with an index from the end",
    ),
];

// A run over rows on standard input.
fn run_with(alloc: Global, options: &[&str], rows: &[u8]) -> Run {
    let disk = Disk::new(alloc, u32::MAX, None);
    let mut words = Vec::new(alloc);
    let _ = words.extend_from_slice(&["mmdb", "build", "out.mmdb", "--from", "-"]);
    let _ = words.extend_from_slice(options);
    let run = run_on(alloc, &disk, &words, rows);
    if disk.len() > 0 && run.status != Some(0) {
        return Run {
            status: Some(9),
            is_memory: false,
            written: run.written,
            reported: run.reported,
        };
    }
    run
}

// Asserts that one row is reported so.
fn assert_bad(rt: &impl Abort, alloc: Global, run: &Run, said: &str) {
    let wanted: String = format!(in alloc;
        "mmdb: standard input:{said}\nmmdb: standard input: 1 lines are wrong\n"
    ).expect(rt, "a text");
    assert!(rt;
        run.status == Some(1) && run.err() == wanted.as_str(),
        "{said}: {}",
        run.err()
    );
}

#[test]
fn wrong_rows_are_named(rt: HostRuntime) {
    for (options, rows, said) in BAD {
        let run = run_with(rt.alloc(), options, rows.as_bytes());
        assert_bad(&rt, rt.alloc(), &run, said);
    }
}

// A row with so many of a text between two others.
fn long_row(alloc: Global, before: &str, text: &str, count: usize, behind: &str) -> Vec<u8> {
    let mut row = Vec::new(alloc);
    let _ = row.extend_from_slice(before.as_bytes());
    for _ in 0..count {
        let _ = row.extend_from_slice(text.as_bytes());
    }
    let _ = row.extend_from_slice(behind.as_bytes());
    row
}

/// Options, what stands before and behind a text that is repeated, the text, how often it stands, and what is said of the row.
const LONG: &[(&[&str], &str, &str, usize, &str, &str)] = &[
    (
        &[],
        "{\"network\":\"1.0.0.0/8\",\"record\":\"",
        "x",
        5_000_000,
        "\"}\n",
        "1: has more than 4194304 bytes",
    ),
    (
        &[],
        "{\"network\":\"1.0.0.0/8\",\"record\":\"",
        "x",
        2_097_153,
        "\"}\n",
        "1: a record of more than 2097152 bytes of texts",
    ),
    (
        &["--type", "a=bytes"],
        "{\"network\":\"1.0.0.0/8\",\"a\":\"",
        "?",
        101,
        "\"}\n",
        "1: a: not of the type bytes: ????????????????????????????????????????????????????????????????????????????????????????????????????..",
    ),
    (
        &[],
        "{\"network\":\"1.0.0.0/8\",\"record\":[1",
        ",1",
        65_536,
        "]}\n",
        "1: a record of more than 65536 values",
    ),
    (
        &[],
        "{\"network\":\"1.0.0.0/8\",\"record\":",
        "[",
        10_000,
        "\n",
        "1: not JSON, or nested more than 128 deep",
    ),
    (
        &["--format", "csv"],
        "network,a\n1.0.0.0/8,",
        "x",
        5_000_000,
        "\n",
        "2: has more than 4194304 bytes",
    ),
];

#[test]
fn long_rows_are_named(rt: HostRuntime) {
    let alloc = rt.alloc();
    for (options, before, text, count, behind, said) in LONG {
        let row = long_row(alloc, before, text, *count, behind);
        let run = run_with(alloc, options, &row);
        assert_bad(&rt, alloc, &run, said);
    }
}

#[test]
fn lines_behind_a_long_row_are_counted(rt: HostRuntime) {
    let alloc = rt.alloc();
    let before = "network,a\n1.0.0.0/8,";
    let row = long_row(alloc, before, "x", 5_000_000, "\n1.0.0.0/33,x\n");
    let run = run_with(alloc, &["--format", "csv"], &row);
    let wanted = "mmdb: standard input:2: has more than 4194304 bytes
mmdb: standard input:3: network: not a network: 1.0.0.0/33
mmdb: standard input: 2 lines are wrong\n";
    assert!(rt; run.err() == wanted, "{}", run.err());
}

/// Rows of CSV whose quotes are wrong.
struct QuoteCase {
    rows: &'static str,
    skip_bad: bool,
    status: u8,
    /// How what is said begins.
    said: &'static str,
}

const QUOTES: &[QuoteCase] = &[
    QuoteCase {
        rows: "network,a\n1.0.0.0/8,\"x\r\n\"\"y\"\n2.0.0.0/8,\"x\n3.0.0.0/8,y\n",
        skip_bad: false,
        status: 1,
        said: "mmdb: standard input:4: has a quote that nothing closes\nmmdb: standard input: 2 lines are wrong\n",
    },
    QuoteCase {
        rows: "network,a\n1.0.0.0/8,\"x\r\n\"\"y\"\n2.0.0.0/8,\"x\n3.0.0.0/8,y\n",
        skip_bad: true,
        status: 1,
        said: "mmdb: standard input:4: has a quote that nothing closes\nmmdb: standard input: 2 lines are wrong\n",
    },
    QuoteCase {
        rows: "network,a\n1.0.0.0/8,x\n2.0.0.0/8,\"y\n\n3.0.0.0/8,z",
        skip_bad: true,
        status: 1,
        said: "mmdb: standard input:3: has a quote that nothing closes\nmmdb: standard input: 3 lines are wrong\n",
    },
    QuoteCase {
        rows: "network,a\n1.0.0.0/8,\"x\n2.0.0.0/8,\"y\"\n",
        skip_bad: false,
        status: 1,
        said: "mmdb: standard input:2: has text behind a closing quote\nmmdb: standard input: 2 lines are wrong\n",
    },
    QuoteCase {
        rows: "network,a\n1.0.0.0/8,\"x\n2.0.0.0/8,\"y\"\n3.0.0.0/8,z\n",
        skip_bad: true,
        status: 0,
        said: "mmdb: standard input:2: has text behind a closing quote\nmmdb: 1 networks taken, 0 reserved among them, 2 lines left out\n",
    },
];

// The options of rows of CSV.
fn csv_options(skip_bad: bool) -> &'static [&'static str] {
    if skip_bad {
        &["--format", "csv", "--skip-bad"]
    } else {
        &["--format", "csv"]
    }
}

#[test]
fn a_quote_that_is_not_closed_ends_the_run(rt: HostRuntime) {
    let alloc = rt.alloc();
    for case in QUOTES {
        let run = run_with(alloc, csv_options(case.skip_bad), case.rows.as_bytes());
        assert!(rt;
            run.status == Some(case.status) && run.err().starts_with(case.said),
            "{}: {}",
            case.said,
            run.err()
        );
    }
}

#[test]
fn a_quote_that_stays_open_ends_the_run(rt: HostRuntime) {
    let alloc = rt.alloc();
    for (skip_bad, behind) in [(false, ""), (false, "\"\n"), (true, "\"\n2.0.0.0/8,y\n")] {
        // eleven bytes, 2,097,146 lines, and one byte of the line after them
        let row = long_row(alloc, "network,a\n1.0.0.0/8,\"", "x\n", 2_500_000, behind);
        let run = run_with(alloc, csv_options(skip_bad), &row);
        let wanted = "mmdb: standard input:2: has a quote that is still open after 4194304 bytes
mmdb: standard input: 2097147 lines are wrong\n";
        assert!(rt;
            run.status == Some(1) && run.err() == wanted,
            "{}",
            run.err()
        );
    }
}

/// Options that are wrong.
const USAGE: &[&[&str]] = &[
    &["--network-column", "record"],
    &["--network-column", "range"],
    &["--range-columns", "record,b"],
    &["--range-columns", "a,record"],
    &["--type", "a"],
    &["--type", "a=map"],
    &["--range-columns", "a"],
    &["--range-columns", "a,b", "--network-column", "c"],
    &["--build-epoch", "-1"],
    &["--build-epoch", "0"],
    &["--description", "en"],
    &["--database-type", ""],
    &["--record-size", "26"],
    &["--ip-version", "5"],
    &["--format", "xml"],
];

#[test]
fn wrong_arguments(rt: HostRuntime) {
    for options in USAGE {
        let run = run_with(rt.alloc(), options, b"");
        assert!(rt;
            run.status == Some(2) || run.status == None,
            "{options:?}: {}",
            run.err()
        );
    }
}

#[test]
fn twenty_lines_are_shown(rt: HostRuntime) {
    let rows = long_row(rt.alloc(), "", "x\n", 30, "");
    let run = run_with(rt.alloc(), &[], &rows);
    let shown = run.err().split("not JSON").count();
    assert!(rt; run.status == Some(1) && shown == 21, "{}", run.err());
    assert!(rt;
        run.err()
            .ends_with("mmdb: standard input: 30 lines are wrong\n"),
        "{}",
        run.err()
    );
}

/// Options and rows of which no file is made.
const NOTHING: &[(&[&str], &str)] = &[
    (&[], ""),
    (&[], "\n\n"),
    (&[], "{\"network\":\"1.0.0.0/8\",\"record\":null}\n"),
    (&["--format", "csv"], ""),
    (&["--format", "csv"], "network,a\n"),
    (&["--format", "csv"], "network,a\n1.0.0.0/8,\n"),
    (&["--skip-bad"], "x\n"),
    // values of which later or longer networks leave nothing
    (
        &[],
        "{\"network\":\"1.0.0.0/8\",\"record\":1}\n{\"network\":\"1.0.0.0/8\",\"record\":null}\n",
    ),
    (
        &[],
        "{\"network\":\"1.0.0.0/9\",\"record\":null}\n{\"network\":\"1.128.0.0/9\",\"record\":null}\n{\"network\":\"1.0.0.0/8\",\"record\":1}\n",
    ),
    (
        &["--reserved", "skip"],
        "{\"network\":\"10.0.0.0/8\",\"record\":1}\n",
    ),
];

#[test]
fn no_file_is_made_of_nothing(rt: HostRuntime) {
    for (options, rows) in NOTHING {
        let run = run_with(rt.alloc(), options, rows.as_bytes());
        let said = "mmdb: standard input: no network with a record; out.mmdb is not touched\n";
        assert!(rt;
            run.status == Some(1) && run.err().ends_with(said),
            "{rows}: {}",
            run.err()
        );
    }
}

#[test]
fn a_file_stays_where_nothing_is_made(rt: HostRuntime) {
    let alloc = rt.alloc();
    for (options, rows) in NOTHING {
        let disk = Disk::new(alloc, u32::MAX, None);
        let _ = disk.put("out.mmdb", BASE_FILE);
        let mut words = Vec::new(alloc);
        let _ = words.extend_from_slice(&["mmdb", "build", "out.mmdb", "--from", "-"]);
        let _ = words.extend_from_slice(options);
        let run = run_on(alloc, &disk, &words, rows.as_bytes());
        let stays = match disk.get("out.mmdb") {
            Some(file) => file.as_slice() == BASE_FILE && disk.len() == 1,
            None => false,
        };
        assert!(rt; run.status == Some(1) && stays, "{rows}: {}", run.err());
    }
}

/// Types of paths, rows, the status, and how what is said ends.
const UNMET: &[(&[&str], &str, u8, &str)] = &[
    (
        &["--type", "a.isocode=string"],
        "{\"network\":\"1.0.0.0/8\",\"record\":{\"a\":{\"iso_code\":\"x\"}}}\n",
        1,
        "mmdb: --type a.isocode: no row has this path; did you mean a.iso_code?\n",
    ),
    (
        &["--type", "zzz=uint32"],
        "{\"network\":\"1.0.0.0/8\",\"a\":1}\n",
        1,
        "mmdb: --type zzz: no row has this path\n",
    ),
    // a value that is none has a path too
    (
        &["--type", "a=uint32"],
        "{\"network\":\"1.0.0.0/8\",\"a\":null,\"b\":1}\n",
        0,
        " bytes\n",
    ),
    (
        &["--format", "csv", "--type", "a=uint32"],
        "network,a,b\n1.0.0.0/8,,1\n",
        0,
        " bytes\n",
    ),
];

#[test]
fn types_that_no_row_meets_are_errors(rt: HostRuntime) {
    for (options, rows, status, said) in UNMET {
        let run = run_with(rt.alloc(), options, rows.as_bytes());
        assert!(rt;
            run.status == Some(*status) && run.err().ends_with(said),
            "{options:?}: {}",
            run.err()
        );
    }
}

/// A file of types, options and rows for one that is made beside it, the status, and how what is said ends.
struct LikeCase {
    types: &'static str,
    options: &'static [&'static str],
    rows: &'static str,
    status: u8,
    said: &'static str,
}

/// Values at three paths.
const TYPES: &str =
    "{\"network\":\"1.0.0.0/8\",\"record\":{\"a\":{\"iso_code\":\"x\",\"b\":[1]},\"zzz\":1}}\n";

const LIKE_CASES: &[LikeCase] = &[
    // maps and arrays have no types of their own
    LikeCase {
        types: TYPES,
        options: &[],
        rows: "{\"network\":\"1.0.0.0/8\",\"a\":{\"isocode\":\"x\"}}\n",
        status: 1,
        said: " lines left out
mmdb: --types-like types.mmdb: a.iso_code: no row has this path; did you mean a.isocode?
mmdb: --types-like types.mmdb: a.b.0: no row has this path
mmdb: --types-like types.mmdb: zzz: no row has this path\n",
    },
    // a type that is named is not the file's
    LikeCase {
        types: TYPES,
        options: &["--type", "zzz=uint16"],
        rows: "{\"network\":\"1.0.0.0/8\",\"a.iso_code\":\"x\",\"a.b.0\":2}\n",
        status: 1,
        said: " lines left out\nmmdb: --type zzz: no row has this path\n",
    },
    // a value that is none has a path too, and so has a column without one
    LikeCase {
        types: TYPES,
        options: &[],
        rows: "{\"network\":\"1.0.0.0/8\",\"a.iso_code\":null,\"a.b.0\":2,\"zzz\":null}\n",
        status: 0,
        said: " bytes\n",
    },
    LikeCase {
        types: TYPES,
        options: &["--format", "csv"],
        rows: "network,a.iso_code,a.b.0,zzz\n1.0.0.0/8,,2,\n",
        status: 0,
        said: " bytes\n",
    },
    // the path of whole records
    LikeCase {
        types: "{\"network\":\"1.0.0.0/8\",\"record\":1}\n",
        options: &[],
        rows: "{\"network\":\"1.0.0.0/8\",\"a\":1}\n",
        status: 1,
        said: " lines left out\nmmdb: --types-like types.mmdb: record: no row has this path\n",
    },
    // ten are named, and then all are counted
    LikeCase {
        types: "{\"network\":\"1.0.0.0/8\",\"record\":[{\"a\":1,\"b\":1,\"c\":1,\"d\":1,\"e\":1,\"f\":1,\"g\":1,\"h\":1,\"i\":1,\"j\":1,\"k\":1}]}\n",
        options: &[],
        rows: "{\"network\":\"1.0.0.0/8\",\"record\":[{\"k\":1}]}\n",
        status: 1,
        said: "mmdb: --types-like types.mmdb: 0.j: no row has this path; did you mean 0.k?\n",
    },
    LikeCase {
        types: "{\"network\":\"1.0.0.0/8\",\"record\":[{\"a\":1,\"b\":1,\"c\":1,\"d\":1,\"e\":1,\"f\":1,\"g\":1,\"h\":1,\"i\":1,\"j\":1,\"k\":1}]}\n",
        options: &[],
        rows: "{\"network\":\"1.0.0.0/8\",\"record\":[{}]}\n",
        status: 1,
        said: "mmdb: --types-like types.mmdb: 0.j: no row has this path
mmdb: --types-like types.mmdb: no row has 11 of its paths\n",
    },
];

// A run over rows on standard input, beside a file of types.
fn run_like(rt: &impl Abort, alloc: Global, disk: &Disk, case: &LikeCase) -> Run {
    let made = &["mmdb", "build", "types.mmdb", "--from", "-"];
    let run = run_on(alloc, disk, made, case.types.as_bytes());
    assert!(rt; run.status == Some(0), "{}", run.err());
    let mut words = Vec::new(alloc);
    let _ = words.extend_from_slice(&["mmdb", "build", "out.mmdb", "--from", "-"]);
    let _ = words.extend_from_slice(&["--types-like", "types.mmdb"]);
    let _ = words.extend_from_slice(case.options);
    run_on(alloc, disk, &words, case.rows.as_bytes())
}

#[test]
fn paths_of_a_file_of_types_that_no_row_meets_are_errors(rt: HostRuntime) {
    let alloc = rt.alloc();
    for case in LIKE_CASES {
        let disk = Disk::new(alloc, u32::MAX, None);
        let run = run_like(&rt, alloc, &disk, case);
        let is_made = disk.get("out.mmdb").is_some();
        assert!(rt;
            run.status == Some(case.status)
                && is_made == (case.status == 0)
                && run.err().ends_with(case.said),
            "{}: {}",
            case.rows,
            run.err()
        );
    }
}

/// Seven nodes, each of which leads to the next one twice: 128 networks.
const DOUBLED: &[(u32, u32)] = &[(1, 1), (2, 2), (3, 3), (4, 4), (5, 5), (6, 6), (23, 23)];

#[test]
fn a_tree_of_too_many_networks_gives_no_types(rt: HostRuntime) {
    let alloc = rt.alloc();
    let nodes = nodes_24(alloc, DOUBLED).expect(&rt, "nodes");
    let changes: &[(Field, &[u8])] = &[(Field::NodeCount, b"\xC1\x07")];
    let types = changed_file(alloc, nodes.as_slice(), b"\x41x", changes).expect(&rt, "a file");
    let disk = Disk::new(alloc, u32::MAX, None);
    let _ = disk.put("types.mmdb", &types);
    let words = &[
        "mmdb",
        "build",
        "out.mmdb",
        "--from",
        "-",
        "--types-like",
        "types.mmdb",
    ];
    let run = run_on(alloc, &disk, words, ROW);
    let said =
        "mmdb: types.mmdb: its search tree leads to more networks than its nodes can have; see mmdb verify\n";
    assert!(rt;
        run.status == Some(1) && run.err() == said && disk.len() == 1,
        "{}",
        run.err()
    );
}

/// Options, rows, and what is said of the paths whose values have several types, between two other lines.
const SEVERAL: &[(&[&str], &str, &str)] = &[
    (
        &[],
        "{\"network\":\"1.0.0.0/8\",\"record\":{\"a\":\"x\",\"b\":{\"c\":5000000000}}}\n{\"network\":\"2.0.0.0/8\",\"b.c\":1,\"a\":1}\n",
        "mmdb: a got several types: string, uint32\nmmdb: b.c got several types: uint64, uint32\n",
    ),
    // all items of an array have one path
    (
        &[],
        "{\"network\":\"1.0.0.0/8\",\"record\":[1,\"x\",{\"a\":1},1,-1]}\n",
        "mmdb: 0 got several types: uint32, string, map, int32\n",
    ),
    (
        &[],
        "{\"network\":\"1.0.0.0/8\",\"record\":1.5}\n{\"network\":\"2.0.0.0/8\",\"record\":1}\n",
        "mmdb: record got several types: double, uint32\n",
    ),
    (
        &["--type", "a=uint64", "--skip-bad"],
        "{\"network\":\"1.0.0.0/8\",\"a\":5000000000}\n{\"network\":\"2.0.0.0/8\",\"a\":1}\n{\"network\":\"3.0.0.0/8\",\"a\":\"x\"}\n",
        "",
    ),
    (
        &["--format", "csv"],
        "network,a\n1.0.0.0/8,1\n2.0.0.0/8,x\n",
        "",
    ),
    // ten are named, and then all are counted
    (
        &[],
        "{\"network\":\"1.0.0.0/8\",\"record\":[[\"x\",1],{\"a\":1,\"b\":1,\"c\":1,\"d\":1,\"e\":1,\"f\":1,\"g\":1,\"h\":1,\"i\":1}]}\n{\"network\":\"2.0.0.0/8\",\"record\":[{\"a\":-1,\"b\":-1,\"c\":-1,\"d\":-1,\"e\":-1,\"f\":-1,\"g\":-1,\"h\":-1,\"i\":-1}]}\n",
        "mmdb: 0 got several types: array, map
mmdb: 0.0 got several types: string, uint32
mmdb: 0.a got several types: uint32, int32
mmdb: 0.b got several types: uint32, int32
mmdb: 0.c got several types: uint32, int32
mmdb: 0.d got several types: uint32, int32
mmdb: 0.e got several types: uint32, int32
mmdb: 0.f got several types: uint32, int32
mmdb: 0.g got several types: uint32, int32
mmdb: 0.h got several types: uint32, int32
mmdb: 11 paths got several types\n",
    ),
];

#[test]
fn paths_of_several_types_are_said(rt: HostRuntime) {
    let alloc = rt.alloc();
    for (options, rows, said) in SEVERAL {
        let run = run_with(alloc, options, rows.as_bytes());
        let wanted: String = format!(in alloc; " lines left out\n{said}mmdb: out.mmdb: ").expect(
            &rt, "a text",
        );
        assert!(rt;
            run.status == Some(0) && run.err().contains(wanted.as_str()),
            "{rows}: {}",
            run.err()
        );
    }
}

/// Names of a file of rows, and what is shown of it.
const SHOWN: &[(&str, &str)] = &[(
    "a\u{1b}[31m",
    "mmdb: a\\u001b[31m:1: not JSON, or nested more than 128 deep\nmmdb: a\\u001b[31m: 1 lines are wrong\n",
)];

#[test]
fn names_of_files_are_shown_without_control_characters(rt: HostRuntime) {
    let alloc = rt.alloc();
    for (name, said) in SHOWN {
        let disk = Disk::new(alloc, u32::MAX, None);
        let _ = disk.put(name, b"x\n");
        let words = &["mmdb", "build", "out.mmdb", "--from", *name];
        let run = run_on(alloc, &disk, words, b"");
        assert!(rt; run.err() == *said, "{}", run.err());
    }
}

/// Paths at which no file can be made, and what is said.
const OUTS: &[(&str, &str)] = &[
    (PIPE, "mmdb: pipe: not a file\n"),
    ("folder/", "mmdb: folder/: not a file\n"),
    ("", "mmdb: : not a file\n"),
    (DEAD_LINK, "mmdb: dead.mmdb: a link that leads nowhere\n"),
];

#[test]
fn what_is_no_file_is_not_replaced(rt: HostRuntime) {
    let alloc = rt.alloc();
    for (out, said) in OUTS {
        let disk = Disk::new(alloc, u32::MAX, None);
        let words = &["mmdb", "build", *out, "--from", "no rows"];
        let run = run_on(alloc, &disk, words, b"");
        assert!(rt;
            run.status == Some(1) && run.err() == *said,
            "{}",
            run.err()
        );
    }
}

#[test]
fn standard_output_is_no_file(rt: HostRuntime) {
    let disk = Disk::new(rt.alloc(), u32::MAX, None);
    let words = &["mmdb", "build", "-", "--from", "-"];
    let run = run_on(rt.alloc(), &disk, words, ROW);
    assert!(rt; run.status == None && !run.is_memory, "{}", run.err());
}

/// A row in which nothing is wrong.
const ROW: &[u8] = b"{\"network\":\"1.0.0.0/8\",\"record\":1}\n";

/// Seconds in more digits than a number of 64 bits has.
const LONG_EPOCH: &str = "00000000000000000000000000000000000000000000000000000000000000000001";

#[test]
fn long_seconds_are_rejected(rt: HostRuntime) {
    let disk = Disk::new(rt.alloc(), u32::MAX, Some(LONG_EPOCH));
    let words = &["mmdb", "build", "out.mmdb", "--from", "-"];
    let run = run_on(rt.alloc(), &disk, words, ROW);
    assert!(rt; run.status == None && !run.is_memory, "{}", run.err());
}
