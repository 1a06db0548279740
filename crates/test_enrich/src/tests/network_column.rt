//! Rows with the network of their address.
use super::layers::{
    ALL, BOTH, CITY, Database, NAMED, OWN, SIX, TORN, file_with, holds_all, run_both,
};
use crate::tests::asserted::assert_of;
use mmdb_vectors::builder::{Field, changed_file, nodes_24};
use std::alloc::{AllocError, Global};
use std::process::Abort;
use test_runs::program::{Run, run_of};

/// A database, words after it, standard input, the status, standard output, and what standard error has to hold.
type Alone<'a> = (
    Database<'a>,
    &'a [&'a str],
    &'a str,
    u8,
    &'a str,
    &'a [&'a str],
);

/// The same of two databases.
type Both<'a> = (
    Database<'a>,
    Database<'a>,
    &'a [&'a str],
    &'a str,
    u8,
    &'a str,
    &'a [&'a str],
);

#[rattlefmt::skip]
const ALONE: &[Alone<'static>] = &[
    // no other column, and no network without a record or an address
    (
        CITY, &["--network"], ALL, 0,
        "1.1.1.1\t\n33.0.0.1\t32.0.0.0/3\n70.0.0.1\t64.0.0.0/2\n130.0.0.1\t128.0.0.0/2\n200.0.0.1\t192.0.0.0/2\n-\t\n",
        &["mmdb: 4 lines with a record, 1 without, 1 without an address, 0 with an error\n"],
    ),
    // one record in several networks
    (
        CITY, &["--network", "--field", "n"], "33.0.0.1\n70.0.0.1\n200.0.0.1\n33.0.0.1\n", 0,
        "33.0.0.1\t32.0.0.0/3\t9\n70.0.0.1\t64.0.0.0/2\t9\n200.0.0.1\t192.0.0.0/2\t9\n33.0.0.1\t32.0.0.0/3\t9\n",
        &["mmdb: 4 lines with a record"],
    ),
    // a record that can't be read has a network
    (OWN, &["--field", "c", "--network"], "200.0.0.1\n", 1, "200.0.0.1\t192.0.0.0/2\t\n", &["mmdb: row 1: invalid database at offset 51", "1 with an error\n"]),
    // a lookup that fails has none, and no address of IPv6 where the database has IPv4
    (TORN, &["--network", "--field", "c"], "1.1.1.1\n200.0.0.1\n", 1, "1.1.1.1\t\t\n200.0.0.1\t128.0.0.0/1\tsix\n", &["mmdb: row 1: invalid database"]),
    (OWN, &["--network", "--field", "n"], "::1\n", 0, "::1\t\t\n", &["mmdb: row 1: invalid input: cannot look up IPv6", "1 with an error\n"]),
    // IPv6, and IPv4 where the walk leaves the nodes above it
    (SIX, &["--network"], "1.1.1.1\n2001:db8::1\nffff::1\n", 0, "1.1.1.1\t::/1\n2001:db8::1\t::/1\nffff::1\t8000::/1\n", &["3 lines with a record"]),
    // the first row names the columns
    (
        CITY, &["--header", "--column", "ip", "--network", "--field", "n"], "ip\tx\n33.0.0.1\ty\n-\tz\n", 0,
        "ip\tx\tnetwork\tn\n33.0.0.1\ty\t32.0.0.0/3\t9\n-\tz\t\t\n", &["1 lines with a record"],
    ),
    (CITY, &["--header", "--network"], "ip\n33.0.0.1\n", 0, "ip\tnetwork\n33.0.0.1\t32.0.0.0/3\n", &["1 lines with a record"]),
    // CSV
    (
        CITY, &["--delimiter", ",", "--column", "2", "--network", "--field", "c"], "\"a\n,\",130.0.0.1\r\nx,\n", 0,
        "\"a\n,\",130.0.0.1,128.0.0.0/2,\"q\"\",t\\tab\"\r\nx,,,\n", &["1 lines with a record"],
    ),
    // a delimiter that a network has in it
    (CITY, &["--delimiter", "/", "--no-quotes", "--network", "--field", "n"], "33.0.0.1\n", 0, "33.0.0.1/32.0.0.0\\u002f3/9\n", &["1 lines with a record"]),
    (CITY, &["--delimiter", "/", "--network", "--field", "n"], "33.0.0.1\n", 0, "33.0.0.1/\"32.0.0.0/3\"/9\n", &["1 lines with a record"]),
    // anywhere in a row
    (CITY, &["--anywhere", "--network"], "from=70.0.0.1;\nnone\n", 0, "from=70.0.0.1;\t64.0.0.0/2\nnone\t\n", &["1 lines with a record"]),
    // a name that the column of the network has
    (CITY, &["--network", "--field", "network=c"], "33.0.0.1\n", 2, "", &["the name network is taken; give the field another one, as NAME=c"]),
    (CITY, &["--network", "--field", "c", "--field", "\"network\"=n", "--header"], "33.0.0.1\n", 2, "", &["the name network is taken"]),
    (CITY, &["--field", "network=c"], "33.0.0.1\n", 0, "33.0.0.1\tcity\n", &["1 lines with a record"]),
    (CITY, &[], "33.0.0.1\n", 2, "", &["enrich: needs a --field"]),
];

#[rattlefmt::skip]
const BOTH_ROWS: &[Both<'static>] = &[
    // the smallest, whichever database has it, and whether it has a record there
    (
        OWN, CITY, &["--network", "--field", "c"], ALL, 1,
        "1.1.1.1\t\t\n33.0.0.1\t32.0.0.0/3\tcity\n70.0.0.1\t64.0.0.0/2\town\n130.0.0.1\t128.0.0.0/2\t\"q\\\",t\\tab\"\n200.0.0.1\t192.0.0.0/2\t\n-\t\t\n",
        &["mmdb: row 5: here.mmdb: ", "mmdb: 3 lines with a record, 1 without, 1 without an address, 1 with an error\n"],
    ),
    (CITY, OWN, &["--network"], "33.0.0.1\n1.1.1.1\n", 0, "33.0.0.1\t32.0.0.0/3\n1.1.1.1\t\n", &["1 lines with a record, 1 without"]),
    (NAMED, CITY, &["--network", "--field", "organization"], "1.1.1.1\n", 0, "1.1.1.1\t0.0.0.0/3\tx\n", &["1 lines with a record"]),
    (CITY, NAMED, &["--network", "--field", "organization"], "1.1.1.1\n", 0, "1.1.1.1\t0.0.0.0/3\tx\n", &["1 lines with a record"]),
    // an address of IPv4, also one that is mapped to IPv6, and one that a database can't be asked for
    (
        OWN, SIX, &["--network", "--field", "c"], BOTH, 0,
        "1.1.1.1\t0.0.0.0/2\tsix\n70.0.0.1\t64.0.0.0/2\town\n::ffff:70.0.0.1\t64.0.0.0/2\town\n2001:db8::1\t::/1\tsix\n::1\t::/1\tsix\n",
        &["5 lines with a record"],
    ),
    (SIX, OWN, &["--network"], "::ffff:70.0.0.1\n::1\n", 0, "::ffff:70.0.0.1\t64.0.0.0/2\n::1\t::/1\n", &["2 lines with a record"]),
    (OWN, CITY, &["--network", "--field", "c"], "::1\n", 0, "::1\t\t\n", &["1 with an error"]),
    // a lookup that fails in one of them
    (
        CITY, TORN, &["--network", "--field", "c"], "70.0.0.1\n200.0.0.1\n", 1, "70.0.0.1\t\t\n200.0.0.1\t192.0.0.0/2\tcity\n",
        &["mmdb: row 1: new.mmdb: invalid database", "1 lines with a record, 0 without, 0 without an address, 1 with an error\n"],
    ),
];

// Asserts what a run leaves.
fn assert_run(rt: &impl Abort, words: &[&str], run: &Run, status: u8, out: &str, err: &[&str]) {
    let holds = run.status == status && run.out() == out && holds_all(run, err);
    assert_of(rt, words, run, holds);
}

// A run of `enrich` over one database.
fn run_alone(alloc: Global, file: &[u8], words: &[&str], lines: &str) -> Run {
    let mut all: Vec<&str> = Vec::new(alloc);
    let _ = all.extend_from_slice(&["enrich", "here.mmdb"]);
    let _ = all.extend_from_slice(words);
    run_of(alloc, file, all.as_slice(), lines)
}

#[test]
fn network_in_one_database(rt: HostRuntime) {
    for (database, words, lines, status, out, err) in ALONE {
        let file = file_with(rt.alloc(), database);
        let run = run_alone(rt.alloc(), file.as_slice(), words, lines);
        assert_run(&rt, words, &run, *status, out, err);
    }
}

#[test]
fn network_in_two_databases(rt: HostRuntime) {
    for (first, second, words, lines, status, out, err) in BOTH_ROWS {
        let old = file_with(rt.alloc(), first);
        let newer = file_with(rt.alloc(), second);
        let run = run_both(rt.alloc(), old.as_slice(), newer.as_slice(), words, lines);
        assert_run(&rt, words, &run, *status, out, err);
    }
}

/// The nodes of a database with IPv4 after 96 zeros: of addresses with a 1 among those there is no record, and those of IPv4
/// have one in each half.
fn nodes_below_zeros(alloc: Global) -> Result<Vec<(u32, u32)>, AllocError> {
    let mut nodes = Vec::new(alloc);
    for at in 0..96u32 {
        nodes.push((at.saturating_add(1), 97))?;
    }
    nodes.push((97 + 16, 97 + 16))?;
    Ok(nodes)
}

// The file of this database.
fn file_below_zeros(alloc: Global) -> Result<Vec<u8>, AllocError> {
    let nodes = nodes_below_zeros(alloc)?;
    let nodes = nodes_24(alloc, nodes.as_slice())?;
    let changes = &[
        (Field::NodeCount, b"\xC1\x61" as &[u8]),
        (Field::IpVersion, b"\xA1\x06"),
    ];
    changed_file(alloc, nodes.as_slice(), b"\xE1\x41c\x43six", changes)
}

#[test]
fn network_of_ipv4_in_ipv6(rt: HostRuntime) {
    let deep = file_below_zeros(rt.alloc()).unwrap_or(Vec::new(rt.alloc()));
    let words = &["--network", "--field", "c"];
    let run = run_alone(
        rt.alloc(),
        deep.as_slice(),
        words,
        "70.0.0.1\n200.0.0.1\n::1\n1::1\n",
    );
    let out = "70.0.0.1\t0.0.0.0/1\tsix\n200.0.0.1\t128.0.0.0/1\tsix\n::1\t::/97\tsix\n1::1\t\t\n";
    assert_run(
        &rt,
        words,
        &run,
        0,
        out,
        &["3 lines with a record, 1 without"],
    );
    // behind 96 bits a network of IPv4 is smaller than one above them, and of equal ones the first is shown
    for (other, out) in &[
        (&OWN, "70.0.0.1\t64.0.0.0/2\n::1\t::/97\n"),
        (&NAMED, "70.0.0.1\t0.0.0.0/1\n::1\t::/97\n"),
        (&SIX, "70.0.0.1\t0.0.0.0/1\n::1\t::/97\n"),
    ] {
        let newer = file_with(rt.alloc(), *other);
        let run = run_both(
            rt.alloc(),
            deep.as_slice(),
            newer.as_slice(),
            &["--network"],
            "70.0.0.1\n::1\n",
        );
        assert_run(
            &rt,
            &["--network"],
            &run,
            0,
            out,
            &["2 lines with a record"],
        );
    }
}
