//! Networks chosen by numbers that are greater or less than others, or the same.
use super::exports::lines_hold;
use crate::tests::asserted::assert_of;
use std::alloc::{AllocError, Global};
use std::process::Abort;
use test_runs::program::run_of;
use test_runs::trees::file_of_nodes;

/// The values at "n" of sixteen networks of /4: 0, 9, 10 and the greatest numbers of 64 and 128 bits, each of another type; -7; the
/// doubles 9.5, -0, 1e300 and the least above 0; the float 0.1; and what is no number: NaN, infinity, the text 10, the bytes 10 and
/// true.
const VALUES: &[&[u8]] = &[
    b"\xA0",
    b"\xA1\x09",
    b"\xC1\x0A",
    b"\x08\x02\xFF\xFF\xFF\xFF\xFF\xFF\xFF\xFF",
    b"\x10\x03\xFF\xFF\xFF\xFF\xFF\xFF\xFF\xFF\xFF\xFF\xFF\xFF\xFF\xFF\xFF\xFF",
    b"\x04\x01\xFF\xFF\xFF\xF9",
    b"\x68\x40\x23\x00\x00\x00\x00\x00\x00",
    b"\x68\x80\x00\x00\x00\x00\x00\x00\x00",
    b"\x68\x7E\x37\xE4\x3C\x88\x00\x75\x9C",
    b"\x68\x00\x00\x00\x00\x00\x00\x00\x01",
    b"\x04\x08\x3D\xCC\xCC\xCD",
    b"\x68\x7F\xF8\x00\x00\x00\x00\x00\x00",
    b"\x68\x7F\xF0\x00\x00\x00\x00\x00\x00",
    b"\x42\x31\x30",
    b"\x82\x31\x30",
    b"\x01\x07",
];

/// All that are numbers, as they are shown.
const ALL: &str =
    "0 9 10 18446744073709551615 340282366920938463463374607431768211455 -7 9.5 -0.0 1e300 5e-324 0.1";

/// Arguments, and the numbers of the networks that are chosen.
type Row<'a> = (&'a [&'a str], &'a str);

#[rattlefmt::skip]
const OF_SMALL: &[Row<'static>] = &[
    // one number in several forms; the text 10 is none
    (&["--where-above", "n=9"], "10 18446744073709551615 340282366920938463463374607431768211455 9.5 1e300"),
    (&["--where-above", "n=9.0"], "10 18446744073709551615 340282366920938463463374607431768211455 9.5 1e300"),
    (&["--where-above", "n=0.9e1"], "10 18446744073709551615 340282366920938463463374607431768211455 9.5 1e300"),
    (&["--where-above", "n=900E-2"], "10 18446744073709551615 340282366920938463463374607431768211455 9.5 1e300"),
    (&["--where-above", "n=0.00009e+05"], "10 18446744073709551615 340282366920938463463374607431768211455 9.5 1e300"),
    (&["--where-above", "n=9.5"], "10 18446744073709551615 340282366920938463463374607431768211455 1e300"),
    (&["--where-above", "n=10"], "18446744073709551615 340282366920938463463374607431768211455 1e300"),
    (&["--where-below", "n=9"], "0 -7 -0.0 5e-324 0.1"),
    (&["--where-below", "n=10"], "0 9 -7 9.5 -0.0 5e-324 0.1"),
    // all must be met
    (&["--where-above", "n=9", "--where-below", "n=10"], "9.5"),
    (&["--where-above", "n=0", "--where-above", "n=9.4", "--where-below", "n=11"], "10 9.5"),
    (&["--where-above", "n=9.5", "--where-above", "n=0", "--where-below", "n=11"], "10"),
    (&["--where-above", "n=9", "--where-not", "n=10", "--where-below", "n=1e9"], "9.5"),
    // 0, with a sign too, and what is less
    (&["--where-above", "n=0"], "9 10 18446744073709551615 340282366920938463463374607431768211455 9.5 1e300 5e-324 0.1"),
    (&["--where-above", "n=-0.0e5"], "9 10 18446744073709551615 340282366920938463463374607431768211455 9.5 1e300 5e-324 0.1"),
    (&["--where-below", "n=0"], "-7"),
    (&["--where-below", "n=-0"], "-7"),
    (&["--where-below", "n=-6.99"], "-7"),
    (&["--where-below", "n=-7"], ""),
    (&["--where-above", "n=-7", "--where-below", "n=1"], "0 -0.0 5e-324 0.1"),
    (&["--where-above", "n=-7.5"], ALL),
    (&["--where-above", "n=-10", "--where-below", "n=-1"], "-7"),
    // the float 0.1 by its shortest digits
    (&["--where-above", "n=0.1", "--where-below", "n=9"], ""),
    (&["--where-above", "n=0.09999999999999999999999", "--where-below", "n=0.10000000000000000000001"], "0.1"),
];

#[rattlefmt::skip]
const OF_LARGE: &[Row<'static>] = &[
    // to the last digit
    (&["--where-above", "n=18446744073709551614"], "18446744073709551615 340282366920938463463374607431768211455 1e300"),
    (&["--where-above", "n=18446744073709551614.9"], "18446744073709551615 340282366920938463463374607431768211455 1e300"),
    (&["--where-above", "n=18446744073709551615"], "340282366920938463463374607431768211455 1e300"),
    (&["--where-above", "n=340282366920938463463374607431768211454"], "340282366920938463463374607431768211455 1e300"),
    (&["--where-above", "n=3.40282366920938463463374607431768211454e38"], "340282366920938463463374607431768211455 1e300"),
    (&["--where-above", "n=340282366920938463463374607431768211455"], "1e300"),
    (&["--where-below", "n=340282366920938463463374607431768211455.0"], "0 9 10 18446744073709551615 -7 9.5 -0.0 5e-324 0.1"),
    (&["--where-above", "n=9.99e299"], "1e300"),
    (&["--where-above", "n=1e300"], ""),
    (&["--where-above", "n=0.1e301"], ""),
    // beyond all doubles
    (&["--where-above", "n=1e400"], ""),
    (&["--where-below", "n=1e400"], ALL),
    (&["--where-above", "n=-1e400"], ALL),
    (&["--where-above", "n=1e18446744073709551615"], ""),
    (&["--where-below", "n=1e18446744073709551615"], ALL),
    (&["--where-below", "n=1e00000000000000000000000000000000001", "--where-above", "n=9"], "9.5"),
    (&["--where-above", "n=0e18446744073709551615", "--where-below", "n=1"], "5e-324 0.1"),
    (&["--where-below", "n=1e-400"], "0 -7 -0.0"),
    (&["--where-below", "n=1e-18446744073709551615"], "0 -7 -0.0"),
    (&["--where-above", "n=-1e-18446744073709551615", "--where-below", "n=1e-323"], "0 -0.0 5e-324"),
    (&["--where-above", "n=4.9e-324", "--where-below", "n=0.1"], "5e-324"),
    (&["--where-above", "n=5e-324", "--where-below", "n=0.1"], ""),
    // a map is no number
    (&["--where-above", "=-1e9"], ""),
];

#[rattlefmt::skip]
const OF_SAME: &[Row<'static>] = &[
    // an integer in several forms; the text 10 is compared as it is
    (&["--where", "n=9"], "9"),
    (&["--where", "n=9.0"], "9"),
    (&["--where", "n=0.9e1"], "9"),
    (&["--where", "n=900E-2"], "9"),
    (&["--where", "n=9.0000000000000000000000001"], ""),
    (&["--where", "n=10"], "10 10"),
    (&["--where", "n=1e1"], "10"),
    (&["--where", "n=-7.0"], "-7"),
    (&["--where", "n=-70e-1"], "-7"),
    (&["--where", "n=7"], ""),
    (&["--where", "n=18446744073709551615.0"], "18446744073709551615"),
    (&["--where", "n=18446744073709551616"], ""),
    (&["--where", "n=340282366920938463463374607431768211455.00"], "340282366920938463463374607431768211455"),
    (&["--where", "n=3.40282366920938463463374607431768211455e38"], "340282366920938463463374607431768211455"),
    // a double or a float is what the text is read as
    (&["--where", "n=9.50"], "9.5"),
    (&["--where", "n=95e-1"], "9.5"),
    (&["--where", "n=9.50000000000000000001"], "9.5"),
    (&["--where", "n=9.50000001"], ""),
    (&["--where", "n=1000e297"], "1e300"),
    (&["--where", "n=4.9e-324"], "5e-324"),
    (&["--where", "n=0.10"], "0.1"),
    (&["--where", "n=0.1000000001"], "0.1"),
    (&["--where", "n=0.10001"], ""),
    // 0, with a sign too; an integer is compared exactly
    (&["--where", "n=0"], "0 -0.0"),
    (&["--where", "n=-0"], "0 -0.0"),
    (&["--where", "n=0.0e5"], "0 -0.0"),
    (&["--where", "n=1e-400"], "-0.0"),
    // neither infinity nor what is no number of JSON
    (&["--where", "n=1e400"], ""),
    (&["--where", "n=09"], ""),
    (&["--where", "n=+9"], ""),
    (&["--where", "n=9."], ""),
    (&["--where", "n=9 "], ""),
    // alternatives, and what is not wanted
    (&["--where", "n=9.0", "--where", "n=95e-1"], "9 9.5"),
    (&["--where-above", "n=8", "--where-below", "n=11", "--where-not", "n=9.0"], "10 9.5"),
    (&["--where-above", "n=8", "--where-below", "n=11", "--where-not", "n=1e1", "--where-not", "n=9.50"], "9"),
];

// The records of the values, and where each begins.
fn records_of(alloc: Global) -> Result<(Vec<u8>, Vec<u32>), AllocError> {
    let mut data = Vec::new(alloc);
    let mut places = Vec::new(alloc);
    let mut place = 0u32;
    for value in VALUES {
        places.push(place)?;
        data.extend_from_slice(b"\xE1\x41n")?;
        data.extend_from_slice(*value)?;
        place = place
            .saturating_add((value.len() & 0xff) as u32)
            .saturating_add(3);
    }
    Ok((data, places))
}

// Seven nodes that lead to others, and eight with two records each.
fn nodes_of(alloc: Global, places: &[u32]) -> Result<Vec<(u32, u32)>, AllocError> {
    let mut nodes = Vec::new(alloc);
    for node in 0..7u32 {
        nodes.push((2 * node + 1, 2 * node + 2))?;
    }
    for pair in places.chunks_exact(2) {
        if let [left, right] = pair {
            nodes.push((left.saturating_add(31), right.saturating_add(31)))?;
        }
    }
    Ok(nodes)
}

// A file with the values.
fn file_of_values(rt: &impl Abort, alloc: Global) -> Vec<u8> {
    let (data, places) = records_of(alloc).expect(rt, "records");
    let nodes = nodes_of(alloc, places.as_slice()).expect(rt, "nodes");
    file_of_nodes(alloc, nodes.as_slice(), b"\xC1\x0F", data.as_slice()).expect(rt, "a file")
}

// The cells of the last column, without the header.
fn last_cells(alloc: Global, rows: &str) -> Result<String, AllocError> {
    let mut cells = String::new(alloc);
    for row in rows.lines().skip(1) {
        if !cells.is_empty() {
            cells.push_str(" ")?;
        }
        if let Some((_, cell)) = row.rsplit_once(',') {
            cells.push_str(cell)?;
        }
    }
    Ok(cells)
}

// Asserts which numbers the networks have that are chosen.
fn assert_numbers(rt: &impl Abort, alloc: Global, rows: &[Row<'_>]) {
    let bytes = file_of_values(rt, alloc);
    for (arguments, numbers) in rows {
        let mut words = Vec::new(alloc);
        words
            .extend_from_slice(&["export", "here.mmdb", "--field", "n", "--format", "csv"])
            .expect(rt, "words");
        words.extend_from_slice(*arguments).expect(rt, "words");
        let run = run_of(alloc, bytes.as_slice(), words.as_slice(), "");
        let cells = last_cells(alloc, run.out()).expect(rt, "cells");
        let holds = run.status == 0 && run.err().is_empty() && cells.as_str() == *numbers;
        assert_of(rt, words.as_slice(), &run, holds);
    }
}

#[test]
fn small_numbers(rt: HostRuntime) {
    assert_numbers(&rt, rt.alloc(), OF_SMALL);
}

#[test]
fn large_numbers(rt: HostRuntime) {
    assert_numbers(&rt, rt.alloc(), OF_LARGE);
}

#[test]
fn same_numbers(rt: HostRuntime) {
    assert_numbers(&rt, rt.alloc(), OF_SAME);
}

/// Two networks: of one the value at "m" is 7, of the other a map that ends before its three pairs.
const MAP_CUT: &[u8] = b"\xE1\x41m\xA1\x07\xE1\x41m\xE3";

/// Arguments, standard output, and what each line of standard error has to hold.
type CutRow<'a> = (&'a [&'a str], &'a str, &'a [&'a str]);

#[rattlefmt::skip]
const OF_MAP_CUT: &[CutRow<'static>] = &[
    (&["export", "here.mmdb", "--where-has", "m", "--format", "cidr"], "0.0.0.0/0\n", &[]),
    (&["export", "here.mmdb", "--where", "m=7.0", "--format", "cidr"], "0.0.0.0/1\n", &[]),
    (&["export", "here.mmdb", "--where-not", "m=7.0", "--format", "cidr"], "128.0.0.0/1\n", &[]),
    (&["export", "here.mmdb", "--where-contains", "m=7", "--format", "cidr", "--allow-missing"], "", &["no network has the TEXT of --where-contains m=7"]),
    (&["export", "here.mmdb", "--where-above", "m=6", "--format", "cidr"], "0.0.0.0/1\n", &[]),
    // a step into it is more than its header
    (&["export", "here.mmdb", "128.0.0.0/1", "--where", "m.a=7", "--format", "cidr"], "", &["no network that is asked for has m.a=7", "128.0.0.0/1: ", "1 networks could not be read"]),
];

#[test]
fn maps_are_not_read(rt: HostRuntime) {
    let bytes = file_of_nodes(rt.alloc(), &[(17, 22)], b"\xC1\x01", MAP_CUT).expect(&rt, "a file");
    for (words, written, message) in OF_MAP_CUT {
        let run = run_of(rt.alloc(), bytes.as_slice(), words, "");
        let holds = run.out() == *written && lines_hold(run.err(), message);
        assert_of(&rt, words, &run, holds);
    }
}

/// Arguments, standard output, what each line of standard error has to hold, and the status.
type ListRow<'a> = (&'a [&'a str], &'a str, &'a [&'a str], u8);

#[rattlefmt::skip]
const LISTS: &[ListRow<'static>] = &[
    (
        &["export", "here.mmdb", "--where-above", "n=9", "--format", "cidr"],
        "32.0.0.0/3\n64.0.0.0/4\n96.0.0.0/4\n128.0.0.0/4\n",
        &[],
        0,
    ),
    // what is not there is no number
    (
        &["export", "here.mmdb", "--where-below", "x=0", "--field", "n", "--format", "csv"],
        "network,n\n",
        &["mmdb: no record has x"],
        0,
    ),
    // what no network has
    (
        &["export", "here.mmdb", "--where-above", "n=1e301", "--format", "nft"],
        "",
        &["mmdb: no network has what --where-above n=1e301 asks for; --allow-empty writes an empty list"],
        1,
    ),
    (
        &["export", "here.mmdb", "--where-above", "n=9", "--where-above", "n=1e301", "--format", "pf"],
        "",
        &["mmdb: no network has what --where-above n=1e301 asks for; --allow-empty writes an empty list"],
        1,
    ),
    (
        &["export", "here.mmdb", "--where-below", "x=1", "--format", "pf", "--allow-missing"],
        "",
        &[
            "mmdb: no network has what --where-below x=1 asks for",
            "no network is chosen; --allow-empty writes an empty list",
        ],
        1,
    ),
    (&["export", "here.mmdb", "--where-below", "x=1", "--format", "pf", "--allow-empty"], "", &[], 0),
    (
        &["export", "here.mmdb", "--where-below", "x=1", "--format", "cidr"],
        "",
        &["mmdb: no network has what --where-below x=1 asks for"],
        0,
    ),
    (
        &["export", "here.mmdb", "--where-above", "n=9", "--where-below", "n=9.2", "--format", "pf"],
        "",
        &["no network is chosen; --allow-empty writes an empty list"],
        1,
    ),
    (
        &["diff", "here.mmdb", "here.mmdb", "--where-above", "n=9", "--format", "cidr", "--exit-code"],
        "",
        &[],
        0,
    ),
    (
        &["diff", "here.mmdb", "here.mmdb", "--where-above", "n=9"],
        "",
        &["--where-above: needs --format cidr, nft or ipset"],
        2,
    ),
    (
        &["export", "here.mmdb", "--where-below", "01=5"],
        "",
        &["01: not a path"],
        2,
    ),
];

#[test]
fn lists_by_numbers(rt: HostRuntime) {
    let bytes = file_of_values(&rt, rt.alloc());
    for (words, written, message, status) in LISTS {
        let run = run_of(rt.alloc(), bytes.as_slice(), words, "");
        let holds = run.out() == *written
            && run.status == *status
            && lines_hold(run.err(), message);
        assert_of(&rt, words, &run, holds);
    }
}

/// What is no path with a number of JSON.
const NO_BOUNDS: &[&str] = &[
    "n",
    "",
    "n=",
    "n=+1",
    "n=.5",
    "n=1.",
    "n=-",
    "n=01",
    "n=1e",
    "n=1e+",
    "n=0x1",
    "n=NaN",
    "n=null",
    "n= 1",
    "n=1 ",
    "n=1,5",
    "n=\"1\"",
    "n=@file",
    "n=1=2",
    "\"n=1",
    "n=1e18446744073709551616",
];

#[test]
fn no_numbers_to_be_above_or_below(rt: HostRuntime) {
    let bytes = file_of_values(&rt, rt.alloc());
    for option in ["--where-above", "--where-below"] {
        for text in NO_BOUNDS {
            let words = ["export", "here.mmdb", option, *text];
            let run = run_of(rt.alloc(), bytes.as_slice(), &words, "");
            let wanted: String = format!(in rt.alloc();
                "mmdb: {option} {text}: not PATH=NUMBER, a number as JSON writes it"
            ).expect(&rt, "a text");
            let holds = run.status == 2 && run.out().is_empty();
            assert_of(
                &rt,
                &words,
                &run,
                holds && run.err().starts_with(wanted.as_str()),
            );
        }
    }
}
