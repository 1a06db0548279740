//! What changed between two files.
use super::exports::lines_hold;
use crate::tests::asserted::assert_of;
use mmdb_vectors::builder::{Field, changed_file, nodes_24};
use std::alloc::Global;
use std::process::Abort;
use test_runs::program::{Run, file_of, run_over, two_files};
use test_runs::trees::{DAMAGED, DATA, WHOLE};

/// DE, AT, none, DE, {"n": "7"}, DE, and DE in one network of /2. Of six nodes: offset o is 22 + o, 6 is none.
const CHANGED: &[(u32, u32)] = &[(1, 2), (3, 4), (5, 22), (22, 35), (6, 22), (53, 22)];

/// DE in 0.0.0.0/1, none behind it.
const HALF: &[(u32, u32)] = &[(17, 1)];

/// A database: its nodes, their count as it is encoded, and its IP version as it is encoded.
type Database<'a> = (&'a [(u32, u32)], &'a [u8], &'a [u8]);

/// None, {"n": "7"}, and none in 128.0.0.0/1. Of two nodes: offset o is 18 + o, 2 is none.
const LATER: &[(u32, u32)] = &[(1, 2), (2, 49)];

/// {"n": "7"}, none, and none in 128.0.0.0/1.
const EARLIER: &[(u32, u32)] = &[(1, 2), (49, 2)];

/// AT, a fault, AT, AT, and none in 128.0.0.0/1. Of four nodes: offset o is 20 + o, 4 is none.
const TORN: &[(u32, u32)] = &[(1, 4), (2, 3), (33, 4096), (33, 33)];

/// AT, a text that is not UTF-8, AT, AT, and none in 128.0.0.0/1.
const MARRED: &[(u32, u32)] = &[(1, 4), (2, 3), (33, 46), (33, 33)];

const IPV4: &[u8] = b"\xA1\x04";

const IPV6: &[u8] = b"\xA1\x06";

const BEFORE: Database<'static> = (WHOLE, b"\xC1\x07", IPV4);

const AFTER: Database<'static> = (CHANGED, b"\xC1\x06", IPV4);

const FAULTY: Database<'static> = (DAMAGED, b"\xC1\x07", IPV4);

const SPLIT: Database<'static> = (TORN, b"\xC1\x04", IPV4);

const UNCLEAN: Database<'static> = (MARRED, b"\xC1\x04", IPV4);

const SHORT: Database<'static> = (HALF, b"\xC1\x01", IPV4);

const FIRST_LACKS: Database<'static> = (EARLIER, b"\xC1\x02", IPV4);

const SECOND_LACKS: Database<'static> = (LATER, b"\xC1\x02", IPV4);

/// A text that is not UTF-8 in 0.0.0.0/1, DE in 128.0.0.0/1. Of one node: offset o is 17 + o.
const ONE_UNCLEAN: Database<'static> = (&[(43, 17)], b"\xC1\x01", IPV4);

/// AT in ::/1, DE in 8000::/1.
const NARROW: Database<'static> = (&[(30, 17)], b"\xC1\x01", IPV6);

/// DE everywhere.
const WIDE: Database<'static> = (&[(17, 17)], b"\xC1\x01", IPV6);

/// The old and the new database, words, standard output, what each line of standard error has to hold, and the status.
type Row<'a> = (
    Database<'a>,
    Database<'a>,
    &'a [&'a str],
    &'a str,
    &'a [&'a str],
    u8,
);

const NOTHING: &str = "0 (0) added, 0 (0) removed, 0 (0) changed";

/// What is said at the end of one network that can't be read.
const ONE_UNREAD: &str = "mmdb: 1 networks could not be read";

const TWO_UNREAD: &str = "mmdb: 2 networks could not be read";

#[rattlefmt::skip]
const ROWS: &[Row<'static>] = &[
    (BEFORE, BEFORE, &[], "", &[NOTHING], 0),
    (BEFORE, BEFORE, &["--exit-code"], "", &[NOTHING], 0),
    // changed, removed and added; two halves that became one network are the same
    (
        BEFORE,
        AFTER,
        &[],
        "{\"network\":\"32.0.0.0/3\",\"old\":{\"c\":{\"i\":\"DE\"},\"n\":7},\"new\":{\"c\":{\"i\":\"AT\"},\"n\":true}}
{\"network\":\"64.0.0.0/3\",\"old\":{\"c\":{\"i\":\"AT\"},\"n\":true},\"new\":null}
{\"network\":\"128.0.0.0/3\",\"old\":null,\"new\":{\"n\":\"7\"}}
",
        &["1 (536870912) added, 1 (536870912) removed, 1 (536870912) changed"],
        0,
    ),
    // without a record a field is null, as where the record has no such field
    (
        AFTER,
        BEFORE,
        &["--field", "c.i", "--exit-code"],
        "{\"network\":\"32.0.0.0/3\",\"old\":{\"c.i\":\"AT\"},\"new\":{\"c.i\":\"DE\"}}
{\"network\":\"64.0.0.0/3\",\"old\":{\"c.i\":null},\"new\":{\"c.i\":\"AT\"}}
",
        &["1 (536870912) added, 0 (0) removed, 1 (536870912) changed"],
        7,
    ),
    (
        BEFORE,
        AFTER,
        &["0.0.0.0/2", "--field", "c.i", "--field", "n", "--format", "csv"],
        "network,old.c.i,old.n,new.c.i,new.n\n32.0.0.0/3,DE,7,AT,true\n",
        &["0 (0) added, 0 (0) removed, 1 (536870912) changed"],
        0,
    ),
    (
        BEFORE,
        AFTER,
        &["64.0.0.0/3", "--field", "n", "--format", "csv"],
        "network,old.n,new.n\n64.0.0.0/3,true,\n",
        &["0 (0) added, 1 (536870912) removed, 0 (0) changed"],
        0,
    ),
    // a range inside a network is compared alone
    (
        BEFORE,
        AFTER,
        &["32.1.2.0/24", "--field", "c.i"],
        "{\"network\":\"32.1.2.0/24\",\"old\":{\"c.i\":\"DE\"},\"new\":{\"c.i\":\"AT\"}}\n",
        &["0 (0) added, 0 (0) removed, 1 (256) changed"],
        0,
    ),
    // a network that was split; two halves with the same two values are one line
    (
        SHORT,
        BEFORE,
        &["--field", "c.i"],
        "{\"network\":\"64.0.0.0/3\",\"old\":{\"c.i\":\"DE\"},\"new\":{\"c.i\":\"AT\"}}
{\"network\":\"160.0.0.0/3\",\"old\":{\"c.i\":null},\"new\":{\"c.i\":\"DE\"}}
{\"network\":\"192.0.0.0/2\",\"old\":{\"c.i\":null},\"new\":{\"c.i\":\"DE\"}}
",
        &["2 (1610612736) added, 0 (0) removed, 1 (536870912) changed"],
        0,
    ),
    // what can't be read is reported with its file, in its place, and is not compared
    (
        BEFORE,
        FAULTY,
        &["--field", "n", "--format", "csv", "--exit-code"],
        "network,old.n,new.n\n32.0.0.0/3,7,\n64.0.0.0/3,true,7\n96.0.0.0/3,7,true\n192.0.0.0/2,7,\n",
        &[
            "mmdb: new.mmdb: a network behind 96.0.0.0/3: invalid database",
            "0 (0) added, 1 (1073741824) removed, 3 (1610612736) changed",
            ONE_UNREAD,
        ],
        1,
    ),
    (
        FAULTY,
        BEFORE,
        &["32.0.0.0/3"],
        "",
        &["mmdb: here.mmdb: 32.0.0.0/3: ", NOTHING, ONE_UNREAD],
        1,
    ),
    // networks on both sides of one that can't be read are not joined
    (
        SHORT,
        SPLIT,
        &["--field", "c.i", "--format", "csv"],
        "network,old.c.i,new.c.i\n0.0.0.0/3,DE,AT\n64.0.0.0/2,DE,AT\n",
        &[
            "mmdb: new.mmdb: a network behind 0.0.0.0/3: invalid database",
            "0 (0) added, 0 (0) removed, 2 (1610612736) changed",
            ONE_UNREAD,
        ],
        1,
    ),
    (
        SHORT,
        UNCLEAN,
        &["--field", "c", "--format", "csv"],
        "network,old.c,new.c\n0.0.0.0/3,\"{\"\"i\"\":\"\"DE\"\"}\",\"{\"\"i\"\":\"\"AT\"\"}\"\n64.0.0.0/2,\"{\"\"i\"\":\"\"DE\"\"}\",\"{\"\"i\"\":\"\"AT\"\"}\"\n",
        &[
            "mmdb: new.mmdb: 32.0.0.0/3: ",
            "0 (0) added, 0 (0) removed, 2 (1610612736) changed",
            ONE_UNREAD,
        ],
        1,
    ),
    // a field of a text is nowhere, whatever the text is
    (
        SHORT,
        UNCLEAN,
        &["--field", "c.i", "--format", "csv"],
        "network,old.c.i,new.c.i\n0.0.0.0/3,DE,AT\n32.0.0.0/3,DE,\n64.0.0.0/2,DE,AT\n",
        &["0 (0) added, 0 (0) removed, 3 (2147483648) changed"],
        0,
    ),
    (
        SHORT,
        UNCLEAN,
        &[],
        "{\"network\":\"0.0.0.0/3\",\"old\":{\"c\":{\"i\":\"DE\"},\"n\":7},\"new\":{\"c\":{\"i\":\"AT\"},\"n\":true}}
{\"network\":\"64.0.0.0/2\",\"old\":{\"c\":{\"i\":\"DE\"},\"n\":7},\"new\":{\"c\":{\"i\":\"AT\"},\"n\":true}}
",
        &[
            "mmdb: new.mmdb: 32.0.0.0/3: ",
            "0 (0) added, 0 (0) removed, 2 (1610612736) changed",
            ONE_UNREAD,
        ],
        1,
    ),
    // without a record and without a field the same is shown, and the first address is counted
    (
        SECOND_LACKS,
        SHORT,
        &["--field", "c.i"],
        "{\"network\":\"0.0.0.0/1\",\"old\":{\"c.i\":null},\"new\":{\"c.i\":\"DE\"}}\n",
        &["1 (2147483648) added, 0 (0) removed, 0 (0) changed"],
        0,
    ),
    (
        FIRST_LACKS,
        SHORT,
        &["--field", "c.i", "--format", "csv"],
        "network,old.c.i,new.c.i\n0.0.0.0/1,,DE\n",
        &["0 (0) added, 0 (0) removed, 1 (2147483648) changed"],
        0,
    ),
    (
        SHORT,
        SECOND_LACKS,
        &["--field", "c.i"],
        "{\"network\":\"0.0.0.0/1\",\"old\":{\"c.i\":\"DE\"},\"new\":{\"c.i\":null}}\n",
        &["0 (0) added, 1 (2147483648) removed, 0 (0) changed"],
        0,
    ),
    // as whole records the two differ
    (
        SHORT,
        FIRST_LACKS,
        &[],
        "{\"network\":\"0.0.0.0/2\",\"old\":{\"c\":{\"i\":\"DE\"},\"n\":7},\"new\":{\"n\":\"7\"}}
{\"network\":\"64.0.0.0/2\",\"old\":{\"c\":{\"i\":\"DE\"},\"n\":7},\"new\":null}
",
        &["0 (0) added, 1 (1073741824) removed, 1 (1073741824) changed"],
        0,
    ),
    // kinds that differ are compared on IPv4
    (
        SHORT,
        WIDE,
        &["--field", "c.i"],
        "{\"network\":\"128.0.0.0/1\",\"old\":{\"c.i\":null},\"new\":{\"c.i\":\"DE\"}}\n",
        &["1 (2147483648) added, 0 (0) removed, 0 (0) changed"],
        0,
    ),
    // what changes in a list: nft does it whole or not at all, and ipset passes over what is done already
    (
        BEFORE,
        AFTER,
        &["--where", "c.i=DE", "--format", "nft"],
        "define mmdb_ipv4_removed = {
0.0.0.0/2
}
define mmdb_ipv4_added = {
0.0.0.0/3
}
delete element inet mmdb mmdb_ipv4 $mmdb_ipv4_removed; add element inet mmdb mmdb_ipv4 $mmdb_ipv4_added
",
        &[],
        0,
    ),
    (
        BEFORE,
        AFTER,
        &["--where", "c.i=DE", "--format", "ipset", "--exit-code"],
        "del mmdb_ipv4 0.0.0.0/2 -exist\nadd mmdb_ipv4 0.0.0.0/3 -exist\n",
        &[],
        7,
    ),
    (BEFORE, AFTER, &["--where", "c.i=DE", "--format", "cidr"], "-0.0.0.0/2\n+0.0.0.0/3\n", &[], 0),
    // rows of one kind of addresses
    (WIDE, NARROW, &["--field", "c.i", "--ipv6", "--format", "csv"], "network,old.c.i,new.c.i\n::/1,DE,AT\n", &["0 (0) added, 0 (0) removed, 1 (0) changed"], 0),
    (
        WIDE,
        NARROW,
        &["--field", "c.i", "--ipv4", "--format", "csv"],
        "network,old.c.i,new.c.i\n0.0.0.0/0,DE,AT\n",
        &["0 (0) added, 0 (0) removed, 1 (4294967296) changed"],
        0,
    ),
    (SHORT, BEFORE, &["--ipv6"], "", &[NOTHING], 0),
    // one network that can't be read is named and counted once, however many the other file has there
    (
        ONE_UNCLEAN,
        BEFORE,
        &["--field", "c"],
        "{\"network\":\"128.0.0.0/3\",\"old\":{\"c\":{\"i\":\"DE\"}},\"new\":{\"c\":null}}\n",
        &[
            "mmdb: here.mmdb: 0.0.0.0/1: ",
            "0 (0) added, 1 (536870912) removed, 0 (0) changed",
            ONE_UNREAD,
        ],
        1,
    ),
    (SHORT, WIDE, &["2000::/3"], "", &["mmdb: here.mmdb: invalid input"], 1),
    (WIDE, WIDE, &["2000::/3"], "", &[NOTHING], 0),
    (SHORT, SHORT, &["x"], "", &["x: not a network"], 2),
    (SHORT, SHORT, &["--format", "csv"], "", &["--format csv: needs a --field"], 2),
    (SHORT, SHORT, &["--field", "+1"], "", &["+1: not a path"], 2),
];

/// Two copies of a database.
#[rattlefmt::skip]
const COPIES: &[Row<'static>] = &[
    // nothing differs, in a range or as fields too
    (BEFORE, BEFORE, &["32.1.2.0/24", "--exit-code"], "", &[NOTHING], 0),
    (BEFORE, BEFORE, &["--field", "c.i"], "", &[NOTHING], 0),
    (BEFORE, BEFORE, &["--field", "n", "--format", "csv"], "network,old.n,new.n\n", &[NOTHING], 0),
    (BEFORE, BEFORE, &["::/0"], "", &["mmdb: here.mmdb: invalid input: cannot iterate IPv6"], 1),
    // what can't be read is reported as of other files
    (
        FAULTY,
        FAULTY,
        &[],
        "",
        &[
            "mmdb: here.mmdb: 32.0.0.0/3: invalid database at offset 89: invalid UTF-8 in string",
            "mmdb: here.mmdb: a network behind 96.0.0.0/3: invalid database: ",
            "mmdb: new.mmdb: a network behind 96.0.0.0/3: invalid database: ",
            NOTHING,
            "mmdb: 3 networks could not be read",
        ],
        1,
    ),
    (
        FAULTY,
        FAULTY,
        &["--field", "n", "--format", "csv", "--exit-code"],
        "network,old.n,new.n\n",
        &[
            "mmdb: here.mmdb: a network behind 96.0.0.0/3: invalid database: ",
            "mmdb: new.mmdb: a network behind 96.0.0.0/3: invalid database: ",
            NOTHING,
            TWO_UNREAD,
        ],
        1,
    ),
    (FAULTY, FAULTY, &["32.0.0.0/3"], "", &["mmdb: here.mmdb: 32.0.0.0/3: invalid database", NOTHING, ONE_UNREAD], 1),
    (FAULTY, FAULTY, &["64.0.0.0/2", "--exit-code"], "", &[NOTHING], 0),
    (FAULTY, FAULTY, &["0.0.0.0/2", "--field", "n"], "", &[NOTHING], 0),
    (
        SPLIT,
        SPLIT,
        &["32.0.0.0/3", "--exit-code"],
        "",
        &[
            "mmdb: here.mmdb: a network before any other: invalid database: ",
            "mmdb: new.mmdb: a network before any other: invalid database: ",
            NOTHING,
            TWO_UNREAD,
        ],
        1,
    ),
    (UNCLEAN, UNCLEAN, &["--exit-code"], "", &["mmdb: here.mmdb: 32.0.0.0/3: ", NOTHING, ONE_UNREAD], 1),
    (UNCLEAN, UNCLEAN, &["--field", "n"], "", &[NOTHING], 0),
    (
        UNCLEAN,
        UNCLEAN,
        &["--field", "n", "--field", "c", "--format", "csv"],
        "network,old.n,old.c,new.n,new.c\n",
        &["mmdb: here.mmdb: 32.0.0.0/3: ", NOTHING, ONE_UNREAD],
        1,
    ),
    // a path that meets a value of another type leads nowhere
    (
        BEFORE,
        BEFORE,
        &["64.0.0.0/2", "--field", "n.x", "--exit-code"],
        "",
        &["mmdb: no record has n.x", NOTHING],
        0,
    ),
    (BEFORE, BEFORE, &["128.0.0.0/3", "--field", "n.x"], "", &[NOTHING], 0),
];

fn bytes_of(rt: &impl Abort, alloc: Global, database: Database<'_>) -> Vec<u8> {
    let (nodes, count, version) = database;
    let tree = nodes_24(alloc, nodes).expect(rt, "nodes");
    let changes = [(Field::NodeCount, count), (Field::IpVersion, version)];
    changed_file(alloc, tree.as_slice(), DATA, &changes).expect(rt, "a file")
}

// A run of diff over two files.
fn diff_of(alloc: Global, old: &[u8], new: &[u8], texts: &[&str]) -> Run {
    let files = two_files(old, new);
    let mut words = Vec::new(alloc);
    let _ = words.extend_from_slice(&["diff", "here.mmdb", "new.mmdb"]);
    let _ = words.extend_from_slice(texts);
    run_over(alloc, &files, words.as_slice(), "", false)
}

fn assert_row(rt: &impl Abort, alloc: Global, row: &Row<'_>) {
    let (old, new, texts, written, message, status) = row;
    let old = bytes_of(rt, alloc, *old);
    let new = bytes_of(rt, alloc, *new);
    let run = diff_of(alloc, old.as_slice(), new.as_slice(), texts);
    let holds = run.out() == *written && run.status == *status && lines_hold(run.err(), message);
    assert_of(rt, texts, &run, holds);
}

#[test]
fn differences_of_two_files(rt: HostRuntime) {
    for row in ROWS {
        assert_row(&rt, rt.alloc(), row);
    }
}

// Blocks of the other kind of addresses are none of the new list, which would be empty.
#[test]
fn lists_of_one_kind_with_blocks_of_the_other(rt: HostRuntime) {
    let old = bytes_of(&rt, rt.alloc(), WIDE);
    let newer = bytes_of(&rt, rt.alloc(), SHORT);
    let files = two_files(old.as_slice(), newer.as_slice());
    let [of_ipv4, of_ipv6] = ["9.9.9.9\n", "2000::/3\n"];
    for (lines, written, status) in [
        (of_ipv4, "", 1),
        (
            of_ipv6,
            "del mmdb_ipv6 ::/1 -exist\ndel mmdb_ipv6 8000::/1 -exist\nadd mmdb_ipv6 2000::/3 -exist\n",
            0,
        ),
    ] {
        let words = [
            "diff",
            "here.mmdb",
            "new.mmdb",
            "--ipv6",
            "--format",
            "ipset",
            "--also",
            "-",
        ];
        let run = run_over(rt.alloc(), &files, &words, lines, false);
        let is_said = status == 0 || run.err().contains("no network is chosen; --allow-empty");
        assert_of(
            &rt,
            &words,
            &run,
            is_said && run.status == status && run.out() == written,
        );
    }
}

#[test]
fn copies_of_a_file(rt: HostRuntime) {
    for row in COPIES {
        assert_row(&rt, rt.alloc(), row);
    }
}

/// A value in each of two files, and the status of their comparison: 0 the same, 1 unreadable, 7 different.
type Values<'a> = (&'a [u8], &'a [u8], u8);

#[rattlefmt::skip]
const VALUES: &[Values<'static>] = &[
    (b"\xA1\x05", b"\xA1\x05", 0),
    (b"\xA1\x05", b"\xA1\x06", 7),
    // another type of the same number is shown the same
    (b"\xA1\x05", b"\xC1\x05", 0),
    (b"\xC1\x05", b"\xC1\x05", 0),
    (b"\xC1\x05", b"\xC1\x06", 7),
    (b"\x01\x02\x05", b"\x01\x02\x05", 0),
    (b"\x01\x02\x05", b"\x01\x02\x06", 7),
    (b"\x01\x03\x05", b"\x01\x03\x05", 0),
    (b"\x01\x03\x05", b"\x01\x03\x06", 7),
    (b"\x01\x01\x05", b"\x01\x01\x05", 0),
    (b"\x01\x01\x05", b"\x01\x01\x06", 7),
    (b"\x01\x07", b"\x01\x07", 0),
    (b"\x01\x07", b"\x00\x07", 7),
    (b"\x68\x3F\xF0\0\0\0\0\0\0", b"\x68\x3F\xF0\0\0\0\0\0\0", 0),
    (b"\x68\x3F\xF0\0\0\0\0\0\0", b"\x68\x40\0\0\0\0\0\0\0", 7),
    (b"\x04\x08\x3F\x80\0\0", b"\x04\x08\x3F\x80\0\0", 0),
    (b"\x04\x08\x3F\x80\0\0", b"\x04\x08\x40\0\0\0", 7),
    (b"\x82ab", b"\x82ab", 0),
    (b"\x82ab", b"\x82ac", 7),
    (b"\x42ab", b"\x42ab", 0),
    (b"\x42ab", b"\x42ac", 7),
    (b"\x02\x04\xA1\x01\xA1\x02", b"\x02\x04\xA1\x01\xA1\x02", 0),
    (b"\x02\x04\xA1\x01\xA1\x02", b"\x02\x04\xA1\x01\xA1\x03", 7),
    (b"\x02\x04\xA1\x01\xA1\x02", b"\x01\x04\xA1\x01", 7),
    (b"\xE1\x41a\xA1\x01", b"\xE1\x41a\xA1\x01", 0),
    (b"\xE1\x41a\xA1\x01", b"\xE1\x41b\xA1\x01", 7),
    (b"\xE1\x41a\xA1\x01", b"\xE1\x41a\xA1\x02", 7),
    (b"\xE1\x41a\xA1\x01", b"\xE2\x41a\xA1\x01\x41b\xA1\x01", 7),
    // where a pointer leads the same stands as in line, and behind it the reading goes on
    (b"\x20\x02\x42ab", b"\x42ab", 0),
    (b"\x02\x04\x20\x06\xA1\x07\x42ab", b"\x02\x04\x42ab\xA1\x07", 0),
    (b"\x02\x04\x20\x06\xA1\x07\x42ab", b"\x02\x04\x42ab\xA1\x08", 7),
    (b"\xE2\x41a\x20\x09\x41b\xA1\x02\x01\x04\xA1\x01", b"\xE2\x41a\x01\x04\xA1\x01\x41b\xA1\x02", 0),
    (b"\xE2\x41a\x20\x09\x41b\xA1\x02\x01\x04\xA1\x01", b"\xE2\x41a\x01\x04\xA1\x01\x41b\xA1\x03", 7),
    (b"\xE2\x41a\x20\x09\x41b\xA1\x02\xE1\x41c\xA1\x01", b"\xE2\x41a\xE1\x41c\xA1\x01\x41b\xA1\x02", 0),
    (b"\xE2\x41a\x20\x09\x41b\xA1\x02\xE1\x41c\xA1\x01", b"\xE2\x41a\xE1\x41c\xA1\x01\x41b\xA1\x03", 7),
    // a map to which pointers lead again and again, and one of them in a copy alone
    (b"\x03\x04\x20\x10\x20\x10\x20\x10--------\xE1\x41a\xA1\x05", b"\x03\x04\x20\x10\x20\x10\x20\x10--------\xE1\x41a\xA1\x05", 0),
    (b"\x03\x04\x20\x10\x20\x10\x20\x10--------\xE1\x41a\xA1\x05", b"\x03\x04\x20\x10\x20\x10\x20\x10--------\xE1\x41a\xA1\x06", 7),
    (b"\x02\x04\x20\x0E\x20\x0E--------\xE1\x41a\xA1\x05", b"\x02\x04\x20\x0E\x20\x13--------\xE1\x41a\xA1\x05\xE1\x41a\xA1\x05", 0),
    (b"\x02\x04\x20\x0E\x20\x0E--------\xE1\x41a\xA1\x05", b"\x02\x04\x20\x0E\x20\x13--------\xE1\x41a\xA1\x05\xE1\x41a\xA1\x06", 7),
    (b"\x02\x04\x20\x0E\x20\x0E--------\xE1\x41a\x41\xFF", b"\x02\x04\x20\x0E\x20\x0E--------\xE1\x41a\x41\xFF", 1),
    // a key that is not ASCII
    (b"\xE1\x42\xC3\xA9\xA1\x01", b"\xE1\x42\xC3\xA9\xA1\x01", 0),
    // neither a text nor a key that is not UTF-8 can be read
    (b"\x41\xFF", b"\x41\xFF", 1),
    (b"\xE1\x41\xFF\xA1\x01", b"\xE1\x41\xFF\xA1\x01", 1),
    (b"\xE1\x41a", b"\xE1\x41a", 1),
];

// A database of one node with data.
fn bytes_with(rt: &impl Abort, alloc: Global, nodes: &[(u32, u32)], data: &[u8]) -> Vec<u8> {
    let tree = nodes_24(alloc, nodes).expect(rt, "nodes");
    let changes = [
        (Field::NodeCount, b"\xC1\x01" as &[u8]),
        (Field::IpVersion, IPV4),
    ];
    changed_file(alloc, tree.as_slice(), data, &changes).expect(rt, "a file")
}

fn assert_values(rt: &impl Abort, alloc: Global, values: Values<'_>) {
    let (old, new, status) = values;
    let old_bytes = bytes_with(rt, alloc, HALF, old);
    let new_bytes = bytes_with(rt, alloc, HALF, new);
    let run = diff_of(
        alloc,
        old_bytes.as_slice(),
        new_bytes.as_slice(),
        &["--exit-code"],
    );
    assert!(rt; run.status == status, "{old:?} {new:?}: {:?}", run.err());
}

#[test]
fn values_of_each_type(rt: HostRuntime) {
    for values in VALUES {
        assert_values(&rt, rt.alloc(), *values);
    }
}

// A number in so many arrays, each in another.
fn nested(alloc: Global, depth: usize, number: u8) -> Vec<u8> {
    let mut data = Vec::new(alloc);
    for _ in 0..depth {
        let _ = data.extend_from_slice(b"\x01\x04");
    }
    let _ = data.extend_from_slice(&[0xA1, number]);
    data
}

#[test]
fn values_at_any_depth(rt: HostRuntime) {
    for depth in [1, 31, 32, 33, 200] {
        let five = nested(rt.alloc(), depth, 5);
        let six = nested(rt.alloc(), depth, 6);
        assert_values(&rt, rt.alloc(), (five.as_slice(), five.as_slice(), 0));
        assert_values(&rt, rt.alloc(), (five.as_slice(), six.as_slice(), 7));
    }
}

// An array of so many pointers to one map of 20 pairs, of which the first has a number.
fn of_one_map(alloc: Global, pointers: u16, number: u8) -> Vec<u8> {
    let [high, low] = pointers.saturating_sub(285).to_be_bytes();
    let behind = 4 + 3 * u32::from(pointers);
    let [_, _, third, fourth] = behind.saturating_sub(2048).to_be_bytes();
    let mut data = Vec::new(alloc);
    let _ = data.extend_from_slice(&[0x1E, 4, high, low]);
    for _ in 0..pointers {
        let _ = data.extend_from_slice(&[0x28, third, fourth]);
    }
    let _ = data.extend_from_slice(&[0xF4, 0x41, b'a', 0xA1, number]);
    for _ in 0..19 {
        let _ = data.extend_from_slice(b"\x41a\xA1\x01");
    }
    data
}

#[test]
fn maps_that_stand_often(rt: HostRuntime) {
    // 2,000 of them are more than 65,536 keys and values
    for (pointers, is_read) in [(700u16, true), (1000, true), (2000, false)] {
        let five = of_one_map(rt.alloc(), pointers, 5);
        let six = of_one_map(rt.alloc(), pointers, 6);
        let (same, other) = if is_read { (0, 7) } else { (1, 1) };
        assert_values(&rt, rt.alloc(), (five.as_slice(), five.as_slice(), same));
        assert_values(&rt, rt.alloc(), (five.as_slice(), six.as_slice(), other));
    }
}

/// How many bytes each map of `deeper_and_deeper` has.
const DEEP: u16 = 95;

// So many maps, each of 30 more in one another and a pointer to the map before, and behind them a pointer to each.
fn deeper_and_deeper(alloc: Global, count: u16) -> Vec<u8> {
    let mut data = Vec::new(alloc);
    for index in 0..count {
        for _ in 0..31 {
            let _ = data.extend_from_slice(b"\xE1\x41a");
        }
        let [high, low] = index.saturating_sub(1).saturating_mul(DEEP).to_be_bytes();
        let end = if index == 0 {
            [0xA1, 1]
        } else {
            [0x20 | high, low]
        };
        let _ = data.extend_from_slice(&end);
    }
    for index in 0..count {
        let [high, low] = index.saturating_mul(DEEP).to_be_bytes();
        let _ = data.extend_from_slice(&[0x20 | high, low]);
    }
    data
}

// Nodes in a row, of which each leads to a pointer of `deeper_and_deeper` and to the next node.
fn nodes_in_a_row(alloc: Global, count: u16) -> Vec<(u32, u32)> {
    let all = u32::from(count);
    let mut nodes = Vec::new(alloc);
    for index in 0..count {
        let at = u32::from(index);
        let _ = nodes.push((all + 16 + all * u32::from(DEEP) + 2 * at, at + 1));
    }
    nodes
}

fn deep_file(rt: &impl Abort, alloc: Global, count: u16) -> Vec<u8> {
    let nodes = nodes_in_a_row(alloc, count);
    let tree = nodes_24(alloc, nodes.as_slice()).expect(rt, "nodes");
    let data = deeper_and_deeper(alloc, count);
    let changes = [
        (Field::NodeCount, &[0xC1, count.min(255) as u8] as &[u8]),
        (Field::IpVersion, IPV4),
    ];
    changed_file(alloc, tree.as_slice(), data.as_slice(), &changes).expect(rt, "a file")
}

#[test]
fn copies_of_maps_that_nest(rt: HostRuntime) {
    // of twenty such maps the last ones are deeper than 512 levels
    for (count, status) in [(1u16, 0), (3, 0), (10, 0), (20, 1)] {
        let bytes = deep_file(&rt, rt.alloc(), count);
        let run = diff_of(
            rt.alloc(),
            bytes.as_slice(),
            bytes.as_slice(),
            &["--exit-code"],
        );
        assert_of(
            &rt,
            &["deep"],
            &run,
            run.status == status && run.out().is_empty(),
        );
    }
}

// The nodes of DE in ::/95: in both halves of IPv4, and in as many addresses behind it. Of 97 nodes: offset o is 113 + o,
// 97 is none.
fn nodes_of_both_kinds(alloc: Global) -> Vec<(u32, u32)> {
    let mut nodes = Vec::new(alloc);
    for node in 1..96 {
        let _ = nodes.push((node, 97));
    }
    let _ = nodes.extend_from_slice(&[(96, 113), (113, 113)]);
    nodes
}

#[test]
fn ipv4_and_ipv6_are_joined_apart(rt: HostRuntime) {
    let nodes = nodes_of_both_kinds(rt.alloc());
    let old: Database<'_> = (nodes.as_slice(), b"\xC1\x61", IPV6);
    let new: Database<'_> = (&[(1, 1)], b"\xC1\x01", IPV6);
    let row: Row<'_> = (
        old,
        new,
        &["--field", "n", "--format", "csv"],
        "network,old.n,new.n\n0.0.0.0/0,7,\n::1:0:0/96,7,\n",
        &["0 (0) added, 2 (4294967296) removed, 0 (0) changed"],
        0,
    );
    assert_row(&rt, rt.alloc(), &row);
}

#[test]
fn files_that_are_not_there(rt: HostRuntime) {
    let bytes = bytes_of(&rt, rt.alloc(), SHORT);
    let files = file_of(bytes.as_slice());
    for name in ["here.mmdb", "gone.mmdb"] {
        let texts = ["diff", name, "gone.mmdb"];
        let run = run_over(rt.alloc(), &files, &texts, "", false);
        let is_reported = run.err().contains("gone.mmdb: i/o error: ");
        assert_of(
            &rt,
            &texts,
            &run,
            is_reported && run.status == 1 && run.out().is_empty(),
        );
    }
}

/// The nodes and the data of an old database and of a newer one, a field, and all that is said of it before the counts.
type Misspelt<'a> = (
    &'a [(u32, u32)],
    &'a [u8],
    &'a [(u32, u32)],
    &'a [u8],
    &'a str,
    &'a str,
);

/// {"a": []} in 0.0.0.0/1, and {"city": 1}, which is 5 bytes behind it, in 128.0.0.0/1.
const CITIES: &[u8] = b"\xE1\x41a\x00\x04\xE1\x44city\xA1\x01";

const IN_BOTH_HALVES: &[(u32, u32)] = &[(17, 22)];

/// {"abc": {"citta": 1}}, whose map within is 5 bytes behind its beginning.
const TOWNS: &[u8] = b"\xE1\x43abc\xE1\x45citta\xA1\x01";

/// No address has a record.
const NOWHERE: &[(u32, u32)] = &[(1, 1)];

/// What may be meant is in a record of the newer database, or of the old one where the newer one has none.
#[rattlefmt::skip]
const MISSPELT: &[Misspelt<'static>] = &[
    (IN_BOTH_HALVES, CITIES, HALF, TOWNS, "citty", "mmdb: no record has citty\n"),
    (HALF, TOWNS, IN_BOTH_HALVES, CITIES, "citty", "mmdb: no record has citty; did you mean city?\n"),
    (IN_BOTH_HALVES, CITIES, HALF, TOWNS, "abc.city", "mmdb: no record has abc.city; did you mean abc.citta?\n"),
    (IN_BOTH_HALVES, CITIES, NOWHERE, TOWNS, "citty", "mmdb: no record has citty; did you mean city?\n"),
    // what one of them has is no mistake
    (IN_BOTH_HALVES, CITIES, HALF, TOWNS, "city", ""),
    (HALF, TOWNS, IN_BOTH_HALVES, CITIES, "abc.citta", ""),
];

#[test]
fn fields_that_neither_file_has(rt: HostRuntime) {
    let alloc = rt.alloc();
    for (old_nodes, old, new_nodes, new, field, said) in MISSPELT {
        let old = bytes_with(&rt, alloc, old_nodes, old);
        let new = bytes_with(&rt, alloc, new_nodes, new);
        let texts = &["--field", *field];
        let run = diff_of(alloc, old.as_slice(), new.as_slice(), texts);
        let rest = run.err().strip_prefix(said).unwrap_or("no record has");
        let holds = !rest.contains("no record has") && rest.ends_with(" changed\n");
        assert_of(&rt, texts, &run, holds);
    }
}
