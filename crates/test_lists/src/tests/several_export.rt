//! Networks of several databases, chosen and written by what each has.
use crate::tests::asserted::assert_of;
use mmdb_compare::{AskedDatabase, Together, TogetherPart};
use mmdb_reader::{IpNetwork, MaxMindDbError, Reader};
use mmdb_vectors::builder::{Field, changed_file, nodes_24};
use std::alloc::Global;
use std::process::Abort;
use test_runs::program::{Run, run_over, two_files};

/// A database: its nodes, their count, its IP version and its type as they are encoded, and its data.
type Database<'a> = (&'a [(u32, u32)], &'a [u8], &'a [u8], &'a [u8], &'a [u8]);

const IPV4: &[u8] = b"\xA1\x04";

const IPV6: &[u8] = b"\xA1\x06";

/// {"c": {"i": "DE"}, "n": 7}, and at 13 {"c": {"i": "AT"}}.
const CITY_DATA: &[u8] = b"\xE2\x41c\xE1\x41i\x42DE\x41n\xA1\x07\xE1\x41c\xE1\x41i\x42AT";

/// None in 0.0.0.0/2, DE in 64.0.0.0/2, AT in 128.0.0.0/2, DE in 192.0.0.0/2. Of three nodes: offset o is 19 + o, 3 is none.
const CITY: Database<'static> = (
    &[(1, 2), (3, 19), (32, 19)],
    b"\xC1\x03",
    IPV4,
    b"\x44City",
    CITY_DATA,
);

/// {"o": "x", "n": 8}, and at 9 {"o": "y"}.
const ASN_DATA: &[u8] = b"\xE2\x41o\x41x\x41n\xA1\x08\xE1\x41o\x41y";

/// x in 0.0.0.0/3, none in 32.0.0.0/3, y in 64.0.0.0/2, x in 128.0.0.0/2, none in 192.0.0.0/2. Of four nodes: offset o is 20 + o,
/// 4 is none.
const ASN: Database<'static> = (
    &[(1, 2), (3, 29), (20, 4), (20, 4)],
    b"\xC1\x04",
    IPV4,
    b"\x43ASN",
    ASN_DATA,
);

/// {"m": 6} in ::/1 and 8000::/1.
const SIX: Database<'static> = (
    &[(17, 17)],
    b"\xC1\x01",
    IPV6,
    b"\x43Six",
    b"\xE1\x41m\xA1\x06",
);

/// No offset of the data in 0.0.0.0/1, {"c": "six"} in 128.0.0.0/1.
const TORN: Database<'static> = (
    &[(4096, 17)],
    b"\xC1\x01",
    IPV4,
    b"\x44Torn",
    b"\xE1\x41c\x43six",
);

/// {"c": a text that is not UTF-8} in 128.0.0.0/1.
const BAD: Database<'static> = (
    &[(1, 17)],
    b"\xC1\x01",
    IPV4,
    b"\x43Bad",
    b"\xE1\x41c\x41\xFF",
);

/// The text x in 128.0.0.0/1, of a type that is called as a row's network is.
const NETWORK: Database<'static> = (&[(1, 17)], b"\xC1\x01", IPV4, b"\x47network", b"\x41x");

/// The databases, words after these, standard input, the status, standard output, and what standard error has to hold.
type Row<'a> = (
    Database<'a>,
    Database<'a>,
    &'a [&'a str],
    &'a str,
    u8,
    &'a str,
    &'a [&'a str],
);

const RECORDS: &str = "{\"network\":\"0.0.0.0/3\",\"City\":null,\"ASN\":{\"o\":\"x\",\"n\":8}}
{\"network\":\"64.0.0.0/2\",\"City\":{\"c\":{\"i\":\"DE\"},\"n\":7},\"ASN\":{\"o\":\"y\"}}
{\"network\":\"128.0.0.0/2\",\"City\":{\"c\":{\"i\":\"AT\"}},\"ASN\":{\"o\":\"x\",\"n\":8}}
{\"network\":\"192.0.0.0/2\",\"City\":{\"c\":{\"i\":\"DE\"},\"n\":7},\"ASN\":null}
";

const FIELDS: &str = "{\"network\":\"0.0.0.0/3\",\"c.i\":null,\"o\":\"x\",\"n\":8}
{\"network\":\"64.0.0.0/2\",\"c.i\":\"DE\",\"o\":\"y\",\"n\":7}
{\"network\":\"128.0.0.0/2\",\"c.i\":\"AT\",\"o\":\"x\",\"n\":8}
{\"network\":\"192.0.0.0/2\",\"c.i\":\"DE\",\"o\":null,\"n\":7}
";

const CELLS: &str =
    "network,country,o\n0.0.0.0/3,,x\n64.0.0.0/2,DE,y\n128.0.0.0/2,AT,x\n192.0.0.0/2,DE,\n";

#[rattlefmt::skip]
const ROWS: &[Row<'static>] = &[
    // each block with the record of each, or null
    (CITY, ASN, &[], "", 0, RECORDS, &[]),
    // each field of the first database that has it
    (CITY, ASN, &["--field", "c.i", "--field", "o", "--field", "n"], "", 0, FIELDS, &[]),
    (ASN, CITY, &["--field", "c.i", "--field", "o", "--field", "n"], "", 0, FIELDS, &[]),
    (CITY, ASN, &["--field", "country=c.i", "--field", "o", "--format", "csv"], "", 0, CELLS, &[]),
    // conditions by the first that has a value
    (
        CITY, ASN, &["--where", "n=8", "--field", "c.i"], "", 0,
        "{\"network\":\"0.0.0.0/3\",\"c.i\":null}\n{\"network\":\"128.0.0.0/2\",\"c.i\":\"AT\"}\n", &[],
    ),
    // as much as lies in a network, named anywhere
    (
        CITY, ASN, &["160.0.0.0/3", "--field", "c.i"], "", 0, "{\"network\":\"160.0.0.0/3\",\"c.i\":\"AT\"}\n", &[],
    ),
    (CITY, ASN, &["40.0.0.0/8"], "", 0, "", &[]),
    // one file named twice, and equal types
    (
        CITY, CITY, &["128.0.0.0/2"], "", 0,
        "{\"network\":\"128.0.0.0/2\",\"City\":{\"c\":{\"i\":\"AT\"}},\"new.mmdb\":{\"c\":{\"i\":\"AT\"}}}\n", &[],
    ),
    (
        NETWORK, ASN, &["192.0.0.0/2"], "", 0, "{\"network\":\"192.0.0.0/2\",\"here.mmdb\":\"x\",\"ASN\":null}\n", &[],
    ),
    // a field that no record has, with what may be meant
    (
        ASN, CITY, &["128.0.0.0/2", "--field", "c.j", "--field", "o"], "", 0,
        "{\"network\":\"128.0.0.0/2\",\"c.j\":null,\"o\":\"x\"}\n", &["mmdb: no record has c.j; did you mean c.i?\n"],
    ),
    // a path of a condition that none has is said first
    (
        CITY, ASN, &["128.0.0.0/2", "--where-not", "zz=1", "--field", "c.j", "--field", "o"], "", 0,
        "{\"network\":\"128.0.0.0/2\",\"c.j\":null,\"o\":\"x\"}\n",
        &["mmdb: no record has zz\nmmdb: no record has c.j; did you mean c.i?\n"],
    ),
    // a field of no row is not said to be in no record
    (CITY, ASN, &["--where-has", "zz", "--field", "c.j"], "", 0, "", &["mmdb: no record has zz\n"]),
];

#[rattlefmt::skip]
const LISTS: &[Row<'static>] = &[
    (CITY, ASN, &["--format", "cidr"], "", 0, "0.0.0.0/3\n64.0.0.0/2\n128.0.0.0/1\n", &[]),
    (CITY, ASN, &["--where", "c.i=DE", "--format", "cidr"], "", 0, "64.0.0.0/2\n192.0.0.0/2\n", &[]),
    (CITY, ASN, &["--where", "c.i=DE", "--where-not", "o=y", "--format", "cidr"], "", 0, "192.0.0.0/2\n", &[]),
    (CITY, ASN, &["--where", "o=x", "--format", "cidr"], "", 0, "0.0.0.0/3\n128.0.0.0/2\n", &[]),
    (ASN, CITY, &["--where", "n=7", "--format", "cidr"], "", 0, "64.0.0.0/2\n192.0.0.0/2\n", &[]),
    (CITY, ASN, &["--where-has", "c", "--where-has", "o", "--format", "cidr"], "", 0, "64.0.0.0/2\n128.0.0.0/2\n", &[]),
    (CITY, ASN, &["96.0.0.0/3", "--format", "cidr"], "", 0, "96.0.0.0/3\n", &[]),
    // with what is added and without what is taken away
    (
        CITY, ASN, &["--where", "c.i=DE", "--except", "-", "--format", "cidr"], "192.0.0.0/3\n", 0,
        "64.0.0.0/2\n224.0.0.0/3\n", &[],
    ),
    (
        CITY, ASN, &["--where", "c.i=AT", "--also", "-", "--format", "cidr"], "192.0.0.0/2\n", 0, "128.0.0.0/1\n", &[],
    ),
    // values of a file
    (CITY, ASN, &["--where", "o=@-", "--format", "cidr"], "x\ny\n", 0, "0.0.0.0/3\n64.0.0.0/2\n128.0.0.0/2\n", &[]),
    (
        CITY, ASN, &["--where", "o=@-", "--format", "nft"], "z\n", 1, "",
        &["mmdb: o=@-: no network has 1 of the 1 values: z; --allow-empty writes an empty list\n"],
    ),
    // a path of a file's values that no record has
    (
        CITY, ASN, &["--where", "oo.x=@-", "--format", "nft"], "z\n", 1, "",
        &["mmdb: oo.x=@-: no network has 1 of the 1 values: z; --allow-empty writes an empty list\n", "mmdb: no record has oo.x"],
    ),
    // no network is chosen, and a value that none has
    (CITY, ASN, &["--where", "c.i=DE", "--where", "o=x", "--format", "nft"], "", 1, "", &["no network is chosen"]),
    (CITY, ASN, &["--where", "c.i=DE", "--where", "o=x", "--format", "cidr"], "", 0, "", &[]),
    (
        ASN, CITY, &["--where", "c.i=de", "--format", "nft"], "", 1, "",
        &["mmdb: no network has c.i=de (did you mean DE?); --allow-empty writes an empty list\n"],
    ),
    (
        CITY, ASN, &["--where", "c.i=AT", "--where", "c.i=FR", "--format", "nft"], "", 1, "",
        &["mmdb: no network has c.i=FR; --allow-missing goes on without it\n"],
    ),
    (
        CITY, ASN, &["--where", "c.i=AT", "--where", "c.i=FR", "--format", "cidr", "--allow-missing"], "", 0, "128.0.0.0/2\n", &[],
    ),
    (CITY, ASN, &["--ipv6", "--format", "cidr", "--allow-empty"], "", 0, "", &[]),
];

#[rattlefmt::skip]
const MIXED: &[Row<'static>] = &[
    // a database without IPv6 beside one with it
    (CITY, SIX, &["--where", "c.i=DE", "--format", "cidr"], "", 0, "64.0.0.0/2\n192.0.0.0/2\n", &[]),
    // lookups of all IPv4 addresses find ::/1 in a database without a tree of IPv4
    (SIX, CITY, &["--where", "m=6", "--ipv4", "--format", "cidr"], "", 0, "0.0.0.0/0\n", &[]),
    // a range within ::ffff:0:0/96, of which none of the databases has networks, or one has some
    (
        CITY, ASN, &["::ffff:128.0.0.0/98", "--field", "o"], "", 0, "{\"network\":\"128.0.0.0/2\",\"o\":\"x\"}\n",
        &["mmdb: ::ffff:128.0.0.0/98 is read as 128.0.0.0/2\n"],
    ),
    (
        CITY, SIX, &["::ffff:128.0.0.0/98", "--field", "m"], "", 0, "{\"network\":\"::ffff:128.0.0.0/98\",\"m\":6}\n", &[],
    ),
    // a path of a condition that no record has
    (CITY, ASN, &["--where", "c.j=DE"], "", 0, "", &["mmdb: no record has c.j; did you mean c.i?\n"]),
    (
        CITY, ASN, &["--where", "c.j=DE", "--format", "pf"], "", 1, "",
        &["mmdb: no network has c.j=DE (did you mean c.i=DE?); --allow-empty writes an empty list\n"],
    ),
    (CITY, SIX, &["8000::/1"], "", 0, "{\"network\":\"8000::/1\",\"City\":null,\"Six\":{\"m\":6}}\n", &[]),
    (
        CITY, SIX, &["128.0.0.0/2"], "", 0,
        "{\"network\":\"128.0.0.0/2\",\"City\":{\"c\":{\"i\":\"AT\"}},\"Six\":{\"m\":6}}\n", &[],
    ),
    (
        SIX, CITY, &["::8000:0/98", "--field", "c.i", "--field", "m"], "", 0,
        "{\"network\":\"128.0.0.0/2\",\"c.i\":\"AT\",\"m\":6}\n", &[],
    ),
    // none of them has IPv6
    (CITY, ASN, &["::/0"], "", 1, "", &["mmdb: here.mmdb: invalid input: cannot iterate IPv6"]),
    // a leaf that can't be read, and what comes after it
    (
        ASN, TORN, &["--field", "c", "--field", "o"], "", 1,
        "{\"network\":\"128.0.0.0/2\",\"c\":\"six\",\"o\":\"x\"}\n{\"network\":\"192.0.0.0/2\",\"c\":\"six\",\"o\":null}\n",
        &["mmdb: new.mmdb: a network before any other: invalid database", "mmdb: 1 networks could not be read\n"],
    ),
    (
        TORN, ASN, &["--where", "o=x", "--format", "cidr"], "", 1, "128.0.0.0/2\n",
        &["mmdb: here.mmdb: a network before any other: invalid database", "mmdb: 1 networks could not be read\n"],
    ),
    // a value that can't be read is an error, with the file of it
    (
        ASN, BAD, &["--field", "o", "--field", "c"], "", 1,
        "{\"network\":\"0.0.0.0/3\",\"o\":\"x\",\"c\":null}\n{\"network\":\"64.0.0.0/2\",\"o\":\"y\",\"c\":null}\n",
        // once, as its own file has it, however many networks the others have there
        &["mmdb: new.mmdb: 128.0.0.0/1: ", "mmdb: 1 networks could not be read\n"],
    ),
    (
        BAD, ASN, &["128.0.0.0/2"], "", 1, "", &["mmdb: here.mmdb: 128.0.0.0/1: ", "mmdb: 1 networks could not be read\n"],
    ),
    (
        ASN, BAD, &["--where-has", "c", "--field", "o"], "", 1, "", &["mmdb: new.mmdb: 128.0.0.0/1: ", "mmdb: 1 networks could not be read\n"],
    ),
];

/// All words, the status, standard output, and what standard error has to hold.
type Rejected<'a> = (&'a [&'a str], u8, &'a str, &'a [&'a str]);

#[rattlefmt::skip]
const REJECTED: &[Rejected<'static>] = &[
    (&["export", "192.0.0.0/3", "here.mmdb", "here.mmdb", "--format", "cidr"], 0, "192.0.0.0/3\n", &[]),
    (&["export", "new.mmdb", "0.0.0.0/2", "here.mmdb", "--format", "cidr"], 0, "0.0.0.0/3\n", &[]),
    (&["export", "here.mmdb", "1.1.1/24"], 1, "", &["mmdb: 1.1.1/24: neither a network nor a file\n"]),
    (&["export", "here.mmdb", "new.mmdb", "gone.mmdb"], 1, "", &["mmdb: gone.mmdb: neither a network nor a file\n"]),
    (&["export", "gone.mmdb", "lost.mmdb"], 1, "", &["mmdb: gone.mmdb: i/o error: entity not found\nmmdb: lost.mmdb: neither a network nor a file\n"]),
    (&["export", "here.mmdb", "new.mmdb", "1.0.0.0/8", "2.0.0.0/8"], 2, "", &["mmdb: 2.0.0.0/8: a second network; one is asked for\n"]),
    (&["export", "1.0.0.0/8"], 2, "", &["mmdb: export: needs a file\n"]),
    (&["export", "here.mmdb", "new.mmdb", "--format", "csv"], 2, "", &["mmdb: --format csv: needs a --field\n"]),
];

// The file of a database.
fn file_of(rt: &impl Abort, alloc: Global, database: &Database<'_>) -> Vec<u8> {
    let (nodes, count, version, kind, data) = *database;
    let changes = &[
        (Field::NodeCount, count),
        (Field::IpVersion, version),
        (Field::DatabaseType, kind),
    ];
    let nodes = nodes_24(alloc, nodes).expect(rt, "nodes");
    changed_file(alloc, nodes.as_slice(), data, changes).expect(rt, "a file")
}

// Whether standard error holds each of these texts, or nothing where there are none.
fn holds_all(run: &Run, texts: &[&str]) -> bool {
    if texts.is_empty() {
        return run.err().is_empty();
    }
    for text in texts {
        if !run.err().contains(*text) {
            return false;
        }
    }
    true
}

// A run of `export` over two databases.
fn run_both(alloc: Global, old: &[u8], newer: &[u8], words: &[&str], lines: &str) -> Run {
    let mut all: Vec<&str> = Vec::new(alloc);
    let _ = all.extend_from_slice(&["export", "here.mmdb", "new.mmdb"]);
    let _ = all.extend_from_slice(words);
    run_over(alloc, &two_files(old, newer), all.as_slice(), lines, false)
}

// Asserts what a run leaves.
fn assert_row(rt: &impl Abort, alloc: Global, row: &Row<'_>) {
    let (first, second, words, lines, status, out, err) = *row;
    let old = file_of(rt, alloc, &first);
    let newer = file_of(rt, alloc, &second);
    let run = run_both(alloc, old.as_slice(), newer.as_slice(), words, lines);
    let holds = run.status == status && run.out() == out && holds_all(&run, err);
    assert_of(rt, words, &run, holds);
}

#[test]
fn rows_of_two_databases(rt: HostRuntime) {
    for row in ROWS {
        assert_row(&rt, rt.alloc(), row);
    }
}

#[test]
fn lists_of_two_databases(rt: HostRuntime) {
    for row in LISTS {
        assert_row(&rt, rt.alloc(), row);
    }
}

#[test]
fn databases_that_differ_in_kind_or_are_torn(rt: HostRuntime) {
    for row in MIXED {
        assert_row(&rt, rt.alloc(), row);
    }
}

#[test]
fn names_of_files_and_of_networks(rt: HostRuntime) {
    let old = file_of(&rt, rt.alloc(), &CITY);
    let newer = file_of(&rt, rt.alloc(), &ASN);
    for (words, status, out, err) in REJECTED {
        let files = two_files(old.as_slice(), newer.as_slice());
        let run = run_over(rt.alloc(), &files, words, "", false);
        let holds = run.status == *status && run.out() == *out && holds_all(&run, err);
        assert_of(&rt, words, &run, holds);
    }
}

/// The stretches of three databases: the first address, the prefix, and in which of them there is a record.
const STRETCHES: &[(u128, u8, [bool; 3])] = &[
    (0, 99, [false, true, false]),
    (0x4000_0000, 98, [true, true, false]),
    (0x8000_0000, 98, [true, true, true]),
    (0xC000_0000, 98, [true, false, true]),
];

// A database in all addresses of IPv4.
fn asked_in<'a>(rt: &impl Abort, reader: &'a Reader<Vec<u8>>) -> AskedDatabase<'a, Vec<u8>> {
    let range: IpNetwork = "0.0.0.0/0".parse().expect(rt, "a network");
    AskedDatabase { reader, range }
}

// A reader of a database.
fn reader_of(rt: &impl Abort, alloc: Global, database: &Database<'_>) -> Reader<Vec<u8>> {
    let opened: Result<Reader<Vec<u8>>, MaxMindDbError> = Reader::from_source(
        alloc,
        file_of(rt, alloc, database),
    );
    opened.expect(rt, "a database")
}

// The readers of three databases.
fn readers_of(rt: &impl Abort, alloc: Global) -> Vec<Reader<Vec<u8>>> {
    let mut readers = Vec::new(alloc);
    for database in [&CITY, &ASN, &NETWORK] {
        let reader = reader_of(rt, alloc, database);
        readers.push(reader).expect(rt, "memory");
    }
    readers
}

// Databases in all addresses of IPv4.
fn asked_of<'a>(
    rt: &impl Abort,
    alloc: Global,
    readers: &'a [Reader<Vec<u8>>],
) -> Vec<AskedDatabase<'a, Vec<u8>>> {
    let mut asked = Vec::new(alloc);
    for reader in readers {
        asked.push(asked_in(rt, reader)).expect(rt, "memory");
    }
    asked
}

// Asserts what comes next of three databases.
fn assert_next(
    rt: &impl Abort,
    alloc: Global,
    together: &mut Together<'_, Vec<u8>>,
    wanted: &(u128, u8, [bool; 3]),
) {
    let (first, prefix, has) = wanted;
    let part = together.next_part();
    assert!(rt; matches!(part, Some(TogetherPart::Stretch(_))));
    let Some(TogetherPart::Stretch(stretch)) = part else {
        return;
    };
    assert!(rt; stretch.block.first == *first);
    assert!(rt; stretch.block.prefix == *prefix);
    assert!(rt; stretch.is_ipv4);
    let answers = together.answers(alloc, stretch).expect(rt, "memory");
    assert!(rt; answers.len() == 3);
    for (answer, is_there) in answers.iter().zip(has) {
        assert!(rt; answer.is_some() == *is_there);
    }
}

// Asserts the stretches of three databases.
fn assert_three<'a>(rt: &impl Abort, alloc: Global, asked: &[AskedDatabase<'a, Vec<u8>>]) {
    let begun = Together::new(alloc, asked);
    assert!(rt; begun.is_ok());
    let mut together = match begun {
        Ok(together) => together,
        Err((_, error)) => {
            drop(error);
            return;
        }
    };
    for wanted in STRETCHES {
        assert_next(rt, alloc, &mut together, wanted);
    }
    let is_over = together.next_part().is_none();
    drop(together);
    assert!(rt; is_over);
}

#[test]
fn three_databases_side_by_side(rt: HostRuntime) {
    let alloc = rt.alloc();
    let readers = readers_of(&rt, alloc);
    let asked = asked_of(&rt, alloc, readers.as_slice());
    assert_three(&rt, alloc, asked.as_slice());
}
