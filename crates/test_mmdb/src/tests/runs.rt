//! Runs of the program.
use crate::tests::asserted::assert_of;
use mmdb_vectors::base::BASE_FILE;
use mmdb_vectors::builder::{BASE_DATA, BASE_NODE, Changes, Field, changed_file};
use std::alloc::{AllocError, Global};
use std::process::Abort;
use test_runs::program::{Run, run_of};
use test_runs::trees::{DAMAGED, DATA, file_of_nodes};

/// Words, the status, standard output, and what standard error has to hold.
type Row<'a> = (&'a [&'a str], u8, &'a str, &'a str);

/// Words, standard input, standard output, and what standard error has to hold, of a run that is done.
type Lines<'a> = (&'a [&'a str], &'a str, &'a str, &'a str);

const FOUND: &str = "{\"address\":\"200.0.0.1\",\"network\":\"128.0.0.0/1\",\"record\":\"x\"}\n";

const MAPPED: &str =
    "{\"address\":\"::ffff:200.0.0.1\",\"network\":\"128.0.0.0/1\",\"record\":\"x\"}\n";

const ABSENT: &str = "{\"address\":\"1.1.1.1\",\"network\":\"0.0.0.0/1\",\"record\":null}\n";

#[rattlefmt::skip]
const BASE_RUNS: &[Row<'static>] = &[
    (&["show", "here.mmdb", "200.0.0.1"], 0, FOUND, ""),
    (&["show", "here.mmdb", "1.1.1.1"], 6, ABSENT, ""),
    (&["show", "here.mmdb", "200.0.0.1", "--path", ""], 0, "\"x\"\n", ""),
    (&["show", "here.mmdb", "1.1.1.1", "--path", "a.b"], 6, "null\n", ""),
    (&["show", "here.mmdb", "::1"], 1, "", "::1: invalid input: cannot look up IPv6"),
    // an address that is mapped to one of IPv4 is looked up as that
    (&["show", "here.mmdb", "::ffff:200.0.0.1"], 0, MAPPED, ""),
    (&["show", "here.mmdb", "1.1.1.1", "::1"], 1, ABSENT, "::1: invalid input"),
    (&["show", "here.mmdb", "::1", "200.0.0.1"], 1, FOUND, "::1: invalid input"),
    (&["show", "gone.mmdb", "200.0.0.1"], 1, "", "gone.mmdb: i/o error: "),
    (&["show", "gone.mmdb", "nowhere"], 2, "", "mmdb: nowhere: neither an address nor a file\n"),
    (&["show", "gone.mmdb", "1.1.1.1", "--path", "a.\"b"], 2, "", "a.\"b: not a path"),
    (&["show", "gone.mmdb", "1.1.1.1", "--path", "\"a\"b"], 2, "", "\"a\"b: not a path"),
    (&["show", "gone.mmdb", "1.1.1.1", "--path", "9223372036854775808"], 2, "", "9223372036854775808: not a path"),
    (&["show", "gone.mmdb", "1.1.1.1", "--path", "a.-9223372036854775809"], 2, "", "not a path"),
    (&["show", "gone.mmdb", "1.1.1.1", "--path", "+1"], 2, "", "+1: not a path"),
    (&["show", "gone.mmdb", "1.1.1.1", "--path", "a.-0"], 2, "", "a.-0: not a path"),
    (&["show", "gone.mmdb", "1.1.1.1", "--path", "a.00"], 2, "", "a.00: not a path"),
    // a key where there is no map leads nowhere
    (&["show", "here.mmdb", "200.0.0.1", "--path", "\"00\""], 6, "null\n", "mmdb: no record has \"00\"\n"),
    (&["show", "gone.mmdb", "no\n\u{1b}[2J\u{9b}"], 2, "", "mmdb: no\\n\\u001b[2J\\u009b: neither an address nor a file\n"),
    (&["show", "gone\n.mmdb", "1.1.1.1"], 1, "", "mmdb: gone\\n.mmdb: i/o error: "),
    (&["show", "gone.mmdb"], 2, "", "ADDR"),
    (&["show"], 2, "", "FILE"),
    (&["verify", "here.mmdb", "here.mmdb"], 0, "here.mmdb: ok\nhere.mmdb: ok\n", ""),
    (&["info", "gone.mmdb"], 1, "", "gone.mmdb: i/o error: "),
    (&["export", "here.mmdb"], 0, "{\"network\":\"128.0.0.0/1\",\"record\":\"x\"}\n", ""),
    (&["export", "here.mmdb", "200.0.0.1"], 0, "{\"network\":\"200.0.0.1/32\",\"record\":\"x\"}\n", ""),
    (&["export", "here.mmdb", "1.0.0.0/8"], 0, "", ""),
    (&["export", "here.mmdb", "::/0"], 1, "", "here.mmdb: invalid input: cannot iterate IPv6"),
    (&["export", "gone.mmdb", "x"], 1, "", "x: neither a network nor a file"),
    (&["export", "here.mmdb", "--format", "csv"], 2, "", "--format csv: needs a --field"),
    (&["export", "here.mmdb", "--format", "xml"], 2, "", "xml"),
    (&["export", "here.mmdb", "--field", "a.\"b"], 2, "", "a.\"b: not a path"),
    (&["export", "gone.mmdb"], 1, "", "gone.mmdb: i/o error: "),
    (&["export", "gone.mmdb", "--where", "a"], 2, "", "a: not PATH=VALUE"),
    (&["export", "gone.mmdb", "--where", "\"a=b\""], 2, "", "\"a=b\": not PATH=VALUE"),
    (&["export", "gone.mmdb", "--where-not", "a.+1=b"], 2, "", "a.+1=b: not a path before the ="),
    (&["export", "gone.mmdb", "--format", "cidr", "--field", "a"], 2, "", "--field: not with a list of networks"),
    (&["export", "gone.mmdb", "--format", "cidr", "--name", "a"], 2, "", "--name: needs --format nft, ipset, iptables or nginx"),
    (&["export", "gone.mmdb", "--format", "nft", "--name", "a b"], 2, "", "a b: not the beginning of a set's name"),
    (&["export", "gone.mmdb", "--format", "ipset", "--name", "1a"], 2, "", "1a: not the beginning of a set's name"),
    (&["export", "here.mmdb", "::/0", "--field", "", "--format", "csv"], 1, "", "here.mmdb: invalid input"),
    (&["verify", "gone.mmdb", "here.mmdb"], 1, "gone.mmdb: i/o error: entity not found\nhere.mmdb: ok\n", ""),
    (&["verify"], 2, "", "FILE"),
    (&["enrich", "here.mmdb", "access.log", "--field", "a"], 1, "", "mmdb: access.log: i/o error: "),
    (&["frob"], 2, "", "frob"),
    (&["info"], 2, "", "FILE"),
    (&[], 2, "", "Usage"),
    (
        &["info", "here.mmdb"],
        0,
        "type:        T\ndescription: d (en)\nlanguages:  \nIP version:  4\nbuilt:       1970-01-01T00:00:01Z (1 s)\nformat:      2.0\nnodes:       1\nrecord size: 24 bits\ntree:        6 bytes\ndata:        2 bytes\nmetadata:    161 bytes\n",
        "",
    ),
];

/// A map {"a.b": [1, {"0": "y"}]}.
const NESTED: &[u8] = b"\xE1\x43a.b\x02\x04\xA1\x01\xE1\x410\x41y";

#[rattlefmt::skip]
const NESTED_RUNS: &[Row<'static>] = &[
    (&["show", "here.mmdb", "200.0.0.1", "--path", "\"a.b\".-1.\"0\""], 0, "\"y\"\n", ""),
    (&["show", "here.mmdb", "200.0.0.1", "--path", "\"a.b\".0", "--path", "c"], 6, "1\nnull\n", "mmdb: no record has c\n"),
    // an index where there is no array leads nowhere
    (&["show", "here.mmdb", "200.0.0.1", "--path", "\"a.b\".1.0"], 6, "null\n", "mmdb: no record has \"a.b\".1.0; did you mean \"a.b\".1?\n"),
    (
        &["info", "here.mmdb", "--fields"],
        0,
        "type:        T\ndescription: d (en)\nlanguages:  \nIP version:  4\nbuilt:       1970-01-01T00:00:01Z (1 s)\nformat:      2.0\nnodes:       1\nrecord size: 24 bits\ntree:        6 bytes\ndata:        14 bytes\nmetadata:    161 bytes\nrecords:     1\n1\tmap\t\n1\tarray\t\"a.b\"\n1\tuint16\t\"a.b\".0\n1\tmap\t\"a.b\".0\n1\tstring\t\"a.b\".0.\"0\"\n",
        "",
    ),
];

/// Runs over a file of no bytes.
#[rattlefmt::skip]
const EMPTY_RUNS: &[Row<'static>] = &[
    (&["info", "here.mmdb"], 1, "", "here.mmdb: invalid database"),
    (&["show", "here.mmdb", "1.1.1.1"], 1, "", "here.mmdb: invalid database"),
    (&["export", "here.mmdb", "--field", "a", "--format", "csv"], 1, "", "here.mmdb: invalid database"),
    (&["enrich", "here.mmdb", "--field", "a"], 1, "", "here.mmdb: invalid database"),
];

#[rattlefmt::skip]
const LINES: &[Lines<'static>] = &[
    (
        &["enrich", "here.mmdb", "--field", ""],
        "200.0.0.1\n1.1.1.1\trest\n::1\r\nnone\n\n200.0.0.2",
        "200.0.0.1\tx\n1.1.1.1\trest\t\n::1\t\r\nnone\t\n\n200.0.0.2\tx",
        "2 lines with a record, 1 without, 2 without an address, 1 with an error",
    ),
    (
        &["enrich", "here.mmdb", "--column", "2", "--exact", "--field", "", "--field", "a"],
        "200.0.0.1\na\t200.0.0.1\tb\na\t200.0.0.1 \n",
        "200.0.0.1\t\t\na\t200.0.0.1\tb\tx\t\na\t200.0.0.1 \t\t\n",
        "1 lines with a record, 0 without, 2 without an address, 0 with an error",
    ),
    (
        &["enrich", "here.mmdb", "--header", "--column", "ip", "--field", ""],
        "name\tip\r\na\t200.0.0.1\r\n",
        "name\tip\t\r\na\t200.0.0.1\tx\r\n",
        "1 lines with a record, 0 without, 0 without an address, 0 with an error",
    ),
    (&["enrich", "here.mmdb", "--field", ""], "", "", "0 lines with a record, 0 without, 0 without"),
    // cells that quotes mean nothing in; a cell that has a delimiter
    (
        &["enrich", "here.mmdb", "--no-quotes", "--delimiter", " ", "--column", "3", "--field", ""],
        "a \"b 200.0.0.1 c\na b 1.1.1.1\n",
        "a \"b 200.0.0.1 c x\na b 1.1.1.1 \n",
        "1 lines with a record, 1 without",
    ),
    (
        &["enrich", "here.mmdb", "--no-quotes", "--delimiter", "x", "--field", ""],
        "200.0.0.1\n",
        "200.0.0.1x\\u0078\n",
        "1 lines with a record",
    ),
    // a row with fewer cells than the first one gets the delimiters that it lacks; an empty one stays empty
    (
        &["enrich", "here.mmdb", "--header", "--field", ""],
        "ip\ta\tb\n200.0.0.1\n1.1.1.1\tx\r\n\n200.0.0.1\t1\t2\n\r\n",
        "ip\ta\tb\t\n200.0.0.1\t\t\tx\n1.1.1.1\tx\t\t\r\n\n200.0.0.1\t1\t2\tx\n\r\n",
        "mmdb: 2 lines with a record, 1 without, 2 without an address, 0 with an error\n",
    ),
    (
        &["enrich", "here.mmdb", "--header", "--delimiter", ",", "--column", "ip", "--network", "--field", ""],
        "\"a,b\",ip,c\n\"x,\n\",200.0.0.1\n\",,\"\n\n",
        "\"a,b\",ip,c,network,\n\"x,\n\",200.0.0.1,,128.0.0.0/1,x\n\",,\",,,,\n\n",
        "mmdb: 1 lines with a record, 0 without, 2 without an address, 0 with an error\n",
    ),
    // one with more is counted, and the first named
    (
        &["enrich", "here.mmdb", "--header", "--delimiter", ";", "--field", ""],
        "ip;a\n200.0.0.1;\";\"\n200.0.0.1;1;2\n200.0.0.1;1;2;3\n",
        "ip;a;\n200.0.0.1;\";\";x\n200.0.0.1;1;2;x\n200.0.0.1;1;2;3;x\n",
        "0 with an error, 2 with more cells than the first line, the first in row 3\n",
    ),
    (
        &["enrich", "here.mmdb", "--header", "--delimiter", ",", "--field", ""],
        "ip\n200.0.0.1,1\n",
        "ip,\n200.0.0.1,1,x\n",
        "0 with an error, 1 with more cells than the first line, the first in row 2\n",
    ),
    (&["enrich", "here.mmdb", "--delimiter", ",", "--network", "--field", ""], "\n200.0.0.1\n\r\n", "\n200.0.0.1,128.0.0.0/1,x\n\r\n", "2 without an address"),
    // an address of IPv4 in one of IPv6, as a database without IPv6 has it
    (&["enrich", "here.mmdb", "--field", ""], "::ffff:200.0.0.1\n::ffff:1.1.1.1\n", "::ffff:200.0.0.1\tx\n::ffff:1.1.1.1\t\n", "1 lines with a record, 1 without"),
    // the first address of a row, or the last one
    (&["enrich", "here.mmdb", "--anywhere", "--field", ""], "user 1.1.1.1 from 200.0.0.1 port 22\n", "user 1.1.1.1 from 200.0.0.1 port 22\t\n", "0 lines with a record, 1 without"),
    (
        &["enrich", "here.mmdb", "--anywhere", "--hop", "last", "--field", ""],
        "user 1.1.1.1 from 200.0.0.1 port 22\n200.0.0.1\nfrom 200.0.0.1. /1.1.1.1 v1.2.3.4\nnone\n",
        "user 1.1.1.1 from 200.0.0.1 port 22\tx\n200.0.0.1\tx\nfrom 200.0.0.1. /1.1.1.1 v1.2.3.4\tx\nnone\t\n",
        "3 lines with a record, 0 without, 1 without an address",
    ),
    (
        &["enrich", "here.mmdb", "--json", "m", "--anywhere", "--hop", "last", "--field", "r="],
        "{\"m\":\"user 1.1.1.1 from 200.0.0.1 port 22\"}\n",
        "{\"m\":\"user 1.1.1.1 from 200.0.0.1 port 22\",\"geo\":{\"r\":\"x\"}}\n",
        "1 lines with a record",
    ),
    // a mark at the beginning is no part of the first cell or name; anywhere else it is text
    (&["enrich", "here.mmdb", "--field", ""], "\u{feff}200.0.0.1\n", "\u{feff}200.0.0.1\tx\n", "1 lines with a record"),
    (&["enrich", "here.mmdb", "--exact", "--field", ""], "1.1.1.1\n\u{feff}200.0.0.1\n", "1.1.1.1\t\n\u{feff}200.0.0.1\t\n", "1 without an address"),
    (
        &["enrich", "here.mmdb", "--delimiter", ",", "--header", "--column", "ip", "--field", ""],
        "\u{feff}\"ip\",b\n200.0.0.1,c\n",
        "\u{feff}\"ip\",b,\n200.0.0.1,c,x\n",
        "1 lines with a record",
    ),
    // the network stands wherever there is a record, also where all fields are empty
    (
        &["enrich", "here.mmdb", "--network", "--field", "a"],
        "200.0.0.1\n1.1.1.1\n",
        "200.0.0.1\t128.0.0.0/1\t\n1.1.1.1\t\t\n",
        "1 lines with a record, 1 without",
    ),
    // nothing in, nothing out; a carriage return alone ends no header
    (&["enrich", "here.mmdb", "--header", "--field", "a"], "", "", "0 lines with a record, 0 without, 0 without"),
    (&["enrich", "here.mmdb", "--header", "--column", "ip", "--field", "a"], "", "", "0 lines with a record, 0 without, 0 without"),
    (&["enrich", "here.mmdb", "--header", "--delimiter", ",", "--column", "ip", "--network"], "", "", "0 lines with a record, 0 without, 0 without"),
    (&["enrich", "here.mmdb", "--header", "--field", "a"], "ip\r", "ip\r\ta", "0 lines with a record, 0 without, 0 without"),
];

const NO_LINES: &[Row<'static>] = &[
    (
        &["enrich", "here.mmdb", "--column", "0"],
        2,
        "",
        "0: not the number of a column",
    ),
    (
        &["enrich", "here.mmdb", "--column", "ip"],
        2,
        "",
        "ip: not the number of a column",
    ),
    (
        &["enrich", "gone.mmdb", "--field", "a"],
        1,
        "",
        "gone.mmdb: i/o error: ",
    ),
    (
        &["enrich", "gone.mmdb", "--json", "a"],
        1,
        "",
        "gone.mmdb: i/o error: ",
    ),
    // nothing to add
    (
        &["enrich", "gone.mmdb"],
        2,
        "",
        "mmdb: enrich: needs a --field\n",
    ),
    (
        &[
            "enrich",
            "gone.mmdb",
            "--header",
            "--delimiter",
            ",",
            "--column",
            "ip",
        ],
        2,
        "",
        "mmdb: enrich: needs a --field\n",
    ),
];

/// Words that name a column, the first line, and what standard error has to hold where it has no such column.
#[rattlefmt::skip]
const NO_COLUMNS: &[(&[&str], &str, &str)] = &[
    (&[], "address\n", "mmdb: standard input: the first line has no column ip, only: address\n"),
    (&[], "IP\t\"ip\"\tnäme\r\n1\tip\t3\n", "mmdb: standard input: the first line has no column ip, only: IP, \"ip\", näme\n"),
    (&[], "ip,a", "mmdb: standard input: the first line has no column ip, only: ip,a\n"),
    (&["--delimiter", ","], "\"an \"\"ip\"\"\",b c,\n", "mmdb: standard input: the first line has no column ip, only: an \"ip\", b c, \n"),
    (&["--delimiter", ","], "ip\ta\u{1b}[2J,b", "mmdb: standard input: the first line has no column ip, only: ip\\ta\\u001b[2J, b\n"),
];

/// The words before those.
const BY_NAME: &[&str] = &[
    "enrich",
    "here.mmdb",
    "--field",
    "",
    "--header",
    "--column",
    "ip",
];

/// Runs over a file in which one network's record lies past the data.
const FAULT_RUNS: &[Row<'static>] = &[
    (
        &["export", "here.mmdb"],
        1,
        "{\"network\":\"128.0.0.0/1\",\"record\":\"x\"}\n",
        "a network before any other: invalid database",
    ),
    (
        &["verify", "here.mmdb"],
        1,
        "here.mmdb: invalid database: the MaxMind DB file's data pointer resolves to an invalid location\n",
        "",
    ),
    (
        &["show", "here.mmdb", "1.1.1.1", "200.0.0.1"],
        1,
        FOUND,
        "1.1.1.1: invalid database",
    ),
];

/// A type of a database that would clear a terminal.
const HOSTILE_TYPE: Changes<'static> = &[(Field::DatabaseType, b"\x46T\n\x1B[2J")];

/// Runs over a file of that type.
const HOSTILE_RUNS: &[Row<'static>] = &[(
    &["info", "here.mmdb"],
    0,
    "type:        T\\n\\u001b[2J\ndescription: d (en)\nlanguages:  \nIP version:  4\nbuilt:       1970-01-01T00:00:01Z (1 s)\nformat:      2.0\nnodes:       1\nrecord size: 24 bits\ntree:        6 bytes\ndata:        2 bytes\nmetadata:    166 bytes\n",
    "",
)];

/// Words that ask for a record in lines of JSON.
const IN_JSON: &[&str] = &["enrich", "here.mmdb", "--json", "a", "--field", "r="];

/// Lines of JSON, the same as they are written, and how they fared.
#[rattlefmt::skip]
const OBJECTS: &[(&str, &str, &str)] = &[
    ("{\"a\":\"200.0.0.1\"}\n", "{\"a\":\"200.0.0.1\",\"geo\":{\"r\":\"x\"}}\n", "1 lines with a record, 0 without, 0 without an address, 0 with an error"),
    // white space around the braces, other ends of lines, no end, a key that comes twice
    (" { \"a\" : \"200.0.0.1\" } \t\n", " { \"a\" : \"200.0.0.1\" ,\"geo\":{\"r\":\"x\"}} \t\n", "1 lines with a record"),
    ("{\"a\":\"200.0.0.1\"}\r\n", "{\"a\":\"200.0.0.1\",\"geo\":{\"r\":\"x\"}}\r\n", "1 lines with a record"),
    ("{\"b\":\"}\",\"a\":\"200.0.0.1\"}", "{\"b\":\"}\",\"a\":\"200.0.0.1\",\"geo\":{\"r\":\"x\"}}", "1 lines with a record"),
    ("{\"a\":\"1.1.1.1\",\"a\":\"200.0.0.1\"}", "{\"a\":\"1.1.1.1\",\"a\":\"200.0.0.1\",\"geo\":{\"r\":\"x\"}}", "1 lines with a record"),
    // a mark at the beginning
    ("\u{feff}{\"a\":\"200.0.0.1\"}\n", "\u{feff}{\"a\":\"200.0.0.1\",\"geo\":{\"r\":\"x\"}}\n", "1 lines with a record"),
    // keys and texts with escapes; the last of equal keys counts, also where it has no text
    ("{\"\\u0061\":\"200.0.0\\u002e1\"}\n", "{\"\\u0061\":\"200.0.0\\u002e1\",\"geo\":{\"r\":\"x\"}}\n", "1 lines with a record"),
    ("{\"a\":\"200.0.0.1\",\"a\":2}\n{\"a\":\"200.0.0.1\",\"a\":{}}\n", "{\"a\":\"200.0.0.1\",\"a\":2}\n{\"a\":\"200.0.0.1\",\"a\":{}}\n", "2 without an address"),
    // no record; an error
    ("{\"a\":\"1.1.1.1\"}\n", "{\"a\":\"1.1.1.1\"}\n", "0 lines with a record, 1 without, 0 without an address, 0 with an error"),
    ("{\"a\":\"::1\"}\n", "{\"a\":\"::1\"}\n", "0 lines with a record, 0 without, 0 without an address, 1 with an error"),
    // no address: no member, no text, no address in it
    ("{}\n{ }\n{\"b\":\"200.0.0.1\"}\n", "{}\n{ }\n{\"b\":\"200.0.0.1\"}\n", "0 lines with a record, 0 without, 3 without an address, 0 with an error, 0 not objects of JSON"),
    ("{\"a\":2}\n{\"a\":[\"200.0.0.1\"]}\n{\"a\":\"200.0.0\"}\n", "{\"a\":2}\n{\"a\":[\"200.0.0.1\"]}\n{\"a\":\"200.0.0\"}\n", "3 without an address"),
    // no object; no JSON
    ("[{\"a\":\"200.0.0.1\"}]\n\"{}\"\n{\"a\":\"200.0.0.1\"}}\n\n", "[{\"a\":\"200.0.0.1\"}]\n\"{}\"\n{\"a\":\"200.0.0.1\"}}\n\n", "0 without an address, 0 with an error, 4 not objects of JSON"),
    ("{\"a\":\"200.0.0.1\"} {}\n{\"a\":[\"200.0.0.1\"}\n", "{\"a\":\"200.0.0.1\"} {}\n{\"a\":[\"200.0.0.1\"}\n", "2 not objects of JSON"),
    ("{\"a\":\"200.0.0.1\",}\n200.0.0.1\n", "{\"a\":\"200.0.0.1\",}\n200.0.0.1\n", "0 without an address, 0 with an error, 2 not objects of JSON"),
];

/// Other words for lines of JSON.
#[rattlefmt::skip]
const JSON_LINES: &[Lines<'static>] = &[
    (
        &["enrich", "here.mmdb", "--json", "client.ips.1.\"ip v\"", "--into", "a\"b"],
        "{\"client\":{\"ips\":[0,{\"ip v\":\"200.0.0.1\"}]}}\n",
        "{\"client\":{\"ips\":[0,{\"ip v\":\"200.0.0.1\"}]},\"a\\\"b\":\"x\"}\n",
        "1 lines with a record",
    ),
    // an index into an array, one past its end, and a key in its stead; of equal keys the last
    (
        &["enrich", "here.mmdb", "--json", "a.1"],
        "{\"a\":[[2],\"200.0.0.1\",3]}\n{\"a\":[\"200.0.0.1\"]}\n{\"a\":{\"1\":\"200.0.0.1\"}}\n",
        "{\"a\":[[2],\"200.0.0.1\",3],\"geo\":\"x\"}\n{\"a\":[\"200.0.0.1\"]}\n{\"a\":{\"1\":\"200.0.0.1\"}}\n",
        "1 lines with a record, 0 without, 2 without an address",
    ),
    (
        &["enrich", "here.mmdb", "--json", "a.b"],
        "{\"a\":{\"b\":\"200.0.0.1\"},\"a\":{}}\n",
        "{\"a\":{\"b\":\"200.0.0.1\"},\"a\":{}}\n",
        "0 lines with a record, 0 without, 1 without an address",
    ),
    // the address first, last and twice; white space in all places; a key with an escape
    (
        &["enrich", "here.mmdb", "--json", "a.b"],
        "{\"a\":{\"b\":\"200.0.0.1\",\"c\":{\"b\":2}},\"b\":3}\n{\"b\":[{\"a\":{}}],\"a\":{\"c\":\"\\\\\",\"b\":\"1.1.1.1\",\"b\":\"200.0.0.1\"}}\n\t{ \"a\" :\r{ \"b\"\t: \"200.0.0.1\" } } \n{\"a\":{\"b\":\"1.1.1.1\"},\"a\":{\"\\u0062\":\"200.0.0.1\"}}\n",
        "{\"a\":{\"b\":\"200.0.0.1\",\"c\":{\"b\":2}},\"b\":3,\"geo\":\"x\"}\n{\"b\":[{\"a\":{}}],\"a\":{\"c\":\"\\\\\",\"b\":\"1.1.1.1\",\"b\":\"200.0.0.1\"},\"geo\":\"x\"}\n\t{ \"a\" :\r{ \"b\"\t: \"200.0.0.1\" } ,\"geo\":\"x\"} \n{\"a\":{\"b\":\"1.1.1.1\"},\"a\":{\"\\u0062\":\"200.0.0.1\"},\"geo\":\"x\"}\n",
        "4 lines with a record",
    ),
    // what is no object has no member
    (
        &["enrich", "here.mmdb", "--json", "a.b"],
        "{\"a\":null}\n{\"a\":\"200.0.0.1\"}\n{\"a\":[{\"b\":\"200.0.0.1\"}]}\n{\"a\":{\"b\":\"200.0.0.1\"},\"a\":5}\n{\"a\":{\"a\":{\"b\":\"200.0.0.1\"}}}\n",
        "{\"a\":null}\n{\"a\":\"200.0.0.1\"}\n{\"a\":[{\"b\":\"200.0.0.1\"}]}\n{\"a\":{\"b\":\"200.0.0.1\"},\"a\":5}\n{\"a\":{\"a\":{\"b\":\"200.0.0.1\"}}}\n",
        "0 lines with a record, 0 without, 5 without an address, 0 with an error, 0 not objects of JSON",
    ),
    // without a field the whole record, and without a record nothing, or null
    (&["enrich", "here.mmdb", "--json", "a"], "{\"a\":\"200.0.0.1\"}\n{\"a\":\"1.1.1.1\"}\n{}\n", "{\"a\":\"200.0.0.1\",\"geo\":\"x\"}\n{\"a\":\"1.1.1.1\"}\n{}\n", "1 lines with a record, 1 without, 1 without an address"),
    (
        &["enrich", "here.mmdb", "--json", "a", "--nulls"],
        "{\"a\":\"200.0.0.1\"}\n{\"a\":\"1.1.1.1\"}\n{}\n",
        "{\"a\":\"200.0.0.1\",\"geo\":\"x\"}\n{\"a\":\"1.1.1.1\",\"geo\":null}\n{\"geo\":null}\n",
        "1 lines with a record, 1 without, 1 without an address",
    ),
    (&["enrich", "here.mmdb", "--json", ""], "{}\n\"200.0.0.1\"\n", "{}\n\"200.0.0.1\"\n", "1 without an address, 0 with an error, 1 not objects of JSON"),
];

/// Runs over lines of JSON of a record with fields.
#[rattlefmt::skip]
const NESTED_LINES: &[Lines<'static>] = &[
    (
        &["enrich", "here.mmdb", "--json", "a", "--field", "\"a.b\".-1.\"0\"", "--field", "n=\"a.b\".0", "--field", "c", "--field", "\"a.b\""],
        "{\"a\":\"200.0.0.1\"}\n",
        "{\"a\":\"200.0.0.1\",\"geo\":{\"0\":\"y\",\"n\":1,\"c\":null,\"a.b\":[1,{\"0\":\"y\"}]}}\n",
        "1 lines with a record",
    ),
    // an index where there is no array leads nowhere
    (
        &["enrich", "here.mmdb", "--json", "a", "--field", "\"a.b\".0", "--field", "n=\"a.b\".1.0"],
        "{\"a\":\"200.0.0.1\"}\n",
        "{\"a\":\"200.0.0.1\",\"geo\":{\"0\":1,\"n\":null}}\n",
        "1 lines with a record, 0 without, 0 without an address, 0 with an error",
    ),
];

/// What `verify` is asked for.
#[rattlefmt::skip]
const VERIFIED: &[Row<'static>] = &[
    (&["verify", "here.mmdb", "--whole"], 0, "here.mmdb: ok\n", ""),
    (&["verify", "here.mmdb", "--database-type", "T"], 0, "here.mmdb: ok\n", ""),
    (&["verify", "here.mmdb", "--database-type", "*T"], 0, "here.mmdb: ok\n", ""),
    (&["verify", "here.mmdb", "--database-type", "T*"], 0, "here.mmdb: ok\n", ""),
    (&["verify", "here.mmdb", "--database-type", "*"], 0, "here.mmdb: ok\n", ""),
    (&["verify", "here.mmdb", "--database-type", "*T*"], 0, "here.mmdb: ok\n", ""),
    (&["verify", "here.mmdb", "--database-type", "*City"], 1, "here.mmdb: its type is T, not *City\n", ""),
    (&["verify", "here.mmdb", "--database-type", "City*"], 1, "here.mmdb: its type is T, not City*\n", ""),
    (&["verify", "here.mmdb", "--database-type", "*City*"], 1, "here.mmdb: its type is T, not *City*\n", ""),
    (&["verify", "here.mmdb", "--database-type", "TT"], 1, "here.mmdb: its type is T, not TT\n", ""),
    // it was built a second after 1970 began, and now is 1,000,000 seconds after that
    (&["verify", "here.mmdb", "--max-age", "12"], 0, "here.mmdb: ok\n", ""),
    (&["verify", "here.mmdb", "--max-age", "11"], 1, "here.mmdb: it was built at 1 (1970-01-01T00:00:01Z), more than 11 days ago\n", ""),
    (&["verify", "here.mmdb", "--max-age", "18446744073709551615"], 0, "here.mmdb: ok\n", ""),
    (&["verify", "here.mmdb", "--max-age", "x"], 2, "", "mmdb: --max-age: not a number of days\n"),
    (&["verify", "gone.mmdb", "--max-age", "+5"], 2, "", "mmdb: --max-age: not a number of days\n"),
    (&["verify", "here.mmdb", "--database-type", "***"], 0, "here.mmdb: ok\n", ""),
    (&["verify", "here.mmdb", "--database-type", "**T"], 0, "here.mmdb: ok\n", ""),
    (&["verify", "gone.mmdb", "--database-type", "T*T"], 2, "", "mmdb: --database-type: a * inside, and not at an end\n"),
    (&["verify", "here.mmdb", "--newer-than", "here.mmdb"], 1, "here.mmdb: it was built at 1 (1970-01-01T00:00:01Z), not after 1 (1970-01-01T00:00:01Z)\n", ""),
    (&["verify", "here.mmdb", "--newer-than", "gone.mmdb"], 1, "", "mmdb: gone.mmdb: i/o error: "),
    (&["verify", "here.mmdb", "--json"], 0, "{\"path\":\"here.mmdb\",\"ok\":true,\"type\":\"T\",\"epoch\":1,\"nodes\":1,\"unreadable_records\":0,\"error\":null}\n", ""),
    (&["verify", "here.mmdb", "--json", "--whole"], 0, "{\"path\":\"here.mmdb\",\"ok\":true,\"type\":\"T\",\"epoch\":1,\"nodes\":1,\"unreadable_records\":null,\"error\":null}\n", ""),
    (&["verify", "gone.mmdb", "--json"], 1, "{\"path\":\"gone.mmdb\",\"ok\":false,\"type\":null,\"epoch\":null,\"nodes\":null,\"unreadable_records\":null,\"error\":\"i/o error: entity not found\"}\n", ""),
    (&["verify", "here.mmdb", "--quiet"], 0, "", ""),
    (&["verify", "gone.mmdb", "--quiet"], 1, "", "mmdb: gone.mmdb: i/o error: entity not found\n"),
];

/// What `info` says of several files, and of the fields of records.
#[rattlefmt::skip]
const INFORMED: &[Row<'static>] = &[
    (
        &["info", "here.mmdb", "gone.mmdb", "here.mmdb", "--fields"],
        1,
        "file:        here.mmdb\ntype:        T\ndescription: d (en)\nlanguages:  \nIP version:  4\nbuilt:       1970-01-01T00:00:01Z (1 s)\nformat:      2.0\nnodes:       1\nrecord size: 24 bits\ntree:        6 bytes\ndata:        2 bytes\nmetadata:    161 bytes\nrecords:     1\n1\tstring\t\nfile:        here.mmdb\ntype:        T\ndescription: d (en)\nlanguages:  \nIP version:  4\nbuilt:       1970-01-01T00:00:01Z (1 s)\nformat:      2.0\nnodes:       1\nrecord size: 24 bits\ntree:        6 bytes\ndata:        2 bytes\nmetadata:    161 bytes\nrecords:     1\n1\tstring\t\n",
        "mmdb: gone.mmdb: i/o error: ",
    ),
];

/// Bad words for lines of JSON.
#[rattlefmt::skip]
const NO_JSON: &[Row<'static>] = &[
    (&["enrich", "gone.mmdb", "--json", "a.\"b"], 2, "", "a.\"b: not a path"),
    (&["enrich", "gone.mmdb", "--json", "a.-1"], 2, "", "a.-1: an index from the end"),
    (&["enrich", "gone.mmdb", "--json", "a", "--field", "n=a.\"b"], 2, "", "a.\"b: not a path"),
    (&["enrich", "gone.mmdb", "--json", "a", "--field", "a.en", "--field", "b.en"], 2, "", "b.en: another field has the name en too; give one of them a name of its own, as NAME=b.en"),
    (&["enrich", "gone.mmdb", "--json", "a", "--into", ""], 2, "", "--into: an empty name"),
    (&["enrich", "gone.mmdb", "--into", "geo"], 2, "", "--into: needs a --json"),
    (&["enrich", "gone.mmdb", "--field", "c", "--nulls"], 2, "", "--nulls: needs a --json"),
    (&["enrich", "gone.mmdb", "--field", "c", "--no-quotes"], 2, "", "--no-quotes: needs a --delimiter"),
    (&["enrich", "gone.mmdb", "--field", "c", "--anywhere", "--exact"], 2, "", "--exact"),
    (&["enrich", "gone.mmdb", "--json", "a", "--column", "1"], 2, "", "--column"),
    (&["enrich", "gone.mmdb", "--json", "a", "--delimiter", ","], 2, "", "--delimiter"),
    (&["enrich", "gone.mmdb", "--json", "a", "--header"], 2, "", "--header"),
];

// Asserts what the program writes of lines over a file.
fn assert_lines(rt: &impl Abort, alloc: Global, bytes: &[u8], rows: &[Lines<'_>]) {
    for (words, lines, written, message) in rows {
        let run = run_of(alloc, bytes, words, lines);
        // an address of IPv6, of which an IPv4 database can't be asked, is no failure
        let is_unread = message.contains("1 with an error") && !lines.contains("::1");
        let is_as_said = run.out() == *written && run.err().contains(message);
        let holds = is_as_said && run.status == u8::from(is_unread);
        assert_of(rt, words, &run, holds);
    }
}

/// Arguments, lines, the status, and all that is said of them.
type Notes<'a> = (&'a [&'a str], &'a str, u8, &'a str);

#[rattlefmt::skip]
const NOTES: &[Notes<'static>] = &[
    (
        &["enrich", "here.mmdb", "--field", ""], "none\n\n", 0,
        "mmdb: no line had an address in column 1; columns are separated by tabs here: see --delimiter, --anywhere\nmmdb: 0 lines with a record, 0 without, 2 without an address, 0 with an error\n",
    ),
    (
        &["enrich", "here.mmdb", "--header", "--column", "b", "--delimiter", ",", "--field", "", "--strict"], "a,b\n1.1.1.1,c\n", 1,
        "mmdb: no line had an address in column b; columns are separated by commas here: see --delimiter, --anywhere\nmmdb: 0 lines with a record, 0 without, 1 without an address, 0 with an error\n",
    ),
    (
        &["enrich", "here.mmdb", "--json", "client.ip", "--strict"], "{\"ip\":\"1.1.1.1\"}\n", 1,
        "mmdb: no object had an address at client.ip\nmmdb: 0 lines with a record, 0 without, 1 without an address, 0 with an error, 0 not objects of JSON\n",
    ),
    (&["enrich", "here.mmdb", "--field", "", "--quiet"], "none\n", 0, ""),
    // an address without a record is no failure; what got no answer is one with --strict
    (&["enrich", "here.mmdb", "--field", "", "--strict", "--quiet"], "200.0.0.1\n1.1.1.1\n", 0, ""),
    (
        &["enrich", "here.mmdb", "--field", "", "--strict", "--quiet"], "200.0.0.1\nnone\n", 1,
        "mmdb: 1 lines with a record, 0 without, 1 without an address, 0 with an error\n",
    ),
    (&["enrich", "here.mmdb", "--field", "", "--quiet"], "200.0.0.1\nnone\n", 0, ""),
    (&["enrich", "here.mmdb", "--field", "", "--quiet"], "200.0.0.1\n::1\n", 0, ""),
    // a field that no record has is a failure with --strict, also where no row had a record, but not where there was no row
    (
        &["enrich", "here.mmdb", "--field", "a", "--strict"], "1.1.1.1\n", 1,
        "mmdb: no record has a\nmmdb: 0 lines with a record, 1 without, 0 without an address, 0 with an error\n",
    ),
    (&["enrich", "here.mmdb", "--field", "a", "--strict", "--quiet"], "1.1.1.1\n", 1, "mmdb: no record has a\n"),
    (&["enrich", "here.mmdb", "--field", "a", "--strict", "--quiet"], "200.0.0.1\n", 1, "mmdb: none of the lines' records has a\n"),
    (&["enrich", "here.mmdb", "--json", "i", "--field", "a", "--strict", "--quiet"], "{\"i\":\"1.1.1.1\"}\n", 1, "mmdb: no record has a\n"),
    (&["enrich", "here.mmdb", "--field", "a", "--quiet"], "1.1.1.1\n200.0.0.1\n", 0, ""),
    (&["enrich", "here.mmdb", "--field", "a", "--strict", "--quiet"], "", 0, ""),
    (
        &["enrich", "here.mmdb", "--json", "a", "--strict", "--quiet"], "{\"a\":\"200.0.0.1\"}\n[]\n", 1,
        "mmdb: 1 lines with a record, 0 without, 0 without an address, 0 with an error, 1 not objects of JSON\n",
    ),
    (&["enrich", "here.mmdb", "--json", "a", "--quiet"], "{\"a\":\"200.0.0.1\"}\n[]\n", 0, ""),
    (
        &["enrich", "here.mmdb", "--json", "a", "--strict", "--quiet"], "{\"a\":\"200.0.0.1\"}\n{\"a\":\"200.0.0.1\",\"geo\":1}\n", 1,
        "mmdb: 1 lines with a record, 0 without, 0 without an address, 0 with an error, 0 not objects of JSON, 1 with a member geo already, the first in row 2\n",
    ),
    (&["enrich", "here.mmdb", "--json", "a", "--quiet"], "{\"a\":\"200.0.0.1\",\"geo\":1}\n", 0, ""),
    (
        &["enrich", "here.mmdb", "--field", "", "--header", "--strict", "--quiet"], "ip\n200.0.0.1\t1\n", 1,
        "mmdb: 1 lines with a record, 0 without, 0 without an address, 0 with an error, 1 with more cells than the first line, the first in row 2\n",
    ),
    (
        &["enrich", "here.mmdb", "--field", "", "--strict"], "200.0.0.1\n::1\n", 1,
        "mmdb: row 2: invalid input: cannot look up IPv6 address in IPv4-only database\nmmdb: 1 lines with a record, 0 without, 0 without an address, 1 with an error\n",
    ),
    (
        &["enrich", "here.mmdb", "--header", "--field", ""], "ip\n::1\n200.0.0.1\n", 0,
        "mmdb: row 2: invalid input: cannot look up IPv6 address in IPv4-only database\nmmdb: 1 lines with a record, 0 without, 0 without an address, 1 with an error\n",
    ),
    (
        &["enrich", "here.mmdb", "--delimiter", ",", "--field", ""], "1.1.1.1,a\n1.1.1.1,\"b\n1.1.1.1,c", 0,
        "mmdb: row 2: a quote is still open at the end of the input; see --no-quotes\nmmdb: 0 lines with a record, 2 without, 0 without an address, 0 with an error\n",
    ),
    (
        &["enrich", "here.mmdb", "--header", "--delimiter", ",", "--field", "", "--strict", "--quiet"], "a\n1.1.1.1,\"b", 1,
        "mmdb: row 2: a quote is still open at the end of the input; see --no-quotes\nmmdb: 0 lines with a record, 1 without, 0 without an address, 0 with an error, 1 with more cells than the first line, the first in row 2\n",
    ),
];

#[test]
fn files_verified(rt: HostRuntime) {
    assert_runs(&rt, rt.alloc(), BASE_FILE, VERIFIED);
}

#[test]
fn files_described(rt: HostRuntime) {
    assert_runs(&rt, rt.alloc(), BASE_FILE, INFORMED);
}

// Asserts the status of runs over a file, and all that is said of them.
fn assert_notes(rt: &impl Abort, alloc: Global, bytes: &[u8], all: &[Notes<'_>]) {
    for (words, lines, status, said) in all {
        let run = run_of(alloc, bytes, words, lines);
        let holds = run.status == *status && run.err() == *said;
        assert_of(rt, words, &run, holds);
    }
}

#[test]
fn lines_with_notes(rt: HostRuntime) {
    assert_notes(&rt, rt.alloc(), BASE_FILE, NOTES);
}

/// Where some records can't be read: a field is in no record, or in others than those of the lines.
#[rattlefmt::skip]
const BESIDE_UNREAD: &[Notes<'static>] = &[
    (&["enrich", "here.mmdb", "--field", "c.i", "--strict", "--quiet"], "64.0.0.1\n", 0, ""),
    (&["enrich", "here.mmdb", "--field", "n", "--field", "c.i", "--strict", "--quiet"], "192.0.0.1\n", 0, ""),
    (
        &["enrich", "here.mmdb", "--field", "c.i", "--field", "zz", "--strict", "--quiet"], "64.0.0.1\n", 1,
        "mmdb: none of the lines' records has zz\n",
    ),
    (&["enrich", "here.mmdb", "--field", "zz", "--strict", "--quiet"], "192.0.0.1\n", 1, "mmdb: no record has zz\n"),
    // where no line has a record, it is said of no other field
    (
        &["enrich", "here.mmdb", "--field", "c.i", "--field", "zz", "--strict"], "192.0.0.1\n", 1,
        "mmdb: no record has zz\nmmdb: 0 lines with a record, 1 without, 0 without an address, 0 with an error\n",
    ),
    (
        &["enrich", "here.mmdb", "--field", "zz", "--strict"], "::1\n", 1,
        "mmdb: row 1: invalid input: cannot look up IPv6 address in IPv4-only database\nmmdb: 0 lines with a record, 0 without, 0 without an address, 1 with an error\n",
    ),
];

/// Seven nodes, of which six lead to the next one twice, and the last to {"n": "7"} and to a record with c.i: 128 networks.
const DOUBLED: &[(u32, u32)] = &[(1, 1), (2, 2), (3, 3), (4, 4), (5, 5), (6, 6), (54, 23)];

/// Where nothing is looked through, a field is in no record but those of the lines.
#[rattlefmt::skip]
const OVER_DOUBLED: &[Notes<'static>] = &[
    (
        &["enrich", "here.mmdb", "--field", "c.i", "--strict", "--quiet"], "0.0.0.1\n", 1,
        "mmdb: none of the lines' records has c.i\n",
    ),
    (&["enrich", "here.mmdb", "--field", "c.i", "--strict", "--quiet"], "0.0.0.1\n2.0.0.1\n", 0, ""),
];

#[test]
fn fields_of_databases_that_are_not_looked_through(rt: HostRuntime) {
    let bytes = file_of_nodes(rt.alloc(), DOUBLED, b"\xC1\x07", DATA).expect(&rt, "a file");
    assert_notes(&rt, rt.alloc(), bytes.as_slice(), OVER_DOUBLED);
}

#[test]
fn fields_of_records_beside_unread_ones(rt: HostRuntime) {
    let bytes = file_of_nodes(rt.alloc(), DAMAGED, b"\xC1\x07", DATA).expect(&rt, "a file");
    assert_notes(&rt, rt.alloc(), bytes.as_slice(), BESIDE_UNREAD);
}

#[test]
fn lines_with_fields(rt: HostRuntime) {
    assert_lines(&rt, rt.alloc(), BASE_FILE, LINES);
    assert_runs(&rt, rt.alloc(), BASE_FILE, NO_LINES);
}

#[test]
fn columns_that_are_missing(rt: HostRuntime) {
    for (words, lines, wanted) in NO_COLUMNS {
        let mut all = Vec::new(rt.alloc());
        all.extend_from_slice(BY_NAME).expect(&rt, "words");
        all.extend_from_slice(words).expect(&rt, "words");
        let run = run_of(rt.alloc(), BASE_FILE, all.as_slice(), lines);
        let holds = run.status == 2 && run.out().is_empty() && run.err() == *wanted;
        assert_of(&rt, all.as_slice(), &run, holds);
    }
}

#[test]
fn objects_with_fields(rt: HostRuntime) {
    for (lines, written, message) in OBJECTS {
        assert_lines(
            &rt,
            rt.alloc(),
            BASE_FILE,
            &[(IN_JSON, *lines, *written, *message)],
        );
    }
    assert_lines(&rt, rt.alloc(), BASE_FILE, JSON_LINES);
    let nested = changed_file(rt.alloc(), BASE_NODE, NESTED, &[]);
    let nested = nested.expect(&rt, "a file");
    assert_lines(&rt, rt.alloc(), nested.as_slice(), NESTED_LINES);
    assert_runs(&rt, rt.alloc(), BASE_FILE, NO_JSON);
}

// An object with an address, of so many bytes in all.
fn object_of_length(alloc: Global, length: usize) -> Result<String, AllocError> {
    let mut text = String::from_str(alloc, "{\"a\":\"200.0.0.1\",\"b\":\"")?;
    for _ in text.len() + 2..length {
        text.push_str("x")?;
    }
    text.push_str("\"}")?;
    Ok(text)
}

// Whether a text is an object with a member more before its brace.
fn has_member(object: &str, written: &str) -> bool {
    match object.strip_suffix('}') {
        Some(before) => written.strip_prefix(before) == Some(",\"geo\":{\"r\":\"x\"}}"),
        None => false,
    }
}

// Whether a run added a member to an object that is seen whole, and else left it as it was.
fn is_of_object(run: &Run, object: &str, message: &str) -> bool {
    let is_written = if object.len() > 1_048_576 {
        run.out() == object
    } else {
        has_member(object, run.out())
    };
    is_written && run.err().contains(message)
}

// Under a header a row gets the cells that it lacks, unless it is too long for them to be counted, which is said.
#[test]
fn long_rows_under_a_header(rt: HostRuntime) {
    let words = ["enrich", "here.mmdb", "--header", "--field", "", "--strict"];
    for (length, written, said, status) in [
        (65_000, "x\t\tx\n", "0 with an error\n", 0),
        (
            66_000,
            "x\tx\n",
            "0 with an error, 1 of more than 65536 bytes, of which no cells are counted, the first in row 2\n",
            1,
        ),
    ] {
        let mut lines = String::from_str(rt.alloc(), "a\tb\tc\n200.0.0.1\t").expect(&rt, "a text");
        for _ in 0..length {
            lines.push('x').expect(&rt, "memory");
        }
        lines.push('\n').expect(&rt, "memory");
        let run = run_of(rt.alloc(), BASE_FILE, &words, lines.as_str());
        let is_said = run.err().ends_with(said) && run.out().ends_with(written);
        assert_of(&rt, &words, &run, is_said && run.status == status);
    }
}

#[test]
fn long_objects(rt: HostRuntime) {
    for (length, message) in [
        (65_536, "1 lines with"),
        (65_537, "1 lines with"),
        (140_000, "1 lines with"),
        (1_048_576, "1 lines with"),
        (
            1_048_577,
            "0 without an address, 0 with an error, 0 not objects of JSON, 1 too long, the first in row 1\n",
        ),
        (
            3_000_000,
            "0 without an address, 0 with an error, 0 not objects of JSON, 1 too long, the first in row 1\n",
        ),
    ] {
        let text = object_of_length(rt.alloc(), length).expect(&rt, "a text");
        let run = run_of(rt.alloc(), BASE_FILE, IN_JSON, text.as_str());
        assert_of(
            &rt,
            IN_JSON,
            &run,
            is_of_object(&run, text.as_str(), message),
        );
    }
}

// Asserts that a line is read as an object with an address, or else as no object.
fn assert_object(rt: &impl Abort, alloc: Global, text: &str, is_read: bool) {
    let run = run_of(alloc, BASE_FILE, IN_JSON, text);
    let holds = if is_read {
        has_member(text, run.out())
    } else {
        run.out() == text && run.err().contains("1 not objects of JSON")
    };
    assert_of(rt, IN_JSON, &run, holds);
}

// An object with an address that nests so deep.
fn nested_object(alloc: Global, depth: usize) -> Result<String, AllocError> {
    let mut text = String::from_str(alloc, "{\"b\":")?;
    for _ in 1..depth {
        text.push_str("[")?;
    }
    for _ in 1..depth {
        text.push_str("]")?;
    }
    text.push_str(",\"a\":\"200.0.0.1\"}")?;
    Ok(text)
}

#[test]
fn deep_objects(rt: HostRuntime) {
    for (depth, is_read) in [(128, true), (129, false)] {
        let text = nested_object(rt.alloc(), depth).expect(&rt, "a text");
        assert_object(&rt, rt.alloc(), text.as_str(), is_read);
    }
}

/// Values of JSON.
#[rattlefmt::skip]
const VALUES: &[&str] = &[
    "0", "-0", "12", "1.5", "-0.25", "1e3", "1E+3", "-2.5e-7",
    "true", "false", "null", " \t\r1\t ",
    "[]", "[ ]", "[1,[2 , null],{}]", "{}", "{ }", "{\"c\":[true,{\"\":[]}] , \"a\":\"\"}",
    "\"\"", "\"\\\"\\\\\\/\\b\\f\\n\\r\\t\"", "\"\\u00e9\\uD83D\\uDE00 \u{e9}\u{1f600}\u{7f}\"",
    "\"\\u0041\\u9fFf\\\\\\uABCD\"",
    // a quote, an escape and the end around the sixteenth byte
    "\"234567890123456\"", "\"2345678901234567\"", "\"234567890123456\\\"}\"", "\"2345678901234\\\\\"",
    "\"12345678901234567890123456789012345\\n8\"",
];

/// Texts that are no value of JSON.
#[rattlefmt::skip]
const NO_VALUES: &[&str] = &[
    "", "01", "-01", "00", "-", "+1", ".5", "1.", "1.e3", "1e", "1e+", "1.5.2", "0x1", "1a", "1-", "NaN", "Infinity",
    "tru", "True", "nul", "nulls", "falsey", "true1", "true\"\"",
    "\"", "\"\t\"", "\"2345678901234567\t\"", "\"\u{1}\"", "\"\\x\"", "\"\\u12\"", "\"\\u00g0\"", "\"\\u004\"", "\"\\uABC", "\"\\\"", "'c'",
    "[1,]", "[,1]", "[1 2]", "[1", "]", "[1}", "{\"c\":1,}", "{,}", "{\"c\" 1}", "{\"c\":}", "{\"c\"}", "{c:1}", "{1:1}",
    "{\"c\":1", "1 2", "\"c\":1", "1,", "1,\"c\"", "1:2", ":1", ",\"c\":1",
];

// An object with an address, and with this text behind it for a value.
fn object_with(alloc: Global, value: &str) -> Result<String, AllocError> {
    let mut text = String::from_str(alloc, "{\"a\":\"200.0.0.1\",\"b\":")?;
    text.push_str(value)?;
    text.push_str("}")?;
    Ok(text)
}

#[test]
fn objects_of_values(rt: HostRuntime) {
    for (values, is_read) in [(VALUES, true), (NO_VALUES, false)] {
        for value in values {
            let text = object_with(rt.alloc(), value).expect(&rt, "a text");
            assert_object(&rt, rt.alloc(), text.as_str(), is_read);
        }
    }
}

// Whether a run ended with a status, wrote a text, and reported one or nothing.
fn is_as_wanted(run: &Run, status: u8, written: &str, message: &str) -> bool {
    run.status == status
        && run.out() == written
        && run.err().contains(message)
        && run.err().is_empty() == message.is_empty()
}

// Asserts what the program does with its arguments over a file.
fn assert_runs(rt: &impl Abort, alloc: Global, bytes: &[u8], rows: &[Row<'_>]) {
    for (words, status, written, message) in rows {
        let run = run_of(alloc, bytes, words, "");
        let holds = is_as_wanted(&run, *status, written, message);
        assert_of(rt, words, &run, holds);
    }
}

/// The base file with other nodes, data or metadata, and its runs.
type Changed = (
    &'static [u8],
    &'static [u8],
    Changes<'static>,
    &'static [Row<'static>],
);

const CHANGED: &[Changed] = &[
    (BASE_NODE, NESTED, &[], NESTED_RUNS),
    (b"\x00\x00\x10\x00\x00\x11", BASE_DATA, &[], FAULT_RUNS),
    (BASE_NODE, BASE_DATA, HOSTILE_TYPE, HOSTILE_RUNS),
];

#[test]
fn runs_over_small_files(rt: HostRuntime) {
    assert_runs(&rt, rt.alloc(), BASE_FILE, BASE_RUNS);
    assert_runs(&rt, rt.alloc(), b"", EMPTY_RUNS);
    for (nodes, data, changes, rows) in CHANGED {
        let bytes = changed_file(rt.alloc(), nodes, data, changes);
        let bytes = bytes.expect(&rt, "a file");
        assert_runs(&rt, rt.alloc(), bytes.as_slice(), rows);
    }
}

/// The data of a record that is whole and can't be shown: bytes, others so often, more bytes and so many letters; and why not.
type Unshown = (
    &'static [u8],
    (&'static [u8], usize),
    &'static [u8],
    usize,
    &'static str,
);

#[rattlefmt::skip]
const UNSHOWN: &[Unshown] = &[
    // a key that is a number, and one that a pointer to a pointer leads to
    (b"\xE1\xA1\x07\x01\x07", (b"", 0), b"", 0, "expected string, got type 5"),
    (b"\x01\x00\x20\x06\x41y\x20\x08\x41k", (b"", 0), b"", 0, "pointer points to another pointer"),
    // an array of 65,536 falses, and one of 33 pointers to a text of 65,536 letters
    (b"\x1E\x04\xFE\xE3", (b"\x00\x07", 65_536), b"", 0, "exceeded maximum number of data structure values"),
    (b"\x1D\x04\x04", (b"\x20\x45", 33), b"\x5E\xFE\xE3", 65_536, "exceeded maximum size of data structure string"),
];

// The base file with such data.
fn unshown_file(alloc: Global, row: &Unshown) -> Result<Vec<u8>, AllocError> {
    let (front, (part, times), back, letters, _) = row;
    let mut data = Vec::new(alloc);
    data.extend_from_slice(front)?;
    for _ in 0..*times {
        data.extend_from_slice(part)?;
    }
    data.extend_from_slice(back)?;
    for _ in 0..*letters {
        data.push(b'a')?;
    }
    changed_file(alloc, BASE_NODE, data.as_slice(), &[])
}

#[test]
fn whole_files_of_records_that_are_not_shown(rt: HostRuntime) {
    for row in UNSHOWN {
        let file = unshown_file(rt.alloc(), row).expect(&rt, "a file");
        let bytes = file.as_slice();
        let shown: &[&str] = &["show", "here.mmdb", "200.0.0.1"];
        assert_runs(
            &rt,
            rt.alloc(),
            bytes,
            &[
                (
                    &["verify", "here.mmdb", "--whole"],
                    0,
                    "here.mmdb: ok\n",
                    "",
                ),
                (shown, 1, "", row.4),
            ],
        );
    }
}
