//! Networks chosen by their records, and lists of the fewest blocks.
use super::exports::{is_as_wanted, lines_hold};
use crate::tests::asserted::assert_of;
use mmdb_vectors::builder::{Field, changed_file, nodes_24};
use std::alloc::Global;
use std::process::Abort;
use test_runs::program::{run_of, run_over, two_files};
use test_runs::trees::{DAMAGED, DATA, WHOLE, file_of_nodes};

/// Words, standard output, and what each line of standard error has to hold.
type Row<'a> = (&'a [&'a str], &'a str, &'a [&'a str]);

/// What is said of a list without networks.
const NONE: &[&str] = &["no network is chosen; --allow-empty writes an empty list"];

#[rattlefmt::skip]
const OF_WHOLE: &[Row<'static>] = &[
    (&["--where", "c.i=DE", "--format", "cidr"], "0.0.0.0/2\n96.0.0.0/3\n160.0.0.0/3\n192.0.0.0/2\n", &[]),
    // values of one path are alternatives, in any order, and however the path is written
    (
        &["--where", "c.i=AT", "--where", "\"c\".i=DE", "--format", "cidr"],
        "0.0.0.0/1\n160.0.0.0/3\n192.0.0.0/2\n",
        &[],
    ),
    // paths must all fit
    (&["--where", "c.i=AT", "--where", "n=7", "--format", "nft"], "", NONE),
    (&["--where", "c.i=AT", "--where", "n=true", "--format", "cidr"], "64.0.0.0/3\n", &[]),
    (&["--where-not", "c.i=DE", "--format", "cidr"], "64.0.0.0/3\n", &[]),
    (&["--where-not", "c.i=DE", "--where-not", "c.i=AT", "--format", "nft"], "", NONE),
    // a value that no network has may be misspelt
    (
        &["--where-not", "x=DE", "--format", "nft"],
        "",
        &["no network has x=DE; --allow-missing goes on without it"],
    ),
    (
        &["--where-not", "x=DE", "--format", "cidr", "--allow-missing"],
        "0.0.0.0/1\n160.0.0.0/3\n192.0.0.0/2\n",
        &[],
    ),
    (
        &["--where", "c.i=de", "--format", "nft"],
        "",
        &["no network has c.i=de (did you mean DE?); --allow-empty writes an empty list"],
    ),
    (
        &["--where", "c.i=AT", "--where", "c.i=FR", "--format", "nft"],
        "",
        &["no network has c.i=FR; --allow-missing goes on without it"],
    ),
    (
        &["--where", "c.i=AT", "--where", "c.i=FR", "--format", "cidr", "--allow-missing"],
        "64.0.0.0/3\n",
        &[],
    ),
    // a list of plain blocks empties no set: what it lacks is said
    (
        &["--where", "c.i=AT", "--where", "c.i=FR", "--format", "cidr"],
        "64.0.0.0/3\n",
        &["mmdb: no network has c.i=FR"],
    ),
    (&["--where", "c.i=de", "--format", "cidr"], "", &["no network has c.i=de (did you mean DE?)"]),
    (&["--where", "c.i=AT", "--where", "n=7", "--format", "cidr"], "", &[]),
    // rows may be none
    (&["--where", "c.i=de"], "", &[]),
    // a path of a condition that no record has is named, with the one that may be meant, and all is done
    (&["--where", "c.j=DE"], "", &["mmdb: no record has c.j; did you mean c.i?"]),
    (&["--where-has", "x", "--where", "c.i=AT"], "", &["mmdb: no record has x"]),
    (&["--where", "c.i=AT", "--where-not", "C.I=x", "--field", "n"], "{\"network\":\"64.0.0.0/3\",\"n\":true}\n", &["mmdb: no record has C.I; did you mean c.i?"]),
    (&["--where-above", "m=3"], "", &["mmdb: no record has m"]),
    (
        &["--where", "c.j=DE", "--format", "nft"],
        "",
        &["no network has c.j=DE (did you mean c.i=DE?); --allow-empty writes an empty list"],
    ),
    (
        &["--where-has", "c.j", "--where-contains", "c.I=A", "--where-above", "m=6", "--format", "pf"],
        "",
        &[
            "no network has the TEXT of --where-contains c.I=A (did you mean c.i=A?); --allow-empty writes an empty list",
            "no network has the PATH of --where-has c.j (did you mean c.i?); --allow-empty writes an empty list",
            "no network has what --where-above m=6 asks for; --allow-empty writes an empty list",
        ],
    ),
    // neither a map nor what is not there is a text
    (
        &["--where", "c={\"i\":\"DE\"}", "--format", "nft"],
        "",
        &["no network has c={\"i\":\"DE\"}; --allow-empty writes an empty list"],
    ),
    (
        &["--where", "x=", "--format", "nft"],
        "",
        &["no network has x=; --allow-empty writes an empty list"],
    ),
    (&["--format", "cidr", "--ipv4"], "0.0.0.0/1\n160.0.0.0/3\n192.0.0.0/2\n", &[]),
    (&["--format", "nft", "--ipv6"], "", NONE),
    (&["--format", "cidr", "--ipv6", "--allow-empty"], "", &[]),
    (&["--format", "cidr", "--ipv4", "--ipv6"], "0.0.0.0/1\n160.0.0.0/3\n192.0.0.0/2\n", &[]),
    (&["128.0.0.0/1", "--format", "cidr"], "160.0.0.0/3\n192.0.0.0/2\n", &[]),
    // neither a list nor a row has an address outside the range
    (&["32.0.0.0/4", "--format", "cidr"], "32.0.0.0/4\n", &[]),
    (&["0.0.0.0/0", "--format", "cidr"], "0.0.0.0/1\n160.0.0.0/3\n192.0.0.0/2\n", &[]),
    (&["36.5.0.0/16", "--where", "c.i=DE", "--format", "cidr"], "36.5.0.0/16\n", &[]),
    (
        &["36.5.0.0/16", "--where", "c.i=AT", "--format", "nft"],
        "",
        &["no network that is asked for has c.i=AT; --allow-empty writes an empty list"],
    ),
    (&["36.5.0.0/16", "--field", "n"], "{\"network\":\"36.5.0.0/16\",\"n\":7}\n", &[]),
    // every format is of the chosen networks
    (&["--where", "c.i=AT", "--field", "n"], "{\"network\":\"64.0.0.0/3\",\"n\":true}\n", &[]),
    (&["--where", "n=true", "--field", "c.i", "--format", "csv"], "network,c.i\n64.0.0.0/3,AT\n", &[]),
    (
        &["--where", "c.i=DE", "--format", "nft", "--name", "blocked"],
        "define blocked_ipv4 = {
0.0.0.0/2,
96.0.0.0/3,
160.0.0.0/3,
192.0.0.0/2
}
add table inet mmdb; add set inet mmdb blocked_ipv4 { type ipv4_addr; flags interval; }; flush set inet mmdb blocked_ipv4; add element inet mmdb blocked_ipv4 $blocked_ipv4; add set inet mmdb blocked_ipv6 { type ipv6_addr; flags interval; }; flush set inet mmdb blocked_ipv6
",
        &[],
    ),
    // a set of nothing has no elements, and is written only where that is asked
    (
        &["--where", "c.i=FR", "--format", "nft", "--ipv4"],
        "",
        &["no network that is asked for has c.i=FR; --allow-empty writes an empty list"],
    ),
    (
        &["--where", "c.i=FR", "--format", "nft", "--ipv4", "--allow-empty"],
        "add table inet mmdb; add set inet mmdb mmdb_ipv4 { type ipv4_addr; flags interval; }; flush set inet mmdb mmdb_ipv4
",
        &[],
    ),
    (
        &["--where", "c.i=AT", "--format", "ipset"],
        "create mmdb_ipv4.new hash:net family inet maxelem 4294967295
create mmdb_ipv6.new hash:net family inet6 maxelem 4294967295
add mmdb_ipv4.new 64.0.0.0/3
create mmdb_ipv4 hash:net family inet maxelem 4294967295 -exist
create mmdb_ipv6 hash:net family inet6 maxelem 4294967295 -exist
swap mmdb_ipv4.new \"mmdb_ipv4\"
swap mmdb_ipv6.new \"mmdb_ipv6\"
\"destroy\" \"mmdb_ipv4.new\"
\"destroy\" \"mmdb_ipv6.new\"
",
        &[],
    ),
    // a name with `_ipv4.new` behind it has 31 bytes
    (
        &["--where", "c.i=AT", "--format", "ipset", "--ipv4", "--name", "a123456789012345678901"],
        "create a123456789012345678901_ipv4.new hash:net family inet maxelem 4294967295
add a123456789012345678901_ipv4.new 64.0.0.0/3
create a123456789012345678901_ipv4 hash:net family inet maxelem 4294967295 -exist
swap a123456789012345678901_ipv4.new \"a123456789012345678901_ipv4\"
\"destroy\" \"a123456789012345678901_ipv4.new\"
",
        &[],
    ),
];

/// What is said of a list from which a network is missing.
const TORN_LIST: &[&str] = &[
    "a network behind 96.0.0.0/3: invalid database",
    "1 networks could not be read",
];

#[rattlefmt::skip]
const OF_DAMAGED: &[Row<'static>] = &[
    // a condition is on the value alone: what can't be read is reported, and not listed
    (
        &["--where-not", "c=x", "--format", "cidr", "--allow-missing"],
        "0.0.0.0/3\n64.0.0.0/2\n160.0.0.0/3\n",
        &["32.0.0.0/3: ", "a network behind 96.0.0.0/3: invalid database", "2 networks could not be read"],
    ),
    // a list that is not whole has not what lets it be loaded, or ends in what is no address
    (
        &["--where", "n=7", "--format", "nft", "--ipv4"],
        "define mmdb_ipv4 = {\n0.0.0.0/3,\n64.0.0.0/3,\n160.0.0.0/3\n}\n",
        TORN_LIST,
    ),
    (
        &["--where", "n=7", "--format", "ipset", "--ipv4"],
        "create mmdb_ipv4.new hash:net family inet maxelem 4294967295
add mmdb_ipv4.new 0.0.0.0/3
add mmdb_ipv4.new 64.0.0.0/3
add mmdb_ipv4.new 160.0.0.0/3
",
        TORN_LIST,
    ),
    (
        &["--where", "n=7", "--format", "iptables"],
        "*filter\n:mmdb - [0:0]\n-A mmdb -4 -s 0.0.0.0/3 -j DROP\n-A mmdb -4 -s 64.0.0.0/3 -j DROP\n-A mmdb -4 -s 160.0.0.0/3 -j DROP\n",
        TORN_LIST,
    ),
    (
        &["--where", "n=7", "--format", "nginx"],
        "geo $mmdb {\n    0.0.0.0/3 1;\n    64.0.0.0/3 1;\n    160.0.0.0/3 1;\n",
        TORN_LIST,
    ),
    (
        &["--where", "n=7", "--format", "haproxy"],
        "0.0.0.0/3 1\n64.0.0.0/3 1\n160.0.0.0/3 1\nthis-list/is-not-whole\n",
        TORN_LIST,
    ),
    (
        &["--where", "n=7", "--format", "pf"],
        "0.0.0.0/3\n64.0.0.0/3\n160.0.0.0/3\nthis-list/is-not-whole\n",
        TORN_LIST,
    ),
    // the JSON of an integer, and a text
    (
        &["--where", "n=7", "--format", "cidr"],
        "0.0.0.0/3\n64.0.0.0/3\n160.0.0.0/3\n",
        &["a network behind 96.0.0.0/3: invalid database", "1 networks could not be read"],
    ),
];

/// Words, standard input, standard output, what each line of standard error has to hold, and the status.
type InputRow<'a> = (&'a [&'a str], &'a str, &'a str, &'a [&'a str], u8);

#[rattlefmt::skip]
const WITH_INPUT: &[InputRow<'static>] = &[
    (
        &["export", "here.mmdb", "--where", "c.i=AT", "--format", "cidr", "--also", "-"],
        "# ours\n\n 10.0.0.9 \t# one\r\n96.0.0.0-127.255.255.255\n2001:db8::/32\n10.0.0.8\n",
        "10.0.0.8/31\n64.0.0.0/2\n2001:db8::/32\n",
        &[],
        0,
    ),
    (
        &["export", "here.mmdb", "--where", "c.i=AT", "--format", "cidr", "--except", "-", "--ipv4"],
        "64.0.0.0/4\n::/0\n80.0.0.0 - 87.255.255.255\n",
        "88.0.0.0/5\n",
        &[],
        0,
    ),
    // all is taken away
    (
        &["export", "here.mmdb", "--where", "c.i=AT", "--format", "nft", "--except", "-"],
        "0.0.0.0/0\n",
        "",
        NONE,
        1,
    ),
    (
        &["export", "here.mmdb", "--format", "pf", "--except", "-"],
        "10.0.0.0/8\n10.0.0.0/33 # no\n",
        "",
        &["-:2: 10.0.0.0/33: not a network, an address or FIRST-LAST"],
        1,
    ),
    (
        &["export", "here.mmdb", "--format", "pf", "--except", "-"],
        "10.0.0.9-10.0.0.8\n",
        "",
        &["-:1: 10.0.0.9-10.0.0.8: the last address is below the first"],
        1,
    ),
    (
        &["export", "here.mmdb", "--format", "pf", "--except", "-"],
        "10.0.0.9-::1\n",
        "",
        &["-:1: 10.0.0.9-::1: a range from IPv4 to IPv6 or back"],
        1,
    ),
    (
        &["export", "here.mmdb", "--where", "c.i=AT", "--format", "pf", "--also", "-"],
        "10.1.2.3/8",
        "10.0.0.0/8\n64.0.0.0/3\n",
        &["-:1: 10.1.2.3/8 is read as 10.0.0.0/8"],
        0,
    ),
    (
        &["export", "here.mmdb", "--format", "pf", "--also", "-", "--except", "-"],
        "",
        "",
        &["-: standard input is read once"],
        2,
    ),
    (
        &["export", "here.mmdb", "--also", "-"],
        "",
        "",
        &["--also: needs a list of networks"],
        2,
    ),
    // values of a file: some that no network has, or all
    (
        &["export", "here.mmdb", "--where", "c.i=@-", "--format", "pf"],
        "FR\nAT\r\n\n",
        "64.0.0.0/3\n",
        &["c.i=@-: no network has 1 of the 2 values: FR"],
        0,
    ),
    (
        &["export", "here.mmdb", "--where", "c.i=@-", "--format", "pf"],
        "FR\nCH\n",
        "",
        &["c.i=@-: no network has 2 of the 2 values: FR, CH"],
        1,
    ),
    // of numbers in another form
    (
        &["export", "here.mmdb", "--where", "n=@-", "--format", "cidr"],
        "70e-1\n7.1\n",
        "0.0.0.0/2\n96.0.0.0/3\n160.0.0.0/3\n192.0.0.0/2\n",
        &["n=@-: no network has 1 of the 2 values: 7.1"],
        0,
    ),
    (
        &["export", "here.mmdb", "--where-contains", "c.i=A", "--format", "cidr"],
        "",
        "64.0.0.0/3\n",
        &[],
        0,
    ),
    (
        &["export", "here.mmdb", "--where-has", "n", "--where-not", "n=7", "--format", "cidr"],
        "",
        "64.0.0.0/3\n",
        &[],
        0,
    ),
    (
        &["export", "here.mmdb", "--where-has", "x", "--format", "pf"],
        "",
        "",
        &["mmdb: no network has the PATH of --where-has x; --allow-empty writes an empty list"],
        1,
    ),
];

/// What is said of values that no network has, or of which there are several.
#[rattlefmt::skip]
const OF_VALUES: &[InputRow<'static>] = &[
    // a path with a value, which is none
    (
        &["export", "here.mmdb", "--where-has", "c.i=AT", "--format", "pf"],
        "",
        "",
        &["has the PATH of --where-has c.i=AT (did you mean --where c.i=AT?); --allow-empty writes an empty list"],
        1,
    ),
    (
        &["export", "here.mmdb", "--where-contains", "c.i=ATT", "--format", "pf"],
        "",
        "",
        &["has the TEXT of --where-contains c.i=ATT (did you mean AT?); --allow-empty writes an empty list"],
        1,
    ),
    (
        &["export", "here.mmdb", "--where-contains", "c.i", "--format", "pf"],
        "",
        "",
        &["c.i: not PATH=TEXT"],
        2,
    ),
    // a text of a file is in a value, and need not be one
    (
        &["export", "here.mmdb", "--where-contains", "c.i=@-", "--format", "pf"],
        "A\nXX\n",
        "64.0.0.0/3\n",
        &["c.i=@-: no network has 1 of the 2 texts: XX"],
        0,
    ),
    // each of several values is named
    (
        &["export", "here.mmdb", "--where", "c.i=de", "--where", "c.i=at", "--format", "pf"],
        "",
        "",
        &[
            "no network has c.i=de (did you mean DE?); --allow-empty writes an empty list",
            "no network has c.i=at (did you mean AT?); --allow-empty writes an empty list",
        ],
        1,
    ),
    // a value beside those of a file, one of which some network has
    (
        &["export", "here.mmdb", "--where", "c.i=de", "--where", "c.i=@-", "--format", "pf"],
        "AT\n",
        "",
        &["no network has c.i=de (did you mean DE?); --allow-missing goes on without it"],
        1,
    ),
    (
        &["export", "here.mmdb", "--where", "c.i=de", "--where", "c.i=@-", "--format", "pf", "--allow-missing"],
        "AT\n",
        "64.0.0.0/3\n",
        &[],
        0,
    ),
    // values that no network has beside one that some network has
    (
        &["export", "here.mmdb", "--where", "c.i=AT", "--where", "c.i=@-", "--format", "pf"],
        "FR\n",
        "",
        &["c.i=@-: no network has 1 of the 1 values: FR; --allow-missing goes on without them"],
        1,
    ),
    (
        &["export", "here.mmdb", "--where", "c.i=AT", "--where", "c.i=@-", "--format", "pf", "--allow-missing"],
        "FR\n",
        "64.0.0.0/3\n",
        &["c.i=@-: no network has 1 of the 1 values: FR"],
        0,
    ),
    // what no network has leaves none out: an empty list is none that lacks values
    (
        &["export", "here.mmdb", "--where-not", "c.i=@-", "--format", "pf", "--allow-empty"],
        "FR\n",
        "",
        &["c.i=@-: no network has 1 of the 1 values: FR; --allow-missing goes on without them"],
        1,
    ),
    (
        &["export", "here.mmdb", "--where-not", "c.i=FR", "--format", "pf", "--allow-empty"],
        "",
        "",
        &["no network has c.i=FR; --allow-missing goes on without it"],
        1,
    ),
    (
        &["export", "here.mmdb", "--where", "c.i=AT", "--where", "c.i=@-", "--format", "pf", "--allow-empty"],
        "FR\n",
        "",
        &["c.i=@-: no network has 1 of the 1 values: FR; --allow-missing goes on without them"],
        1,
    ),
    (
        &["export", "here.mmdb", "--where", "c.i=@-", "--format", "pf", "--allow-empty"],
        "FR\n",
        "",
        &["c.i=@-: no network has 1 of the 1 values: FR"],
        0,
    ),
    // a file without values is one of which none is met, but leaves out nothing
    (
        &["export", "here.mmdb", "--where", "c.i=@-", "--format", "pf"],
        "\n# none\n",
        "",
        &["c.i=@-: there are no values; --allow-empty writes an empty list"],
        1,
    ),
    (
        &["export", "here.mmdb", "--where", "c.i=AT", "--where", "c.i=@-", "--format", "pf"],
        "",
        "",
        &["c.i=@-: there are no values; --allow-missing goes on without them"],
        1,
    ),
    (
        &["export", "here.mmdb", "--where", "c.i=AT", "--where-contains", "c.i=@-", "--format", "pf", "--allow-missing"],
        "",
        "",
        &["c.i=@-: there are no texts", "no network is chosen; --allow-empty writes an empty list"],
        1,
    ),
    (
        &["export", "here.mmdb", "--where", "c.i=AT", "--where", "c.i=@-", "--format", "pf", "--allow-missing"],
        "",
        "64.0.0.0/3\n",
        &["c.i=@-: there are no values"],
        0,
    ),
    (
        &["export", "here.mmdb", "--where", "c.i=@-", "--format", "cidr"],
        "",
        "",
        &["c.i=@-: there are no values"],
        0,
    ),
    (
        &["export", "here.mmdb", "--where", "c.i=AT", "--where-not", "c.i=@-", "--format", "pf"],
        "",
        "64.0.0.0/3\n",
        &[],
        0,
    ),
    // within a kind of addresses it may be missing alone
    (
        &["export", "here.mmdb", "--where", "c.i=AT", "--where-not", "c.i=FR", "--format", "pf", "--ipv4"],
        "",
        "64.0.0.0/3\n",
        &[],
        0,
    ),
    // without any value there is a list only of what is added
    (
        &["export", "here.mmdb", "--where", "c.i=FR", "--where", "c.i=XX", "--format", "pf", "--also", "-", "--allow-missing"],
        "10.0.0.0/8\n",
        "10.0.0.0/8\n",
        &["mmdb: no network has c.i=FR", "mmdb: no network has c.i=XX"],
        0,
    ),
    (
        &["export", "here.mmdb", "--where", "c.i=FR", "--format", "pf", "--also", "-"],
        "10.0.0.0/8\n",
        "",
        &["no network has c.i=FR; --allow-missing goes on without it"],
        1,
    ),
    (
        &["export", "here.mmdb", "--where", "c.i=FR", "--format", "pf", "--allow-missing"],
        "",
        "",
        &[
            "mmdb: no network has c.i=FR",
            "no network is chosen; --allow-empty writes an empty list",
        ],
        1,
    ),
];

/// Lines of files, and names that the formats have themselves.
#[rattlefmt::skip]
const OF_LINES_AND_NAMES: &[InputRow<'static>] = &[
    // a byte order mark is passed, at the beginning alone
    (
        &["export", "here.mmdb", "--where", "c.i=@-", "--format", "pf"],
        "\u{feff}AT\n",
        "64.0.0.0/3\n",
        &[],
        0,
    ),
    (
        &["export", "here.mmdb", "--where", "c.i=AT", "--format", "pf", "--also", "-"],
        "\u{feff}10.0.0.0/8\n",
        "10.0.0.0/8\n64.0.0.0/3\n",
        &[],
        0,
    ),
    (
        &["export", "here.mmdb", "--where", "c.i=AT", "--format", "pf", "--also", "-"],
        "\u{feff}10.0.0.0/8\n\u{feff}11.0.0.0/8\n",
        "",
        &["-:2: \u{feff}11.0.0.0/8: not a network, an address or FIRST-LAST"],
        1,
    ),
    // blanks around values, comments, and texts in double quotes
    (
        &["export", "here.mmdb", "--where", "c.i=@-", "--format", "pf"],
        "# ours\n  AT \t # one\n\"\\u0044E\" # the other\n",
        "0.0.0.0/1\n160.0.0.0/3\n192.0.0.0/2\n",
        &[],
        0,
    ),
    (
        &["export", "here.mmdb", "--where", "c.i=@-", "--format", "cidr"],
        "AT#1\n\"C # 1\"\nAT\n",
        "64.0.0.0/3\n",
        &["c.i=@-: no network has 2 of the 3 values: AT#1, C # 1"],
        0,
    ),
    (
        &["export", "here.mmdb", "--where", "c.i=@-", "--format", "pf"],
        "AT\n\"DE\n",
        "",
        &["-:2: not a text in double quotes as JSON writes it"],
        1,
    ),
    (
        &["export", "here.mmdb", "--where", "c.i=@-", "--format", "pf"],
        "\"DE\" AT\n",
        "",
        &["-:1: not a text in double quotes as JSON writes it"],
        1,
    ),
    // a line of blocks ends at a semicolon too
    (
        &["export", "here.mmdb", "--where", "c.i=AT", "--format", "pf", "--also", "-"],
        "; Spamhaus\n10.0.0.0/8 ; SBL1\n",
        "10.0.0.0/8\n64.0.0.0/3\n",
        &[],
        0,
    ),
    // a range within ::ffff:0:0/96 is one of IPv4 where the file has no networks of its own there
    (
        &["export", "here.mmdb", "::ffff:64.0.0.0/104", "--format", "cidr"],
        "",
        "64.0.0.0/8\n",
        &["mmdb: ::ffff:64.0.0.0/104 is read as 64.0.0.0/8"],
        0,
    ),
    (
        &["export", "here.mmdb", "::ffff:64.0.0.0/104", "--field", "c.i"],
        "",
        "{\"network\":\"64.0.0.0/8\",\"c.i\":\"AT\"}\n",
        &["mmdb: ::ffff:64.0.0.0/104 is read as 64.0.0.0/8"],
        0,
    ),
    (
        &["diff", "here.mmdb", "here.mmdb", "::ffff:64.0.0.0/104", "--field", "c.i"],
        "",
        "",
        &["mmdb: ::ffff:64.0.0.0/104 is read as 64.0.0.0/8", "0 (0) added"],
        0,
    ),
    // IPv4 addresses as IPv6 has them, where all of a block are
    (
        &["export", "here.mmdb", "--where", "c.i=AT", "--format", "pf", "--except", "-"],
        "::ffff:64.0.0.0/100\n::ffff:80.0.0.0-::ffff:87.255.255.255\n",
        "88.0.0.0/5\n",
        &[],
        0,
    ),
    (
        &["export", "here.mmdb", "--where", "c.i=AT", "--format", "pf", "--also", "-"],
        "::ffff:1.2.3.0/120\n::ffff:1.2.4.7\n::fffe:ffff:ffff\n::1:0:0:0\n",
        "1.2.3.0/24\n1.2.4.7/32\n64.0.0.0/3\n::fffe:ffff:ffff/128\n::1:0:0:0/128\n",
        &[],
        0,
    ),
    (
        &["export", "here.mmdb", "--where", "c.i=AT", "--format", "pf", "--also", "-"],
        "::fffe:0:0/95\n::fffe:ffff:ffff-::ffff:0:1\n",
        "64.0.0.0/3\n::fffe:0:0/95\n",
        &[],
        0,
    ),
    // names that are the formats' own
    (
        &["export", "here.mmdb", "--format", "nft", "--table", "table"],
        "",
        "",
        &["table: a word of nft itself; give another --table"],
        2,
    ),
    (
        &["export", "here.mmdb", "--format", "iptables", "--name", "INPUT"],
        "",
        "",
        &["INPUT: a chain or a target of iptables itself; give another --name"],
        2,
    ),
    (
        &["export", "here.mmdb", "--format", "iptables", "--name", "!a"],
        "",
        "",
        &["!a: not a chain's name: 1 to 28 letters, digits, _, - and ., the first a letter or _"],
        2,
    ),
    (
        &["export", "here.mmdb", "--format", "iptables", "--name", "a1234567890123456789012345678"],
        "",
        "",
        &["a1234567890123456789012345678: not a chain's name: 1 to 28 letters"],
        2,
    ),
    (
        &["export", "here.mmdb", "--where", "c.i=AT", "--format", "iptables", "--name", "a123456789012345678901234567"],
        "",
        "*filter\n:a123456789012345678901234567 - [0:0]\n-A a123456789012345678901234567 -4 -s 64.0.0.0/3 -j DROP\nCOMMIT\n",
        &[],
        0,
    ),
    (
        &["export", "here.mmdb", "--format", "nginx", "--name", "Remote_Addr"],
        "",
        "",
        &["Remote_Addr: a variable of nginx itself; give another --name"],
        2,
    ),
];

/// Other names and values of formats, and changes of a list.
#[rattlefmt::skip]
const OF_OTHER_NAMES: &[InputRow<'static>] = &[
    // a name of one format is none of another one's own
    (
        &["export", "here.mmdb", "--where", "c.i=AT", "--format", "nginx", "--name", "table"],
        "",
        "geo $table {\n    64.0.0.0/3 1;\n}\n",
        &[],
        0,
    ),
    (
        &["export", "here.mmdb", "--where", "c.i=@@x", "--format", "pf"],
        "",
        "",
        &["no network has c.i=@@x; --allow-empty writes an empty list"],
        1,
    ),
    (
        &["export", "here.mmdb", "--where", "c.i=@", "--format", "pf"],
        "",
        "",
        &["c.i=@: no file behind the @"],
        2,
    ),
    (
        &["export", "here.mmdb", "--where", "c.i=AT", "--format", "iptables", "--name", "geo", "--jump", "REJECT"],
        "",
        "*filter\n:geo - [0:0]\n-A geo -4 -s 64.0.0.0/3 -j REJECT\nCOMMIT\n",
        &[],
        0,
    ),
    (
        &["export", "here.mmdb", "--where", "c.i=AT", "--format", "nginx", "--name", "geo", "--value", "at"],
        "",
        "geo $geo {\n    64.0.0.0/3 at;\n}\n",
        &[],
        0,
    ),
    (
        &["export", "here.mmdb", "--where", "c.i=AT", "--format", "haproxy"],
        "",
        "64.0.0.0/3 1\n",
        &[],
        0,
    ),
    (
        &["export", "here.mmdb", "--where", "c.i=FR", "--format", "iptables", "--allow-empty"],
        "",
        "*filter\n:mmdb - [0:0]\nCOMMIT\n",
        &[],
        0,
    ),
    (
        &["export", "here.mmdb", "--where", "c.i=AT", "--format", "nft", "--ipv4", "--table", "t", "--family", "ip"],
        "",
        "define mmdb_ipv4 = {
64.0.0.0/3
}
add table ip t; add set ip t mmdb_ipv4 { type ipv4_addr; flags interval; }; flush set ip t mmdb_ipv4; add element ip t mmdb_ipv4 $mmdb_ipv4
",
        &[],
        0,
    ),
    (
        &["export", "here.mmdb", "--format", "nginx", "--value", "a b"],
        "",
        "",
        &["a b: not 1 to 64 letters, digits, _, - and ."],
        2,
    ),
    (
        &["export", "here.mmdb", "--format", "nginx", "--name", "a-b"],
        "",
        "",
        &["a-b: not a variable's name"],
        2,
    ),
    (
        &["export", "here.mmdb", "--format", "nft", "--name", "a1234567890123456789012"],
        "",
        "",
        &["a1234567890123456789012: not the beginning of a set's name: 1 to 22 letters"],
        2,
    ),
    // what changes: nothing, where both files are one
    (
        &["diff", "here.mmdb", "here.mmdb", "--where", "c.i=AT", "--format", "cidr", "--exit-code"],
        "",
        "",
        &[],
        0,
    ),
    (
        &["diff", "here.mmdb", "here.mmdb", "--where", "c.i=FR", "--format", "nft"],
        "",
        "",
        &["no network has c.i=FR; --allow-empty writes an empty list"],
        1,
    ),
    (
        &["diff", "here.mmdb", "here.mmdb", "--where", "c.i=AT"],
        "",
        "",
        &["--where: needs --format cidr, nft or ipset"],
        2,
    ),
    (&["diff", "here.mmdb", "here.mmdb", "--ipv4"], "", "", &["0 (0) added"], 0),
];

// Asserts what the rows say of runs with standard input.
fn assert_input_rows(rt: &impl Abort, alloc: Global, bytes: &[u8], rows: &[InputRow<'_>]) {
    for (words, input, written, message, status) in rows {
        let run = run_of(alloc, bytes, words, input);
        let holds = run.out() == *written
            && run.status == *status
            && lines_hold(run.err(), message);
        assert_of(rt, words, &run, holds);
    }
}

/// A line of 101 characters, each of two bytes, and its first 100.
#[rattlefmt::skip]
const LONG_LINE: &str = "ääääääääääääääääääääääääääääääääääääääääääääääääääääääääääääääääääääääääääääääääääääääääääääääääääää\u{e4}";

#[rattlefmt::skip]
const LONG_START: &str = "ääääääääääääääääääääääääääääääääääääääääääääääääääääääääääääääääääääääääääääääääääääääääääääääääääää";

// What is said of a long line shows its beginning, and of one of 100 characters all.
#[test]
fn long_lines_of_files(rt: HostRuntime) {
    let bytes = file_of_nodes(rt.alloc(), WHOLE, b"\xC1\x07", DATA).expect(&rt, "a file");
    for (option, value) in [("--also", "-"), ("--where", "c.i=@-")] {
        for (line, behind) in [(LONG_LINE, ".."), (LONG_START, "")] {
            let words = ["export", "here.mmdb", "--format", "pf", option, value];
            let run = run_of(rt.alloc(), bytes.as_slice(), &words, line);
            let wanted: String = format!(in rt.alloc(); " {LONG_START}{behind}").expect(
                &rt, "a text",
            );
            let shown: String = format!(in rt.alloc(); " {LONG_LINE}").expect(&rt, "a text");
            let holds = run.err().contains(wanted.as_str()) && !run.err().contains(shown.as_str());
            assert_of(&rt, &words, &run, holds && run.status == 1);
        }
    }
}

// The line of a file of values is named that is not UTF-8.
#[test]
fn values_that_are_not_utf8(rt: HostRuntime) {
    let bytes = file_of_nodes(rt.alloc(), WHOLE, b"\xC1\x07", DATA).expect(&rt, "a file");
    let files = two_files(bytes.as_slice(), b"AT\nx\xFFy\n");
    let words = [
        "export",
        "here.mmdb",
        "--where",
        "c.i=@new.mmdb",
        "--format",
        "pf",
    ];
    let run = run_over(rt.alloc(), &files, &words, "", false);
    let is_named = lines_hold(run.err(), &["mmdb: new.mmdb:2: not valid UTF-8"]);
    assert_of(
        &rt,
        &words,
        &run,
        is_named && run.status == 1 && run.out().is_empty(),
    );
}

#[test]
fn lists_with_standard_input(rt: HostRuntime) {
    let bytes = file_of_nodes(rt.alloc(), WHOLE, b"\xC1\x07", DATA).expect(&rt, "a file");
    assert_input_rows(&rt, rt.alloc(), bytes.as_slice(), WITH_INPUT);
}

#[test]
fn lists_without_some_values(rt: HostRuntime) {
    let bytes = file_of_nodes(rt.alloc(), WHOLE, b"\xC1\x07", DATA).expect(&rt, "a file");
    assert_input_rows(&rt, rt.alloc(), bytes.as_slice(), OF_VALUES);
}

#[test]
fn lists_of_lines_and_names(rt: HostRuntime) {
    let bytes = file_of_nodes(rt.alloc(), WHOLE, b"\xC1\x07", DATA).expect(&rt, "a file");
    assert_input_rows(&rt, rt.alloc(), bytes.as_slice(), OF_LINES_AND_NAMES);
}

#[test]
fn lists_of_other_names(rt: HostRuntime) {
    let bytes = file_of_nodes(rt.alloc(), WHOLE, b"\xC1\x07", DATA).expect(&rt, "a file");
    assert_input_rows(&rt, rt.alloc(), bytes.as_slice(), OF_OTHER_NAMES);
}

// Asserts what the rows say of exports from a file.
fn assert_rows(rt: &impl Abort, alloc: Global, bytes: &[u8], rows: &[Row<'_>]) {
    for (texts, written, message) in rows {
        let mut words = Vec::new(alloc);
        let _ = words.extend_from_slice(&["export", "here.mmdb"]);
        let _ = words.extend_from_slice(texts);
        let run = run_of(alloc, bytes, words.as_slice(), "");
        assert_of(rt, texts, &run, is_as_wanted(&run, written, message));
    }
}

#[test]
fn lists_of_chosen_networks(rt: HostRuntime) {
    let bytes = file_of_nodes(rt.alloc(), WHOLE, b"\xC1\x07", DATA).expect(&rt, "a file");
    assert_rows(&rt, rt.alloc(), bytes.as_slice(), OF_WHOLE);
}

#[test]
fn lists_from_damaged_files(rt: HostRuntime) {
    let bytes = file_of_nodes(rt.alloc(), DAMAGED, b"\xC1\x07", DATA).expect(&rt, "a file");
    assert_rows(&rt, rt.alloc(), bytes.as_slice(), OF_DAMAGED);
}

/// All addresses of IPv4 or IPv6 in one block, of which a set of ipset takes the halves.
#[rattlefmt::skip]
const OF_ALL: &[(&[u8], &[Row<'static>])] = &[
    (
        b"\xA1\x04",
        &[
            (&["--format", "cidr"], "0.0.0.0/0\n", &[]),
            (
                &["--format", "ipset", "--ipv4"],
                "create mmdb_ipv4.new hash:net family inet maxelem 4294967295
add mmdb_ipv4.new 0.0.0.0/1
add mmdb_ipv4.new 128.0.0.0/1
create mmdb_ipv4 hash:net family inet maxelem 4294967295 -exist
swap mmdb_ipv4.new \"mmdb_ipv4\"
\"destroy\" \"mmdb_ipv4.new\"
",
                &[],
            ),
        ],
    ),
    (
        b"\xA1\x06",
        &[
            // lookups of IPv4 find ::/1, and a list of IPv4 has what they find
            (&["--format", "cidr"], "0.0.0.0/0\n::/0\n", &[]),
            (&["--format", "cidr", "--ipv4"], "0.0.0.0/0\n", &[]),
            (&["--format", "cidr", "--ipv6"], "::/0\n", &[]),
            (&["1.2.0.0/16", "--format", "cidr"], "1.2.0.0/16\n", &[]),
            (&["1.2.0.0/16", "--format", "cidr", "--ipv4"], "1.2.0.0/16\n", &[]),
            (&["1.2.0.0/16", "--format", "cidr", "--ipv6", "--allow-empty"], "", &[]),
            (&["::/112", "--format", "cidr"], "0.0.0.0/16\n::/112\n", &[]),
            (&["::/90", "--format", "cidr", "--ipv4"], "0.0.0.0/0\n", &[]),
            (&["4000::/2", "--format", "cidr"], "4000::/2\n", &[]),
            (&["4000::/2", "--format", "cidr", "--ipv4"], "", &[]),
            (&["--where", "c.i=DE", "--format", "pf", "--ipv4"], "0.0.0.0/0\n", &[]),
            (
                &["--format", "ipset", "--ipv6"],
                "create mmdb_ipv6.new hash:net family inet6 maxelem 4294967295
add mmdb_ipv6.new ::/1
add mmdb_ipv6.new 8000::/1
create mmdb_ipv6 hash:net family inet6 maxelem 4294967295 -exist
swap mmdb_ipv6.new \"mmdb_ipv6\"
\"destroy\" \"mmdb_ipv6.new\"
",
                &[],
            ),
        ],
    ),
];

#[test]
fn lists_of_all_addresses(rt: HostRuntime) {
    for (version, rows) in OF_ALL {
        let nodes = nodes_24(rt.alloc(), &[(17, 17)]).expect(&rt, "nodes");
        let changes = [(Field::IpVersion, *version)];
        let bytes = changed_file(rt.alloc(), nodes.as_slice(), DATA, &changes);
        let bytes = bytes.expect(&rt, "a file");
        assert_rows(&rt, rt.alloc(), bytes.as_slice(), rows);
    }
}

/// Blocks within ::ffff:0:0/96, which are taken away from networks that a file has there and from those of IPv4.
#[rattlefmt::skip]
const OF_MAPPED: &[InputRow<'static>] = &[
    (
        &["export", "here.mmdb", "::ffff:0:0/96", "--format", "cidr", "--except", "-"],
        "::ffff:0:0/97\n",
        "::ffff:128.0.0.0/97\n",
        &[],
        0,
    ),
    (
        &["export", "here.mmdb", "--format", "cidr", "--ipv4", "--except", "-"],
        "::ffff:0:0/97\n",
        "128.0.0.0/1\n",
        &[],
        0,
    ),
    // one of IPv4 leaves those as they are
    (
        &["export", "here.mmdb", "::ffff:0:0/96", "--format", "cidr", "--except", "-"],
        "0.0.0.0/1\n",
        "::ffff:0.0.0.0/96\n",
        &[],
        0,
    ),
];

#[test]
fn lists_without_mapped_addresses(rt: HostRuntime) {
    let nodes = nodes_24(rt.alloc(), &[(17, 17)]).expect(&rt, "nodes");
    let changes: &[(Field, &[u8])] = &[(Field::IpVersion, b"\xA1\x06")];
    let bytes = changed_file(rt.alloc(), nodes.as_slice(), DATA, changes);
    let bytes = bytes.expect(&rt, "a file");
    assert_input_rows(&rt, rt.alloc(), bytes.as_slice(), OF_MAPPED);
}

/// Seven nodes, each of which leads to the next one twice: 128 networks.
const DOUBLED: &[(u32, u32)] = &[(1, 1), (2, 2), (3, 3), (4, 4), (5, 5), (6, 6), (23, 23)];

/// Commands that go through all networks, over such a file.
const OVER_DOUBLED: &[&[&str]] = &[
    &["export", "here.mmdb"],
    &["export", "here.mmdb", "--format", "nft"],
    &["export", "here.mmdb", "new.mmdb"],
    &["diff", "here.mmdb", "new.mmdb"],
    &[
        "diff",
        "here.mmdb",
        "new.mmdb",
        "--where",
        "c.i=DE",
        "--format",
        "cidr",
    ],
    &["info", "here.mmdb", "--fields"],
];

#[test]
fn trees_of_too_many_networks(rt: HostRuntime) {
    let bytes = file_of_nodes(rt.alloc(), DOUBLED, b"\xC1\x07", DATA).expect(&rt, "a file");
    let files = two_files(bytes.as_slice(), bytes.as_slice());
    let wanted =
        "mmdb: here.mmdb: its search tree leads to more networks than its nodes can have; see mmdb verify\n";
    for words in OVER_DOUBLED {
        let run = run_over(rt.alloc(), &files, words, "", false);
        let holds = run.status == 1 && run.out().is_empty() && run.err() == wanted;
        assert_of(&rt, words, &run, holds);
    }
    // within a range there may be fewer
    let words = &["export", "here.mmdb", "0.0.0.0/5", "--format", "cidr"];
    let run = run_over(rt.alloc(), &files, words, "", false);
    assert_of(
        &rt,
        words,
        &run,
        run.status == 0 && run.out() == "0.0.0.0/5\n",
    );
}

/// Words of a run that is done, and what each line of standard error has to hold.
const NOTED: &[(&[&str], &[&str])] = &[
    // a field that no record has is named, with the one that may be meant
    (
        &["export", "here.mmdb", "--field", "c.j"],
        &["mmdb: no record has c.j; did you mean c.i?"],
    ),
    (
        &[
            "export",
            "here.mmdb",
            "--field",
            "c.i",
            "--field",
            "names",
            "--format",
            "csv",
        ],
        &["mmdb: no record has names"],
    ),
    (
        &["export", "here.mmdb", "--field", "C.I"],
        &["did you mean c.i?"],
    ),
    // of no record nothing is said
    (
        &["export", "here.mmdb", "128.0.0.0/3", "--field", "c.j"],
        &[],
    ),
    (
        &["export", "here.mmdb", "--where", "c.i=FR", "--field", "c.j"],
        &[],
    ),
    // some record has it
    (&["export", "here.mmdb", "--field", "c.i"], &[]),
    (
        &["diff", "here.mmdb", "here.mmdb", "--field", "c.j"],
        &["no record has c.j; did you mean c.i?", "0 (0) added"],
    ),
    (
        &["diff", "here.mmdb", "here.mmdb", "--field", "n"],
        &["0 (0) added"],
    ),
    // a range with address bits after its prefix
    (
        &["export", "here.mmdb", "36.5.1.2/16"],
        &["mmdb: 36.5.1.2/16 is read as 36.5.0.0/16"],
    ),
    (
        &["diff", "here.mmdb", "here.mmdb", "36.5.1.2/16"],
        &["36.5.1.2/16 is read as 36.5.0.0/16", "0 (0) added"],
    ),
    (&["export", "here.mmdb", "36.5.0.0/16"], &[]),
];

#[test]
fn notes_on_fields_and_ranges(rt: HostRuntime) {
    let bytes = file_of_nodes(rt.alloc(), WHOLE, b"\xC1\x07", DATA).expect(&rt, "a file");
    for (texts, message) in NOTED {
        let run = run_of(rt.alloc(), bytes.as_slice(), texts, "");
        let holds = run.status == 0 && lines_hold(run.err(), message);
        assert_of(&rt, texts, &run, holds);
    }
}

#[test]
fn notes_on_shown_paths(rt: HostRuntime) {
    let bytes = file_of_nodes(rt.alloc(), WHOLE, b"\xC1\x07", DATA).expect(&rt, "a file");
    let words = &[
        "show",
        "here.mmdb",
        "1.1.1.1",
        "64.0.0.1",
        "--path",
        "c.j",
        "--path",
        "n",
    ];
    let run = run_of(rt.alloc(), bytes.as_slice(), words, "");
    let is_noted = lines_hold(run.err(), &["mmdb: no record has c.j; did you mean c.i?"]);
    assert_of(&rt, words, &run, is_noted && run.status == 6);
}

/// At 0 the text x, at 2 a map whose key is the number 7.
const ONE_UNREADABLE: &[u8] = b"\x41x\xE1\xA1\x07\x41y";

/// A file that is whole, of which one record can't be read.
#[test]
fn records_that_verify_reads(rt: HostRuntime) {
    let bytes = file_of_nodes(rt.alloc(), &[(17, 19)], b"\xC1\x01", ONE_UNREADABLE).expect(
        &rt, "a file",
    );
    let words = &["verify", "here.mmdb", "--whole"];
    let whole = run_of(rt.alloc(), bytes.as_slice(), words, "");
    let is_whole = whole.out() == "here.mmdb: ok\n" && whole.status == 0;
    assert_of(&rt, words, &whole, is_whole);
    let run = run_of(rt.alloc(), bytes.as_slice(), &["verify", "here.mmdb"], "");
    let wanted = "here.mmdb: 1 of its records can't be read, the first at 128.0.0.0/1: ";
    let is_named = run.out().starts_with(wanted) && run.status == 1;
    assert_of(&rt, &["verify"], &run, is_named);
    let words = &["verify", "here.mmdb", "--json"];
    let run = run_of(rt.alloc(), bytes.as_slice(), words, "");
    let has_count = run.out().contains("\"ok\":false,")
        && run.out().contains("\"unreadable_records\":1,");
    assert_of(&rt, words, &run, has_count && run.status == 1);
}
