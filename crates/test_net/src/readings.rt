//! Ways to write an address in a text, and texts that have none.
use mmdb_addresses::{Reading, address_in};
use std::net::IpAddr;

/// Addresses alone.
const ALONE: &[&str] = &[
    "1.2.3.4",
    "255.255.255.255",
    "2001:db8::1",
    "::ffff:1.2.3.4",
    "1:2:3:4:5:6:7:8",
    "::",
];

/// Cells whose first word is an address, which is the only one, and the address.
const CELLS: &[(&str, &str)] = &[
    (" 1.2.3.4", "1.2.3.4"),
    ("\t 1.2.3.4 ", "1.2.3.4"),
    ("1.2.3.4:443", "1.2.3.4"),
    ("1.2.3.4:0", "1.2.3.4"),
    ("1.2.3.4:65535", "1.2.3.4"),
    ("[2001:db8::1]", "2001:db8::1"),
    ("[2001:db8::1]:443", "2001:db8::1"),
    ("[1.2.3.4]", "1.2.3.4"),
    ("[fe80::1%eth0]:22", "fe80::1"),
    ("fe80::1%eth0", "fe80::1"),
    ("fe80::1%eth0.100 up", "fe80::1"),
    ("\"1.2.3.4\"", "1.2.3.4"),
    ("\"2001:db8::1\"", "2001:db8::1"),
    ("\"[2001:db8::1]:443\"", "2001:db8::1"),
    ("1.2.3.4;", "1.2.3.4"),
    ("1.2.3.4; 5.6.7.8", "1.2.3.4"),
    (
        "1.2.3.4 - - [27/Nov/2026:10:00:00 +0000] \"GET / HTTP/1.1\" 200 1",
        "1.2.3.4",
    ),
    ("2001:db8::1 - alice", "2001:db8::1"),
];

/// Cells with hops, and the addresses of the first and of the last one.
const LISTS: &[(&str, &str, &str)] = &[
    ("1.2.3.4,", "1.2.3.4", ""),
    ("1.2.3.4,5.6.7.8", "1.2.3.4", "5.6.7.8"),
    ("1.2.3.4, 10.0.0.1, 5.6.7.8", "1.2.3.4", "5.6.7.8"),
    ("1.2.3.4:80, [2001:db8::1]:443", "1.2.3.4", "2001:db8::1"),
    ("\"1.2.3.4, 5.6.7.8\"", "1.2.3.4", "5.6.7.8"),
    ("1.2.3.4, unknown", "1.2.3.4", ""),
];

/// Texts in which an address stands that is the word of no cell, and the address.
const TEXTS: &[(&str, &str)] = &[
    ("Foo::bar failed for 8.8.8.8", "8.8.8.8"),
    (
        "Failed password for root from 8.8.8.8 port 22 ssh2",
        "8.8.8.8",
    ),
    ("connection from 8.8.8.8.", "8.8.8.8"),
    ("connect to 2001:db8::1: refused", "2001:db8::1"),
    ("8.8.8.8: refused", "8.8.8.8"),
    ("http://8.8.8.8:80/", "8.8.8.8"),
    ("http://[2001:db8::1]:8080/a", "2001:db8::1"),
    ("//8.8.8.8/share", "8.8.8.8"),
    ("relay=mx.example.org[8.8.8.8]:25, delay=1", "8.8.8.8"),
    ("client=(8.8.8.8)", "8.8.8.8"),
    ("src=8.8.8.8 dst=1.1.1.1", "8.8.8.8"),
    ("<8.8.8.8>", "8.8.8.8"),
    ("8.8.8.0/24", "8.8.8.0"),
    ("a 12:30:45 8.8.8.8:80: reset", "8.8.8.8"),
    ("v1.2.3.4 of 8.8.8.8", "8.8.8.8"),
    ("Chrome/120.0.0.0 8.8.8.8", "8.8.8.8"),
    ("fe80::1%eth0/64", "fe80::1"),
];

/// Texts, and the last address that stands anywhere in each. Nothing stands for none.
const LASTS: &[(&str, &str)] = &[
    ("Invalid user 1.2.3.4 from 8.8.8.8 port 22", "8.8.8.8"),
    ("Invalid user 2001:db8::1 from 8.8.8.8", "8.8.8.8"),
    ("1.2.3.4; 5.6.7.8", "5.6.7.8"),
    ("src=8.8.8.8 dst=1.1.1.1.", "1.1.1.1"),
    ("from 8.8.8.8 by Chrome/120.0.0.0", "8.8.8.8"),
    ("from 8.8.8.8 by 1.2.3.256", "8.8.8.8"),
    ("8.8.8.8", "8.8.8.8"),
    ("12:30:45 v1.2.3.4", ""),
    ("", ""),
];

/// Texts without an address.
const NONE: &[&str] = &[
    "",
    "-",
    "unknown",
    "localhost",
    "1.2.3",
    "1.2.3.4.5",
    "1.2.3.256",
    "01.2.3.4",
    "1.2.3.4-1.2.3.9",
    "2001:db8::1-2001:db8::9",
    "1.2.3.4:65536",
    "1.2.3.4:123456",
    "1.2.3.4:port",
    "1:2:3:4:5:6:7:8:443",
    "v1.2.3.4",
    "Chrome/120.0.0.0",
    "12:30:45",
    "00-1b-44-11-3a-b7",
    "aa:bb:cc:dd:ee:ff",
    "1.2.3.4_x",
    "host-1.2.3.4",
    "1.2.3.4.example.org",
    "8.8.8.8..",
    "8.8.8.8:refused",
    "usr/8.8.8.8",
];

/// A text, and the address in it as each reading finds it. Nothing stands for none.
#[derive(Clone, Copy)]
struct Row {
    text: &'static str,
    exact: &'static str,
    first: &'static str,
    last: &'static str,
    anywhere: &'static str,
}

/// Texts in which the first hop is no address, or in which there is one anywhere alone since what is around it is nothing
/// that a cell has.
const APART: &[Row] = &[
    Row {
        text: "unknown, 5.6.7.8",
        exact: "",
        first: "",
        last: "5.6.7.8",
        anywhere: "5.6.7.8",
    },
    Row {
        text: "-, 5.6.7.8",
        exact: "",
        first: "",
        last: "5.6.7.8",
        anywhere: "5.6.7.8",
    },
    Row {
        text: "1.2.3.4%eth0",
        exact: "",
        first: "",
        last: "",
        anywhere: "1.2.3.4",
    },
    Row {
        text: "[2001:db8::1]x",
        exact: "",
        first: "",
        last: "",
        anywhere: "2001:db8::1",
    },
    Row {
        text: "[2001:db8::1",
        exact: "",
        first: "",
        last: "",
        anywhere: "2001:db8::1",
    },
    Row {
        text: "fe80::1%",
        exact: "",
        first: "",
        last: "",
        anywhere: "fe80::1",
    },
];

// Whether each reading finds what is wanted.
fn is_right(row: &Row) -> bool {
    let text = row.text.as_bytes();
    let exact: Option<IpAddr> = row.exact.parse().ok();
    let first: Option<IpAddr> = row.first.parse().ok();
    let last: Option<IpAddr> = row.last.parse().ok();
    let anywhere: Option<IpAddr> = row.anywhere.parse().ok();
    address_in(Reading::Exact, text) == exact
        && address_in(Reading::First, text) == first
        && address_in(Reading::Last, text) == last
        && address_in(Reading::Anywhere, text) == anywhere
}

// The row of a text that is no address itself, but has one by each other reading.
fn cell(text: &'static str, address: &'static str) -> Row {
    Row {
        text,
        exact: "",
        first: address,
        last: address,
        anywhere: address,
    }
}

// The row of a text with an address anywhere alone.
fn inside(text: &'static str, address: &'static str) -> Row {
    Row {
        text,
        exact: "",
        first: "",
        last: "",
        anywhere: address,
    }
}

#[test]
fn ways_to_write_an_address(rt: HostRuntime) {
    for text in ALONE {
        let row = Row {
            exact: *text,
            ..cell(*text, *text)
        };
        assert!(rt; is_right(&row), "{text:?}");
    }
    for (text, address) in CELLS {
        assert!(rt; is_right(&cell(*text, *address)), "{text:?}");
    }
    for (text, first, last) in LISTS {
        let row = Row {
            last: *last,
            ..cell(*text, *first)
        };
        assert!(rt; is_right(&row), "{text:?}");
    }
    for row in APART {
        assert!(rt; is_right(row), "{:?}", row.text);
    }
}

#[test]
fn addresses_anywhere(rt: HostRuntime) {
    for (text, address) in TEXTS {
        assert!(rt; is_right(&inside(*text, *address)), "{text:?}");
    }
    for text in NONE {
        assert!(rt; is_right(&inside(*text, "")), "{text:?}");
    }
}

#[test]
fn the_last_address_anywhere(rt: HostRuntime) {
    for (text, address) in LASTS {
        let wanted: Option<IpAddr> = (*address).parse().ok();
        assert!(rt;
            address_in(Reading::LastAnywhere, text.as_bytes()) == wanted,
            "{text:?}"
        );
    }
}
