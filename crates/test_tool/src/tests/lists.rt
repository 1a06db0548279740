//! The lists of ranges.
ghost use Rattle.std.specs.Prelude.{◌<◌};

use super::runs::{Row, assert_rows};
use mmdb_vectors::builder::{
    BASE, BASE_NODE, base_file, base_with_node, file, file_with_alias, file_without_subtree,
};
use std::alloc::{AllocError, Global};
use std::net::{Ipv4Addr, Ipv6Addr};
use std::process::Abort;

const WHOLE: &str = "0.0.0.0/0";

const LEAF: &str = "128.0.0.0/1 0\n";

const BOTH: &str = "0.0.0.0/1 -\n128.0.0.0/1 0\n";

const ALIAS: &str = "c000:0000:0000:0000:0000:0000:0000:0000/2 0\n";

#[rattlefmt::skip]
const BASE_ROWS: &[Row<'static>] = &[
    (&["list", "FILE", WHOLE], LEAF),
    (&["list", "FILE", WHOLE, "--empty"], BOTH),
    (&["list", "FILE", "200.0.0.0/8"], LEAF),
    (&["list", "FILE", "200.0.0.1"], LEAF),
    (&["list", "FILE", "1.0.0.0/8"], ""),
    (&["list", "FILE", "1.0.0.0/8", "--empty"], "0.0.0.0/1 -\n"),
    (&["list", "FILE", WHOLE, "--skip-empty", "--aliases", "--empty"], BOTH),
];

#[rattlefmt::skip]
const FAULT_ROWS: &[Row<'static>] = &[
    (&["list", "FILE", WHOLE], "fault\n128.0.0.0/1 0\n"),
];

#[rattlefmt::skip]
const SUBTREE_ROWS: &[Row<'static>] = &[
    (&["list", "FILE", "10.0.0.0/8"], "0000:0000:0000:0000:0000:0000:0000:0000/1 0\n"),
];

#[test]
fn lists_of_small_files(rt: HostRuntime) {
    let alloc = rt.alloc();
    assert_rows(&rt, alloc, base_file(alloc), BASE_ROWS);
    let fault = base_with_node(alloc, b"\x00\x00\x10\x00\x00\x11");
    assert_rows(&rt, alloc, fault, FAULT_ROWS);
    assert_rows(&rt, alloc, file_without_subtree(alloc), SUBTREE_ROWS);
}

/// Data, and the list of the file without empty values.
#[rattlefmt::skip]
const VALUES: &[(&[u8], &str)] = &[
    (b"\xE0", ""),
    (b"\x00\x04", ""),
    (b"\x20\x02\xE0", ""),
    (b"\x40", LEAF),
    (b"\x00\x05", LEAF),
    (b"\x20\x02\x20\x00", "fault\n"),
    (b"\x00", "fault\n"),
    (b"\x20", "fault\n"),
    (b"\x20\x05", "fault\n"),
];

#[test]
fn empty_values(rt: HostRuntime) {
    let alloc = rt.alloc();
    for (data, skipped) in VALUES {
        let rows: [Row<'_>; 2] = [
            (&["list", "FILE", WHOLE], LEAF),
            (&["list", "FILE", WHOLE, "--skip-empty"], *skipped),
        ];
        assert_rows(&rt, alloc, file(alloc, BASE_NODE, data, BASE), &rows);
    }
}

#[rattlefmt::skip]
const ALIAS_ROWS: &[Row<'static>] = &[
    (&["list", "FILE", "::/0"], LEAF),
    (
        &["list", "FILE", "::/0", "--aliases"],
        "128.0.0.0/1 0\nc000:0000:0000:0000:0000:0000:0000:0000/2 0\n",
    ),
    (&["list", "FILE", WHOLE], LEAF),
    (&["list", "FILE", "::/96"], LEAF),
    (&["list", "FILE", "200.0.0.0/8"], LEAF),
    (&["list", "FILE", "8000::/1"], ""),
    (&["list", "FILE", "8000::/1", "--empty"], ""),
    (&["list", "FILE", "8000::/1", "--aliases"], ALIAS),
    (
        &["list", "FILE", "8000::/1", "--empty", "--aliases"],
        "8000:0000:0000:0000:0000:0000:0000:0000/2 -\nc000:0000:0000:0000:0000:0000:0000:0000/2 0\n",
    ),
    (&["list", "FILE", "c000::/2"], ""),
    (&["list", "FILE", "c000::/2", "--aliases"], ALIAS),
    (&["list", "FILE", "c800::/5"], ""),
    (&["list", "FILE", "c800::/5", "--aliases"], ALIAS),
];

#[test]
fn ranges_in_aliases(rt: HostRuntime) {
    assert_rows(&rt, rt.alloc(), file_with_alias(rt.alloc()), ALIAS_ROWS);
}

// The line of a network without data whose only bit is this one, counted from the lowest.
fn push_empty_line(alloc: Global, text: &mut String, place: u32) -> Result<(), AllocError>
    requires { place < 128 }
{
    let [a, b, c, d, e, f, g, h] = Ipv6Addr::from_bits(1u128 << place).segments();
    let prefix = 128 - place;
    let line = format!(in alloc;
        "{a:04x}:{b:04x}:{c:04x}:{d:04x}:{e:04x}:{f:04x}:{g:04x}:{h:04x}/{prefix} -\n"
    )?;
    text.push_str(line.as_str())
}

// The lines of the networks below the one where IPv4 begins, and of that one.
fn ipv4_and_empty_lines(rt: &impl Abort, alloc: Global) -> String {
    let mut text = String::from_str(alloc, BOTH).expect(rt, BOTH);
    for place in 32..127u32 {
        push_empty_line(alloc, &mut text, place).expect(rt, "a line");
    }
    text
}

#[test]
fn ipv6_with_alias_whole(rt: HostRuntime) {
    let alloc = rt.alloc();
    let mut text = ipv4_and_empty_lines(&rt, alloc);
    let row: Row<'_> = (&["list", "FILE", "::/0", "--empty"], text.as_str());
    assert_rows(&rt, alloc, file_with_alias(alloc), &[row]);
    let aliases =
        "8000:0000:0000:0000:0000:0000:0000:0000/2 -\nc000:0000:0000:0000:0000:0000:0000:0000/2 0\n";
    text.push_str(aliases).expect(&rt, aliases);
    let words = ["list", "FILE", "::/0", "--empty", "--aliases"];
    assert_rows(
        &rt,
        alloc,
        file_with_alias(alloc),
        &[(&words, text.as_str())],
    );
}

// The lines of the networks whose only bit is one of those of an address, lowest first.
fn push_spine(alloc: Global, text: &mut String) -> Result<(), AllocError> {
    for place in 0..32u32 {
        let address = Ipv4Addr::from_bits(1 << place);
        let prefix = 32 - place;
        text.push_str(format!(in alloc; "{address}/{prefix} 0\n")?.as_str())?;
    }
    Ok(())
}

#[test]
fn left_spine(rt: HostRuntime) {
    let alloc = rt.alloc();
    let mut text = String::from_str(alloc, "fault\n").expect(&rt, "a fault");
    push_spine(alloc, &mut text).expect(&rt, "lines");
    let file = base_with_node(alloc, b"\x00\x00\x00\x00\x00\x11");
    assert_rows(
        &rt,
        alloc,
        file,
        &[(&["list", "FILE", WHOLE], text.as_str())],
    );
}
