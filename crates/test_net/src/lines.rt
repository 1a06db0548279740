//! Addresses that texts spell, beside std's parser of them; lines of JSON; what is kept of short answers, and what is worth to be kept.
use json::Scratch;
use mmdb_addresses::{AddressText, Reading, address_of, read_address};
use mmdb_blocks::{Block, BlockKind, Kinds};
use mmdb_cache::{CacheTable, Memo, Worth};
use mmdb_objects::{Line, PathStep, ReadLine, read_line};
use std::alloc::{AllocError, Global};
use std::net::{IpAddr, Ipv4Addr, Ipv6Addr};

/// Texts on both sides of what an address is.
const TEXTS: &[&str] = &[
    "0.0.0.0",
    "255.255.255.255",
    "1.2.3.4",
    "10.20.30.40",
    "100.200.100.200",
    "1.2.3",
    "1.2.3.4.5",
    "1.2.3.",
    ".1.2.3",
    "1..2.3",
    "01.2.3.4",
    "1.2.3.04",
    "1.2.3.00",
    "256.1.1.1",
    "1.1.1.256",
    "1.1.1.999",
    "1.1.1.1000",
    "1.2.3.4 ",
    " 1.2.3.4",
    "1.2.3.4:80",
    "1.2.3.4/32",
    "1.2.3.a",
    "a.2.3.4",
    "-1.2.3.4",
    "+1.2.3.4",
    "",
    "1",
    "1.",
    "::",
    "::1",
    "2001:db8::1",
    "2001:DB8::A",
    "::ffff:1.2.3.4",
    "::1.2.3.256",
    "1:2:3:4:5:6:7:8",
    "1:2:3:4:5:6:7",
    "1:2:3:4:5:6:7:8:9",
    "fe80::1%eth0",
    "[::1]",
    "12345::",
    "localhost",
    "1.2.3.4\n",
    "\u{e9}",
];

// Whether a text is read as std reads it, and is copied where it is no longer than an address.
fn is_read_as_by_std(text: &str) -> bool {
    let wanted: Option<IpAddr> = text.parse().ok();
    let bytes = text.as_bytes();
    let is_copied = match AddressText::of(bytes) {
        Some(copy) => copy.as_slice() == bytes,
        None => false,
    };
    read_address(bytes).ok() == wanted
        && address_of(Reading::Exact, Some(bytes)) == wanted
        && is_copied
}

#[test]
fn addresses_as_std_reads_them(rt: HostRuntime) {
    for text in TEXTS {
        assert!(rt; is_read_as_by_std(*text), "{text:?}");
    }
    assert!(rt; address_of(Reading::First, None).is_none());
}

/// A line, and what it is by the address at `client.ip`: no object, one without an address there, one with a member `geo`, or
/// with 1.2.3.4, how many bytes stand from its last brace on.
const LINES: &[(&str, &str)] = &[
    ("", "no object"),
    ("1", "no object"),
    ("[]", "no object"),
    ("{", "no object"),
    ("{} {}", "no object"),
    ("{\"client\":{\"ip\":\"1.2.3.4\"}", "no object"),
    ("{\"client\":{\"ip\":\"1.2.3.4\"},}", "no object"),
    ("{}", "no address"),
    ("{\"client\":\"1.2.3.4\"}", "no address"),
    ("{\"client\":{\"ip\":4}}", "no address"),
    ("{\"client\":{\"ip\":\"1.2.3\"}}", "no address"),
    (
        "{\"client\":{\"ip\":\"1.2.3.4\"},\"client\":1}",
        "no address",
    ),
    ("{\"client\":{\"ip\":\"1.2.3.4\"}}", "address 1"),
    (" {\"client\" : {\"ip\" : \"1.2.3.4\"} } ", "address 2"),
    (
        "{\"client\":{\"ip\":\"\",\"ip\":\"1.2.3.4\"}}\t\r",
        "address 3",
    ),
    ("{\"client\":{\"ip\":\"1.2.3.\\u0034\"}}", "address 1"),
    (
        "{\"client\":{\"ip\":\"1.2.3.4:80\",\"geo\":1}}",
        "address 1",
    ),
    ("{\"geo\":1,\"client\":{\"ip\":\"1.2.3.4\"}}", "taken"),
    ("{\"client\":{\"ip\":\"1.2.3.4\"},\"geo\":null}", "taken"),
    ("{\"client\":{\"ip\":\"1.2.3.4\"},\"g\\u0065o\":1}", "taken"),
    ("{\"client\":{\"ip\":\"1.2.3.4\"},\"geo2\":1}", "address 1"),
    (
        "{\"a\":[1,{\"b\":null}],\"client\":{\"ip\":\"1.2.3.4\",\"c\":-0.5e1}}",
        "address 1",
    ),
];

// The line with an address as a text.
fn text_of(line: &Line) -> &'static str {
    let Some(address) = line.address else {
        return "no address";
    };
    if line.is_taken {
        return "taken";
    }
    let is_wanted = address == IpAddr::V4(Ipv4Addr::new(1, 2, 3, 4)) && !line.is_empty;
    match line.behind {
        1 if is_wanted => "address 1",
        2 if is_wanted => "address 2",
        3 if is_wanted => "address 3",
        _ => "another address or place",
    }
}

// What a line is, as a text.
fn kind_of(alloc: Global, line: &str) -> Result<&'static str, AllocError> {
    let mut scratch = Scratch::new(alloc);
    let path = [PathStep::Key("client"), PathStep::Key("ip")];
    Ok(
        match read_line(
            alloc,
            Reading::First,
            line.as_bytes(),
            false,
            &path,
            "geo",
            &mut scratch,
        )? {
            ReadLine::NoObject => "no object",
            ReadLine::Object(line) => text_of(&line),
        },
    )
}

#[test]
fn objects_with_addresses(rt: HostRuntime) {
    for (line, wanted) in LINES {
        let kind = kind_of(rt.alloc(), *line);
        assert!(rt; kind == Ok(*wanted), "{line}: {kind:?}");
    }
}

// A table of two sets, in which as many keys were put, each with whether it is even.
fn table_of(alloc: Global, count: u32) -> Result<CacheTable<u32, bool, 2>, AllocError> {
    let none = Memo {
        key: u32::MAX,
        value: false,
    };
    let mut table = CacheTable::new(alloc, none)?;
    for key in 0..count {
        table.put(key, key % 2 == 0);
    }
    Ok(table)
}

// How many of as many keys are kept, if each that is has the right answer.
fn kept_of(alloc: Global, count: u32) -> Result<Option<u32>, AllocError> {
    let table = table_of(alloc, count)?;
    let mut kept = 0u32;
    for key in 0..count {
        match table.get(key) {
            Some(is_even) if is_even != (key % 2 == 0) || !table.has(key) => return Ok(None),
            Some(_) => kept = kept.saturating_add(1),
            None => {}
        }
    }
    Ok(Some(kept))
}

#[test]
fn tables_keep_the_last(rt: HostRuntime) {
    assert!(rt; kept_of(rt.alloc(), 1) == Ok(Some(1)));
    let kept = kept_of(rt.alloc(), 100);
    assert!(rt; matches!(kept, Ok(Some(1..=8))), "{kept:?}");
    let empty: CacheTable<u32, bool, 2> = CacheTable::without_memory(rt.alloc());
    assert!(rt; empty.get(1).is_none() && !empty.has(1));
}

// Of so many things, of which every so many is found again, how many are worth to be kept.
fn worth_of(things: u64, found_each: u64) -> u64 {
    let mut worth = Worth::new();
    let mut kept = 0u64;
    for thing in 0..things {
        if thing.checked_rem(found_each) == Some(0) {
            worth.find();
        }
        if worth.keeps() {
            kept = kept.saturating_add(1);
        }
    }
    kept
}

/// How many things there are, every how many of them is found again, and how many of them are kept at least and at most.
#[rattlefmt::skip]
const WORTH: &[(u64, u64, u64, u64)] = &[
    // the first of them are, and where none was found one of 64 behind them
    (1024, 1 << 40, 1024, 1024),
    (1025, 1 << 40, 1024, 1025),
    (1024 + 64_000, 1 << 40, 2000, 2025),
    // where each is found again, all are
    (100_000, 1, 100_000, 100_000),
    (2048, 2, 2048, 2048),
    (200_000, 2, 100_000, 104_000),
];

#[test]
fn few_are_kept_where_none_are_found(rt: HostRuntime) {
    for (things, found_each, least, most) in WORTH {
        let kept = worth_of(*things, *found_each);
        assert!(rt;
            *least <= kept && kept <= *most,
            "{things} {found_each}: {kept}"
        );
    }
}

#[test]
fn networks_of_blocks(rt: HostRuntime) {
    let block = Block::of_numbers(0x0a00_0000, 32, 8);
    let network = BlockKind::Ipv4.network_of(block);
    assert!(rt;
        network.is_ok_and(|it| it.ip() == IpAddr::V4(Ipv4Addr::new(10, 0, 0, 0))
            && it.prefix() == 8)
    );
    let block = Block::of_numbers(1 << 125, 128, 3);
    let network = BlockKind::of_width(128).network_of(block);
    assert!(rt;
        network.is_ok_and(|it| it.ip() == IpAddr::V6(Ipv6Addr::from_bits(1 << 125))
            && it.prefix() == 3)
    );
    assert!(rt;
        Kinds::Both.has(BlockKind::Ipv6)
            && !Kinds::One(BlockKind::Ipv4).has(BlockKind::of_width(128))
    );
}
