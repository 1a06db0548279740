//! Numbers in lines of JSON, around the 16 digits that are looked at together.
use crate::tests::asserted::assert_of;
use mmdb_vectors::base::BASE_FILE;
use std::alloc::{AllocError, Global};
use test_runs::program::run_of;

/// Words that ask for a record in lines of JSON.
const WORDS: &[&str] = &["enrich", "here.mmdb", "--json", "a", "--field", "r="];

/// What may stand before digits that begin with a 7, and behind them.
#[rattlefmt::skip]
const NUMBERS: &[(&str, &str)] = &[
    ("", ""), ("-", ""), ("0.", ""), ("-0.", ""), ("1.", ""), ("-12.", ""), ("1e", ""), ("1E-", ""), ("1.5e+", ""),
    ("", ".5"), ("", ".25e3"), ("", "e3"), ("", "E+3"), ("", "e-10"), ("-", ".5"), ("-", "e3"), ("", ".0"),
    ("", ".12345678901234567"), ("", "e12345678901234567"), ("0.", "e3"), ("1.", "E-3"), ("0e", ""),
];

/// The same of what is no number.
#[rattlefmt::skip]
const NO_NUMBERS: &[(&str, &str)] = &[
    ("0", ""), ("-0", ""), ("+", ""), ("--", ""), (".", ""), ("-.", ""), ("", "."), ("", "e"), ("", "e+"), ("", ".e1"),
    ("", "a"), ("", "-"), ("", "+1"), ("", "..1"), ("", ".1.1"), ("", "e1e1"), ("", "e1.5"), ("", ".1a"), ("", "\""),
    ("0x", ""), ("1.-", ""), ("1e--", ""), ("", " 1"), ("", "E"), ("", ".5E-"),
];

// Adds an object with such a number, in these places, and what is written behind its last member.
fn put_object(
    text: &mut String,
    number: (&str, usize, &str),
    parts: (&str, &str),
    added: &str,
) -> Result<(), AllocError> {
    let (front, len, back) = number;
    text.push_str(parts.0)?;
    text.push_str(front)?;
    for _ in 0..len {
        text.push_str("7")?;
    }
    text.push_str(back)?;
    text.push_str(parts.1)?;
    text.push_str(added)?;
    text.push_str("}\n")
}

/// Where a number stands: before the address, in an array, and as the last member, near the text's end.
const PLACES: &[(&str, &str)] = &[
    ("{\"n\":", ",\"a\":\"200.0.0.1\""),
    ("{\"n\": ", " , \"a\":\"200.0.0.1\""),
    ("{\"n\":[1,", ",2],\"a\":\"200.0.0.1\""),
    ("{\"n\":[", "],\"a\":\"200.0.0.1\""),
    ("{\"a\":\"200.0.0.1\",\"n\":{\"m\":", "}"),
    ("{\"a\":\"200.0.0.1\",\"n\":", ""),
    ("{\"a\":\"200.0.0.1\",\"n\":", " "),
];

// Objects with numbers of so many digits, in all places.
fn objects(
    alloc: Global,
    table: &[(&str, &str)],
    len: usize,
    added: &str,
) -> Result<String, AllocError> {
    let mut text = String::new(alloc);
    for (front, back) in table {
        for place in PLACES {
            put_object(&mut text, (*front, len, *back), *place, added)?;
        }
    }
    Ok(text)
}

#[test]
fn numbers_of_all_lengths(rt: HostRuntime) {
    for len in 1..34 {
        let lines = objects(rt.alloc(), NUMBERS, len, "").expect(&rt, "a text");
        let want = objects(rt.alloc(), NUMBERS, len, ",\"geo\":{\"r\":\"x\"}");
        let want = want.expect(&rt, "a text");
        let run = run_of(rt.alloc(), BASE_FILE, WORDS, lines.as_str());
        let holds = run.status == 0 && run.out() == want.as_str();
        assert_of(&rt, WORDS, &run, holds);
    }
}

#[test]
fn no_numbers_of_all_lengths(rt: HostRuntime) {
    for len in 1..34 {
        let lines = objects(rt.alloc(), NO_NUMBERS, len, "").expect(&rt, "a text");
        let run = run_of(rt.alloc(), BASE_FILE, WORDS, lines.as_str());
        let all = "0 without an address, 0 with an error, 175 not objects of JSON";
        let holds = run.status == 0 && run.out() == lines.as_str() && run.err().contains(all);
        assert_of(&rt, WORDS, &run, holds);
    }
}
