//! Reads and clones where memory runs out.
use super::fields::{TOP_CITY, TOP_COUNTRY, TOP_ENTERPRISE};
use super::parts::Parts;
use super::reads::Reads;
use super::section::{Row, with_unknown};
use mmdb_format::error::MaxMindDbError;
use mmdb_geoip2::{City, Country, Domain, Enterprise};
use mmdb_record::decode::Decode;
use mmdb_record::first_value::decode;
use mmdb_vectors::answer::reported;
use mmdb_vectors::failures::Failures;
use mmdb_vectors::hoard::{Hoard, Outcome, fail_in_turn};
use std::alloc::{AllocError, Global};

// What an error says of a call.
fn kind_met(error: &MaxMindDbError) -> Outcome {
    match error {
        MaxMindDbError::Memory => Outcome::Memory,
        _ => Outcome::Error,
    }
}

fn error_met(error: MaxMindDbError) -> Outcome {
    let met = kind_met(&error);
    drop(error);
    met
}

fn outcome<T: Drop>(answer: Result<T, MaxMindDbError>) -> Outcome {
    match answer {
        Ok(_) => Outcome::Value,
        Err(error) => error_met(error),
    }
}

// A read runs out of memory at least so often, with more of it each time, before it meets the answer that
// it has with enough; a read that takes none meets it at once.
fn expect_turns<'de, T: Decode<'de>>(
    failures: &mut Failures,
    alloc: Global,
    section: &'de [u8],
    last: Outcome,
) {
    let (rejected, then) = fail_in_turn(alloc, 64, || outcome(decode::<T>(alloc, section)));
    failures.expect(&(section, rejected, then), then == last && rejected > 0);
}

/// A map without a pair is read as a record.
pub fn expect_empty<'de, T: Decode<'de>>(failures: &mut Failures, alloc: Global) {
    let met = outcome(decode::<T>(alloc, b"\xE0"));
    failures.expect(&"an empty map", met == Outcome::Value);
}

/// A record is read where every allocation fails.
pub fn expect_none<'de, T: Decode<'de>>(
    failures: &mut Failures,
    alloc: Global,
    section: &'de [u8],
) {
    let large = Hoard::of_large_blocks(alloc);
    let small = Hoard::of_all_left(alloc);
    let met = outcome(decode::<T>(alloc, section));
    drop(small);
    drop(large);
    failures.expect(&section, met == Outcome::Value);
}

/// A text is read as no record: where every allocation fails there is none for what is reported of it, and then
/// the text is rejected.
pub fn expect_no_record<'de, T: Decode<'de>>(failures: &mut Failures, alloc: Global) {
    expect_turns::<T>(failures, alloc, b"\x41x", Outcome::Error);
}

#[test]
fn records_without_a_list(rt: HostRuntime) -> Result<(), Failures> {
    let alloc = rt.alloc();
    let (mut failures, section) = (Failures::new(alloc), with_unknown(alloc, &TOP_COUNTRY));
    expect_none::<Country<'_>>(&mut failures, alloc, section.as_slice());
    expect_no_record::<Country<'_>>(&mut failures, alloc);
    // An error that names a field takes memory for its text.
    let twice = b"\xE2\x46domain\x41x\x46domain\x41y";
    expect_turns::<Domain<'_>>(&mut failures, alloc, twice, Outcome::Error);
    failures.verdict()
}

impl Reads {
    // What a row's section and its clone are where memory runs out, and what the clone says.
    fn expect_list<'de, T: Decode<'de> + Clone + Parts>(&'de mut self, row: &Row<'_>) {
        self.room = with_unknown(self.alloc, row);
        let (failures, alloc, section) = (&mut self.failures, self.alloc, self.room.as_slice());
        expect_turns::<T>(failures, alloc, section, Outcome::Value);
        let (rejected, then) = read_and_cloned_in_turn::<T>(alloc, section);
        failures.expect(
            &("a clone", section, rejected, then),
            rejected > 0 && then == Outcome::Value,
        );
        failures.expect_text(&section, cloned_text::<T>(alloc, section), row.shown);
    }

    // What comes of a field that is a text, and of a record without a list: where no list stands, none is made.
    fn expect_without<'de, T: Decode<'de>>(&mut self) {
        let (failures, alloc) = (&mut self.failures, self.alloc);
        expect_turns::<T>(failures, alloc, b"\xE1\x44city\x41x", Outcome::Error);
        expect_none::<T>(failures, alloc, b"\xE1\x44city\xE0");
    }
}

#[test]
fn lists_fail_in_turn(rt: HostRuntime) -> Result<(), Failures> {
    let mut reads = Reads::new(rt.alloc());
    reads.expect_list::<City<'_>>(&TOP_CITY);
    reads.expect_list::<Enterprise<'_>>(&TOP_ENTERPRISE);
    reads.expect_without::<City<'_>>();
    reads.expect_without::<Enterprise<'_>>();
    reads.verdict()
}

// How often a clone fails for memory, with more of it each time, and what it meets then.
fn cloned_in_turn<T: Clone + Drop>(alloc: Global, record: &T) -> (u32, Outcome) {
    fail_in_turn(
        alloc,
        64,
        || outcome(record.clone().map_err(MaxMindDbError::from)),
    )
}

// The same of what a section is read as.
fn read_and_cloned_in_turn<'de, T: Decode<'de> + Clone>(
    alloc: Global,
    section: &'de [u8],
) -> (u32, Outcome) {
    match decode::<T>(alloc, section) {
        Ok(record) => cloned_in_turn(alloc, &record),
        Err(error) => (0, error_met(error)),
    }
}

// A field of each part of the clone of what a section is read as.
fn cloned_text<'de, T: Decode<'de> + Clone + Parts>(
    alloc: Global,
    section: &'de [u8],
) -> Result<String, AllocError> {
    match decode::<T>(alloc, section) {
        Ok(record) => text_of(alloc, record.clone()),
        Err(error) => reported(alloc, Err::<(), _>(error)),
    }
}

/// A field of each part of a record, where there was memory for it.
pub fn text_of<T: Parts + Drop>(
    alloc: Global,
    record: Result<T, AllocError>,
) -> Result<String, AllocError> {
    match record {
        Ok(record) => record.text(alloc),
        Err(error) => Err(error),
    }
}
