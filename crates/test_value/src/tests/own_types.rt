//! Values of types of one's own.
use crate::span::first_end;
use crate::system_number::SystemNumber;
use mmdb_value::fuzzing;
use mmdb_vectors::answer::shown;
use mmdb_vectors::failures::Failures;

/// Sections, and the number of a system that stands at the beginning of each.
const SYSTEM_NUMBERS: &[(&[u8], &str)] = &[
    (b"\xC2\xFB\xF0", "SystemNumber(64496)"),
    (b"\xC0", "SystemNumber(0)"),
    (
        b"\xA1\x07",
        "decoding error at offset 0: expected u32, got type 5",
    ),
];

#[test]
fn system_numbers(rt: HostRuntime) -> Result<(), Failures> {
    let mut failures = Failures::new(rt.alloc());
    for (section, text) in SYSTEM_NUMBERS {
        let read = shown(
            rt.alloc(),
            fuzzing::decode::<SystemNumber>(rt.alloc(), section),
        );
        failures.expect_text(section, read, text);
    }
    failures.verdict()
}

/// Sections, and where the value at the beginning of each ends.
const ENDS: &[(&[u8], &str)] = &[
    (b"\xC2\xFB\xF0\xC0", "3"),
    (b"\xE1\x41k\xA1\x07\xC0", "5"),
    (b"\x20\x02", "2"),
    (b"\x42k", "invalid database at offset 0: string of size 2"),
];

#[test]
fn spans(rt: HostRuntime) -> Result<(), Failures> {
    let mut failures = Failures::new(rt.alloc());
    for (section, text) in ENDS {
        let read = shown(rt.alloc(), first_end(rt.alloc(), section));
        failures.expect_text(section, read, text);
    }
    failures.verdict()
}
