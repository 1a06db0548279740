//! What `diff` writes of whole records, beside values that are read whole, over sections that are made.
use super::record_texts::{bytes_of, deep, made_section, text_by_value};
use mmdb_vectors::builder::{Field, changed_file, nodes_24};
use mmdb_vectors::file::TestFiles;
use mmdb_vectors::section::section_of;
use std::alloc::{AllocError, Global};
use std::process::Abort;
use test_runs::numbers::Numbers;
use test_runs::program::run_over;

/// How many networks a file has, each half as large as the one before.
const NETWORKS: usize = 24;

// A file with a section, in which each network in turn has the record at an offset, and the addresses behind them have none.
fn file_with(alloc: Global, section: &[u8], offsets: &[usize]) -> Result<Vec<u8>, AllocError> {
    let count = (offsets.len() & 0xff) as u32;
    let mut nodes = Vec::new(alloc);
    for (place, offset) in offsets.iter().enumerate() {
        let left = (*offset & 0xff_ffff) as u32;
        let right = (place & 0xff) as u32;
        nodes.push((left.saturating_add(count).saturating_add(16), right + 1))?;
    }
    let tree = nodes_24(alloc, nodes.as_slice())?;
    let changes = [
        (Field::NodeCount, &[0xC1, count.min(255) as u8] as &[u8]),
        (Field::IpVersion, b"\xA1\x04"),
    ];
    changed_file(alloc, tree.as_slice(), section, &changes)
}

// Adds the line of the network at a place, which has other values in two files.
fn put_line(
    alloc: Global,
    place: usize,
    old: &[u8],
    new: &[u8],
    out: &mut Vec<u8>,
) -> Result<(), AllocError> {
    let behind = u32::MAX.checked_shr(place.min(31) as u32).unwrap_or(0);
    let [a, b, c, d] = (!behind).to_be_bytes();
    let prefix = place.saturating_add(1);
    let text: String = format!(in alloc; "{{\"network\":\"{a}.{b}.{c}.{d}/{prefix}\",\"old\":")?;
    for part in [text.as_bytes(), old, b",\"new\":", new, b"}\n"] {
        out.extend_from_slice(part)?;
    }
    Ok(())
}

/// The sections of two files, and where the record of each network stands in both.
#[derive(Clone, Copy)]
struct Sections<'a> {
    old: &'a [u8],
    new: &'a [u8],
    old_offsets: &'a [usize],
    new_offsets: &'a [usize],
}

// Adds the line of the network at a place, if it has other values in two files. None where one can't be read.
fn put_difference(
    alloc: Global,
    sections: Sections<'_>,
    place: usize,
    out: &mut Vec<u8>,
) -> Option<()> {
    let old = text_by_value(alloc, sections.old, *sections.old_offsets.get(place)?)?;
    let new = text_by_value(alloc, sections.new, *sections.new_offsets.get(place)?)?;
    if old != new {
        put_line(alloc, place, old.as_slice(), new.as_slice(), out).ok()?;
    }
    Some(())
}

// What has to be written of two files, if all of their records can be read.
fn wanted_of(alloc: Global, sections: Sections<'_>) -> Option<Vec<u8>> {
    let mut out = Vec::new(alloc);
    for place in 0..sections.old_offsets.len() {
        put_difference(alloc, sections, place, &mut out)?;
    }
    Some(out)
}

// Asserts that `diff` writes what it has to of two files, whose records can be read; how many lines.
fn assert_differences(rt: &impl Abort, alloc: Global, sections: Sections<'_>, name: &str) -> usize {
    let wanted = wanted_of(alloc, sections).expect(rt, "values");
    let old = file_with(alloc, sections.old, sections.old_offsets).expect(rt, "a file");
    let new = file_with(alloc, sections.new, sections.new_offsets).expect(rt, "a file");
    let files = TestFiles {
        bytes: old.as_slice(),
        newer: new.as_slice(),
        step: 1 << 16,
        fails_at: 1000,
        interrupts: 0,
    };
    let texts = ["diff", "here.mmdb", "new.mmdb"];
    let run = run_over(alloc, &files, &texts, "", false);
    let is_wanted = run.status == 0 && run.written == wanted;
    assert!(rt; is_wanted, "{name}: {} {:?}", run.status, run.err());
    wanted.iter().filter(|byte| **byte == b'\n').count()
}

// Offsets at which values can be read, any of them in turn.
fn readable_offsets(
    alloc: Global,
    section: &[u8],
    numbers: &mut Numbers,
) -> Result<Vec<usize>, AllocError> {
    let mut offsets = Vec::new(alloc);
    for _ in 0..section.len().saturating_mul(100) {
        let offset = numbers.below(section.len());
        if offsets.len() < NETWORKS && text_by_value(alloc, section, offset).is_some() {
            offsets.push(offset)?;
        }
    }
    Ok(offsets)
}

// Asserts of made sections, of which the second is another one or the same with a byte changed; how many lines.
fn assert_made(rt: &impl Abort, alloc: Global, seed: u64) -> usize {
    let mut numbers = Numbers { state: seed };
    let old = made_section(alloc, seed, 80).expect(rt, "a section");
    let mut new = made_section(alloc, seed.wrapping_add(seed % 2 * 1000), 80).expect(
        rt,
        "a section",
    );
    let changed = numbers.below(new.len());
    if let Some(byte) = new.get_mut(changed) {
        *byte ^= 1;
    }
    let old_offsets = readable_offsets(alloc, old.as_slice(), &mut numbers).expect(rt, "offsets");
    let mut again = Numbers { state: seed };
    let _ = again.below(new.len());
    let new_offsets = readable_offsets(alloc, new.as_slice(), &mut again).expect(rt, "offsets");
    let count = old_offsets.len().min(new_offsets.len());
    let sections = Sections {
        old: old.as_slice(),
        new: new.as_slice(),
        old_offsets: old_offsets.as_slice().get(..count).unwrap_or(&[]),
        new_offsets: new_offsets.as_slice().get(..count).unwrap_or(&[]),
    };
    assert_differences(rt, alloc, sections, "made sections")
}

#[test]
fn whole_records_as_values_are(rt: HostRuntime) {
    let mut lines = 0usize;
    for seed in 0..24u64 {
        lines = lines.saturating_add(assert_made(&rt, rt.alloc(), seed));
    }
    assert!(rt; lines > 100 && lines < 24 * NETWORKS, "{lines} lines");
}

// Asserts of two sections of one value each.
fn assert_values(rt: &impl Abort, alloc: Global, old: &[u8], new: &[u8], name: &str) {
    let sections = Sections {
        old,
        new,
        old_offsets: &[0],
        new_offsets: &[0],
    };
    let lines = assert_differences(rt, alloc, sections, name);
    assert!(rt; lines == usize::from(old != new), "{name}: {lines} lines");
}

#[test]
fn records_that_are_long(rt: HostRuntime) {
    let alloc = rt.alloc();
    // with quotes on both sides of 32,768 bytes, and of the 4,096 bytes that are kept
    for len in [4094, 4095, 32_766, 32_767] {
        let old = bytes_of(alloc, 0x5E, b"x", len);
        for other in [len, 300] {
            let new = bytes_of(alloc, 0x5E, b"y", other);
            assert_values(
                &rt,
                alloc,
                old.as_slice(),
                new.as_slice(),
                "long, then another",
            );
            assert_values(
                &rt,
                alloc,
                new.as_slice(),
                old.as_slice(),
                "another, then long",
            );
        }
    }
}

#[test]
fn records_that_are_deep(rt: HostRuntime) {
    let alloc = rt.alloc();
    let flat = section_of(alloc, &[(b"\xA1\x07", 1)]);
    for depth in [1, 31, 32, 33, 40] {
        let old = deep(alloc, depth);
        assert_values(
            &rt,
            alloc,
            old.as_slice(),
            flat.as_slice(),
            "deep, then flat",
        );
        assert_values(
            &rt,
            alloc,
            flat.as_slice(),
            old.as_slice(),
            "flat, then deep",
        );
        let deeper = deep(alloc, depth + 1);
        assert_values(
            &rt,
            alloc,
            old.as_slice(),
            deeper.as_slice(),
            "deep, then deeper",
        );
    }
}
