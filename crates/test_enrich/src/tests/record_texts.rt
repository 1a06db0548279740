//! The texts of records, beside those of values that are read whole, over sections that are made.
ghost use Rattle.std.specs.Prelude.{◌<◌};

use super::texts::ROWS;
use mmdb_decode::decoder::Decoder;
use mmdb_json::{RecordTexts, compact};
use mmdb_record::decode::Decode;
use mmdb_value::Value;
use mmdb_vectors::hoard::Hoard;
use mmdb_vectors::section::section_of;
use std::alloc::{AllocError, Global};
use std::process::Abort;
use test_runs::numbers::Numbers;

/// How many bytes are kept of the texts of a test.
const MOST_KEPT: usize = 1 << 20;

/// The most values of a record that is read, and the most bytes of its texts, keys and byte strings.
const MOST_VALUES: usize = 65_536;

const MOST_BYTES: usize = 2_097_152;

/// The text of what stands at an offset, as a value is read whole and then laid out. None where it can't be read.
pub(crate) fn text_by_value(alloc: Global, section: &[u8], offset: usize) -> Option<Vec<u8>> {
    let mut decoder = Decoder::new(section, offset);
    match Value::decode(alloc, &mut decoder) {
        Ok(value) => {
            let text = compact(alloc, &value).ok();
            drop(value);
            text
        }
        Err(_) => None,
    }
}

/// What became of offsets.
#[derive(Drop)]
struct Tally {
    /// Of so many a text was laid out.
    laid_out: usize,
    /// So many were left to others.
    left: usize,
    /// So many came out wrong.
    wrong: usize,
}

// Whether a text that was put behind others is the one that is wanted, and nothing stands behind it.
fn is_behind(out: &Vec<u8>, before: usize, wanted: &Option<Vec<u8>>) -> bool {
    match (out.get(before..), wanted) {
        (Some(text), Some(wanted)) => text == wanted.as_slice(),
        _ => false,
    }
}

impl Tally {
    // Lays out what stands at an offset, behind what stands in `out`.
    fn add(
        &mut self,
        alloc: Global,
        section: &[u8],
        offset: usize,
        texts: &mut RecordTexts<'_>,
        out: &mut Vec<u8>,
    ) {
        let wanted = text_by_value(alloc, section, offset);
        let before = out.len();
        if texts.put(offset, out) {
            self.laid_out = self.laid_out.saturating_add(1);
            if !is_behind(out, before, &wanted) {
                self.wrong = self.wrong.saturating_add(1);
            }
        } else {
            self.left = self.left.saturating_add(1);
            if out.len() != before {
                self.wrong = self.wrong.saturating_add(1);
            }
        }
        drop(wanted);
        out.truncate(3);
    }
}

// Lays out what stands at each offset of a section, twice over, with the same texts kept.
fn tally_of(alloc: Global, section: &[u8]) -> Result<Tally, AllocError> {
    let mut tally = Tally {
        laid_out: 0,
        left: 0,
        wrong: 0,
    };
    let mut texts = RecordTexts::new(alloc, section, MOST_KEPT);
    let mut out = b"abc".to_vec(alloc)?;
    for offset in 0..section.len().saturating_mul(2) {
        let offset = offset % section.len().max(1);
        tally.add(alloc, section, offset, &mut texts, &mut out);
    }
    Ok(tally)
}

/// Values and headers that a section is made of: texts (with escapes, of other alphabets, one that is not UTF-8), numbers,
/// truth values, floats that are none, headers of maps and arrays, and pointers to offsets below 64.
#[rattlefmt::skip]
const PIECES: &[&[u8]] = &[
    b"\x41a", b"\x42bc", b"\x40", b"\x43\"\\\n", b"\x43\xC3\xA9x", b"\x46\xE5\x8D\xA1\xE9\x87\x8C", b"\x44\xF0\x9F\x98\x80", b"\x41\xFF", b"\x41\x1F",
    b"\xA0", b"\xA2\x12\x34", b"\xC1\x07", b"\xC4\xFF\xFF\xFF\xFF", b"\x04\x01\xFF\xFF\xFF\xFE", b"\x08\x02\xFF\xFF\xFF\xFF\xFF\xFF\xFF\xFF",
    b"\x02\x03\x01\x00", b"\x01\x07", b"\x00\x07", b"\x68\x40\x45\x0F\xCD\x67\xFD\x3F\x5B", b"\x68\x7F\xF0\x00\x00\x00\x00\x00\x00",
    b"\x04\x08\x3F\x8C\xCC\xCD", b"\x04\x08\x7F\xC0\x00\x01", b"\x83\x00\xFF\x10", b"\xE0", b"\xE1", b"\xE2", b"\xE3", b"\xE1\x41k", b"\xE2\x41k\xA0\x41k",
    b"\x00\x04", b"\x01\x04", b"\x02\x04", b"\x03\x04", b"\x20\x00", b"\x20\x03", b"\x20\x07", b"\x20\x10", b"\x20\x21", b"\x20\x33", b"\x20\x3F",
    b"\x5D\x00abcdefghijklmnopqrstuvwxyz012", b"\xE1\x20\x05", b"\xE2\x20\x09\x20\x11", b"\x07\x09", b"\x1F\x00", b"\x81",
];

/// A section of some of the pieces, of about so many bytes.
pub(crate) fn made_section(alloc: Global, seed: u64, len: usize) -> Result<Vec<u8>, AllocError> {
    let mut numbers = Numbers { state: seed };
    let mut section = Vec::new(alloc);
    for _ in 0..len {
        if section.len() >= len {
            break;
        }
        if let Some(piece) = PIECES.get(numbers.below(PIECES.len())) {
            section.extend_from_slice(piece)?;
        }
    }
    Ok(section)
}

#[test]
fn laid_out_as_values_are(rt: HostRuntime) {
    let alloc = rt.alloc();
    let (mut laid_out, mut left) = (0usize, 0usize);
    for seed in 0..400u64 {
        let section = made_section(alloc, seed, 80).expect(&rt, "a section");
        let tally = tally_of(alloc, section.as_slice()).expect(&rt, "texts");
        assert!(rt; tally.wrong == 0, "section {seed}");
        laid_out = laid_out.saturating_add(tally.laid_out);
        left = left.saturating_add(tally.left);
    }
    assert!(rt;
        laid_out > 20_000 && left > 1000,
        "{laid_out} laid out, {left} left"
    );
}

// Asserts that what stands at an offset of a section has such a text, laid out or left to others, and the same once more.
fn assert_put(rt: &impl Abort, alloc: Global, section: &[u8], offset: usize, is_laid_out: bool) {
    let mut texts = RecordTexts::new(alloc, section, MOST_KEPT);
    let mut out = Vec::new(alloc);
    let wanted = text_by_value(alloc, section, offset);
    for turn in 0..2 {
        out.clear();
        let is_put = texts.put(offset, &mut out);
        let len = section.len();
        assert!(rt;
            is_put == is_laid_out,
            "turn {turn} at {offset} of {len}: {is_put}"
        );
        let is_right = if is_put {
            is_behind(&out, 0, &wanted)
        } else {
            out.is_empty()
        };
        assert!(rt; is_right, "turn {turn} at {offset} of {len}");
    }
}

#[test]
fn worked_texts_are_laid_out(rt: HostRuntime) {
    let alloc = rt.alloc();
    for (data, wanted) in ROWS {
        let mut texts = RecordTexts::new(alloc, data, MOST_KEPT);
        let mut out = Vec::new(alloc);
        assert!(rt; texts.put(0, &mut out), "{wanted}");
        assert!(rt; out.as_slice() == wanted.as_bytes(), "{wanted}");
    }
}

/// So many bytes behind the header of a text (0x5E) or byte string (0x9E): of 285 to 65,820.
pub(crate) fn bytes_of(alloc: Global, control: u8, byte: &[u8], len: usize) -> Vec<u8> {
    let size = (len.saturating_sub(285) as u64 & 0xffff) as u16;
    let [high, low] = size.to_be_bytes();
    section_of(alloc, &[(&[control, high, low], 1), (byte, len)])
}

/// Control bytes and bytes of texts and byte strings: plain, with escapes at their ends, of other alphabets.
const STRINGS: &[(u8, &[u8])] = &[
    (0x5E, b"x"),
    (0x5E, b"\""),
    (0x5E, b"\x01"),
    (0x5E, b"a\\b"),
    (0x5E, b"\xD0\x9D"),
    (0x5E, b"\xE6\xBC\xA2"),
    (0x5E, b"\xF0\x9F\x98\x80"),
    (0x9E, b"x"),
];

/// Lengths of strings on both sides of those by which they are laid out otherwise: those of up to 63 bytes are escaped by runs
/// of bytes that are not, 16 at a time, 64 bytes or more are tested for UTF-8 together, texts of 512 to 2,048 bytes are kept,
/// up to 1,024 are written apart behind as many, and longer ones last.
const LENGTHS: &[usize] = &[
    1, 15, 16, 17, 31, 32, 33, 62, 63, 64, 65, 66, 127, 128, 129, 509, 510, 511, 512, 513, 1000,
    1020, 1021, 1022, 1023, 1024, 1025, 2044, 2045, 2046, 2047, 2048, 4097,
];

// A text (2) or byte string (4) of about so many bytes, with its header.
fn string_of(alloc: Global, control: u8, unit: &[u8], len: usize) -> Vec<u8> {
    let count = len / unit.len().max(1);
    let len = count.saturating_mul(unit.len());
    let kind = control & 0xE0;
    let header: [u8; 3] = if len < 29 {
        [kind | len as u8, 0, 0]
    } else if len < 285 {
        [kind | 29, (len - 29) as u8, 0]
    } else {
        let [high, low] = (((len - 285) & 0xffff) as u16).to_be_bytes();
        [kind | 30, high, low]
    };
    let used = if len < 29 {
        1
    } else if len < 285 {
        2
    } else {
        3
    };
    section_of(alloc, &[(&header[..used], 1), (unit, count)])
}

#[test]
fn strings_of_all_lengths(rt: HostRuntime) {
    let alloc = rt.alloc();
    for (control, unit) in STRINGS {
        for len in LENGTHS {
            let value = string_of(alloc, *control, unit, *len);
            // alone; twice in an array; behind two pointers; as a key behind two pointers; with a number behind it
            assert_put(&rt, alloc, value.as_slice(), 0, true);
            let twice = section_of(alloc, &[(b"\x02\x04", 1), (value.as_slice(), 2)]);
            assert_put(&rt, alloc, twice.as_slice(), 0, true);
            let shared = section_of(
                alloc,
                &[(b"\x02\x04\x20\x06\x20\x06", 1), (value.as_slice(), 1)],
            );
            assert_put(&rt, alloc, shared.as_slice(), 0, true);
            let keys = section_of(
                alloc,
                &[
                    (b"\x02\x04\xE1\x20\x0A\xA0\xE1\x20\x0A\xA0", 1),
                    (value.as_slice(), 1),
                ],
            );
            assert_put(&rt, alloc, keys.as_slice(), 0, *control == 0x5E);
            // and what can't be read behind it
            let faulty = section_of(
                alloc,
                &[(b"\x02\x04", 1), (value.as_slice(), 1), (b"\x41\xFF", 1)],
            );
            assert_put(&rt, alloc, faulty.as_slice(), 0, false);
        }
    }
}

#[test]
fn each_byte_of_ascii(rt: HostRuntime) {
    let alloc = rt.alloc();
    for byte in 0..128u8 {
        // alone, and in a text that is escaped many bytes at a time
        assert_put(&rt, alloc, &[0x41, byte], 0, true);
        let long = string_of(alloc, 0x5E, &[b'a', byte, b'z'], 90);
        assert_put(&rt, alloc, long.as_slice(), 0, true);
    }
}

#[test]
fn long_texts(rt: HostRuntime) {
    let alloc = rt.alloc();
    // more than 512 bytes with escapes are put in last
    for len in [4000, 32_766, 32_767, 32_768, 65_535, 65_536, 65_537] {
        for (control, unit) in [(0x5Eu8, b"x"), (0x5E, b"\""), (0x9E, b"x")] {
            let value = bytes_of(alloc, control, unit, len);
            assert_put(&rt, alloc, value.as_slice(), 0, true);
        }
    }
    // 32 pointers to a text: as many bytes as a record may have, and one more for each
    for (len, is_laid_out) in [(MOST_BYTES / 32, true), (MOST_BYTES / 32 + 1, false)] {
        let text = bytes_of(alloc, 0x5E, b"x", len);
        let section = section_of(
            alloc,
            &[
                (b"\x1D\x04\x03", 1),
                (b"\x20\x43", 32),
                (text.as_slice(), 1),
            ],
        );
        assert_put(&rt, alloc, section.as_slice(), 0, is_laid_out);
    }
}

// The header of an array of so many items: of 285 to 65,820.
fn array_of(count: usize) -> [u8; 4] {
    let size = (count.saturating_sub(285) as u64 & 0xffff) as u16;
    let [high, low] = size.to_be_bytes();
    [0x1E, 4, high, low]
}

/// What stands before an array, how many zeros it has, what stands behind it, and whether all that is as many values as are
/// read.
const MANY: &[(&[u8], usize, &[u8], bool)] = &[
    (b"", MOST_VALUES - 1, b"", true),
    (b"", MOST_VALUES, b"", false),
    // the first and the last of three items
    (b"\x03\x04", MOST_VALUES - 4, b"\xA0\xA0", true),
    (b"\x03\x04", MOST_VALUES - 3, b"\xA0\xA0", false),
    (b"\x03\x04\xA0\xA0", MOST_VALUES - 4, b"", true),
    (b"\x03\x04\xA0\xA0", MOST_VALUES - 3, b"", false),
    // the first and the last of two members
    (b"\xE2\x41k", MOST_VALUES - 5, b"\x41m\xA0", true),
    (b"\xE2\x41k", MOST_VALUES - 4, b"\x41m\xA0", false),
    (b"\xE2\x41k\xA0\x41m", MOST_VALUES - 5, b"", true),
    (b"\xE2\x41k\xA0\x41m", MOST_VALUES - 4, b"", false),
    // behind a pointer, as the first item
    (b"\x02\x04\x20\x05\xA0", MOST_VALUES - 3, b"", true),
    (b"\x02\x04\x20\x05\xA0", MOST_VALUES - 2, b"", false),
];

#[test]
fn records_of_many_parts(rt: HostRuntime) {
    let alloc = rt.alloc();
    for (before, count, behind, is_laid_out) in MANY {
        let header = array_of(*count);
        let section = section_of(
            alloc,
            &[(before, 1), (&header, 1), (b"\xA0", *count), (behind, 1)],
        );
        assert_put(&rt, alloc, section.as_slice(), 0, *is_laid_out);
    }
    // an array of 700 zeros that is kept, behind 93 and 94 pointers
    for (count, is_laid_out) in [(93, true), (94, false)] {
        let header = array_of(700);
        let before = [0x1D, 4, count as u8 - 29];
        let target = (3 + 2 * count) as u8;
        let section = section_of(
            alloc,
            &[
                (&before, 1),
                (&[0x20, target], count),
                (&header, 1),
                (b"\xA0", 700),
            ],
        );
        assert_put(&rt, alloc, section.as_slice(), 0, is_laid_out);
    }
}

/// What is noted in turn: another record that can't be read (u), the last such once more (U), a record that can (r). Then how
/// many records that come next are suspected.
const NOTED: &[(&str, u8)] = &[
    ("", 0),
    ("r", 0),
    ("u", 4),
    ("ur", 3),
    ("urrrr", 0),
    ("urrrrr", 0),
    ("uU", 4),
    ("uUrU", 3),
    ("uu", 4),
    ("urru", 4),
    ("urrrru", 8),
    ("urrrruu", 8),
    ("urrrrurrrrrrrru", 16),
    ("urrrrurrrrrrrrurrrrrrrrrrrrrrrru", 32),
];

// How many records that come next are suspected.
fn suspected_of(alloc: Global, section: &[u8], noted: &str) -> u8 {
    let mut texts = RecordTexts::new(alloc, section, MOST_KEPT);
    let mut last = 0usize;
    for letter in noted.bytes() {
        match letter {
            b'u' => {
                last = last.saturating_add(1);
                texts.note_unreadable(last);
            }
            b'U' => texts.note_unreadable(last),
            _ => texts.note_readable(),
        }
    }
    let mut count = 0u8;
    for _ in 0..u8::MAX {
        // nothing was noted of the first offset
        if !texts.is_suspected(0) {
            break;
        }
        texts.note_readable();
        count = count.saturating_add(1);
    }
    count
}

#[test]
fn records_are_suspected(rt: HostRuntime) {
    let alloc = rt.alloc();
    for (noted, wanted) in NOTED {
        let count = suspected_of(alloc, b"\xA0", noted);
        assert!(rt; count == *wanted, "{noted}: {count}");
    }
    // one that can't be read stays suspected; what can be read is laid out all the same
    let mut texts = RecordTexts::new(alloc, b"\x41\xFF\x42ab", MOST_KEPT);
    let mut out = Vec::new(alloc);
    assert!(rt; !texts.put(0, &mut out), "what can't be read");
    texts.note_unreadable(0);
    assert!(rt; texts.is_suspected(2), "the next one");
    assert!(rt; texts.put(2, &mut out), "the next one");
    assert!(rt; out.as_slice() == "\"ab\"".as_bytes(), "its text");
    for _ in 0..4 {
        texts.note_readable();
    }
    assert!(rt;
        texts.is_suspected(0) && !texts.is_suspected(2),
        "the same one"
    );
    texts.clear();
    assert!(rt; !texts.is_suspected(0), "once all is let go");
}

/// Arrays in one another, so many, around a number.
pub(crate) fn deep(alloc: Global, count: usize) -> Vec<u8> {
    section_of(alloc, &[(b"\x01\x04", count), (b"\xA0", 1)])
}

#[test]
fn deep_values(rt: HostRuntime) {
    let alloc = rt.alloc();
    for (count, is_laid_out) in [(32, true), (33, true), (512, true), (513, false)] {
        assert_put(&rt, alloc, deep(alloc, count).as_slice(), 0, is_laid_out);
    }
    // behind a pointer one level less is left
    for (count, is_laid_out) in [(8, true), (9, true), (511, true), (512, false)] {
        let inner = deep(alloc, count);
        let section = section_of(alloc, &[(b"\x20\x02", 1), (inner.as_slice(), 1)]);
        assert_put(&rt, alloc, section.as_slice(), 0, is_laid_out);
    }
    // an array of a pointer to such arrays, and one to an array of the same pointer: two levels less are left there, though
    // what they lead to was laid out and kept before
    for (count, is_laid_out) in [
        (6, true),
        (20, true),
        (508, true),
        (509, false),
        (510, false),
    ] {
        let inner = deep(alloc, count);
        let before = b"\x02\x04\x20\x0A\x20\x06\x01\x04\x20\x0A";
        let section = section_of(alloc, &[(before, 1), (inner.as_slice(), 1)]);
        assert_put(&rt, alloc, section.as_slice(), 0, is_laid_out);
    }
    // a pointer to itself, and two to each other
    assert_put(&rt, alloc, b"\x20\x00", 0, false);
    assert_put(&rt, alloc, b"\x20\x02\x20\x00", 0, false);
}

#[test]
fn offsets_of_one_place_differ(rt: HostRuntime) {
    let alloc = rt.alloc();
    // what stands at 16 and what stands at 7053 are kept in one place; each is met twice, as a value and as a name
    for before in [
        b"\x04\x04\x20\x10\x28\x13\x8D\x20\x10\x28\x13\x8D\0\0\0\0".as_slice(),
        b"\x02\x04\xE1\x20\x10\xA0\xE1\x28\x13\x8D\xA0\0\0\0\0\0".as_slice(),
    ] {
        let section = section_of(
            alloc,
            &[(before, 1), (b"\x42ab", 1), (b"\0", 7034), (b"\x42cd", 1)],
        );
        assert_put(&rt, alloc, section.as_slice(), 0, true);
    }
}

/// A map of three texts of 1,200 bytes, each behind a pointer; they stand from 16 on.
const LONG_MEMBERS: &[u8] = b"\xE3\x41a\x20\x10\x41b\x24\xC3\x41c\x28\x01\x76\0\0";

/// How many bytes of memory there are more in each turn, and how many turns.
const MEMORY_STEP: usize = 1024;

const MEMORY_STEPS: usize = 64;

// Lays out a record with so much memory, and once more with all of it. Whether it was laid out in little memory.
fn is_put_within(rt: &impl Abort, alloc: Global, section: &[u8], budget: usize) -> bool
    requires { budget < 1000000 }
{
    let mut texts = RecordTexts::new(alloc, section, MOST_KEPT);
    let wanted = text_by_value(alloc, section, 0);
    let mut out = b"abc".to_vec(alloc).expect(rt, "three bytes");
    let large = Hoard::of_large_blocks(alloc);
    let small = Hoard::of_all_but(alloc, budget);
    let is_put = texts.put(0, &mut out);
    drop(small);
    drop(large);
    let is_right = if is_put {
        is_behind(&out, 3, &wanted)
    } else {
        out.as_slice() == b"abc".as_slice()
    };
    assert!(rt; is_right, "with {budget} bytes");
    out.truncate(3);
    assert!(rt; texts.put(0, &mut out), "with memory, after {budget} bytes");
    assert!(rt;
        is_behind(&out, 3, &wanted),
        "with memory, after {budget} bytes"
    );
    is_put
}

#[test]
fn records_without_memory_are_left(rt: HostRuntime) {
    let alloc = rt.alloc();
    let text = bytes_of(alloc, 0x5E, b"x", 1200);
    let section = section_of(alloc, &[(LONG_MEMBERS, 1), (text.as_slice(), 3)]);
    let mut left = 0usize;
    for step in 0..MEMORY_STEPS {
        if !is_put_within(&rt, alloc, section.as_slice(), step * MEMORY_STEP) {
            left = left.saturating_add(1);
        }
    }
    assert!(rt; left > 0 && left < MEMORY_STEPS, "{left} left");
}
