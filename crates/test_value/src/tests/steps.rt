//! The single steps of a decoder, by hand.
use crate::lone::Lone;
use mmdb_value::laws::{
    answer_is_whole_value, answer_is_within_limits, any_value_is_exact, how_containers_are_read,
    how_owned_bytes_are_read, how_scalars_are_read, how_small_numbers_are_read,
    list_is_what_stands, one_scalar_stands, one_tree_unfolds, one_value_stands,
    owned_bytes_equal_where_same, record_is_what_stands, same_offset_same_result,
    scalar_is_what_stands, scalars_equal_where_same, scalars_unfold, skipping_is_passing,
    small_number_is_what_stands, text_map_is_what_stands, value_is_what_stands, values_bounded,
    values_equal_where_same,
};
use mmdb_value::{DecodeResult, Decoder, Entries, Items, Kind, Value, empty_container};
use mmdb_vectors::answer::{OK, reported};
use mmdb_vectors::failures::Failures;
use std::alloc::Global;
use std::process::Abort;

/// A map of k to an array of the numbers 5 and 6.
const PAIR: &[u8] = b"\xE1\x41k\x02\x04\xA1\x05\xA1\x06";

// Whether the elements of an array of the numbers 5 and 6 are counted, and the first is read.
fn is_first_of_two(rt: &impl Abort, alloc: Global, d: &mut Decoder<'_>, items: &mut Items) -> bool {
    let are_two = d.remaining(items) == 2 && d.hint(items) == 2;
    let has_first = d.next_item(items);
    let first = d.read_u16(alloc).expect(rt, "the first number");
    are_two && has_first && first == 5 && d.remaining(items) == 1
}

// Whether the key of the map is read, the type of its value, and what the array holds.
fn is_pair(rt: &impl Abort, alloc: Global, d: &mut Decoder<'_>, entries: &mut Entries) -> bool {
    let key = d.next_raw_key(alloc, entries).expect(rt, "a key");
    let kind = d.try_kind();
    let mut items = d.begin_array_of(alloc, 2).expect(rt, "an array of two");
    let is_right = is_first_of_two(rt, alloc, d, &mut items);
    items.give_up(d);
    is_right && key == Some(b"k".as_slice()) && kind == Some(Kind::Array)
}

// Whether the map is entered, its key and array are read as they stand, and what is left is skipped.
fn is_stepped_through(rt: &impl Abort, alloc: Global, d: &mut Decoder<'_>) -> bool {
    let kind = d.peek_kind(alloc).expect(rt, "a kind");
    let is_first = d.offset() == 0;
    let mut entries = d.begin_map(alloc).expect(rt, "a map");
    let is_right = is_pair(rt, alloc, d, &mut entries);
    entries.give_up(d);
    let behind_first = d.offset();
    d.skip_value(alloc).expect(rt, "a number that is skipped");
    is_right && kind == Kind::Map && is_first && behind_first == 7 && d.offset() == 9
}

#[test]
fn steps_of_a_decoder(rt: HostRuntime) {
    let mut d = Decoder::new(PAIR, 0);
    let is_right = is_stepped_through(&rt, rt.alloc(), &mut d);
    values_bounded(&d);
    let is_end = Decoder::new(PAIR, PAIR.len()).try_kind().is_none();
    assert!(rt; is_right && is_end);
}

// Enters an array of so many elements, and gives it up.
fn enter_array(alloc: Global, section: &[u8], place: usize, len: usize) -> DecodeResult<()> {
    let mut d = Decoder::new(section, place);
    let items = d.begin_array_of(alloc, len)?;
    items.give_up(&mut d);
    Ok(())
}

/// A section, a place, a length, and what is reported where an array of that length is asked for there.
#[rattlefmt::skip]
const ENTERED: &[(&[u8], usize, usize, &str)] = &[
    (PAIR, 3, 2, OK),
    (PAIR, 3, 3, "decoding error at offset 5: expected tuple of length 3, got array of length 2"),
    (b"\x02\x04\xA0\xA0", 0, 3, "decoding error at offset 2: expected tuple of length 3, got array of length 2"),
    (PAIR, 0, 1, "decoding error at offset 0: expected array, got type 7"),
];

/// Values that are skipped, and what is reported. The size of a pointer is the number of its own bytes after
/// the control byte.
#[rattlefmt::skip]
const SKIPPED: &[(&[u8], &str)] = &[
    (b"\x20\xFF", OK),
    (b"\x20", "invalid database at offset 0: pointer of size 1"),
    (b"\x27", "invalid database at offset 0: pointer of size 1"),
    (b"\x28\x00", "invalid database at offset 0: pointer of size 2"),
    (b"\x30\x00\x00", "invalid database at offset 0: pointer of size 3"),
    (b"\x37", "invalid database at offset 0: pointer of size 3"),
    (b"\x38\x00\x00\x00", "invalid database at offset 0: pointer of size 4"),
    (b"\x3F", "invalid database at offset 0: pointer of size 4"),
    // In a container it is the place of the value that is passed.
    (b"\x02\x04\xA1\x07\x28", "invalid database at offset 4: pointer of size 2"),
    (b"\x02\x04\xA1\x07\x00\x05", "invalid database at offset 4: unknown data type: 12"),
];

#[test]
fn arrays_entered_and_values_skipped(rt: HostRuntime) -> Result<(), Failures> {
    let (alloc, mut failures) = (rt.alloc(), Failures::new(rt.alloc()));
    for (section, place, len, text) in ENTERED {
        let answer = reported(alloc, enter_array(alloc, section, *place, *len));
        failures.expect_text(&[*place, *len], answer, text);
    }
    for (section, text) in SKIPPED {
        let answer = reported(alloc, Decoder::new(section, 0).skip_value(alloc));
        failures.expect_text(section, answer, text);
    }
    failures.verdict()
}

#[rattlefmt::skip]
const HEADS: &[(&[u8], Option<bool>)] = &[
    (b"\xE0", Some(true)),
    (b"\x00\x04", Some(true)),
    (b"\x20\x02\xE0", Some(true)),
    (b"\xE1", Some(false)),
    (b"\x40", Some(false)),
    (b"\x00\x06", Some(false)),
    (b"", None),
    (b"\x00", None),
    (b"\x5D", None),
    (b"\x20", None),
    (b"\x20\x02\x20\x00", None),
];

#[test]
fn empty_containers(rt: HostRuntime) -> Result<(), Failures> {
    let mut failures = Failures::new(rt.alloc());
    for (section, empty) in HEADS {
        failures.expect(section, empty_container(section, 0).ok() == *empty);
    }
    failures.verdict()
}

#[test]
fn laws_are_called() {
    skipping_is_passing();
    answer_is_within_limits::<Value<'_>>();
    same_offset_same_result::<Value<'_>>();
    how_scalars_are_read();
    how_small_numbers_are_read();
    how_owned_bytes_are_read();
    how_containers_are_read::<u16>();
    one_tree_unfolds();
    one_scalar_stands();
    scalar_is_what_stands();
    scalars_unfold::<u16>();
    small_number_is_what_stands();
    list_is_what_stands::<u16>();
    text_map_is_what_stands::<u16>();
    record_is_what_stands::<Lone>();
    scalars_equal_where_same();
    owned_bytes_equal_where_same();
    values_equal_where_same();
    value_is_what_stands();
    answer_is_whole_value();
    one_value_stands();
    any_value_is_exact();
}
