//! A filter that ends before a row, and goes on by another call.
ghost use Rattle.std.specs.Prelude.{⊤};

use super::streams::{Lengths, assert_holds};
use mmdb_filter::{Counts, Filtered, Outcome, Progress, Rows, filter_rows};
use std::alloc::Global;
use std::io;

/// Ends once, where it is asked first.
#[derive(Drop)]
struct Once(bool);

impl Progress for Once {
    ghost ends = { λ _. ⊤ };

    fn passed(&mut self, _counts: Counts) -> bool {
        let goes_on = self.0;
        self.0 = true;
        goes_on
    }

    fn has_read(&mut self) -> bool {
        true
    }

    fn stays_quoted(&mut self, _rows: u64, _is_long: bool) {}

    fn is_named(&mut self, _rows: u64, _outcome: Outcome) {}
}

// The filter over what is left of some lines.
fn filtered(
    alloc: Global,
    before: Counts,
    goes_on: bool,
    input: &mut &[u8],
    out: &mut Vec<u8>,
) -> io::Result<Filtered> {
    let rows = Rows::Lines { delimiter: b'\t' };
    let mut once = Once(goes_on);
    filter_rows(
        alloc,
        rows,
        &Lengths,
        &mut (),
        before,
        input,
        out,
        &mut once,
    )
}

#[test]
fn rows_in_two_calls(rt: HostRuntime) {
    let alloc = rt.alloc();
    let mut lines = Vec::new(alloc);
    lines.resize(2_500, b'\n').expect(&rt, "lines");
    let mut out: Vec<u8> = Vec::new(alloc);
    let mut input = lines.as_slice();
    let first = filtered(alloc, Counts::new(), false, &mut input, &mut out).expect(&rt, "rows");
    assert_holds(&rt, first.counts.found == 1_000, "a thousand rows");
    assert_holds(
        &rt,
        !first.is_end && input.len() == 1_500,
        "rows that are left",
    );
    assert_holds(&rt, out.len() == 7_000, "what is written of a thousand");
    let second = filtered(alloc, first.counts, true, &mut input, &mut out).expect(&rt, "rows");
    assert_holds(&rt, second.counts.found == 2_500, "all rows");
    assert_holds(&rt, second.is_end && input.is_empty(), "the end");
    assert_holds(&rt, out.len() == 17_500, "what is written of all");
}

#[test]
fn rows_that_are_too_many_to_count(rt: HostRuntime) {
    let alloc = rt.alloc();
    let mut before = Counts::new();
    before.found = u64::MAX;
    before.absent = 1;
    let (mut input, mut out) = (b"a\n".as_slice(), Vec::new(alloc));
    let filtered = filtered(alloc, before, true, &mut input, &mut out);
    assert_holds(&rt, filtered.is_err() && out.is_empty(), "too many");
}
