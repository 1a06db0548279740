//! Lines, lists and reports where memory runs out.
use super::asserts::{OF_RANGE, assert_holds, assert_printed, opened};
use super::growths::{Call, Outcome, Row, assert_all_met, outcome_of};
use mmdb_reader::{IpNetwork, Reader, WithinOptions};
use mmdb_report::report_on;
use mmdb_tool::lookup_line;
use mmdb_vectors::base::{BASE_FILE, high};
use mmdb_vectors::hoard::Hoard;
use std::alloc::Global;

const LIST: &[Row] = &[("list_to", Call::List, Outcome::Answer, 128, 255)];

const LINE: &[Row] = &[("lookup_line", Call::Line, Outcome::Answer, 2, 255)];

const REPORT: &[Row] = &[("report_on", Call::Report, Outcome::Answer, 2, 511)];

#[test]
fn growths_of_lists_fail_in_turn(rt: HostRuntime) {
    assert_all_met(&rt, rt.alloc(), LIST);
}

#[test]
fn growths_of_lines_fail_in_turn(rt: HostRuntime) {
    assert_all_met(&rt, rt.alloc(), LINE);
}

#[test]
fn growths_of_reports_fail_in_turn(rt: HostRuntime) {
    assert_all_met(&rt, rt.alloc(), REPORT);
}

// What comes of a line where every allocation fails.
fn met_without_memory(alloc: Global, reader: &Reader<&[u8]>) -> Outcome {
    let large = Hoard::of_large_blocks(alloc);
    let small = Hoard::of_all_left(alloc);
    let line = lookup_line(alloc, reader, high());
    drop(small);
    drop(large);
    outcome_of(line)
}

#[test]
fn line_without_memory(rt: HostRuntime) {
    let reader = opened(&rt, rt.alloc(), BASE_FILE);
    let met = met_without_memory(rt.alloc(), &reader);
    assert_holds(&rt, met == Outcome::Memory, "a line");
}

#[test]
fn report_of_a_range_of_another_kind(rt: HostRuntime) {
    let alloc = rt.alloc();
    let reader = opened(&rt, alloc, BASE_FILE);
    let range: IpNetwork = "::/0".parse().expect(&rt, "a range");
    let done = report_on(alloc, &reader, range, WithinOptions::default());
    assert_printed(&rt, alloc, done.expect_err(&rt, "a to_error"), OF_RANGE);
}
