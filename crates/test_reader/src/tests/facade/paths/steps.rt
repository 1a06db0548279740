//! Steps of paths: how they are made, printed and compared.
use maxminddb::PathElement::{Index, IndexFromEnd, Key};
use maxminddb::laws::{
    path_is_read_along, path_is_what_leads, path_selects, steps_equal_where_same,
};
use maxminddb::{PathElement, path, render_path};
use mmdb_vectors::answer::reported;
use mmdb_vectors::equality::equality;
use mmdb_vectors::failures::Failures;
use std::alloc::{AllocError, Global};

/// Numbers of 64 bits, and the steps that they are.
const LARGE_NUMBERS: &[(isize, PathElement<'static>)] = &[
    (0, Index(0)),
    (5, Index(5)),
    (-1, IndexFromEnd(0)),
    (-2, IndexFromEnd(1)),
    (isize::MAX, Index(9_223_372_036_854_775_807)),
    (isize::MIN + 1, IndexFromEnd(9_223_372_036_854_775_806)),
    (isize::MIN, IndexFromEnd(usize::MAX)),
];

/// Numbers of 32 bits, and the steps that they are.
const SMALL_NUMBERS: &[(i32, PathElement<'static>)] = &[
    (7, Index(7)),
    (-2, IndexFromEnd(1)),
    (i32::MIN, IndexFromEnd(2_147_483_647)),
];

#[test]
fn steps_of_numbers(rt: HostRuntime) -> Result<(), Failures> {
    let mut failures = Failures::new(rt.alloc());
    for (number, step) in LARGE_NUMBERS {
        failures.expect(number, PathElement::from(*number) == *step);
    }
    for (number, step) in SMALL_NUMBERS {
        failures.expect(number, PathElement::from(*number) == *step);
    }
    failures.verdict()
}

/// Paths, and their texts.
const TEXTS: &[(&[PathElement<'static>], &str)] = &[
    (&[], ""),
    (&[Key("arr"), IndexFromEnd(1)], "/arr/-2"),
    (&[Key("city"), Key("names"), Index(10)], "/city/names/10"),
    (&[IndexFromEnd(usize::MAX)], "/-18446744073709551616"),
];

// The text of a path, or the error.
fn text_of(alloc: Global, path: &[PathElement<'_>]) -> Result<String, AllocError> {
    match render_path(alloc, path) {
        Ok(text) => Ok(text),
        Err(error) => reported(alloc, Err::<(), _>(error)),
    }
}

#[test]
fn texts_of_paths(rt: HostRuntime) -> Result<(), Failures> {
    let mut failures = Failures::new(rt.alloc());
    for (path, text) in TEXTS {
        failures.expect_text(path, text_of(rt.alloc(), path), text);
    }
    failures.verdict()
}

#[test]
fn paths_of_many_steps(rt: HostRuntime) -> Result<(), Failures> {
    let mut failures = Failures::new(rt.alloc());
    let steps = path!["test", 5, -1, 7usize,];
    let printed = format!(in rt.alloc(); "{steps:?}");
    let text = "[Key(\"test\"), Index(5), IndexFromEnd(0), Index(7)]";
    failures.expect_text(&"steps", printed, text);
    let none: [PathElement<'_>; 0] = path![];
    failures.expect(&"none", none.is_empty());
    failures.verdict()
}

const STEPS: [PathElement<'static>; 6] = [
    Key("a"),
    Key("b"),
    Index(0),
    Index(1),
    IndexFromEnd(0),
    IndexFromEnd(1),
];

fn equals_clone(step: &PathElement<'_>) -> bool {
    match step.clone() {
        Ok(copy) => equality(step, &copy) == Some(true),
        Err(_) => false,
    }
}

#[test]
fn equal_steps(rt: HostRuntime) -> Result<(), Failures> {
    let mut failures = Failures::new(rt.alloc());
    for (i, a) in STEPS.iter().enumerate() {
        for (j, b) in STEPS.iter().enumerate() {
            failures.expect(&(i, j), equality(a, b) == Some(i == j));
        }
        failures.expect(a, equals_clone(a));
    }
    failures.verdict()
}

#[test]
fn laws_are_called() {
    path_selects();
    path_is_what_leads();
    path_is_read_along::<u16>();
    steps_equal_where_same();
}
