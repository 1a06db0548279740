//! What errors of lists and of reports print.
use super::asserts::assert_printed;
use mmdb_reader::{IpNetworkError, MaxMindDbError};
use mmdb_report::ReportError;
use mmdb_report::laws::counts_are_of_networks;
use mmdb_tool::ListError;
use mmdb_value::{invalid_database_at, resource_limit_at};
use std::alloc::Global;
use std::fmt::Display;
use std::io;
use std::process::Abort;

// Asserts that an error prints this, and then a cause of the system.
fn assert_printed_before<E: Display + Drop>(
    rt: &impl Abort,
    alloc: Global,
    error: E,
    text: &str,
    cause: io::ErrorKind,
) {
    let printed = format!(in alloc; "{text}{}", io::Error::from(cause)).expect(rt, text);
    assert_printed(rt, alloc, error, printed.as_str());
}

#[test]
fn errors_of_lists(rt: HostRuntime) {
    let alloc = rt.alloc();
    let at_42 = ListError::from(invalid_database_at(alloc, "something went wrong", 42));
    let text = "invalid database at offset 42: something went wrong";
    assert_printed(&rt, alloc, at_42, text);
    let at_100 = ListError::from(resource_limit_at(alloc, "too many values", 100));
    let text = "resource limit exceeded at offset 100: too many values";
    assert_printed(&rt, alloc, at_100, text);
    let of_prefix = ListError::from(MaxMindDbError::from(IpNetworkError::InvalidPrefix));
    assert_printed(&rt, alloc, of_prefix, "invalid network: invalid prefix");
    let of_memory = ListError::from(MaxMindDbError::Memory);
    assert_printed(&rt, alloc, of_memory, "out of memory");
    assert_printed(&rt, alloc, ListError::Stopped, "write stopped");
}

#[test]
fn errors_of_lists_of_the_system(rt: HostRuntime) {
    let alloc = rt.alloc();
    let kind = io::ErrorKind::NotFound;
    let of_file = ListError::from(MaxMindDbError::from(io::Error::from(kind)));
    assert_printed_before(&rt, alloc, of_file, "i/o error: ", kind);
    let of_write = ListError::Write(io::Error::from(kind));
    assert_printed_before(&rt, alloc, of_write, "write error: ", kind);
}

#[test]
fn errors_of_reports(rt: HostRuntime) {
    let alloc = rt.alloc();
    let of_prefix = ReportError::from(MaxMindDbError::from(IpNetworkError::InvalidPrefix));
    assert_printed(&rt, alloc, of_prefix, "invalid network: invalid prefix");
    let of_memory = ReportError::from(MaxMindDbError::Memory);
    assert_printed(&rt, alloc, of_memory, "out of memory");
    assert_printed(&rt, alloc, ReportError::TooMany, "too many networks");
}

#[test]
fn laws_of_reports_are_called() {
    counts_are_of_networks();
}
