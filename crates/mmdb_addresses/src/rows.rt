//! The first address anywhere in a text, and the last one.
ghost use Rattle.std.specs.Prelude.{◌≡◌, ◌+◌, ◌<◌, ◌≤◌, Bool, false, Decides, length, take, drop, slice_range};
ghost use Rattle.mmdb_addresses.specs.Addresses.{Finds};
ghost use Rattle.mmdb_addresses.specs.Last.{later_of};
ghost use Rattle.mmdb_addresses.specs.Rows.{BeginsRun, FindsFirst, FindsLast, IsClosed, IsRun, StandsAt, is_behind_slash as spec_is_behind_slash, run_at, behind_run};

use crate::bytes::{AddressKind, end_of, is_blank};
use crate::words::plain_address;
use std::net::IpAddr;

// Whether a slash is right before an index, and no other one before that.
fn is_behind_slash(text: &[u8], at: usize) -> bool
    requires { at ≤ length text.now }
    ensures { result ≡ spec_is_behind_slash text.now at }
{
    at > 0 && text[at - 1] == b'/' && !(at > 1 && text[at - 2] == b'/')
}

// Whether a run ends with `.` or `:`, after which comes a blank or the text's end.
fn is_closed(run: &[u8], rest: &[u8]) -> bool
    requires { 0 < length run.now }
    ensures { Decides result (IsClosed run.now rest.now) }
{
    let last = run[run.len() - 1];
    (last == b'.' || last == b':') && (rest.is_empty() || is_blank(rest[0]))
}

// The address that a run is, which the rest follows.
fn run_address(run: &[u8], rest: &[u8]) -> Option<IpAddr>
    requires { 0 < length run.now }
    ensures { Finds (IsRun run.now rest.now) result }
{
    if let Some(address) = plain_address(run) {
        return Some(address);
    }
    if is_closed(run, rest) {
        plain_address(&run[..run.len() - 1])
    } else {
        None
    }
}

// The address at an index where a run begins, which ends at another one.
fn address_at(text: &[u8], goes_on: bool, at: usize, end: usize) -> Option<IpAddr>
    requires begins { BeginsRun text.now at }
    requires within { at < length text.now }
    requires end { end ≡ at + length (run_at text.now at) }
    ensures { Finds (StandsAt text.now goes_on at) result }
{
    if is_behind_slash(text, at) || (goes_on && end >= text.len()) {
        return None;
    }
    run_address(&text[at..end], &text[end..])
}

/// The first address anywhere in a text, which may go on after what is seen of it.
#[inline(never)]
pub fn address_anywhere(text: &[u8], goes_on: bool) -> Option<IpAddr>
    ensures { FindsFirst text.now goes_on result }
{
    let mut end = 0;
    while end < text.len() {
        let at = end_of(AddressKind::OffRun, text, end);
        if at >= text.len() {
            return None;
        }
        end = end_of(AddressKind::InRun, text, at);
        if let Some(address) = address_at(text, goes_on, at, end) {
            return Some(address);
        }
    }
    None
}

// An address that was found, or else the last one before it.
fn later(found: Option<IpAddr>, last: Option<IpAddr>) -> Option<IpAddr>
    ensures { result ≡ later_of found last }
{
    match found {
        Some(address) => Some(address),
        None => last,
    }
}

// The last address anywhere in a text.
fn last_address_in(text: &[u8]) -> Option<IpAddr>
    ensures { FindsLast text.now false result }
{
    let mut end = 0;
    let mut last = None;
    while end < text.len() {
        let at = end_of(AddressKind::OffRun, text, end);
        if at >= text.len() {
            return last;
        }
        end = end_of(AddressKind::InRun, text, at);
        last = later(address_at(text, false, at, end), last);
    }
    last
}

/// The last address anywhere in a text. Of one that goes on after what is seen of it that is not known.
#[inline(never)]
pub fn last_address_anywhere(text: &[u8], goes_on: bool) -> Option<IpAddr>
    ensures { FindsLast text.now goes_on result }
{
    if goes_on {
        return None;
    }
    last_address_in(text)
}
