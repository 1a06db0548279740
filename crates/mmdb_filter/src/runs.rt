//! Runs of bytes without two others.
ghost use Rattle.std.specs.Prelude.{◌≡◌, ◌+◌, ◌≤◌, length, drop, map};
ghost use Rattle.std.specs.List.{prefix_len};
ghost use Rattle.std.specs.Simd.Lanes.{mask_l};
ghost use Rattle.mmdb_filter.specs.Runs.{is_either, is_neither};

use memchr::memchr2;
use std::simd::prelude::*;

/// How many bytes are near.
const NEAR: usize = 64;

// Which of these bytes are one of two.
#[inline(always)]
fn marks(bytes: u8x16, first: u8, second: u8) -> u64
    ensures { result ≡ mask_l (map (is_either first second) bytes) }
{
    (bytes.simd_eq(u8x16::splat(first)) | bytes.simd_eq(u8x16::splat(second))).to_bitmask()
}

// Where the first of two bytes is from an index on, or the end, byte by byte.
#[inline(always)]
fn short_either_from(bytes: &[u8], from: usize, first: u8, second: u8) -> usize
    requires { from ≤ length bytes.now }
    ensures { result ≡ from + prefix_len (is_neither first second) (drop from bytes.now) }
{
    let mut at = from;
    while at < bytes.len() && bytes[at] != first && bytes[at] != second {
        at += 1;
    }
    at
}

// Where the first of two bytes is from an index on, or the end, for one that may be far.
#[inline(never)]
fn far_either_from(bytes: &[u8], from: usize, first: u8, second: u8) -> usize
    requires { from ≤ length bytes.now }
    ensures { result ≡ from + prefix_len (is_neither first second) (drop from bytes.now) }
{
    match memchr2(first, second, &bytes[from..]) {
        Some(at) => from + at,
        None => bytes.len(),
    }
}

/// Where the first of two bytes is from an index on, or the end. It is mostly near, so the next bytes are looked
/// at in place, before a search that is made to look far, whose first steps are more expensive.
#[inline(always)]
pub fn either_from(bytes: &[u8], from: usize, first: u8, second: u8) -> usize
    requires { from ≤ length bytes.now }
    ensures value { result ≡ from + prefix_len (is_neither first second) (drop from bytes.now) }
    ensures bound { result ≤ length bytes.now }
{
    let mut at = from;
    while bytes.len() - at >= 16 {
        let found = marks(u8x16::from_slice(&bytes[at..]), first, second);
        if found != 0 {
            return at + found.trailing_zeros() as usize;
        }
        at += 16;
        if at - from >= NEAR {
            return far_either_from(bytes, at, first, second);
        }
    }
    short_either_from(bytes, at, first, second)
}

/// The same where it often is at the index itself, which is looked at alone first.
#[inline(always)]
pub fn here_or_from(bytes: &[u8], from: usize, first: u8, second: u8) -> usize
    requires { from ≤ length bytes.now }
    ensures value { result ≡ from + prefix_len (is_neither first second) (drop from bytes.now) }
    ensures bound { result ≤ length bytes.now }
{
    if from < bytes.len() && (bytes[from] == first || bytes[from] == second) {
        from
    } else {
        either_from(bytes, from, first, second)
    }
}
