//! `push_text` and `Display` on made networks: each pattern of zeros, and each number of digits.
use mmdb_net::IpNetwork;
use mmdb_vectors::failures::Failures;
use std::alloc::{AllocError, Global};
use std::net::{IpAddr, Ipv4Addr, Ipv6Addr};

// Whether `push_text` appends what `Display` writes.
fn is_pushed_as_displayed(alloc: Global, network: IpNetwork) -> Result<bool, AllocError> {
    let displayed = network.to_string(alloc)?;
    let mut pushed = b"before".to_vec(alloc)?;
    network.push_text(&mut pushed)?;
    let added = pushed.strip_prefix(b"before");
    Ok(added == Some(displayed.as_bytes()))
}

// Notes a network of which `push_text` appends something else.
fn expect_pushed(failures: &mut Failures, alloc: Global, address: IpAddr, prefix: u8) {
    let is_same = match IpNetwork::new(address, prefix) {
        Ok(network) => is_pushed_as_displayed(alloc, network) == Ok(true),
        Err(_) => false,
    };
    failures.expect(&(address, prefix), is_same);
}

// Sixteen bits that look like random ones.
fn mixed(seed: u32) -> u16 {
    (seed.wrapping_mul(2_654_435_761) >> 16) as u16
}

/// Of how many hexadecimal digits a segment is at most.
const MASKS: [u16; 4] = [0xf, 0xff, 0xfff, 0xffff];

// A segment that is not zero, of about as many digits as a mask has.
fn segment_of(seed: u32, mask: u16) -> u16 {
    (mixed(seed) & mask).max(1)
}

// Segments of which those are zero for which a pattern has a zero bit.
fn segments_of(pattern: u32, mask: u16) -> [u16; 8] {
    let mut segments = [0u16; 8];
    let mut rest = pattern;
    for segment in segments.iter_mut() {
        if rest % 2 == 1 {
            *segment = segment_of(pattern.wrapping_mul(256).wrapping_add(rest), mask);
        }
        rest /= 2;
    }
    segments
}

#[test]
fn made_ipv6_networks(rt: HostRuntime) -> Result<(), Failures> {
    let mut failures = Failures::new(rt.alloc());
    for pattern in 0u32..256 {
        for mask in MASKS {
            let address = IpAddr::V6(Ipv6Addr::from(segments_of(pattern, mask)));
            expect_pushed(&mut failures, rt.alloc(), address, (pattern % 129) as u8);
        }
    }
    failures.verdict()
}

// The segments of an IPv4 address behind some others.
fn behind(first: [u16; 6], seed: u32) -> Ipv6Addr {
    let [a, b, c, d, e, f] = first;
    Ipv6Addr::from([a, b, c, d, e, f, mixed(seed), mixed(seed.wrapping_add(1))])
}

/// What stands before a mapped IPv4 address, and what is close to it.
const BEFORE_IPV4: [[u16; 6]; 5] = [
    [0, 0, 0, 0, 0, 0xffff],
    [0, 0, 0, 0, 0, 0xfffe],
    [0, 0, 0, 0, 1, 0xffff],
    [1, 0, 0, 0, 0, 0xffff],
    [0, 0, 0, 0, 0, 0],
];

#[test]
fn mapped_networks(rt: HostRuntime) -> Result<(), Failures> {
    let mut failures = Failures::new(rt.alloc());
    for seed in 0u32..129 {
        for first in BEFORE_IPV4 {
            let address = IpAddr::V6(behind(first, seed));
            expect_pushed(&mut failures, rt.alloc(), address, (seed % 129) as u8);
        }
    }
    failures.verdict()
}

#[test]
fn made_ipv4_networks(rt: HostRuntime) -> Result<(), Failures> {
    let mut failures = Failures::new(rt.alloc());
    for octet in 0u8..=255 {
        let [b, c] = mixed(u32::from(octet)).to_be_bytes();
        for [a, d] in [[octet, b], [c, octet]] {
            let address = IpAddr::V4(Ipv4Addr::new(a, b, c, d));
            expect_pushed(&mut failures, rt.alloc(), address, octet % 33);
        }
    }
    failures.verdict()
}
