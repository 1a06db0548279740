//! What no clause says: which texts are read, and with which errors. Each public call runs once.
use mmdb_net::laws::{network_clones_are_same, networks_equal_where_same};
use mmdb_net::{IpNetwork, IpNetworkError, Ipv4Network, Ipv6Network, mask_ip};
use mmdb_vectors::equality::equality;
use mmdb_vectors::failures::Failures;
use std::alloc::{AllocError, Global};
use std::net::IpAddr;

/// A text that is read as a network, and what is reported of it.
#[derive(Clone, Copy)]
struct Row {
    text: &'static str,
    ip: &'static str,
    prefix: u8,
    first: &'static str,
    displayed: &'static str,
    full: &'static str,
}

const IPV4: &[Row] = &[
    Row {
        text: "192.168.1.100/24",
        ip: "192.168.1.100",
        prefix: 24,
        first: "192.168.1.0",
        displayed: "192.168.1.100/24",
        full: "192.168.1.0/24",
    },
    Row {
        text: "1.2.3.4",
        ip: "1.2.3.4",
        prefix: 32,
        first: "1.2.3.4",
        displayed: "1.2.3.4/32",
        full: "1.2.3.4/32",
    },
    Row {
        text: "10.0.0.0/008",
        ip: "10.0.0.0",
        prefix: 8,
        first: "10.0.0.0",
        displayed: "10.0.0.0/8",
        full: "10.0.0.0/8",
    },
    Row {
        text: "1.2.3.4/0",
        ip: "1.2.3.4",
        prefix: 0,
        first: "0.0.0.0",
        displayed: "1.2.3.4/0",
        full: "0.0.0.0/0",
    },
    Row {
        text: "255.99.9.100/31",
        ip: "255.99.9.100",
        prefix: 31,
        first: "255.99.9.100",
        displayed: "255.99.9.100/31",
        full: "255.99.9.100/31",
    },
];

const IPV6: &[Row] = &[
    Row {
        text: "::1",
        ip: "::1",
        prefix: 128,
        first: "::1",
        displayed: "::1/128",
        full: "0000:0000:0000:0000:0000:0000:0000:0001/128",
    },
    Row {
        text: "2001:db8::/32",
        ip: "2001:db8::",
        prefix: 32,
        first: "2001:db8::",
        displayed: "2001:db8::/32",
        full: "2001:0db8:0000:0000:0000:0000:0000:0000/32",
    },
    Row {
        text: "2001:db8::ab/33",
        ip: "2001:db8::ab",
        prefix: 33,
        first: "2001:db8::",
        displayed: "2001:db8::ab/33",
        full: "2001:0db8:0000:0000:0000:0000:0000:0000/33",
    },
    Row {
        text: "::/0",
        ip: "::",
        prefix: 0,
        first: "::",
        displayed: "::/0",
        full: "0000:0000:0000:0000:0000:0000:0000:0000/0",
    },
    Row {
        text: "::1:0:0:0:0/64",
        ip: "0:0:0:1::",
        prefix: 64,
        first: "0:0:0:1::",
        displayed: "0:0:0:1::/64",
        full: "0000:0000:0000:0001:0000:0000:0000:0000/64",
    },
    Row {
        text: "1:2:3:0:5:6:7:8/128",
        ip: "1:2:3:0:5:6:7:8",
        prefix: 128,
        first: "1:2:3:0:5:6:7:8",
        displayed: "1:2:3:0:5:6:7:8/128",
        full: "0001:0002:0003:0000:0005:0006:0007:0008/128",
    },
    Row {
        text: "1:0:0:4:5:0:0:8/127",
        ip: "1::4:5:0:0:8",
        prefix: 127,
        first: "1::4:5:0:0:8",
        displayed: "1::4:5:0:0:8/127",
        full: "0001:0000:0000:0004:0005:0000:0000:0008/127",
    },
    Row {
        text: "0:0:1:0:0:0:2:3/100",
        ip: "0:0:1::2:3",
        prefix: 100,
        first: "0:0:1::",
        displayed: "0:0:1::2:3/100",
        full: "0000:0000:0001:0000:0000:0000:0000:0000/100",
    },
    Row {
        text: "1:0:0:0:0:6:7:0/0",
        ip: "1::6:7:0",
        prefix: 0,
        first: "::",
        displayed: "1::6:7:0/0",
        full: "0000:0000:0000:0000:0000:0000:0000:0000/0",
    },
    Row {
        text: "0:1:0:1:0:1:0:1/16",
        ip: "0:1:0:1:0:1:0:1",
        prefix: 16,
        first: "::",
        displayed: "0:1:0:1:0:1:0:1/16",
        full: "0000:0000:0000:0000:0000:0000:0000:0000/16",
    },
    Row {
        text: "fedc:ba98:7654:3210:fed:cb:a:10/128",
        ip: "fedc:ba98:7654:3210:fed:cb:a:10",
        prefix: 128,
        first: "fedc:ba98:7654:3210:fed:cb:a:10",
        displayed: "fedc:ba98:7654:3210:fed:cb:a:10/128",
        full: "fedc:ba98:7654:3210:0fed:00cb:000a:0010/128",
    },
    Row {
        text: "::1.2.3.4/96",
        ip: "::102:304",
        prefix: 96,
        first: "::",
        displayed: "::102:304/96",
        full: "0000:0000:0000:0000:0000:0000:0000:0000/96",
    },
    Row {
        text: "0:0:0:0:1:ffff:102:304/90",
        ip: "::1:ffff:102:304",
        prefix: 90,
        first: "::1:ffc0:0:0",
        displayed: "::1:ffff:102:304/90",
        full: "0000:0000:0000:0000:0001:ffc0:0000:0000/90",
    },
    Row {
        text: "1:2:3:4:5:6:0:0/99",
        ip: "1:2:3:4:5:6::",
        prefix: 99,
        first: "1:2:3:4:5:6::",
        displayed: "1:2:3:4:5:6::/99",
        full: "0001:0002:0003:0004:0005:0006:0000:0000/99",
    },
    Row {
        text: "0:0:3:4:5:6:7:8/64",
        ip: "::3:4:5:6:7:8",
        prefix: 64,
        first: "0:0:3:4::",
        displayed: "::3:4:5:6:7:8/64",
        full: "0000:0000:0003:0004:0000:0000:0000:0000/64",
    },
    Row {
        text: "::ffff:192.0.2.128/120",
        ip: "::ffff:192.0.2.128",
        prefix: 120,
        first: "::ffff:c000:200",
        displayed: "::ffff:192.0.2.128/120",
        full: "0000:0000:0000:0000:0000:ffff:c000:0200/120",
    },
    Row {
        text: "::ffff:0:0/96",
        ip: "::ffff:0.0.0.0",
        prefix: 96,
        first: "::ffff:0:0",
        displayed: "::ffff:0.0.0.0/96",
        full: "0000:0000:0000:0000:0000:ffff:0000:0000/96",
    },
];

/// What is reported of a network.
#[derive(Drop)]
struct Told {
    ip: IpAddr,
    prefix: u8,
    first: IpAddr,
    displayed: Result<String, AllocError>,
    full: Result<String, AllocError>,
    /// What `push_full_text` appends, and whether it is answered with `Ok`.
    pushed: (Vec<u8>, bool),
    /// The same of `push_text`.
    pushed_short: (Vec<u8>, bool),
    /// Whether the address and the prefix make the same network.
    is_made_again: bool,
}

// What is reported of a text that is read as a network of either kind.
fn network_reported(alloc: Global, text: &str) -> Option<Told> {
    let network: IpNetwork = text.parse().ok()?;
    let mut pushed = Vec::new(alloc);
    let is_pushed = network.push_full_text(&mut pushed).is_ok();
    let mut pushed_short = Vec::new(alloc);
    let is_pushed_short = network.push_text(&mut pushed_short).is_ok();
    Some(Told {
        ip: network.ip(),
        prefix: network.prefix(),
        first: network.network(),
        displayed: format!(in alloc; "{network}"),
        full: network.full_text(alloc),
        pushed: (pushed, is_pushed),
        pushed_short: (pushed_short, is_pushed_short),
        is_made_again: IpNetwork::new(network.ip(), network.prefix()) == Ok(network),
    })
}

// The same of a network of IPv4.
fn ipv4_reported(alloc: Global, text: &str) -> Option<Told> {
    let network: Ipv4Network = text.parse().ok()?;
    let mut pushed = Vec::new(alloc);
    let is_pushed = network.push_full_text(&mut pushed).is_ok();
    let mut pushed_short = Vec::new(alloc);
    let is_pushed_short = network.push_text(&mut pushed_short).is_ok();
    Some(Told {
        ip: IpAddr::V4(network.ip()),
        prefix: network.prefix(),
        first: IpAddr::V4(network.network()),
        displayed: format!(in alloc; "{network}"),
        full: network.full_text(alloc),
        pushed: (pushed, is_pushed),
        pushed_short: (pushed_short, is_pushed_short),
        is_made_again: Ipv4Network::new(network.ip(), network.prefix()) == Ok(network),
    })
}

// The same of a network of IPv6.
fn ipv6_reported(alloc: Global, text: &str) -> Option<Told> {
    let network: Ipv6Network = text.parse().ok()?;
    let mut pushed = Vec::new(alloc);
    let is_pushed = network.push_full_text(&mut pushed).is_ok();
    let mut pushed_short = Vec::new(alloc);
    let is_pushed_short = network.push_text(&mut pushed_short).is_ok();
    Some(Told {
        ip: IpAddr::V6(network.ip()),
        prefix: network.prefix(),
        first: IpAddr::V6(network.network()),
        displayed: format!(in alloc; "{network}"),
        full: network.full_text(alloc),
        pushed: (pushed, is_pushed),
        pushed_short: (pushed_short, is_pushed_short),
        is_made_again: Ipv6Network::new(network.ip(), network.prefix()) == Ok(network),
    })
}

// Whether a text is that of an address.
fn is_text_of(text: &str, address: IpAddr) -> bool {
    text.parse::<IpAddr>().ok() == Some(address)
}

// Whether a text was appended.
fn is_appended(pushed: &(Vec<u8>, bool), text: &str) -> bool {
    pushed.1 && pushed.0.as_slice() == text.as_bytes()
}

// Whether what is reported without a text is what a row wants.
fn is_wanted(reported: &Told, row: &Row) -> bool {
    is_text_of(row.ip, reported.ip)
        && reported.prefix == row.prefix
        && is_text_of(row.first, reported.first)
        && is_appended(&reported.pushed, row.full)
        && is_appended(&reported.pushed_short, row.displayed)
        && reported.is_made_again
}

// Notes what is reported otherwise than a row wants.
fn expect_reported(failures: &mut Failures, row: &Row, reported: Option<Told>) {
    match reported {
        Some(reported) => {
            failures.expect(&row.text, is_wanted(&reported, row));
            failures.expect_text(&row.text, reported.displayed, row.displayed);
            failures.expect_text(&row.text, reported.full, row.full);
        }
        None => failures.expect(&row.text, false),
    }
}

#[test]
fn network_texts(rt: HostRuntime) -> Result<(), Failures> {
    let mut failures = Failures::new(rt.alloc());
    for row in IPV4.iter().chain(IPV6) {
        expect_reported(&mut failures, row, network_reported(rt.alloc(), row.text));
    }
    failures.verdict()
}

#[test]
fn networks_of_one_kind(rt: HostRuntime) -> Result<(), Failures> {
    let mut failures = Failures::new(rt.alloc());
    for row in IPV4 {
        expect_reported(&mut failures, row, ipv4_reported(rt.alloc(), row.text));
    }
    for row in IPV6 {
        expect_reported(&mut failures, row, ipv6_reported(rt.alloc(), row.text));
    }
    failures.verdict()
}

const REJECTED: &[(&str, IpNetworkError)] = &[
    ("10.0.0.0/33", IpNetworkError::InvalidPrefix),
    ("10.0.0.0/", IpNetworkError::InvalidPrefix),
    ("10.0.0.0/0008", IpNetworkError::InvalidPrefix),
    ("10.0.0.0/+8", IpNetworkError::InvalidPrefix),
    ("10.0.0.0/256", IpNetworkError::InvalidPrefix),
    ("10.0.0.0/255.0.0.0", IpNetworkError::InvalidPrefix),
    ("::/129", IpNetworkError::InvalidPrefix),
    ("10.0.0/8", IpNetworkError::InvalidAddr),
    ("10.0.0/33", IpNetworkError::InvalidAddr),
    ("", IpNetworkError::InvalidAddr),
    ("10.0.0.0/8/8", IpNetworkError::InvalidCidrFormat),
    ("x//", IpNetworkError::InvalidCidrFormat),
];

#[test]
fn rejected_texts(rt: HostRuntime) -> Result<(), Failures> {
    let mut failures = Failures::new(rt.alloc());
    for (text, error) in REJECTED {
        failures.expect(text, text.parse::<IpNetwork>() == Err(*error));
    }
    let other_kind = IpNetworkError::InvalidAddr;
    failures.expect(&"IPv6", "::/24".parse::<Ipv4Network>() == Err(other_kind));
    failures.expect(
        &"IPv4",
        "1.2.3.4/24".parse::<Ipv6Network>() == Err(other_kind),
    );
    failures.verdict()
}

const ERRORS: [(IpNetworkError, &str); 3] = [
    (IpNetworkError::InvalidAddr, "invalid address"),
    (IpNetworkError::InvalidPrefix, "invalid prefix"),
    (IpNetworkError::InvalidCidrFormat, "invalid cidr format"),
];

#[test]
fn error_texts(rt: HostRuntime) -> Result<(), Failures> {
    let mut failures = Failures::new(rt.alloc());
    for (error, text) in ERRORS {
        failures.expect_text(&text, format!(in rt.alloc(); "{error}"), text);
    }
    failures.verdict()
}

/// A network, an address, and whether the network holds it.
const HELD: &[(&str, &str, bool)] = &[
    ("192.168.1.100/24", "192.168.1.255", true),
    ("192.168.1.100/24", "192.168.2.0", false),
    ("192.168.1.100/0", "127.0.0.1", true),
    ("192.168.1.100/0", "2001:db8::ab", false),
    ("2001:db8::ab/33", "2001:db8:7fff::", true),
    ("2001:db8::ab/33", "2001:db8:8000::", false),
];

// Whether a network holds an address: as one of its kind, and as one of either kind.
fn holds(network: &str, address: &str) -> Option<(bool, bool)> {
    let range: IpNetwork = network.parse().ok()?;
    let address: IpAddr = address.parse().ok()?;
    let of_one_kind = match (range, address) {
        (IpNetwork::V4(range), IpAddr::V4(address)) => range.contains(address),
        (IpNetwork::V6(range), IpAddr::V6(address)) => range.contains(address),
        _ => false,
    };
    Some((of_one_kind, range.contains(address)))
}

#[test]
fn addresses_held(rt: HostRuntime) -> Result<(), Failures> {
    let mut failures = Failures::new(rt.alloc());
    for (network, address, is_held) in HELD {
        let reported = holds(network, address);
        failures.expect(
            &[*network, *address],
            reported == Some((*is_held, *is_held)),
        );
    }
    failures.verdict()
}

/// Two networks, and whether they are equal.
const PAIRS: &[(&str, &str, bool)] = &[
    ("1.2.3.4/24", "1.2.3.4/024", true),
    ("1.2.3.4/24", "1.2.3.5/24", false),
    ("1.2.3.4/24", "1.2.3.4/25", false),
    ("192.168.1.100/0", "0.0.0.0/0", false),
    ("2001:db8::/32", "2001:db8:0::/32", true),
    ("2001:db8::/32", "2001:db8::1/32", false),
    ("2001:db8::/32", "2001:db8::/33", false),
    ("0.0.0.0/0", "::/0", false),
];

// What equality says of two networks, as such of one kind and as such of either kind, where both agree.
fn equality_reported(a: &str, b: &str) -> Option<bool> {
    let (left, right): (IpNetwork, IpNetwork) = (a.parse().ok()?, b.parse().ok()?);
    let of_one_kind = match (left, right) {
        (IpNetwork::V4(left), IpNetwork::V4(right)) => equality(&left, &right),
        (IpNetwork::V6(left), IpNetwork::V6(right)) => equality(&left, &right),
        _ => Some(false),
    };
    equality(&left, &right).filter(|reported| of_one_kind == Some(*reported))
}

#[test]
fn networks_that_are_equal(rt: HostRuntime) -> Result<(), Failures> {
    let mut failures = Failures::new(rt.alloc());
    for (a, b, is_equal) in PAIRS {
        failures.expect(&[*a, *b], equality_reported(a, b) == Some(*is_equal));
    }
    failures.verdict()
}

#[test]
fn errors_that_are_equal(rt: HostRuntime) -> Result<(), Failures> {
    let mut failures = Failures::new(rt.alloc());
    for (i, (a, left)) in ERRORS.iter().enumerate() {
        for (j, (b, right)) in ERRORS.iter().enumerate() {
            failures.expect(&[*left, *right], equality(a, b) == Some(i == j));
        }
    }
    failures.verdict()
}

/// An address, a prefix, and the address that its first bits make.
const MASKED: &[(&str, u8, &str)] = &[
    ("192.168.1.100", 16, "192.168.0.0"),
    ("192.168.1.100", 200, "192.168.1.100"),
    ("2001:db8::ab", 33, "2001:db8::"),
    ("2001:db8::ab", 128, "2001:db8::ab"),
];

#[test]
fn masked_addresses(rt: HostRuntime) -> Result<(), Failures> {
    let mut failures = Failures::new(rt.alloc());
    for (address, prefix, masked) in MASKED {
        let reported = match address.parse::<IpAddr>() {
            Ok(address) => is_text_of(masked, mask_ip(address, *prefix)),
            Err(_) => false,
        };
        failures.expect(masked, reported);
    }
    failures.verdict()
}

// What the documentation of `IpNetwork` shows.
#[test]
fn documented_network(rt: HostRuntime) -> anyhow::Result<()> {
    let network: IpNetwork = "192.168.1.100/24".parse()?;
    let inside: IpAddr = "192.168.1.255".parse()?;
    assert!(rt; network.contains(inside), "{inside}");
    Ok(())
}

#[test]
fn laws_are_called() {
    networks_equal_where_same();
    network_clones_are_same();
}
