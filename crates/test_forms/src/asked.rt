//! The address that a database is asked for in place of another.
use crate::databases::{BROKEN, FIRST, Tree, reader_in};
use mmdb_layout::asked_of;
use mmdb_vectors::failures::Failures;
use std::alloc::{AllocError, Global};
use std::net::IpAddr;

/// A database, its version of addresses as it is encoded, an address, and the one that is asked for.
#[derive(Clone, Copy, Debug)]
struct Row {
    tree: Tree,
    version: &'static [u8],
    address: &'static str,
    asked: &'static str,
}

const IPV4: &[u8] = b"\xA1\x04";

const IPV6: &[u8] = b"\xA1\x06";

#[rattlefmt::skip]
const ROWS: &[Row] = &[
    Row { tree: FIRST, version: IPV4, address: "1.2.3.4", asked: "1.2.3.4" },
    Row { tree: FIRST, version: IPV4, address: "::ffff:1.2.3.4", asked: "1.2.3.4" },
    Row { tree: FIRST, version: IPV4, address: "::1", asked: "::1" },
    Row { tree: FIRST, version: IPV4, address: "2001:db8::1", asked: "2001:db8::1" },
    Row { tree: FIRST, version: IPV6, address: "1.2.3.4", asked: "1.2.3.4" },
    // the first quarter of all addresses has no record in the first tree, and one in the second
    Row { tree: FIRST, version: IPV6, address: "::ffff:1.2.3.4", asked: "1.2.3.4" },
    Row { tree: BROKEN, version: IPV6, address: "::ffff:1.2.3.4", asked: "::ffff:1.2.3.4" },
    Row { tree: FIRST, version: IPV6, address: "::102:304", asked: "::102:304" },
    Row { tree: FIRST, version: IPV6, address: "4000::1", asked: "4000::1" },
];

// What is asked for in a row.
fn asked_in(alloc: Global, row: &Row) -> Result<String, AllocError> {
    let Ok(reader) = reader_in(alloc, &row.tree, row.version) else {
        return String::from_str(alloc, "no database");
    };
    match row.address.parse::<IpAddr>() {
        Ok(address) => {
            let asked = asked_of(&reader, address);
            format!(in alloc; "{asked}")
        }
        Err(_) => String::from_str(alloc, "no address"),
    }
}

#[test]
fn addresses_that_are_asked(rt: HostRuntime) -> Result<(), Failures> {
    let mut failures = Failures::new(rt.alloc());
    for row in ROWS {
        failures.expect_text(row, asked_in(rt.alloc(), row), row.asked);
    }
    failures.verdict()
}
