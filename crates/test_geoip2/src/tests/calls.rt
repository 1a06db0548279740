//! Each record that owns memory is cloned, once with enough memory.
use super::parts::rejected;
use mmdb_geoip2::{City, Enterprise};
use mmdb_record::decode::Decode;
use mmdb_record::first_value::decode;
use mmdb_vectors::answer::is_ok;
use std::alloc::Global;

// Whether the record of a map without a pair is cloned.
fn is_cloned<'de, T: Decode<'de> + Clone>(alloc: Global) -> bool {
    match decode::<T>(alloc, b"\xE0") {
        Ok(record) => is_ok(record.clone()),
        Err(error) => rejected(error),
    }
}

#[test]
fn calls_succeed(rt: HostRuntime) {
    let alloc = rt.alloc();
    assert!(rt; is_cloned::<City<'_>>(alloc), "City::clone");
    assert!(rt; is_cloned::<Enterprise<'_>>(alloc), "Enterprise::clone");
}
