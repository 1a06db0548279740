//! The base file, byte for byte, and addresses of it.
use std::net::{IpAddr, Ipv4Addr};

/// An IPv4 file of one node of 24 bits a record: no data for the lower half of all addresses, and the text "x" for
/// the upper one.
pub const BASE_FILE: &[u8] = b"\x00\x00\x01\x00\x00\x11\
    \0\0\0\0\0\0\0\0\0\0\0\0\0\0\0\0\
    \x41x\
    \xAB\xCD\xEFMaxMind.com\
    \xE9\
    \x5Bbinary_format_major_version\xA1\x02\
    \x5Bbinary_format_minor_version\xA0\
    \x4Bbuild_epoch\x01\x02\x01\
    \x4Ddatabase_type\x41T\
    \x4Bdescription\xE1\x42en\x41d\
    \x4Aip_version\xA1\x04\
    \x49languages\x00\x04\
    \x4Anode_count\xC1\x01\
    \x4Brecord_size\xA1\x18";

/// An address for which the base file has no data.
pub fn low() -> IpAddr {
    IpAddr::V4(Ipv4Addr::new(1, 1, 1, 1))
}

/// An address for which the base file has data.
pub fn high() -> IpAddr {
    IpAddr::V4(Ipv4Addr::new(200, 0, 0, 1))
}
