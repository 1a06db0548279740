//! Networks and addresses that texts spell.
use crate::error::Reason;
use mmdb_net::IpNetwork;
use std::net::IpAddr;

/// The address that a text spells.
pub(crate) fn address_of(text: &str) -> Result<IpAddr, Reason> {
    match text.parse::<IpAddr>() {
        Ok(address) => Ok(address),
        Err(_) => Err(Reason::NotAnAddress),
    }
}

// The network of one address.
fn lone(address: IpAddr) -> Result<IpNetwork, Reason> {
    let bits = match address {
        IpAddr::V4(_) => 32,
        IpAddr::V6(_) => 128,
    };
    match IpNetwork::new(address, bits) {
        Ok(network) => Ok(network),
        Err(_) => Err(Reason::NotANetwork),
    }
}

/// The network that a text spells: an address and a prefix after a slash, or one address alone. Bits past the prefix are 0.
pub fn network_of(text: &str) -> Result<IpNetwork, Reason> {
    if let Ok(network) = text.parse::<IpNetwork>() {
        return if network.ip() == network.network() {
            Ok(network)
        } else {
            Err(Reason::BitsBehind)
        };
    }
    match address_of(text) {
        Ok(address) => lone(address),
        Err(_) => Err(Reason::NotANetwork),
    }
}
