//! Rows: networks with values.
use mmdb_net::IpNetwork;
use thiserror::Error;

/// Why a row is not written.
#[derive(Clone, Copy, Debug, PartialEq, Eq, Error)]
pub enum RowError {
    /// Its network is one of IPv6, which a database of IPv4 alone does not have.
    #[error("a network of IPv6 in a database of IPv4")]
    Ipv6,
    /// Its value is not among the values.
    #[error("its value is not there")]
    NoValue,
}

/// A network, and which of the values its addresses have: the index of one, or none, which takes them out of a wider network.
#[derive(Clone, Copy, Debug, PartialEq, Eq)]
pub struct Row {
    pub network: IpNetwork,
    pub value: Option<usize>,
}
