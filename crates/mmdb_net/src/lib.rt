//! Networks: an address and the number of its first bits that the addresses of the network share.
#![tactic(auto)]

mod error;
pub mod laws;
mod mask;
mod network;
mod text;

pub use error::IpNetworkError;
pub use mask::mask_ip;
pub use network::{IpNetwork, Ipv4Network, Ipv6Network};
