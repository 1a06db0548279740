ghost use Rattle.std.specs.Prelude.{◌≡◌, ◌≤◌, ◌↔◌, ◌++◌, IsTrue, IsOk, IfOk, IfErr, OnOk, Some};
ghost use Rattle.std.specs.String.{string_bytes};
ghost use Rattle.std.specs.Net.Grammar.{Parses};
ghost use Rattle.mmdb_net.specs.Address.{address_width, bits_of_address, IsSameKind, IsMaskedIp};
ghost use Rattle.mmdb_net.specs.Bits.{IsPrefix};

use super::error::IpNetworkError;
use super::text::HexGroup;
use super::{mask, text};
use std::alloc::{AllocError, Global};
use std::fmt;
use std::fmt::Display;
use std::net::{IpAddr, Ipv4Addr, Ipv6Addr};
use std::str::FromStr;

/// An IPv4 address and a prefix: how many of its first bits the addresses of the network share.
#[derive(Clone, Copy, Debug, PartialEq, Eq)]
pub struct Ipv4Network {
    address: Ipv4Addr,
    prefix: u8,
    ghost is_prefix: { prefix ≤ 32 },
}

impl Ipv4Network {
    ghost use Rattle.mmdb_net.specs.Network.{ipv4_ip_of, ipv4_prefix_of, ipv4_block_of, ipv4_full_text_of, ipv4_short_text_of};

    /// The network of an address and a prefix of at most 32.
    pub fn new(addr: Ipv4Addr, prefix: u8) -> Result<Ipv4Network, IpNetworkError>
        ensures ok { IsOk result ↔ (prefix ≤ 32) }
        ensures ip { IfOk result (λ n. ipv4_ip_of n ≡ addr) }
        ensures prefix { IfOk result (λ n. ipv4_prefix_of n ≡ prefix) }
        ensures err { IfErr result (λ e. e ≡ IpNetworkError.InvalidPrefix) }
    {
        if prefix > 32 {
            return Err(IpNetworkError::InvalidPrefix);
        }
        Ok(Ipv4Network {
            address: addr,
            prefix,
        })
    }

    /// The first address of the network: the address as given, with the bits after the prefix
    /// cleared.
    #[tactic(auto, using(crate::proofs::AddressLaws::masked_ipv4))]
    pub fn network(&self) -> Ipv4Addr
        ensures { IsMaskedIp (IpAddr.V4 (ipv4_ip_of self.now)) (ipv4_prefix_of self.now)
            (IpAddr.V4 result) }
    {
        mask::mask_ipv4(self.address, self.prefix)
    }

    /// The address as it was given.
    pub fn ip(&self) -> Ipv4Addr
        ensures { result ≡ ipv4_ip_of self.now }
    {
        self.address
    }

    /// How many first bits the addresses of the network share.
    pub fn prefix(&self) -> u8
        ensures value { result ≡ ipv4_prefix_of self.now }
        ensures within { result ≤ 32 }
    {
        self.prefix
    }

    /// Whether the address begins with the bits of the network.
    pub fn contains(&self, addr: Ipv4Addr) -> bool
        ensures { IsTrue result
            ↔ IsPrefix (ipv4_block_of self.now) (bits_of_address (IpAddr.V4 addr)) }
    {
        mask::ipv4_first_bits(self.address, self.prefix) == mask::ipv4_first_bits(addr, self.prefix)
    }

    /// The first address of the network in dotted decimal, `/` and the prefix. Fails only when
    /// out of memory.
    pub fn full_text(&self, alloc: Global) -> Result<String, AllocError>
        ensures { IfOk result (λ text. string_bytes text ≡ ipv4_full_text_of self.now) }
    {
        let address = mask::mask_ipv4(self.address, self.prefix);
        let prefix = self.prefix;
        format!(in alloc; "{address}/{prefix}")
    }

    /// Appends the full text. Fails only when out of memory.
    pub fn push_full_text(&self, out: &mut Vec<u8>) -> Result<(), AllocError>
        ensures { OnOk result (out.new.items ≡ out.old.items ++ ipv4_full_text_of self.now) }
    {
        text::put_octets(mask::mask_ipv4(self.address, self.prefix).octets(), out)?;
        text::put_prefix(self.prefix, out)
    }

    /// Appends the text that `Display` writes, in fewer steps than it takes. Fails only when out of memory.
    pub fn push_text(&self, out: &mut Vec<u8>) -> Result<(), AllocError>
        ensures { OnOk result (out.new.items ≡ out.old.items ++ ipv4_short_text_of self.now) }
    {
        text::put_octets(self.address.octets(), out)?;
        text::put_prefix(self.prefix, out)
    }
}

impl Display for Ipv4Network {
    ghost use Rattle.mmdb_net.specs.Network.{ipv4_short_text_of};

    ghost output = { λ n. Some (ipv4_short_text_of n) };

    fn fmt<W: fmt::Write>(&self, f: &mut fmt::Formatter<W>) -> fmt::Result {
        write!(f, "{}/{}", self.address, self.prefix)
    }
}

impl FromStr for Ipv4Network {
    ghost use Rattle.mmdb_net.specs.NetworkText.{IsIpv4TextOf};

    type Err = IpNetworkError;

    ghost from_str_gives = { Parses IsIpv4TextOf };

    fn from_str(text: &str) -> Result<Ipv4Network, IpNetworkError> {
        let (address, prefix) = text::split_prefix(text)?;
        let address = Ipv4Addr::from_str(address).map_err(|_| IpNetworkError::InvalidAddr)?;
        Ipv4Network::new(address, text::read_prefix(prefix, 32)?)
    }
}

/// An IPv6 address and a prefix: how many of its first bits the addresses of the network share.
#[derive(Clone, Copy, Debug, PartialEq, Eq)]
pub struct Ipv6Network {
    address: Ipv6Addr,
    prefix: u8,
    ghost is_prefix: { prefix ≤ 128 },
}

impl Ipv6Network {
    ghost use Rattle.mmdb_net.specs.Network.{ipv6_ip_of, ipv6_prefix_of, ipv6_block_of, ipv6_full_text_of, ipv6_short_text_of};

    /// The network of an address and a prefix of at most 128.
    pub fn new(addr: Ipv6Addr, prefix: u8) -> Result<Ipv6Network, IpNetworkError>
        ensures ok { IsOk result ↔ (prefix ≤ 128) }
        ensures ip { IfOk result (λ n. ipv6_ip_of n ≡ addr) }
        ensures prefix { IfOk result (λ n. ipv6_prefix_of n ≡ prefix) }
        ensures err { IfErr result (λ e. e ≡ IpNetworkError.InvalidPrefix) }
    {
        if prefix > 128 {
            return Err(IpNetworkError::InvalidPrefix);
        }
        Ok(Ipv6Network {
            address: addr,
            prefix,
        })
    }

    /// The first address of the network: the address as given, with the bits after the prefix
    /// cleared.
    #[tactic(auto, using(crate::proofs::AddressLaws::masked_ipv6))]
    pub fn network(&self) -> Ipv6Addr
        ensures { IsMaskedIp (IpAddr.V6 (ipv6_ip_of self.now)) (ipv6_prefix_of self.now)
            (IpAddr.V6 result) }
    {
        mask::mask_ipv6(self.address, self.prefix)
    }

    /// The address as it was given.
    pub fn ip(&self) -> Ipv6Addr
        ensures { result ≡ ipv6_ip_of self.now }
    {
        self.address
    }

    /// How many first bits the addresses of the network share.
    pub fn prefix(&self) -> u8
        ensures value { result ≡ ipv6_prefix_of self.now }
        ensures within { result ≤ 128 }
    {
        self.prefix
    }

    /// Whether the address begins with the bits of the network.
    pub fn contains(&self, addr: Ipv6Addr) -> bool
        ensures { IsTrue result
            ↔ IsPrefix (ipv6_block_of self.now) (bits_of_address (IpAddr.V6 addr)) }
    {
        mask::ipv6_first_bits(self.address, self.prefix) == mask::ipv6_first_bits(addr, self.prefix)
    }

    /// The first address of the network in eight groups of four hexadecimal digits, `/` and the
    /// prefix. Fails only when out of memory.
    pub fn full_text(&self, alloc: Global) -> Result<String, AllocError>
        ensures { IfOk result (λ text. string_bytes text ≡ ipv6_full_text_of self.now) }
    {
        let [a, b, c, d, e, f, g, h] = mask::mask_ipv6(self.address, self.prefix).segments();
        let prefix = self.prefix;
        format!(in alloc;
            "{}:{}:{}:{}:{}:{}:{}:{}/{prefix}",
            HexGroup(a),
            HexGroup(b),
            HexGroup(c),
            HexGroup(d),
            HexGroup(e),
            HexGroup(f),
            HexGroup(g),
            HexGroup(h)
        )
    }

    /// Appends the full text. Fails only when out of memory.
    pub fn push_full_text(&self, out: &mut Vec<u8>) -> Result<(), AllocError>
        ensures { OnOk result (out.new.items ≡ out.old.items ++ ipv6_full_text_of self.now) }
    {
        let masked = mask::mask_ipv6(self.address, self.prefix);
        text::put_segments(masked.segments(), out)?;
        text::put_prefix(self.prefix, out)
    }

    /// Appends the text that `Display` writes, in fewer steps than it takes. Fails only when out of memory.
    pub fn push_text(&self, out: &mut Vec<u8>) -> Result<(), AllocError>
        ensures { OnOk result (out.new.items ≡ out.old.items ++ ipv6_short_text_of self.now) }
    {
        text::put_ipv6(self.address, out)?;
        text::put_prefix(self.prefix, out)
    }
}

impl Display for Ipv6Network {
    ghost use Rattle.mmdb_net.specs.Network.{ipv6_short_text_of};

    ghost output = { λ n. Some (ipv6_short_text_of n) };

    fn fmt<W: fmt::Write>(&self, f: &mut fmt::Formatter<W>) -> fmt::Result {
        write!(f, "{}/{}", self.address, self.prefix)
    }
}

impl FromStr for Ipv6Network {
    ghost use Rattle.mmdb_net.specs.NetworkText.{IsIpv6TextOf};

    type Err = IpNetworkError;

    ghost from_str_gives = { Parses IsIpv6TextOf };

    fn from_str(text: &str) -> Result<Ipv6Network, IpNetworkError> {
        let (address, prefix) = text::split_prefix(text)?;
        let address = Ipv6Addr::from_str(address).map_err(|_| IpNetworkError::InvalidAddr)?;
        Ipv6Network::new(address, text::read_prefix(prefix, 128)?)
    }
}

/// A network of either kind: an address and how many of its first bits all addresses of the network share.
///
///     let network: IpNetwork = "192.168.1.100/24".parse()?;
///     let inside: IpAddr = "192.168.1.255".parse()?;
///     assert!(rt; network.contains(inside), "{inside}");
#[derive(Clone, Copy, Debug, PartialEq, Eq)]
pub enum IpNetwork {
    /// An IPv4 network.
    V4(Ipv4Network),
    /// An IPv6 network.
    V6(Ipv6Network),
}

impl IpNetwork {
    ghost use Rattle.mmdb_net.specs.Network.{ip_of, prefix_of, block_of, full_text_of, short_text_of};

    /// The network of an address and a prefix of at most the number of its bits, 32 or 128.
    pub fn new(addr: IpAddr, prefix: u8) -> Result<IpNetwork, IpNetworkError>
        ensures ok { IsOk result ↔ (prefix ≤ address_width addr) }
        ensures ip { IfOk result (λ n. ip_of n ≡ addr) }
        ensures prefix { IfOk result (λ n. prefix_of n ≡ prefix) }
        ensures err { IfErr result (λ e. e ≡ IpNetworkError.InvalidPrefix) }
    {
        match addr {
            IpAddr::V4(addr) => Ok(IpNetwork::V4(Ipv4Network::new(addr, prefix)?)),
            IpAddr::V6(addr) => Ok(IpNetwork::V6(Ipv6Network::new(addr, prefix)?)),
        }
    }

    /// The first address of the network: the address as given, with the bits after the prefix
    /// cleared.
    pub fn network(&self) -> IpAddr
        ensures { IsMaskedIp (ip_of self.now) (prefix_of self.now) result }
    {
        match self {
            IpNetwork::V4(network) => IpAddr::V4(network.network()),
            IpNetwork::V6(network) => IpAddr::V6(network.network()),
        }
    }

    /// The address as it was given.
    pub fn ip(&self) -> IpAddr
        ensures { result ≡ ip_of self.now }
    {
        match self {
            IpNetwork::V4(network) => IpAddr::V4(network.ip()),
            IpNetwork::V6(network) => IpAddr::V6(network.ip()),
        }
    }

    /// How many first bits the addresses of the network share.
    pub fn prefix(&self) -> u8
        ensures value { result ≡ prefix_of self.now }
        ensures within { result ≤ address_width (ip_of self.now) }
    {
        match self {
            IpNetwork::V4(network) => network.prefix(),
            IpNetwork::V6(network) => network.prefix(),
        }
    }

    /// Whether the address is of the network's kind and begins with the bits of the network.
    pub fn contains(&self, addr: IpAddr) -> bool
        ensures { IsTrue result
            ↔ (IsSameKind addr (ip_of self.now)
            × IsPrefix (block_of self.now) (bits_of_address addr)) }
    {
        match (self, addr) {
            (IpNetwork::V4(network), IpAddr::V4(addr)) => network.contains(addr),
            (IpNetwork::V6(network), IpAddr::V6(addr)) => network.contains(addr),
            _ => false,
        }
    }
    /// The first address of the network in full, `/` and the prefix: an IPv4 address in dotted
    /// decimal, an IPv6 address as eight groups of four hexadecimal digits. Fails only when
    /// out of memory.
    pub fn full_text(&self, alloc: Global) -> Result<String, AllocError>
        ensures { IfOk result (λ text. string_bytes text ≡ full_text_of self.now) }
    {
        match self {
            IpNetwork::V4(network) => network.full_text(alloc),
            IpNetwork::V6(network) => network.full_text(alloc),
        }
    }

    /// Appends the full text, as `full_text` gives it. Fails only when out of memory.
    pub fn push_full_text(&self, out: &mut Vec<u8>) -> Result<(), AllocError>
        ensures { OnOk result (out.new.items ≡ out.old.items ++ full_text_of self.now) }
    {
        match self {
            IpNetwork::V4(network) => network.push_full_text(out),
            IpNetwork::V6(network) => network.push_full_text(out),
        }
    }

    /// Appends the text that `Display` writes, in fewer steps than it takes. Fails only when out of memory.
    pub fn push_text(&self, out: &mut Vec<u8>) -> Result<(), AllocError>
        ensures { OnOk result (out.new.items ≡ out.old.items ++ short_text_of self.now) }
    {
        match self {
            IpNetwork::V4(network) => network.push_text(out),
            IpNetwork::V6(network) => network.push_text(out),
        }
    }
}

impl Display for IpNetwork {
    ghost use Rattle.mmdb_net.specs.Network.{short_text_of};

    ghost output = { λ n. Some (short_text_of n) };

    fn fmt<W: fmt::Write>(&self, f: &mut fmt::Formatter<W>) -> fmt::Result {
        match self {
            IpNetwork::V4(network) => Display::fmt(network, f),
            IpNetwork::V6(network) => Display::fmt(network, f),
        }
    }
}

impl FromStr for IpNetwork {
    ghost use Rattle.mmdb_net.specs.NetworkText.{IsTextOf};

    type Err = IpNetworkError;

    ghost from_str_gives = { Parses IsTextOf };

    fn from_str(text: &str) -> Result<IpNetwork, IpNetworkError> {
        let (address, prefix) = text::split_prefix(text)?;
        let address = IpAddr::from_str(address).map_err(|_| IpNetworkError::InvalidAddr)?;
        let whole = text::address_bits(address);
        IpNetwork::new(address, text::read_prefix(prefix, whole)?)
    }
}
