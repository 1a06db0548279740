//! Laws of networks, each the contract of a function that does nothing.
ghost use Rattle.mmdb_net.specs.Clones.{IsCloneSame, NeverFails};
ghost use Rattle.mmdb_net.specs.Equality.{EqualWhereSame, EqualWhereIdentical};
ghost use Rattle.mmdb_net.specs.Network.{ipv4_ip_of, ipv4_prefix_of, ipv6_ip_of, ipv6_prefix_of, ip_of, prefix_of};

use crate::error::IpNetworkError;
use crate::network::{IpNetwork, Ipv4Network, Ipv6Network};

/// Networks are equal exactly where their addresses, as they were given, and their prefixes are; errors
/// are equal where they are the same one.
pub fn networks_equal_where_same()
    ensures ipv4 { EqualWhereSame ipv4_ip_of ipv4_prefix_of ⟦<Ipv4Network as PartialEq>⟧.eq }
    ensures ipv6 { EqualWhereSame ipv6_ip_of ipv6_prefix_of ⟦<Ipv6Network as PartialEq>⟧.eq }
    ensures either { EqualWhereSame ip_of prefix_of ⟦<IpNetwork as PartialEq>⟧.eq }
    ensures errors { EqualWhereIdentical ⟦<IpNetworkError as PartialEq>⟧.eq }
{}

/// A clone of a network, or of an error, is its source, and never fails.
pub fn network_clones_are_same()
    ensures ipv4 { IsCloneSame ⟦<Ipv4Network as Clone>⟧.is_clone }
    ensures ipv6 { IsCloneSame ⟦<Ipv6Network as Clone>⟧.is_clone }
    ensures either { IsCloneSame ⟦<IpNetwork as Clone>⟧.is_clone }
    ensures errors { IsCloneSame ⟦<IpNetworkError as Clone>⟧.is_clone }
    ensures ipv4_given { NeverFails ⟦<Ipv4Network as Clone>⟧.is_infallible }
    ensures ipv6_given { NeverFails ⟦<Ipv6Network as Clone>⟧.is_infallible }
    ensures either_given { NeverFails ⟦<IpNetwork as Clone>⟧.is_infallible }
    ensures errors_given { NeverFails ⟦<IpNetworkError as Clone>⟧.is_infallible }
{}
