//! The kinds of addresses.
ghost use Rattle.std.specs.Prelude.{◌≡◌};
ghost use Rattle.kube_types_address.specs.Addresses.{family};
ghost use Rattle.kube_types_address.specs.Kinds.{loopback, unspecified, multicast, link_local_multicast, link_local_unicast, broadcast, global_unicast};
ghost use Rattle.kube_types_address.specs.Shown.{address};

use crate::ip::KubeIP;
use std::net::IpAddr;

impl KubeIP {
    /// Returns 4 for an IPv4 address and 6 for an IPv6 address.
    pub fn family(&self) -> u8
        ensures { result ≡ family (address self.now) }
    {
        match self.address {
            IpAddr::V4(_) => 4,
            IpAddr::V6(_) => 6,
        }
    }

    /// Reports whether the address is in `127.0.0.0/8` or is `::1`.
    pub fn is_loopback(&self) -> bool
        ensures { result ≡ loopback (address self.now) }
    {
        match self.address {
            IpAddr::V4(ip) => ip.octets()[0] == 127,
            IpAddr::V6(ip) => ip.segments() == [0, 0, 0, 0, 0, 0, 0, 1],
        }
    }

    /// Reports whether the address is `0.0.0.0` or `::`.
    pub fn is_unspecified(&self) -> bool
        ensures { result ≡ unspecified (address self.now) }
    {
        match self.address {
            IpAddr::V4(ip) => ip.octets() == [0; 4],
            IpAddr::V6(ip) => ip.segments() == [0; 8],
        }
    }

    /// Reports whether the address is in `224.0.0.0/4` or `ff00::/8`.
    fn is_multicast(&self) -> bool
        ensures { result ≡ multicast (address self.now) }
    {
        match self.address {
            IpAddr::V4(ip) => matches!(ip.octets()[0], 224..=239),
            IpAddr::V6(ip) => matches!(ip.segments()[0], 0xff00..=0xffff),
        }
    }

    /// Reports whether the address is in `224.0.0.0/24`, or is an
    /// IPv6 multicast address of link-local scope, with any flags.
    pub fn is_link_local_multicast(&self) -> bool
        ensures { result ≡ link_local_multicast (address self.now) }
    {
        match self.address {
            IpAddr::V4(ip) => {
                let octets = ip.octets();
                octets[0] == 224 && octets[1] == 0 && octets[2] == 0
            }
            IpAddr::V6(ip) => ip.segments()[0] & 0xff0f == 0xff02,
        }
    }

    /// Reports whether the address is in `169.254.0.0/16` or `fe80::/10`.
    pub fn is_link_local_unicast(&self) -> bool
        ensures { result ≡ link_local_unicast (address self.now) }
    {
        match self.address {
            IpAddr::V4(ip) => {
                let octets = ip.octets();
                octets[0] == 169 && octets[1] == 254
            }
            IpAddr::V6(ip) => matches!(ip.segments()[0], 0xfe80..=0xfebf),
        }
    }

    /// Reports whether the address is `255.255.255.255`.
    fn is_broadcast(&self) -> bool
        ensures { result ≡ broadcast (address self.now) }
    {
        match self.address {
            IpAddr::V4(ip) => ip.octets() == [255; 4],
            IpAddr::V6(_) => false,
        }
    }

    /// Reports whether the address is none of these: loopback, unspecified, multicast
    /// (`224.0.0.0/4`, `ff00::/8`), link-local unicast, `255.255.255.255`.
    pub fn is_global_unicast(&self) -> bool
        ensures { result ≡ global_unicast (address self.now) }
    {
        !(self.is_loopback()
            || self.is_unspecified()
            || self.is_multicast()
            || self.is_link_local_unicast()
            || self.is_broadcast())
    }
}
