//! Addresses as numbers of 32 or 128 bits.
ghost use Rattle.std.specs.Prelude.{◌≡◌, ◌-◌, ◌*◌, ◌^◌, ◌<◌, ◌≤◌};
ghost use Rattle.kube_types_address.specs.Addresses.{width, number, with_number};
ghost use Rattle.kube_types_address.specs.Prefixes.{first_bits};
ghost use Rattle.kube_types_address.specs.Shown.{address};

use crate::ip::KubeIP;
use std::net::{IpAddr, Ipv4Addr, Ipv6Addr};

impl KubeIP {
    /// The number of bits in an address of this family.
    pub(crate) fn width(&self) -> u8
        ensures { result ≡ width (address self.now) }
    {
        match self.address {
            IpAddr::V4(_) => 32,
            IpAddr::V6(_) => 128,
        }
    }

    /// The address as a number.
    fn bits(&self) -> u128
        ensures value { result ≡ number (address self.now) }
        ensures below { result < 2 ^ width (address self.now) }
    {
        match self.address {
            IpAddr::V4(ip) => u128::from(u32::from_be_bytes(ip.octets())),
            IpAddr::V6(ip) => u128::from_be_bytes(ip.octets()),
        }
    }

    /// The address of the same family with this number.
    fn with_bits(&self, bits: u128) -> KubeIP
        requires { bits < 2 ^ width (address self.now) }
        ensures { address result ≡ with_number (address self.now) bits }
    {
        let address = match self.address {
            IpAddr::V4(_) => IpAddr::V4(Ipv4Addr::from_bits(bits as u32)),
            IpAddr::V6(_) => IpAddr::V6(Ipv6Addr::from_bits(bits)),
        };
        KubeIP { address }
    }

    /// The first `count` bits as a number.
    pub(crate) fn first_bits(&self, count: u8) -> u128
        ensures { result ≡ first_bits count (address self.now) }
    {
        self.bits()
            .unbounded_shr(u32::from(self.width().saturating_sub(count)))
    }

    /// The address with the same first `count` bits and all others 0.
    pub(crate) fn masked(&self, count: u8) -> KubeIP
        requires { count ≤ width (address self.now) }
        ensures { address result ≡ with_number (address self.now)
            (first_bits count (address self.now) * 2 ^ (width (address self.now) - count)) }
    {
        let host_bits = u32::from(self.width() - count);
        let first = self.bits().unbounded_shr(host_bits);
        self.with_bits(first.unbounded_shl(host_bits))
    }
}
