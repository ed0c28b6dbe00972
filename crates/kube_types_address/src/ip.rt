//! `KubeIP`: parsing, printing and the kinds of addresses.
ghost use Rattle.std.specs.Prelude.{◌≡◌, Some, option_map};
ghost use Rattle.kube_types_address.specs.Addresses.{is_mapped};
ghost use Rattle.kube_types_address.specs.Shown.{address, ip_answer};
ghost use Rattle.kube_types_address.specs.Texts.{address_of, address_text, ip_of, IsIpAnswer};

use std::fmt;
use std::net::IpAddr;

/// An IPv4 or IPv6 address.
#[derive(Clone, Copy, Debug, PartialEq, Eq)]
pub struct KubeIP {
    pub(crate) address: IpAddr,
}

impl KubeIP {
    /// Parses an address. Takes no memory.
    ///
    /// IPv4: four numbers up to 255 without leading zeros. IPv6: RFC 4291, section 2.2.
    ///
    /// # Errors
    ///
    /// The message of the first of these errors: the text contains a `%`; its address is in
    /// `::ffff:0:0/96`; it doesn't parse as an address.
    pub fn read(text: &str) -> Result<KubeIP, &'static str>
        ensures value { ip_answer result ≡ ip_of text.now }
        ensures grammar { IsIpAnswer text.now (ip_answer result) }
    {
        KubeIP::read_ascii(text.as_bytes())
    }

    /// The same for bytes.
    #[tactic(auto, unfolding(crate::specs::Texts::ip_of))]
    fn read_ascii(text: &[u8]) -> Result<KubeIP, &'static str>
        ensures { ip_answer result ≡ ip_of text.now }
    {
        if text.contains(&b'%') {
            return Err("IP address with zone is not allowed");
        }
        match KubeIP::parse(text) {
            None => Err("invalid IP address"),
            Some(ip) if ip.is_ipv4_mapped() => Err("IPv4-mapped IPv6 addresses are not allowed"),
            Some(ip) => Ok(ip),
        }
    }

    /// Parses an address, including an IPv4-mapped one. None if the bytes don't parse.
    pub(crate) fn parse(text: &[u8]) -> Option<KubeIP>
        ensures { option_map address result ≡ address_of text.now }
    {
        match IpAddr::parse_ascii(text) {
            Ok(address) => Some(KubeIP { address }),
            Err(_) => None,
        }
    }

    /// Reports whether the address is in `::ffff:0:0/96`.
    pub(crate) fn is_ipv4_mapped(&self) -> bool
        ensures { result ≡ is_mapped (address self.now) }
    {
        match self.address {
            IpAddr::V4(_) => false,
            IpAddr::V6(ip) => ip.to_ipv4_mapped().is_some(),
        }
    }
}

/// Prints an IPv4 address as its octets, and an IPv6 address
/// by RFC 5952, section 4: in lower case, never dotted.
impl fmt::Display for KubeIP {
    ghost output = { λ ip. Some (address_text (address ip)) };

    fn fmt<W: fmt::Write>(&self, f: &mut fmt::Formatter<W>) -> fmt::Result {
        match self.address {
            IpAddr::V4(ip) => write!(f, "{ip}"),
            IpAddr::V6(ip) => {
                let groups = ip.hex_groups();
                write!(f, "{groups}")
            }
        }
    }
}
