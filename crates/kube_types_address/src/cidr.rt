//! `KubeCIDR`: parsing, printing and its set of addresses.
ghost use Rattle.std.specs.Char.{is_ascii_digit};
ghost use Rattle.std.specs.List.{list_all, position};
ghost use Rattle.std.specs.Option.{SomeIff};
ghost use Rattle.std.specs.Prelude.{◌≡◌, ◌↔◌, ◌^◌, ◌<◌, ◌≤◌, true, length, Some, IfSome, option_map};
ghost use Rattle.std.specs.Str.Parse.{digits_value};
ghost use Rattle.kube_types_address.specs.Addresses.{Address, IsAddress, family, width};
ghost use Rattle.kube_types_address.specs.CidrTexts.{around_slash, is_slash, is_plain, length_of, written_cidr, unmapped_cidr, cidr_of, cidr_text, IsCidrAnswer};
ghost use Rattle.kube_types_address.specs.Prefixes.{holds, encloses, masked_network};
ghost use Rattle.kube_types_address.specs.Shown.{address, part_texts};

use crate::ip::KubeIP;
use crate::laws::a_cidr_is_a_network;
use std::{fmt, str};

/// The addresses of one family whose first `prefix` bits are those of `written`.
#[derive(Clone, Copy, Debug, PartialEq, Eq)]
pub struct KubeCIDR {
    written: KubeIP,
    prefix: u8,
    ghost within: { prefix ≤ width (address written) },
}

impl KubeCIDR {
    ghost use Rattle.kube_types_address.specs.Networks.{network, cidr_answer};

    /// Parses a CIDR: an address, `/`, and the length of the prefix, which is at most 32 or 128 and
    /// has no sign and no leading zeros. Takes no memory.
    ///
    /// # Errors
    ///
    /// An error message if the address is in `::ffff:0:0/96`,
    /// and another one if the text doesn't parse.
    pub fn read(text: &str) -> Result<KubeCIDR, &'static str>
        ensures value { cidr_answer result ≡ cidr_of text.now }
        ensures grammar { IsCidrAnswer text.now (cidr_answer result) }
    {
        KubeCIDR::read_ascii(text.as_bytes())
    }

    /// The same for bytes.
    #[tactic(auto, unfolding(crate::specs::CidrTexts::cidr_of))]
    fn read_ascii(text: &[u8]) -> Result<KubeCIDR, &'static str>
        ensures { cidr_answer result ≡ cidr_of text.now }
    {
        match KubeCIDR::parse(text) {
            None => Err("invalid CIDR"),
            Some(cidr) => cidr.unless_mapped(),
        }
    }

    /// This CIDR, or an error if its addresses are IPv4-mapped.
    fn unless_mapped(self) -> Result<KubeCIDR, &'static str>
        ensures { cidr_answer result ≡ unmapped_cidr (Some (network self)) }
    {
        if self.ip().is_ipv4_mapped() {
            return Err("IPv4-mapped IPv6 in CIDR is not allowed");
        }
        Ok(self)
    }

    /// Parses a CIDR, including one of IPv4-mapped addresses. None if the bytes don't parse.
    #[tactic(auto, unfolding(crate::specs::CidrTexts::written_cidr))]
    fn parse(text: &[u8]) -> Option<KubeCIDR>
        ensures { option_map network result ≡ written_cidr text.now }
    {
        let (front, digits) = split_at_slash(text)?;
        let ip = KubeIP::parse(front)?;
        let prefix = read_length(digits, ip.width())?;
        Some(KubeCIDR {
            written: ip,
            prefix,
        })
    }

    /// The address as written, including the host bits.
    pub fn ip(&self) -> KubeIP
        ensures { result ≡ self.now.written }
    {
        self.written
    }

    /// The length of the prefix in bits.
    pub fn prefix_length(&self) -> u8
        ensures { result ≡ self.now.prefix }
    {
        self.prefix
    }

    /// Returns 4 for a CIDR of IPv4 addresses and 6 for one of IPv6 addresses.
    pub fn family(&self) -> u8
        ensures { result ≡ family (network self.now).ip }
    {
        self.ip().family()
    }

    /// The same set, written with its first address: the bits after the prefix are 0.
    pub fn masked(&self) -> KubeCIDR
        ensures { network result ≡ masked_network (network self.now) }
    {
        KubeCIDR {
            written: self.ip().masked(self.prefix_length()),
            prefix: self.prefix_length(),
        }
    }

    /// Reports whether the address is in the set.
    pub fn contains_ip(&self, ip: KubeIP) -> bool
        ensures { result ≡ holds (network self.now) (address ip) }
    {
        let count = self.prefix_length();
        self.family() == ip.family() && self.ip().first_bits(count) == ip.first_bits(count)
    }

    /// Reports whether every address of `inner` is in the set.
    pub fn contains_cidr(&self, inner: KubeCIDR) -> bool
        ensures value { result ≡ encloses (network self.now) (network inner) }
        ensures sets { (result ≡ true) ↔ ((a : Address) → IsAddress a → holds (network inner) a ≡ true
            → holds (network self.now) a ≡ true) }
    {
        a_cidr_is_a_network(self);
        a_cidr_is_a_network(&inner);
        self.contains_ip(inner.ip()) && self.prefix_length() <= inner.prefix_length()
    }
}

/// The offset of the first slash, or None if there is none.
fn first_slash(text: &[u8]) -> Option<usize>
    ensures value { result ≡ position is_slash text.now }
    ensures within { IfSome result (λ offset. offset < length text.now) }
{
    text.iter().position(|byte| *byte == b'/')
}

/// The text before and the text after the first slash, or None if there is none.
#[tactic(auto, using(crate::proofs::Cuts::around_by_offset), unfolding(crate::specs::CidrTexts::around_slash))]
fn split_at_slash(text: &[u8]) -> Option<(&[u8], &[u8])>
    ensures { part_texts result ≡ around_slash text.now }
{
    let offset = first_slash(text)?;
    Some((&text[..offset], &text[offset + 1..]))
}

fn all_digits(text: &[u8]) -> bool
    ensures { result ≡ list_all is_ascii_digit text.now }
{
    text.iter().all(|byte| byte.is_ascii_digit())
}

/// Reports whether the text is one or more decimal digits without a superfluous leading zero.
#[tactic(auto, unfolding(crate::specs::CidrTexts::is_plain))]
fn is_plain(digits: &[u8]) -> bool
    ensures { result ≡ is_plain digits.now }
{
    all_digits(digits) && !digits.is_empty() && (digits.len() < 2 || digits[0] != b'0')
}

/// The number that plain digits spell, or None if it doesn't fit in 8 bits.
fn parse_plain(digits: &[u8]) -> Option<u8>
    requires { is_plain digits.now ≡ true }
    ensures { SomeIff result (digits_value 10 digits.now < 2 ^ 8) (digits_value 10 digits.now) }
{
    match str::from_utf8(digits) {
        Ok(text) => text.parse().ok(),
        Err(_) => None,
    }
}

/// The number that the digits spell, or None if they aren't plain or it is above `most`.
#[tactic(auto, using(crate::proofs::Cuts::length_not_plain, crate::proofs::Cuts::length_large, crate::proofs::Cuts::length_above, crate::proofs::Cuts::length_known))]
fn read_length(digits: &[u8], most: u8) -> Option<u8>
    ensures value { result ≡ length_of most digits.now }
    ensures within { IfSome result (λ n. n ≤ most) }
{
    if !is_plain(digits) {
        return None;
    }
    let number = parse_plain(digits)?;
    if number <= most { Some(number) } else { None }
}

/// Prints the address as written, `/` and the length of the prefix.
impl fmt::Display for KubeCIDR {
    ghost use Rattle.kube_types_address.specs.Networks.{network};

    ghost output = { λ c. Some (cidr_text (network c)) };

    fn fmt<W: fmt::Write>(&self, f: &mut fmt::Formatter<W>) -> fmt::Result {
        let ip = self.ip();
        let prefix_length = self.prefix_length();
        write!(f, "{ip}/{prefix_length}")
    }
}
