//! Laws of addresses and CIDRs. Each is the contract of a function that computes nothing. All but
//! the first two are about the definitions alone.
ghost use Rattle.std.specs.Prelude.{◌≡◌, ◌≤◌, ◌↔◌, ℕ, List, true, false, Result, Ok};
ghost use Rattle.kube_types_address.specs.Addresses.{Address, IsAddress, number, is_mapped};
ghost use Rattle.kube_types_address.specs.CidrTexts.{IsCidrAnswer, cidr_of, cidr_text};
ghost use Rattle.kube_types_address.specs.Networks.{network};
ghost use Rattle.kube_types_address.specs.Prefixes.{Network, IsNetwork, holds, encloses, masked_network};
ghost use Rattle.kube_types_address.specs.Shown.{address};
ghost use Rattle.kube_types_address.specs.Texts.{IsIpAnswer, address_text, canonical_of, ip_of};

use crate::{KubeCIDR, KubeIP};
use std::net::IpAddr;

/// A `KubeIP` holds an address: its parts are four numbers below 256, or eight below 65536.
pub fn a_value_is_an_address(ip: &KubeIP)
    ensures { IsAddress (address ip.now) }
{
    match ip.address {
        IpAddr::V4(ip) => {
            let _octets = ip.octets();
        }
        IpAddr::V6(ip) => {
            let _groups = ip.segments();
        }
    }
}

/// A `KubeCIDR` holds a network, so the laws below apply to it.
pub fn a_cidr_is_a_network(cidr: &KubeCIDR)
    ensures { IsNetwork (network cidr.now) }
{
    a_value_is_an_address(&cidr.ip());
}

/// Parsing an address has one right result: by the grammar, only that of `ip_of` is right.
pub fn a_text_has_one_answer()
    ensures { (text : List ℕ) (r : Result Address (List ℕ)) → IsIpAnswer text r ↔ (r ≡ ip_of text) }
{}

/// Parsing a CIDR has one right result: by the grammar, only that of `cidr_of` is right.
pub fn a_cidr_text_has_one_answer()
    ensures { (text : List ℕ) (r : Result Network (List ℕ)) → IsCidrAnswer text r ↔ (r ≡ cidr_of text) }
{}

/// Whatever parses is an address that isn't IPv4-mapped, or a
/// network of such addresses, so the laws below apply to it.
pub fn what_is_read_is_an_address()
    ensures address { (text : List ℕ) (a : Address)
        → ip_of text ≡ Ok a → IsAddress a × (is_mapped a ≡ false) }
    ensures network { (text : List ℕ) (c : Network)
        → cidr_of text ≡ Ok c → IsNetwork c × (is_mapped c.ip ≡ false) }
{}

/// A CIDR contains another exactly if every address of the other is one of its own.
pub fn containment_is_of_sets()
    ensures { (outer inner : Network) → IsNetwork outer → IsNetwork inner → (encloses outer inner ≡ true)
        ↔ ((a : Address) → IsAddress a → holds inner a ≡ true → holds outer a ≡ true) }
{}

/// Masking a masked CIDR doesn't change it.
pub fn masked_twice_is_masked_once()
    ensures { (c : Network) → IsNetwork c → masked_network (masked_network c) ≡ masked_network c }
{}

/// The masked address is the lowest in the set.
pub fn masked_is_the_least()
    ensures { (c : Network) → IsNetwork c → (holds c (masked_network c).ip ≡ true)
        × ((a : Address) → holds c a ≡ true → number (masked_network c).ip ≤ number a) }
{}

/// A printed address parses to the same address.
pub fn printed_addresses_mean_themselves()
    ensures { (a : Address) → IsAddress a → is_mapped a ≡ false → ip_of (address_text a) ≡ Ok a }
{}

/// A printed CIDR parses to the same CIDR.
pub fn printed_cidrs_mean_themselves()
    ensures { (c : Network) → IsNetwork c → is_mapped c.ip ≡ false → cidr_of (cidr_text c) ≡ Ok c }
{}

/// Of all texts of an address, only the printed one is canonical.
pub fn canonical_is_the_printed_text()
    ensures { (text : List ℕ) (a : Address) → ip_of text ≡ Ok a
        → (canonical_of text ≡ Ok true) ↔ (text ≡ address_text a) }
{}
