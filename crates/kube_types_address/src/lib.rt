//! IP addresses and CIDRs, as Kubernetes' policies parse, compare and print them.
//!
//! Sources: RFC 4291 and RFC 5952 for the texts of addresses, RFC 4632 for prefixes.
#![tactic(auto)]

mod bits;
mod canonical;
mod cidr;
mod ip;
mod kinds;
pub mod laws;

pub use cidr::KubeCIDR;
pub use ip::KubeIP;
