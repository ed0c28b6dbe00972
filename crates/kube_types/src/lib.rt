//! The types that Kubernetes adds to CEL, and `Refused`, the outer error of every call that takes
//! memory.
//!
//! Resource quantities ([`KubeQuantity`]), IP addresses and CIDRs ([`KubeIP`], [`KubeCIDR`]),
//! versions ([`KubeSemver`]), URLs ([`KubeUrl`]) and named formats ([`KubeFormat`]). Where parsing
//! takes memory, the allocator is the first argument.
//!
//! ```rust
//! use kube_types::{KubeCIDR, KubeIP, KubeQuantity};
//!
//! /// Reports whether a request such as "500m" is within a limit such as "2".
//! /// None if one of them isn't a quantity.
//! fn is_within(request: &str, limit: &str) -> Option<bool> {
//!     let (request, limit) = (KubeQuantity::read(request)?, KubeQuantity::read(limit)?);
//!     Some(request <= limit)
//! }
//!
//! /// Reports whether an address is in a network, or why one of them doesn't parse.
//! fn is_member(network: &str, address: &str) -> Result<bool, &'static str> {
//!     Ok(KubeCIDR::read(network)?.contains_ip(KubeIP::read(address)?))
//! }
//! ```
//!
//! Proved: the result of each operation is that of its definition, which names its source (RFCs,
//! the documentation of Kubernetes, SemVer 2.0). The modules `*_laws` state theorems: the order of
//! quantities is total, a printed address parses to the same address, and more.
#![tactic(auto)]

mod quantities;
mod urls;
mod versions;

pub use kube_types_address::{KubeCIDR, KubeIP, laws as address_laws};
pub use kube_types_formats::{FormatKind, KubeFormat, laws as format_laws};
pub use kube_types_refused::Refused;
pub use quantities::{IntegerError, KubeQuantity, laws as quantity_laws};
pub use urls::{KubeUrl, laws as url_laws};
pub use versions::{KubeSemver, laws as semver_laws};
