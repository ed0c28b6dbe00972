//! Kubernetes' functions on its own types: quantities, IP
//! addresses and CIDRs, versions, URLs and named formats.
//!
//! Each function returns an `Answer`: a value, or the error that the call evaluates to, such as
//! `no such overload` for operands of other kinds. `Refused` is returned if memory is refused.
//!
//! Source: the CEL libraries in `k8s.io/apiserver/pkg/cel/library`.
#![tactic(auto)]

mod answers;
pub mod cidr;
pub mod ip;
pub mod named_format;
pub mod order;
pub mod quantity;
pub mod semver_functions;
pub mod strings;
pub mod url_functions;
