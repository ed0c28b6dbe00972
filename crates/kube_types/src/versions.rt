//! Versions by SemVer 2.0, as Kubernetes reads and orders them.
//!
//! Source: <https://semver.org>, and the CEL library
//! `Semver` in `k8s.io/apiserver/pkg/cel/library`.

pub mod laws;
mod order;
mod reading;
mod version;

pub use version::KubeSemver;
