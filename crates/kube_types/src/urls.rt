//! URLs and absolute paths, as Kubernetes reads them in CEL rules.
//!
//! Source: the CEL library `URLs` in `k8s.io/apiserver/pkg/cel/library`,
//! and the URL Standard, <https://url.spec.whatwg.org>.

mod kube_url;
pub mod laws;
mod parts;
mod query;
mod reading;

pub use kube_url::KubeUrl;
