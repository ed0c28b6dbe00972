//! Kubernetes' resource quantities: exact decimal
//! numbers with suffixes, such as `1.5Gi` and `200m`.
//!
//! Source: the documentation of `Quantity` in `k8s.io/apimachinery/pkg/api/resource`.

mod integer;
pub mod laws;
mod normal;
mod order;
mod printing;
mod quantity;
mod reading;
mod scaling;

pub use integer::IntegerError;
pub use quantity::KubeQuantity;
