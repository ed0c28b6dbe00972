//! Kubernetes' named formats: the faults of a text as a DNS label,
//! a qualified name, a URI, a UUID, Base64, a date or a date-time.
#![tactic(auto)]

mod base64;
mod dates;
mod dns;
mod fault;
mod format;
mod forms;
mod kind;
pub mod laws;
mod names;
mod offsets;
mod report;
mod uris;

pub use format::KubeFormat;
pub use kind::FormatKind;
