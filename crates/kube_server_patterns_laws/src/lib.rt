//! Laws of what `kube_server_patterns` writes.
#![tactic(auto)]

pub mod laws;
