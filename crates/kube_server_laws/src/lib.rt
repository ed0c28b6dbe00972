//! *Server meaning*, and its laws. No crate stands on this one, and it has no calls.
#![tactic(auto)]

pub mod laws;
