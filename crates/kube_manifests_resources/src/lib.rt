//! The resources of kinds: those of Kubernetes, and those of CustomResourceDefinitions.
#![tactic(auto)]

mod crd;
mod resources;
mod table;

pub use crd::{CrdResource, crd_resource_of, served_name};
pub use resources::{Builtin, GroupVersion, ResourceScope, builtin_named, builtin_of};
pub use table::builtins;
