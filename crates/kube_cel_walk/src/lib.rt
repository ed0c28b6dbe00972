//! The walk over the places that a schema and a value share, for every form of a
//! schema; the verdict of a rule whose names are bound; and the errors of a validation.
#![tactic(auto)]

pub mod copy;
pub mod error;
pub mod judge;
pub mod kept;
pub mod laws;
pub mod node;
pub mod path;
pub mod root;
pub mod rule_error;
pub mod state;
pub mod verdict;
pub mod walk;

pub use error::{ErrorKind, ValidationError, ValidationErrors};
pub use kept::KeptContext;
pub use node::Node;
pub use path::Path;
pub use root::RootContext;
pub use state::WalkState;
pub use walk::walk_node;
