//! The schema side of Kubernetes' validation rules: parsing and
//! compiling the rules of a node, filling values with defaults,
//! converting JSON values to CEL by their schemas, and compiled schemas.
//!
//! ```rust
//! use kube_schema::{Refused, compile_schema};
//! use serde_json::Value;
//! use std::alloc::Global;
//!
//! /// Returns the number of nodes of a schema, and the number of malformed rules at its root.
//! fn counted(alloc: Global, schema: &Value) -> Result<(usize, usize), Refused> {
//!     let compiled = compile_schema(alloc, schema)?;
//!     let errors = compiled.compilation_errors(alloc)?.len();
//!     Ok((compiled.node_count(), errors))
//! }
//! ```
//!
//! [`apply_defaults`] and [`bind`] take a schema as JSON, and compile it at each call.
//! Calls that allocate take the allocator first, and return [`Refused`] if memory is refused.
//!
//! Proved: rules, names, bound and filled values are what their definitions say, and the
//! nodes of a compiled schema are the tree of its schema. Laws: filling twice is filling
//! once; schema and tree fill and bind alike; different names have different escapes.
#![tactic(auto)]

pub mod binding;
mod compile;
mod defaults;
mod keywords;
pub mod laws;
mod no_rules;
mod node;
mod node_keywords;
mod nodes;
mod reached;
mod reading;
mod sharing;
mod source;
mod table;
pub mod table_laws;

pub use binding::{bind, bind_node, bind_node_part, rebind_node_part};
pub use compile::{compile_on_demand, compile_schema, read_schema};
pub use defaults::{apply_defaults, fill_node};
pub use kube_schema_rules::{
    BranchKind, CompilationError, CompilationResult, Demands, Rule, RuleFault, compile_rule,
    laws as rule_laws, rule_values, rules_of,
};
pub use kube_schema_values::{
    MAX_SCHEMA_DEPTH, SchemaFormat, bind_plain, bind_text, bound_laws, escape_field_name,
    filled_laws, name_laws, unescape_field_name,
};
pub use kube_types::Refused;
pub use node::{CompiledSchema, SchemaNode};
pub use node_keywords::NodeKeywords;
pub use nodes::Keywords;
pub use reached::compile_reached;
pub use reading::ReadKeywords;
pub use sharing::filled_by_node;
pub use source::SourceKeywords;

/// The number of levels of a schema that are read: depths 0 to 64.
pub(crate) const LEVELS: usize = MAX_SCHEMA_DEPTH + 1;
