//! The values of a schema: escaping of field names, conversion of JSON
//! values to CEL, and what it means to fill a value with defaults.
#![tactic(auto)]

pub mod binding;
pub mod bound_laws;
pub mod escaping;
pub mod filled_laws;
pub mod format;
pub mod name_laws;
pub mod names;
pub mod node;
pub mod resource;
pub mod unescaping;
pub mod values;

pub use binding::bind_at;
pub use escaping::{escape_field_name, is_its_own_escape};
pub use format::SchemaFormat;
pub use kube_types::Refused;
pub use names::MemberKeys;
pub use node::Node;
pub use unescaping::unescape_field_name;
pub use values::{bind_number, bind_plain, bind_plain_with, bind_text, put_entry, put_shared};

/// The greatest depth, in steps from the root, at which a schema is read.
pub const MAX_SCHEMA_DEPTH: usize = 64;
