//! The input of `kubecel`: reads the JSON documents in the files that a command names, and says which
//! files aren't used.
#![tactic(auto)]

mod cut;
mod documents;
mod fault;
mod keys;
mod objects;
mod olds;
mod sources;
mod stops;
mod subject;
mod subjects;
mod unique;

pub use documents::documents_of;
pub use fault::{Fault, FaultKind};
pub use kube_types_refused::Refused;
pub use objects::{Identity, text_at};
pub use olds::OldObjects;
pub use sources::{Contents, Document, Sources, Stop, add_items, read_documents, read_files};
pub use stops::{write_stop, write_stopped};
pub use subject::Subject;
pub use subjects::{add_objects, objects_among, objects_of, whole_documents};
