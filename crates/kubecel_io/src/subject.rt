//! The objects of documents.
ghost use Rattle.kubecel_io.specs.Objects.{identity_of, identity_view};
ghost use Rattle.serde_json.specs.View.{view};
ghost use Rattle.std.specs.Prelude.{◌≡◌};

use crate::objects::Identity;
use serde_json::Value;

/// An object of a document.
#[derive(Clone, Copy)]
pub struct Subject<'d> {
    /// The path of its file.
    pub file: &'d str,
    /// The index of its document in the file, counted from 0.
    pub index: usize,
    /// Whether its document is a list, of which it is an item.
    pub is_item: bool,
    pub value: &'d Value,
    /// The names that identify it.
    pub identity: Identity<'d>,
    ghost its_own: { identity_view identity ≡ identity_of (view value.now) },
}
