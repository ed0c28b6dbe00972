//! Locations in a document, and their JSON Pointers (RFC 6901).
ghost use Rattle.kube_manifests_documents.specs.Faults.{member_item_pointer, item_member_pointer, pointer_at};
ghost use Rattle.std.specs.Prelude.{◌≡◌, IfOk, string_bytes};

use crate::pointer::{index_pointer, key_pointer};
use std::alloc::{AllocError, Global};

/// A location in a document. Pointers are JSON Pointers (RFC 6901).
#[derive(Clone, Copy, Drop)]
pub(crate) enum Location<'v> {
    /// The field of this name in the object at this pointer.
    Field(&'static str, &'v str),
    /// The item at this index in the list in such a field.
    FieldItem(&'static str, &'v str, usize),
    /// The item at this index in the list at this pointer.
    Item(&'static str, usize),
    /// A field of the item at this index in the list at this pointer.
    ItemField(&'static str, usize, &'v str),
}

/// Returns the pointer of an item of the list in a field.
fn field_item_pointer(
    alloc: Global,
    base: &str,
    name: &str,
    index: usize,
) -> Result<String, AllocError>
    ensures { IfOk result (λ s. string_bytes s ≡ member_item_pointer base.now name.now index) }
{
    let list = key_pointer(alloc, base, name)?;
    index_pointer(alloc, list.as_str(), index)
}

/// Returns the pointer of a field of an item.
fn item_field_pointer(
    alloc: Global,
    base: &str,
    index: usize,
    name: &str,
) -> Result<String, AllocError>
    ensures { IfOk result (λ s. string_bytes s ≡ item_member_pointer base.now index name.now) }
{
    let item = index_pointer(alloc, base, index)?;
    key_pointer(alloc, item.as_str(), name)
}

/// Returns the pointer of a location.
pub(crate) fn pointer_of(alloc: Global, location: Location<'_>) -> Result<String, AllocError>
    ensures { IfOk result (λ s. string_bytes s ≡ pointer_at location.entry) }
{
    match location {
        Location::Field(base, name) => key_pointer(alloc, base, name),
        Location::FieldItem(base, name, index) => field_item_pointer(alloc, base, name, index),
        Location::Item(base, index) => index_pointer(alloc, base, index),
        Location::ItemField(base, index, name) => item_field_pointer(alloc, base, index, name),
    }
}
