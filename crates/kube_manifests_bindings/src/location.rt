//! Locations in a document, and their JSON Pointers (RFC 6901).
ghost use Rattle.kube_manifests_bindings.specs.Faults.{place_pointer, pointer_at};
ghost use Rattle.kube_manifests_documents.specs.Pointers.{key_pointer};
ghost use Rattle.std.specs.Prelude.{◌≡◌, IfOk, string_bytes};

use kube_manifests_documents::{index_pointer, key_pointer, keyword_pointer};
use std::alloc::{AllocError, Global};

/// Where an object of a document is. Pointers are JSON Pointers (RFC 6901).
#[derive(Clone, Copy, Drop)]
pub(crate) enum Place {
    /// The value at this pointer.
    At(&'static str),
    /// The value of this keyword in the object at this pointer.
    Member(&'static str, &'static str),
    /// The item at this index in the list of this keyword in the object at this pointer.
    Item(&'static str, &'static str, usize),
}

/// A location in a document.
#[derive(Clone, Copy, Drop)]
pub(crate) enum Location<'v> {
    /// The object itself.
    Whole(Place),
    /// The field of this name.
    Field(Place, &'v str),
    /// The item at this index in the list in such a field.
    FieldItem(Place, &'v str, usize),
}

/// Returns the pointer of a place.
fn place_pointer(alloc: Global, place: Place) -> Result<String, AllocError>
    ensures { IfOk result (λ s. string_bytes s ≡ place_pointer place) }
{
    match place {
        Place::At(pointer) => String::from_str(alloc, pointer),
        Place::Member(pointer, keyword) => keyword_pointer(alloc, pointer, keyword),
        Place::Item(pointer, keyword, index) => {
            let list = keyword_pointer(alloc, pointer, keyword)?;
            index_pointer(alloc, list.as_str(), index)
        }
    }
}

/// Returns the pointer of a field of the object at a place.
fn field_pointer(alloc: Global, place: Place, name: &str) -> Result<String, AllocError>
    ensures { IfOk result (λ s. string_bytes s ≡ key_pointer (place_pointer place) name.now) }
{
    let object = place_pointer(alloc, place)?;
    key_pointer(alloc, object.as_str(), name)
}

/// Returns the pointer of a location.
pub(crate) fn pointer_of(alloc: Global, location: Location<'_>) -> Result<String, AllocError>
    ensures { IfOk result (λ s. string_bytes s ≡ pointer_at location.entry) }
{
    match location {
        Location::Whole(place) => place_pointer(alloc, place),
        Location::Field(place, name) => field_pointer(alloc, place, name),
        Location::FieldItem(place, name, index) => {
            let list = field_pointer(alloc, place, name)?;
            index_pointer(alloc, list.as_str(), index)
        }
    }
}
