//! The objects of a document, and their identities.
ghost use Rattle.kubecel_io.specs.Objects.{group_in, identity_of, identity_view, is_named, is_same, metadata_at, text_at};
ghost use Rattle.serde_json.specs.View.{view};
ghost use Rattle.std.specs.Prelude.{◌≡◌};

use serde_json::Value;

/// The names that identify an object.
#[derive(Clone, Copy)]
pub struct Identity<'v> {
    pub group: &'v str,
    pub kind: &'v str,
    pub namespace: &'v str,
    pub name: &'v str,
}

/// Returns the string in a member. Empty if there is none.
pub fn text_at<'v>(value: &'v Value, key: &str) -> &'v str
    ensures { result.now ≡ text_at key.now (view value.now) }
{
    match value.get(key) {
        Some(Value::String(text)) => text.as_str(),
        Some(_) | None => "",
    }
}

/// The string in a member of `metadata`. Empty if there is none.
fn metadata_at<'v>(value: &'v Value, key: &str) -> &'v str
    ensures { result.now ≡ metadata_at key.now (view value.now) }
{
    match value.get("metadata") {
        Some(metadata) => text_at(metadata, key),
        None => "",
    }
}

/// The group in an apiVersion. Empty if it has none.
fn group_in(text: &str) -> &str
    ensures { result.now ≡ group_in text.now }
{
    match text.split_once('/') {
        Some((group, _)) => group,
        None => "",
    }
}

impl<'v> Identity<'v> {
    /// Returns the identity of an object.
    pub fn of(object: &'v Value) -> Identity<'v>
        ensures { identity_view result ≡ identity_of (view object.now) }
    {
        Identity {
            group: group_in(text_at(object, "apiVersion")),
            kind: text_at(object, "kind"),
            namespace: metadata_at(object, "namespace"),
            name: metadata_at(object, "name"),
        }
    }

    /// Reports whether the object has a name. Without one it has no identity yet.
    pub fn is_named(&self) -> bool
        ensures { result ≡ is_named (identity_view self.now) }
    {
        !self.name.is_empty()
    }

    /// Reports whether the names of two objects are the same. The version isn't compared.
    pub fn is_same(&self, other: &Identity<'_>) -> bool
        ensures { result ≡ is_same (identity_view self.now) (identity_view other.now) }
    {
        self.name == other.name
            && self.namespace == other.namespace
            && self.kind == other.kind
            && self.group == other.group
    }
}
