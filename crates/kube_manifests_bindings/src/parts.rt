//! What is in documents that have the shape of their type.
ghost use Rattle.kube_manifests_bindings.specs.Fields.{items_in, text_in};
ghost use Rattle.serde_json.specs.Find.{get};
ghost use Rattle.serde_json.specs.View.{items_view, view};
ghost use Rattle.std.specs.Prelude.{◌≡◌};

use serde_json::Value;

/// The items of the list in a field. None if there is no list.
pub(crate) fn items_in<'v>(value: &'v Value, name: &str) -> &'v [Value]
    ensures { items_view result.now ≡ items_in (get name.now (view value.now)) }
{
    match value.get(name) {
        Some(Value::Array(items)) => items.as_slice(),
        _ => &[],
    }
}

/// The string in a field. Empty if there is no string.
pub(crate) fn text_in<'v>(value: &'v Value, name: &str) -> &'v str
    ensures { result.now ≡ text_in (get name.now (view value.now)) }
{
    match value.get(name) {
        Some(Value::String(text)) => text.as_str(),
        _ => "",
    }
}
