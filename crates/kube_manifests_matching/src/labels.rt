//! Whether labels meet a selector.
ghost use Rattle.kube_manifests_bindings.specs.Selectors.{requirement_view, selector_view};
ghost use Rattle.kube_manifests_matching.specs.Labels.{can_have_labels, has_label, has_labels, has_no_item, has_no_member, has_text, is_empty, is_one_of, is_same, is_text, label, labels_of, meets, meets_all, selects};
ghost use Rattle.serde_json.specs.View.{items_view, members_view, view};
ghost use Rattle.std.specs.Prelude.{◌≡◌, option_map};

use kube_manifests_bindings::{Operator, Requirement, Selector};
use serde_json::{Map as Members, Value};

/// The labels of an object that has any.
pub fn labels_of(object: &Value) -> Option<&Value>
    ensures { option_map (λ v. view v.now) result ≡ labels_of (view object.now) }
{
    object.get("metadata")?.get("labels")
}

/// Reports whether an object can have labels. One without metadata can't.
pub(crate) fn can_have_labels(object: &Value) -> bool
    ensures { result ≡ can_have_labels (view object.now) }
{
    match object.get("metadata") {
        Some(Value::Object(_)) => true,
        _ => false,
    }
}

/// The value of the label of a key, if there is one.
fn label<'v>(labels: Option<&'v Value>, key: &str) -> Option<&'v str>
    ensures { option_map (λ s. s.now) result
        ≡ label (option_map (λ v. view v.now) labels.entry) key.now }
{
    labels?.get(key)?.as_str()
}

/// Reports whether there is a text, and it is this one.
fn is_text(text: &str, found: Option<&str>) -> bool
    ensures { result ≡ is_text text.now (option_map (λ s. s.now) found.entry) }
{
    match found {
        Some(found) => found == text,
        None => false,
    }
}

/// Reports whether a text is one of the strings of a list.
pub(crate) fn has_text(items: &[Value], text: &str) -> bool
    ensures { result ≡ has_text (items_view items.now) text.now }
{
    for item in items {
        if is_text(text, item.as_str()) {
            return true;
        }
    }
    false
}

/// Reports whether there is a value, and it is one of these.
fn is_one_of(values: &[Value], found: Option<&str>) -> bool
    ensures { result ≡ is_one_of (items_view values.now) (option_map (λ s. s.now) found.entry) }
{
    match found {
        Some(value) => has_text(values, value),
        None => false,
    }
}

/// Reports whether labels meet a requirement.
fn meets(labels: Option<&Value>, requirement: Requirement<'_>) -> bool
    ensures { result
        ≡ meets (option_map (λ v. view v.now) labels.entry) (requirement_view requirement.entry) }
{
    let found = label(labels, requirement.key);
    match requirement.operator {
        Operator::In => is_one_of(requirement.values, found),
        Operator::NotIn => !is_one_of(requirement.values, found),
        Operator::Exists => found.is_some(),
        Operator::DoesNotExist => !found.is_some(),
    }
}

/// Reports whether labels meet all requirements.
fn meets_all(labels: Option<&Value>, requirements: &[Value]) -> bool
    ensures { result
        ≡ meets_all (option_map (λ v. view v.now) labels.entry) (items_view requirements.now) }
{
    for value in requirements {
        if !meets(labels, Requirement::of(value)) {
            return false;
        }
    }
    true
}

/// Reports whether there are two texts, and they are the same.
fn is_same(wanted: Option<&str>, found: Option<&str>) -> bool
    ensures { result
        ≡ is_same (option_map (λ s. s.now) wanted.entry) (option_map (λ s. s.now) found.entry) }
{
    match wanted {
        Some(text) => is_text(text, found),
        None => false,
    }
}

/// Reports whether the label of a key has this value.
fn has_label(labels: Option<&Value>, key: &str, value: &Value) -> bool
    ensures { result ≡ has_label (option_map (λ v. view v.now) labels.entry) key.now (view value.now) }
{
    is_same(value.as_str(), label(labels, key))
}

/// Reports whether labels have each of these.
fn has_labels(labels: Option<&Value>, wanted: &Members<String, Value>) -> bool
    ensures { result
        ≡ has_labels (option_map (λ v. view v.now) labels.entry) (members_view wanted.now.entries) }
{
    for (key, value) in wanted.iter() {
        if !has_label(labels, key.as_str(), value) {
            return false;
        }
    }
    true
}

/// Reports whether a selector selects what has these labels.
pub fn selects(selector: Selector<'_>, labels: Option<&Value>) -> bool
    ensures { result
        ≡ selects (selector_view selector.entry) (option_map (λ v. view v.now) labels.entry) }
{
    match selector.labels() {
        Some(wanted) => { has_labels(labels, wanted) && meets_all(labels, selector.requirements()) }
        None => meets_all(labels, selector.requirements()),
    }
}

fn has_no_member(members: &Members<String, Value>) -> bool
    ensures { result ≡ has_no_member (members_view members.now.entries) }
{
    members.len() == 0
}

pub(crate) fn has_no_item(items: &[Value]) -> bool
    ensures { result ≡ has_no_item (items_view items.now) }
{
    items.is_empty()
}

/// Reports whether a selector is empty, and so selects everything.
pub fn is_empty(selector: Selector<'_>) -> bool
    ensures { result ≡ is_empty (selector_view selector.entry) }
{
    match selector.labels() {
        Some(wanted) => has_no_member(wanted) && has_no_item(selector.requirements()),
        None => has_no_item(selector.requirements()),
    }
}
