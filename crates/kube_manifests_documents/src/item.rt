//! Reads the lists of a policy and their entries from JSON.
ghost use Rattle.kube_manifests_documents.specs.Faults.{pointer_at};
ghost use Rattle.kube_manifests_documents.specs.Pointers.{index_pointer};
ghost use Rattle.kube_manifests_documents.specs.Policies.{HasNames, base, entries_after, entry_of, entry_reason, entry_text, expression_key, fields, is_unique, item_view, keyword, label_key, next_entry, one_of, optional_one, reading_view, required_entry_text, required_one, required_text, text_of, unknown_field, unless_unknown};
ghost use Rattle.serde_json.specs.Find.{get};
ghost use Rattle.serde_json.specs.View.{items_view, view};
ghost use Rattle.std.specs.BTreeSet.{contains_text};
ghost use Rattle.std.specs.Prelude.{◌≡◌, ◌&&◌, ◌||◌, [], ℕ, IfOk, is_some, length, List, map, OnOk, option_map, true};
ghost use Rattle.std.specs.Str.{bytes_eq};

use crate::fault::{Found, Problem};
use crate::location::Location;
use kube_manifests_texts::{insert_text, is_word};
use serde_json::Value;
use std::alloc::{AllocError, Global};
use std::collections::BTreeSet;

/// The reasons that a validation may give.
const REASONS: [&str; 4] = [
    "Unauthorized",
    "Forbidden",
    "Invalid",
    "RequestEntityTooLarge",
];

/// A list of a policy's `spec`.
#[derive(Clone, Copy, Drop)]
pub(crate) enum PolicyList {
    MatchConditions,
    Variables,
    Validations,
    AuditAnnotations,
}

impl PolicyList {
    /// The field of `spec` that holds the list.
    pub(crate) fn keyword(self) -> &'static str
        ensures { result.now ≡ keyword self }
    {
        match self {
            PolicyList::MatchConditions => "matchConditions",
            PolicyList::Variables => "variables",
            PolicyList::Validations => "validations",
            PolicyList::AuditAnnotations => "auditAnnotations",
        }
    }

    /// The list's JSON Pointer.
    fn base(self) -> &'static str
        ensures { result.now ≡ base self }
    {
        match self {
            PolicyList::MatchConditions => "/spec/matchConditions",
            PolicyList::Variables => "/spec/variables",
            PolicyList::Validations => "/spec/validations",
            PolicyList::AuditAnnotations => "/spec/auditAnnotations",
        }
    }

    /// The field that names an entry.
    fn label_key(self) -> &'static str
        ensures { result.now ≡ label_key self }
    {
        match self {
            PolicyList::MatchConditions => "name",
            PolicyList::Variables => "name",
            PolicyList::Validations => "expression",
            PolicyList::AuditAnnotations => "key",
        }
    }

    /// The field with an entry's expression.
    fn expression_key(self) -> &'static str
        ensures { result.now ≡ expression_key self }
    {
        match self {
            PolicyList::MatchConditions => "expression",
            PolicyList::Variables => "expression",
            PolicyList::Validations => "expression",
            PolicyList::AuditAnnotations => "valueExpression",
        }
    }

    /// The fields of an entry.
    fn fields(self) -> &'static [&'static str]
        ensures { map (λ s. s.now) result.now ≡ fields self }
    {
        match self {
            PolicyList::MatchConditions => &["name", "expression"],
            PolicyList::Variables => &["name", "expression"],
            PolicyList::Validations => &["expression", "message", "reason", "messageExpression"],
            PolicyList::AuditAnnotations => &["key", "valueExpression"],
        }
    }

    /// Reports whether no two entries may have the same name.
    fn is_unique(self) -> bool
        ensures { result ≡ is_unique self }
    {
        match self {
            PolicyList::MatchConditions => true,
            PolicyList::Variables => true,
            PolicyList::Validations => false,
            PolicyList::AuditAnnotations => true,
        }
    }
}

/// An entry of a list of a policy.
#[derive(Clone, Copy, Drop)]
pub struct Item<'v> {
    /// Its index in the list, counted from 0.
    pub index: usize,
    /// The entry's name: for a validation the source of its expression, for an audit annotation its
    /// key.
    pub label: &'v str,
    /// The CEL source of the entry's expression.
    pub expression: &'v str,
    /// The `message` of a validation, reported if it is false.
    pub message: Option<&'v str>,
    /// The CEL source of the validation's `messageExpression`.
    pub message_expression: Option<&'v str>,
}

/// The string in a field. `None` if the field is missing or null; a fault if it is not a string.
pub(crate) fn text_at<'v>(
    value: &'v Value,
    name: &'static str,
    location: Location<'v>,
) -> Result<Option<&'v str>, Found<'v>>
    ensures { reading_view (option_map (λ s. s.now)) result
        ≡ text_of (pointer_at location.entry) (get name.now (view value.now)) }
{
    match value.get(name) {
        None | Some(Value::Null) => Ok(None),
        Some(Value::String(text)) => Ok(Some(text.as_str())),
        Some(_) => Err(Found {
            location,
            problem: Problem::NotString,
        }),
    }
}

/// The string in a required field.
pub(crate) fn required_text_at<'v>(
    value: &'v Value,
    name: &'static str,
    location: Location<'v>,
) -> Result<&'v str, Found<'v>>
    ensures { reading_view (λ s. s.now) result
        ≡ required_text (pointer_at location.entry) (get name.now (view value.now)) }
{
    match text_at(value, name, location)? {
        Some(text) => Ok(text),
        None => Err(Found {
            location,
            problem: Problem::Missing,
        }),
    }
}

/// A string, which must be one of these.
fn one_of<'v>(
    text: &'v str,
    known: &'static [&'static str],
    location: Location<'v>,
) -> Result<&'v str, Found<'v>>
    ensures { reading_view (λ s. s.now) result
        ≡ one_of (pointer_at location.entry) (map (λ s. s.now) known.now) text.now }
{
    if is_word(known, text) {
        return Ok(text);
    }
    Err(Found {
        location,
        problem: Problem::Unsupported(text, known),
    })
}

/// The string in a required field, which must be one of these.
pub(crate) fn required_one_at<'v>(
    value: &'v Value,
    name: &'static str,
    known: &'static [&'static str],
    location: Location<'v>,
) -> Result<&'v str, Found<'v>>
    ensures { reading_view (λ s. s.now) result
        ≡ required_one (pointer_at location.entry) (map (λ s. s.now) known.now) (get name.now (view value.now)) }
{
    one_of(required_text_at(value, name, location)?, known, location)
}

/// The string in a field, if any, which must be one of these.
pub(crate) fn optional_one_at<'v>(
    value: &'v Value,
    name: &'static str,
    known: &'static [&'static str],
    location: Location<'v>,
) -> Result<Option<&'v str>, Found<'v>>
    ensures { reading_view (option_map (λ s. s.now)) result
        ≡ optional_one (pointer_at location.entry) (map (λ s. s.now) known.now) (get name.now (view value.now)) }
{
    match text_at(value, name, location)? {
        None => Ok(None),
        Some(text) => Ok(Some(one_of(text, known, location)?)),
    }
}

/// The first field of an object that is none of these, if any.
fn unknown_field<'v>(value: &'v Value, known: &[&str]) -> Option<&'v str>
    ensures { option_map (λ s. s.now) result
        ≡ unknown_field (map (λ s. s.now) known.now) (view value.now) }
{
    let members = value.as_object()?;
    for (name, _) in members.iter() {
        if !is_word(known, name.as_str()) {
            return Some(name.as_str());
        }
    }
    None
}

/// Reports whether an object has a field that is none of these.
pub(crate) fn has_unknown_field(value: &Value, known: &[&str]) -> bool
    ensures { result ≡ is_some (unknown_field (map (λ s. s.now) known.now) (view value.now)) }
{
    unknown_field(value, known).is_some()
}

/// Checks that the object at the pointer `base` has no field but these.
pub(crate) fn check_known<'v>(
    base: &'static str,
    value: &'v Value,
    known: &'static [&'static str],
) -> Result<(), Found<'v>>
    ensures { reading_view (λ _. view value.now) result
        ≡ unless_unknown base.now (map (λ s. s.now) known.now) (view value.now) }
{
    match unknown_field(value, known) {
        None => Ok(()),
        Some(name) => Err(Found {
            location: Location::Field(base, name),
            problem: Problem::UnknownField(name, known),
        }),
    }
}

/// The string in a field of the entry at `index`, if any.
fn entry_text<'v>(
    list: PolicyList,
    index: usize,
    value: &'v Value,
    name: &'static str,
) -> Result<Option<&'v str>, Found<'v>>
    ensures { reading_view (option_map (λ s. s.now)) result
        ≡ entry_text list index (view value.now) name.now }
{
    text_at(value, name, Location::ItemField(list.base(), index, name))
}

/// The string in a required field of the entry at `index`.
fn required_entry_text<'v>(
    list: PolicyList,
    index: usize,
    value: &'v Value,
    name: &'static str,
) -> Result<&'v str, Found<'v>>
    ensures { reading_view (λ s. s.now) result ≡ required_entry_text list index (view value.now) name.now }
{
    required_text_at(value, name, Location::ItemField(list.base(), index, name))
}

/// Checks that the entry at `index` has no field but those of the list's entries.
fn check_fields(list: PolicyList, index: usize, value: &Value) -> Result<(), Found<'_>>
    ensures { reading_view (λ _. view value.now) result
        ≡ unless_unknown (index_pointer (base list) index) (fields list) (view value.now) }
{
    let known = list.fields();
    match unknown_field(value, known) {
        None => Ok(()),
        Some(name) => Err(Found {
            location: Location::ItemField(list.base(), index, name),
            problem: Problem::UnknownField(name, known),
        }),
    }
}

/// The `reason` of the validation at `index`, if any.
fn entry_reason(list: PolicyList, index: usize, value: &Value) -> Result<Option<&str>, Found<'_>>
    ensures { reading_view (option_map (λ s. s.now)) result ≡ entry_reason list index (view value.now) }
{
    let location = Location::ItemField(list.base(), index, "reason");
    optional_one_at(value, "reason", &REASONS, location)
}

/// Reads the entry at `index`.
#[tactic(auto, unfolding(crate::specs::Policies::entry_of))]
fn entry_of(list: PolicyList, index: usize, value: &Value) -> Result<Item<'_>, Found<'_>>
    ensures { reading_view item_view result ≡ entry_of list index (view value.now) }
{
    check_fields(list, index, value)?;
    let label = required_entry_text(list, index, value, list.label_key())?;
    let expression = required_entry_text(list, index, value, list.expression_key())?;
    let message = entry_text(list, index, value, "message")?;
    let message_expression = entry_text(list, index, value, "messageExpression")?;
    entry_reason(list, index, value)?;
    Ok(Item {
        index,
        label,
        expression,
        message,
        message_expression,
    })
}

/// Adds the name of an entry of a list to a set, if names of the list must differ.
fn add_name(
    alloc: Global,
    list: PolicyList,
    name: &str,
    names: &mut BTreeSet<String>,
) -> Result<(), AllocError>
    ensures added { OnOk result (is_unique list ≡ true → (x : List ℕ)
        → contains_text names.new x ≡ (contains_text names.old x || bytes_eq x name.now)) }
{
    if !list.is_unique() {
        return Ok(());
    }
    insert_text(alloc, name, names)
}

/// Reports whether a name is that of an earlier entry, where names must differ.
fn is_repeated(list: PolicyList, names: &BTreeSet<String>, label: &str) -> bool
    ensures { result ≡ (is_unique list && contains_text names.now label.now) }
{
    list.is_unique() && names.contains(label)
}

/// Reads the entry that follows those in `before`, which have these names.
#[tactic(auto, unfolding(crate::specs::Policies::next_entry), using(crate::proofs::Names::repeated_is))]
fn next_entry<'v>(
    list: PolicyList,
    before: &[Item<'v>],
    names: &BTreeSet<String>,
    value: &'v Value,
) -> Result<Item<'v>, Found<'v>>
    requires { HasNames list names.now (map item_view before.now) }
    ensures { reading_view item_view result
        ≡ next_entry list (map item_view before.now) (length before.now) (view value.now) }
{
    let index = before.len();
    if !value.is_object() {
        return Err(Found {
            location: Location::Item(list.base(), index),
            problem: Problem::NotObject,
        });
    }
    let entry = entry_of(list, index, value)?;
    if is_repeated(list, names, entry.label) {
        return Err(Found {
            location: Location::ItemField(list.base(), index, list.label_key()),
            problem: Problem::Repeated,
        });
    }
    Ok(entry)
}

/// Reads the entries of a list. Returns the first fault if there is one.
pub(crate) fn entries_of<'v>(
    alloc: Global,
    list: PolicyList,
    values: &'v [Value],
) -> Result<Result<Vec<Item<'v>>, Found<'v>>, AllocError>
    ensures entries { IfOk result (λ r. reading_view (λ v. map item_view v.items) r
        ≡ entries_after list [] (items_view values.now)) }
{
    let mut names = BTreeSet::new(alloc);
    let mut items = Vec::with_capacity(alloc, values.len())?;
    for value in values {
        match next_entry(list, items.as_slice(), &names, value) {
            Ok(item) => {
                add_name(alloc, list, item.label, &mut names)?;
                items.push(item)?;
            }
            Err(found) => return Ok(Err(found)),
        }
    }
    Ok(Ok(items))
}
