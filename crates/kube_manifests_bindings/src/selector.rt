//! Label selectors.
ghost use Rattle.kube_manifests_bindings.specs.Faults.{place_pointer, pointer_at, reading_view};
ghost use Rattle.kube_manifests_bindings.specs.Fields.{each_fits, object_fits, or_none};
ghost use Rattle.kube_manifests_bindings.specs.Selectors.{label_fits, labels_fit, match_expressions_fit, match_labels_fit, operator_of, requirement_fits, requirement_of, requirement_view, selector_fits, selector_in, selector_of, selector_view, values_fit};
ghost use Rattle.kube_manifests_documents.specs.Pointers.{key_pointer, keyword_pointer};
ghost use Rattle.serde_json.specs.Find.{get};
ghost use Rattle.serde_json.specs.View.{items_view, members_view, view};
ghost use Rattle.std.specs.Prelude.{◌≡◌, codes, option_map};

use crate::fault::{Found, Problem};
use crate::fields::{
    Form, check_fields, check_none_beside, check_required_list, items_at, object_at,
    required_text_at,
};
use crate::location::{Location, Place};
use crate::parts::{items_in, text_in};
use serde_json::{Map as Members, Value};

/// What a requirement asks of the label of its key.
#[derive(Clone, Copy, Drop)]
pub enum Operator {
    /// It is there, and its value is one of the values.
    In,
    /// It isn't there, or its value is none of the values.
    NotIn,
    /// It is there.
    Exists,
    /// It isn't there.
    DoesNotExist,
}

/// A requirement of a selector, an entry of `matchExpressions`.
#[derive(Clone, Copy, Drop)]
pub struct Requirement<'v> {
    /// The key of the label.
    pub key: &'v str,
    /// What is asked of the label.
    pub operator: Operator,
    /// The values, which are strings.
    pub values: &'v [Value],
}

/// A label selector.
#[derive(Clone, Copy, Drop)]
pub struct Selector<'v> {
    /// The object with `matchLabels` and `matchExpressions`. The selector is empty if there is none.
    pub value: Option<&'v Value>,
}

const OPERATORS: [&str; 4] = ["In", "NotIn", "Exists", "DoesNotExist"];

fn operator_of(text: &str) -> Operator
    ensures { result ≡ operator_of text.now }
{
    match text {
        "In" => Operator::In,
        "NotIn" => Operator::NotIn,
        "Exists" => Operator::Exists,
        _ => Operator::DoesNotExist,
    }
}

impl<'v> Requirement<'v> {
    /// Reads an entry of `matchExpressions`.
    pub fn of(value: &'v Value) -> Requirement<'v>
        ensures { requirement_view result ≡ requirement_of (view value.now) }
    {
        Requirement {
            key: text_in(value, "key"),
            operator: operator_of(text_in(value, "operator")),
            values: items_in(value, "values"),
        }
    }
}

impl<'v> Selector<'v> {
    /// `matchLabels`, whose values are strings.
    pub fn labels(self) -> Option<&'v Members<String, Value>>
        ensures { or_none (option_map (λ m. members_view m.now.entries) result)
            ≡ (selector_view self.entry).labels }
    {
        self.value?.get("matchLabels")?.as_object()
    }

    /// `matchExpressions`, of which each is read by [`Requirement::of`].
    pub fn requirements(self) -> &'v [Value]
        ensures { items_view result.now ≡ (selector_view self.entry).requirements }
    {
        match self.value {
            Some(value) => items_in(value, "matchExpressions"),
            None => &[],
        }
    }
}

/// Checks that the value of a label is a string.
fn check_label<'v>(location: Location<'v>, value: &'v Value) -> Result<(), Found<'v>>
    ensures { reading_view (λ u. u) result ≡ label_fits (pointer_at location.entry) (view value.now) }
{
    match value {
        Value::String(_) => Ok(()),
        _ => Err(Found {
            location,
            problem: Problem::NotString,
        }),
    }
}

/// Checks that the labels of the selector at a pointer are strings.
fn check_labels<'v>(
    pointer: &'static str,
    labels: &'v Members<String, Value>,
) -> Result<(), Found<'v>>
    ensures { reading_view (λ u. u) result
        ≡ labels_fit (keyword_pointer pointer.now (codes "matchLabels")) (members_view labels.now.entries) }
{
    for (key, value) in labels.iter() {
        let place = Place::Member(pointer, "matchLabels");
        check_label(Location::Field(place, key.as_str()), value)?;
    }
    Ok(())
}

/// Checks `matchLabels` of the selector at a pointer.
fn check_match_labels<'v>(pointer: &'static str, selector: &'v Value) -> Result<(), Found<'v>>
    ensures { reading_view (λ u. u) result ≡ match_labels_fit pointer.now (view selector.now) }
{
    match object_at(Place::At(pointer), selector, "matchLabels")? {
        None => Ok(()),
        Some(labels) => match labels {
            Value::Object(members) => check_labels(pointer, members),
            _ => Ok(()),
        },
    }
}

/// Checks the values of a requirement with this operator.
fn check_values<'v>(place: Place, operator: &str, value: &'v Value) -> Result<(), Found<'v>>
    ensures { reading_view (λ u. u) result
        ≡ values_fit (key_pointer (place_pointer place) (codes "values")) operator.now (get (codes "values") (view value.now)) }
{
    if operator == "In" || operator == "NotIn" {
        return check_required_list(place, value, "values", Form::Any);
    }
    let items = items_at(place, value, "values")?;
    let location = Location::Field(place, "values");
    check_none_beside(location, "Exists or DoesNotExist", items)
}

/// Checks the fields of a requirement.
fn check_requirement_fields<'v>(place: Place, value: &'v Value) -> Result<(), Found<'v>>
    ensures { reading_view (λ u. u) result
        ≡ requirement_fits (place_pointer place) (view value.now) }
{
    check_fields(place, value, &["key", "operator", "values"])?;
    required_text_at(place, value, "key", Form::Filled)?;
    let operator = required_text_at(place, value, "operator", Form::OneOf(&OPERATORS))?;
    check_values(place, operator, value)
}

/// Checks a requirement.
fn check_requirement<'v>(place: Place, value: &'v Value) -> Result<(), Found<'v>>
    ensures { reading_view (λ u. u) result
        ≡ object_fits requirement_fits (place_pointer place) (view value.now) }
{
    match value {
        Value::Object(_) => check_requirement_fields(place, value),
        _ => Err(Found {
            location: Location::Whole(place),
            problem: Problem::NotObject,
        }),
    }
}

/// Checks the requirements of the selector at a pointer.
fn check_requirements<'v>(pointer: &'static str, items: &'v [Value]) -> Result<(), Found<'v>>
    ensures { reading_view (λ u. u) result
        ≡ each_fits requirement_fits (keyword_pointer pointer.now (codes "matchExpressions")) 0 (items_view items.now) }
{
    for (index, item) in items.iter().enumerate() {
        check_requirement(Place::Item(pointer, "matchExpressions", index), item)?;
    }
    Ok(())
}

/// Checks `matchExpressions` of the selector at a pointer.
fn check_match_expressions<'v>(pointer: &'static str, selector: &'v Value) -> Result<(), Found<'v>>
    ensures { reading_view (λ u. u) result
        ≡ match_expressions_fit pointer.now (view selector.now) }
{
    let items = items_at(Place::At(pointer), selector, "matchExpressions")?;
    check_requirements(pointer, items)
}

/// Checks the selector at a pointer.
fn check_selector<'v>(pointer: &'static str, selector: &'v Value) -> Result<(), Found<'v>>
    ensures { reading_view (λ u. u) result ≡ selector_fits pointer.now (view selector.now) }
{
    check_fields(
        Place::At(pointer),
        selector,
        &["matchLabels", "matchExpressions"],
    )?;
    check_match_labels(pointer, selector)?;
    check_match_expressions(pointer, selector)
}

/// Reads the selector in a field of the object at the pointer `base`; `pointer` is its own.
pub(crate) fn selector_in<'v>(
    base: &'static str,
    pointer: &'static str,
    name: &'static str,
    value: &'v Value,
) -> Result<Selector<'v>, Found<'v>>
    ensures { reading_view (λ s. option_map (λ v. view v.now) s.value) result
        ≡ selector_in base.now pointer.now name.now (view value.now) }
{
    let found = object_at(Place::At(base), value, name)?;
    if let Some(selector) = found {
        check_selector(pointer, selector)?;
    }
    Ok(Selector { value: found })
}
