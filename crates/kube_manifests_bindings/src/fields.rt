//! Reads the fields of objects.
ghost use Rattle.kube_manifests_bindings.specs.Faults.{place_pointer, pointer_at, reading_view};
ghost use Rattle.kube_manifests_bindings.specs.Fields.{fields_fit, form_view, formed, items_of, list_fits, none_beside, object_of, required_items, required_list_fits, required_object, required_text, text_of, texts_fit, unless_none};
ghost use Rattle.kube_manifests_documents.specs.Policies.{unknown_field};
ghost use Rattle.kube_manifests_documents.specs.Pointers.{key_pointer};
ghost use Rattle.serde_json.specs.Find.{get};
ghost use Rattle.serde_json.specs.View.{items_view, view};
ghost use Rattle.std.specs.Prelude.{◌≡◌, map, option_map};

use crate::fault::{Found, Problem};
use crate::location::{Location, Place};
use kube_manifests_texts::is_word;
use serde_json::Value;

/// Which texts may stand somewhere.
#[derive(Clone, Copy, Drop)]
pub(crate) enum Form {
    Any,
    /// Any but the empty one.
    Filled,
    OneOf(&'static [&'static str]),
}

/// A text, which must be of a form.
pub(crate) fn formed<'v>(
    location: Location<'v>,
    form: Form,
    text: &'v str,
) -> Result<&'v str, Found<'v>>
    ensures { reading_view (λ s. s.now) result
        ≡ formed (pointer_at location.entry) (form_view form) text.now }
{
    match form {
        Form::Any => Ok(text),
        Form::Filled => {
            if text.is_empty() {
                return Err(Found {
                    location,
                    problem: Problem::Missing,
                });
            }
            Ok(text)
        }
        Form::OneOf(known) => {
            if is_word(known, text) {
                return Ok(text);
            }
            Err(Found {
                location,
                problem: Problem::Unsupported(text, known),
            })
        }
    }
}

/// The string in a field. `None` if the field is missing or null.
pub(crate) fn text_at<'v>(
    place: Place,
    value: &'v Value,
    name: &'static str,
    form: Form,
) -> Result<Option<&'v str>, Found<'v>>
    ensures { reading_view (option_map (λ s. s.now)) result
        ≡ text_of (key_pointer (place_pointer place) name.now) (form_view form) (get name.now (view value.now)) }
{
    let location = Location::Field(place, name);
    match value.get(name) {
        None | Some(Value::Null) => Ok(None),
        Some(Value::String(text)) => Ok(Some(formed(location, form, text.as_str())?)),
        Some(_) => Err(Found {
            location,
            problem: Problem::NotString,
        }),
    }
}

/// The string in a required field.
pub(crate) fn required_text_at<'v>(
    place: Place,
    value: &'v Value,
    name: &'static str,
    form: Form,
) -> Result<&'v str, Found<'v>>
    ensures { reading_view (λ s. s.now) result
        ≡ required_text (key_pointer (place_pointer place) name.now) (form_view form) (get name.now (view value.now)) }
{
    match text_at(place, value, name, form)? {
        Some(text) => Ok(text),
        None => Err(Found {
            location: Location::Field(place, name),
            problem: Problem::Missing,
        }),
    }
}

/// The object in a field. `None` if the field is missing or null.
pub(crate) fn object_at<'v>(
    place: Place,
    value: &'v Value,
    name: &'static str,
) -> Result<Option<&'v Value>, Found<'v>>
    ensures { reading_view (option_map (λ v. view v.now)) result
        ≡ object_of (key_pointer (place_pointer place) name.now) (get name.now (view value.now)) }
{
    match value.get(name) {
        None | Some(Value::Null) => Ok(None),
        Some(found) => {
            if found.is_object() {
                return Ok(Some(found));
            }
            Err(Found {
                location: Location::Field(place, name),
                problem: Problem::NotObject,
            })
        }
    }
}

/// The object in a required field.
pub(crate) fn required_object_at<'v>(
    place: Place,
    value: &'v Value,
    name: &'static str,
) -> Result<&'v Value, Found<'v>>
    ensures { reading_view (λ v. view v.now) result
        ≡ required_object (key_pointer (place_pointer place) name.now) (get name.now (view value.now)) }
{
    match object_at(place, value, name)? {
        Some(found) => Ok(found),
        None => Err(Found {
            location: Location::Field(place, name),
            problem: Problem::Missing,
        }),
    }
}

/// The items of the list in a field. None if the field is missing or null.
pub(crate) fn items_at<'v>(
    place: Place,
    value: &'v Value,
    name: &'static str,
) -> Result<&'v [Value], Found<'v>>
    ensures { reading_view (λ v. items_view v.now) result
        ≡ items_of (key_pointer (place_pointer place) name.now) (get name.now (view value.now)) }
{
    match value.get(name) {
        None | Some(Value::Null) => Ok(&[]),
        Some(Value::Array(items)) => Ok(items.as_slice()),
        Some(_) => Err(Found {
            location: Location::Field(place, name),
            problem: Problem::NotList,
        }),
    }
}

/// The items of the list in a field, which must have some.
pub(crate) fn required_items_at<'v>(
    place: Place,
    value: &'v Value,
    name: &'static str,
) -> Result<&'v [Value], Found<'v>>
    ensures { reading_view (λ v. items_view v.now) result
        ≡ required_items (key_pointer (place_pointer place) name.now) (get name.now (view value.now)) }
{
    unless_none(Location::Field(place, name), items_at(place, value, name)?)
}

/// The items, of which there has to be one.
fn unless_none<'v>(location: Location<'v>, items: &'v [Value]) -> Result<&'v [Value], Found<'v>>
    ensures { reading_view (λ v. items_view v.now) result
        ≡ unless_none (pointer_at location.entry) (items_view items.now) }
{
    if items.is_empty() {
        return Err(Found {
            location,
            problem: Problem::Missing,
        });
    }
    Ok(items)
}

/// Checks that there are no items, which may not stand beside something.
pub(crate) fn check_none_beside<'v>(
    location: Location<'v>,
    other: &'static str,
    items: &'v [Value],
) -> Result<(), Found<'v>>
    ensures { reading_view (λ u. u) result
        ≡ none_beside (pointer_at location.entry) other.now (items_view items.now) }
{
    if items.is_empty() {
        return Ok(());
    }
    Err(Found {
        location,
        problem: Problem::Beside(other),
    })
}

/// Checks that the items of the list in a field are strings of a form.
fn check_texts<'v>(
    place: Place,
    name: &'static str,
    form: Form,
    items: &'v [Value],
) -> Result<(), Found<'v>>
    ensures { reading_view (λ u. u) result
        ≡ texts_fit (key_pointer (place_pointer place) name.now) (form_view form) 0 (items_view items.now) }
{
    for (index, item) in items.iter().enumerate() {
        let location = Location::FieldItem(place, name, index);
        match item.as_str() {
            Some(text) => {
                formed(location, form, text)?;
            }
            None => {
                return Err(Found {
                    location,
                    problem: Problem::NotString,
                });
            }
        }
    }
    Ok(())
}

/// Checks that a field, if it is there, is a list of strings of a form.
pub(crate) fn check_list<'v>(
    place: Place,
    value: &'v Value,
    name: &'static str,
    form: Form,
) -> Result<(), Found<'v>>
    ensures { reading_view (λ u. u) result
        ≡ list_fits (key_pointer (place_pointer place) name.now) (form_view form) (get name.now (view value.now)) }
{
    check_texts(place, name, form, items_at(place, value, name)?)
}

/// Checks that a field is a list of such strings, with one at least.
pub(crate) fn check_required_list<'v>(
    place: Place,
    value: &'v Value,
    name: &'static str,
    form: Form,
) -> Result<(), Found<'v>>
    ensures { reading_view (λ u. u) result
        ≡ required_list_fits (key_pointer (place_pointer place) name.now) (form_view form) (get name.now (view value.now)) }
{
    check_texts(place, name, form, required_items_at(place, value, name)?)
}

/// The first field of an object that is none of these, if any.
fn unknown_field<'v>(value: &'v Value, known: &[&str]) -> Option<&'v str>
    ensures { option_map (λ s. s.now) result
        ≡ unknown_field (map (λ s. s.now) known.now) (view value.now) }
{
    let members = value.as_object()?;
    for (name, _) in members.iter() {
        if !is_word(known, name.as_str()) {
            return Some(name.as_str());
        }
    }
    None
}

/// Checks that an object has no field but these.
pub(crate) fn check_fields<'v>(
    place: Place,
    value: &'v Value,
    known: &'static [&'static str],
) -> Result<(), Found<'v>>
    ensures { reading_view (λ u. u) result
        ≡ fields_fit (place_pointer place) (map (λ s. s.now) known.now) (view value.now) }
{
    match unknown_field(value, known) {
        None => Ok(()),
        Some(name) => Err(Found {
            location: Location::Field(place, name),
            problem: Problem::UnknownField(name, known),
        }),
    }
}
