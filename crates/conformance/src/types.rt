//! Answers rows about types: what serde writes of their values, and which values are equal.

use conformance_rows::{Field, Found, Output, Stop};
use kube_cel::{
    AdmissionRequest, AnalysisWarning, ErrorKind, GroupVersionKind, GroupVersionResource,
    ValidationError, ValidationErrors, VapExpression, VapResult, WarningKind,
};
use serde::{Deserialize, Serialize};
use std::alloc::{AllocError, Global};

/// What serde makes of a JSON list of values of a type.
#[derive(Drop)]
struct Listed {
    /// The number of values.
    count: usize,
    /// What serde writes of them.
    written: String,
    /// The indices of two values that don't compare as they should (`wrong_pair`), if any.
    wrong: Option<(usize, usize)>,
}

/// Reads a value from a text by serde. `None` if the text isn't such a value.
pub(crate) fn read<'t, T: Deserialize<'t>>(
    alloc: Global,
    text: &'t str,
) -> Result<Option<T>, AllocError> {
    let read: Result<T, serde_json::Error> = serde_json::from_str(alloc, text);
    match read {
        Ok(value) => Ok(Some(value)),
        Err(error) if error.is_memory() => Err(AllocError),
        Err(_) => Ok(None),
    }
}

/// Returns what serde writes of a value.
fn to_text<T: Serialize>(alloc: Global, value: &T) -> Result<String, AllocError> {
    match serde_json::to_string(alloc, value) {
        Ok(text) => Ok(text),
        Err(_) => Err(AllocError),
    }
}

/// Returns what serde writes of a value, and whether it reads an equal value from `text`.
pub(crate) fn written_and_read<'t, T: Serialize + Deserialize<'t> + PartialEq + Drop>(
    alloc: Global,
    value: &T,
    text: &'t str,
) -> Result<(String, bool), AllocError> {
    let read: Option<T> = read(alloc, text)?;
    let is_read = match read {
        Some(read) => read == *value,
        None => false,
    };
    Ok((to_text(alloc, value)?, is_read))
}

/// Answers with the field's text if that is what serde writes of a value, and it reads an equal
/// value from that (`written_and_read`). White space outside strings isn't compared.
pub(crate) fn find_written(
    written: Result<(String, bool), AllocError>,
    field: &Field,
    found: &mut Found,
) {
    if let Some((text, is_read)) = found.take(written) {
        found.expect(field);
        found.other.push(text.as_str());
        found.end_expected(field, is_read);
    }
}

/// Returns the first index in a list whose value doesn't compare with the value at index `i` as it
/// should: it is equal if its index is `i`, and unequal if not.
fn wrong_with<T: PartialEq>(i: usize, value: &T, all: &[T]) -> Option<usize> {
    for k in 0..all.len() {
        let other = &all[k];
        if (value == other) != (i == k) || (value != other) != (i != k) {
            return Some(k);
        }
    }
    None
}

/// Compares each value of a list with all values of another list, made in the same way. Returns the
/// first two indices that are the same though the values differ, or the other way round.
pub(crate) fn wrong_pair<T: PartialEq>(values: &[T], again: &[T]) -> Option<(usize, usize)> {
    for i in 0..values.len() {
        if let Some(k) = wrong_with(i, &values[i], again) {
            return Some((i, k));
        }
    }
    None
}

/// Reads a JSON list of values by serde, twice, compares them, and writes them. `None` if the text
/// isn't such a list.
fn read_list<'t, T: Deserialize<'t> + Serialize + PartialEq + Drop>(
    alloc: Global,
    list: &'t str,
) -> Result<Option<Listed>, AllocError> {
    let values: Option<Vec<T>> = read(alloc, list)?;
    let again: Option<Vec<T>> = read(alloc, list)?;
    match (&values, &again) {
        (Some(values), Some(again)) => Ok(Some(Listed {
            count: values.len(),
            written: to_text(alloc, values)?,
            wrong: wrong_pair(values.as_slice(), again.as_slice()),
        })),
        _ => Ok(None),
    }
}

/// Does what `read_list` does, for the type with this name.
fn read_list_of(alloc: Global, of: &str, list: &str) -> Result<Option<Listed>, Stop> {
    let listed = match of {
        "ErrorKind" => read_list::<ErrorKind>(alloc, list),
        "ValidationError" => read_list::<ValidationError>(alloc, list),
        "ValidationErrors" => read_list::<ValidationErrors>(alloc, list),
        "WarningKind" => read_list::<WarningKind>(alloc, list),
        "AnalysisWarning" => read_list::<AnalysisWarning>(alloc, list),
        "GroupVersionKind" => read_list::<GroupVersionKind>(alloc, list),
        "GroupVersionResource" => read_list::<GroupVersionResource>(alloc, list),
        "AdmissionRequest" => read_list::<AdmissionRequest>(alloc, list),
        "VapExpression" => read_list::<VapExpression>(alloc, list),
        "VapResult" => read_list::<VapResult>(alloc, list),
        _ => return Err(Stop::Unfit("type")),
    };
    Ok(listed?)
}

/// Answers with the field's text if that is what serde writes of the row's JSON, read as the row's
/// type. White space outside strings isn't compared.
pub(crate) fn written(alloc: Global, given: &[Field], field: &Field, found: &mut Found) {
    let of = found.required(given, "type");
    let json = found.required(given, "json");
    let mut list = Output::new(alloc);
    list.push_all(&["[", json, "]"]);
    found.other.push("[");
    found.other.push_compact(field.text.as_str());
    found.other.push("]");
    found.end("what is expected");
    match found.take(read_list_of(alloc, of, list.as_str())) {
        Some(Some(listed)) => found.other.push(listed.written.as_str()),
        Some(None) => found.other.push("[unread]"),
        None => {}
    }
    found.end_expected(field, true);
}

/// Answers with the field's text, a JSON list of values of the row's type, if each value equals
/// itself, read a second time, and no other.
pub(crate) fn differ(alloc: Global, given: &[Field], field: &Field, found: &mut Found) {
    let of = found.required(given, "type");
    let text = field.text.as_str();
    let Some(Some(listed)) = found.take(read_list_of(alloc, of, text)) else {
        return found.stop(Stop::Unfit("a list of values of the type"));
    };
    match listed.wrong {
        None if listed.count > 1 => found.say(text),
        None => found.stop(Stop::Unfit("a second value")),
        Some((i, k)) => {
            found.other.push("the values ");
            found.other.show(&i);
            found.other.push(" and ");
            found.other.show(&k);
            found.stop(Stop::Differs("=="));
        }
    }
}
