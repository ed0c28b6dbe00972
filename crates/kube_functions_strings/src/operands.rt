//! Reads the operands of a function by their kinds.
ghost use Rattle.std.specs.Prelude.{◌≡◌, option_map};
ghost use Rattle.cel_value.specs.View.{view};
ghost use Rattle.kube_functions_strings.specs.Operands as spec;

use cel_value::Value;

/// The texts of two strings, or None if either value isn't a string.
pub(crate) fn both_texts<'a>(value: &'a Value, other: &'a Value) -> Option<(&'a str, &'a str)>
    ensures { option_map (λ p. (p.0.now, p.1.now)) result ≡ spec.texts_in (view value.now) (view other.now) }
{
    match value.as_str() {
        Some(text) => match other.as_str() {
            Some(part) => Some((text, part)),
            None => None,
        },
        None => None,
    }
}

/// The text of a string and an int, or None if either value is of another kind.
pub(crate) fn text_and_int<'a>(value: &'a Value, number: &Value) -> Option<(&'a str, i64)>
    ensures { option_map (λ p. (p.0.now, p.1)) result
        ≡ spec.text_and_int_in (view value.now) (view number.now) }
{
    match value.as_str() {
        Some(text) => match number.as_int() {
            Some(n) => Some((text, n)),
            None => None,
        },
        None => None,
    }
}

/// The int of an optional argument: `Some(None)` if
/// the argument is absent, None if it isn't an int.
pub(crate) fn optional_int(value: Option<&Value>) -> Option<Option<i64>>
    ensures { result ≡ spec.optional_int_in (option_map (λ v. view v.now) value.entry) }
{
    match value {
        None => Some(None),
        Some(value) => match value.as_int() {
            Some(n) => Some(Some(n)),
            None => None,
        },
    }
}
