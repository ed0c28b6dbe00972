//! Functions of strings that an API server answers in another way than `kube_functions`.
ghost use Rattle.std.specs.Prelude.{◌≡◌, ◌++◌, encode_utf8, IfOk, map, option_map};
ghost use Rattle.std.specs.Str.{chars};
ghost use Rattle.cel_value.specs.Data as plain;
ghost use Rattle.cel_value.specs.View.{view};
ghost use Rattle.cel_semantics.specs.Outcome.{outcome_view};
ghost use Rattle.kube_types.specs.Formats.{kind_of};
ghost use Rattle.kube_functions.specs.NamedFormat.{kind_named};
ghost use Rattle.kube_server_functions.specs.Texts as spec;

use cel_semantics::operators::Answer;
use cel_stdlib::faults::function_error;
use cel_value::{ExecutionError, OptionalValue, Refused, Value};
use kube_types::KubeFormat;
use std::alloc::{AllocError, Global};

fn characters(alloc: Global, text: &str) -> Result<Vec<char>, AllocError>
    ensures { IfOk result (λ v. v.items ≡ chars text.now) }
{
    text.chars().collect(alloc)
}

fn letter(alloc: Global, c: char) -> Result<Value, Refused>
    ensures value { IfOk result (λ v. view v ≡ plain.text (encode_utf8 c)) }
{
    let mut text = String::new(alloc);
    text.push(c)?;
    Value::from_text(alloc, text)
}

fn letters(alloc: Global, characters: &[char]) -> Result<Vec<Value>, Refused>
    ensures value { IfOk result (λ v. map view v.items ≡ spec.letters characters.now) }
{
    let mut letters = Vec::with_capacity(alloc, characters.len())?;
    for c in characters {
        let text = letter(alloc, *c)?;
        letters.push(text)?;
    }
    Ok(letters)
}

fn split_letters(alloc: Global, text: &str) -> Result<Answer, Refused>
    ensures value { IfOk result (λ r. outcome_view r ≡ spec.split_letters text.now) }
{
    let characters = characters(alloc, text)?;
    let letters = letters(alloc, characters.as_slice())?;
    Ok(Ok(Value::from_items(alloc, letters)?))
}

/// `split` by an empty separator, perhaps with a limit.
///
/// # Errors
/// [`Refused::Memory`] if memory is refused.
pub(crate) fn split_by_nothing(
    alloc: Global,
    text: &str,
    limit: Option<&Value>,
) -> Result<Answer, Refused>
    ensures value { IfOk result (λ r. outcome_view r
        ≡ spec.split_by_nothing text.now (option_map (λ v. view v.now) limit.entry)) }
{
    match limit {
        None => split_letters(alloc, text),
        Some(_) => Ok(Err(ExecutionError::UndeclaredReference(String::from_str(
            alloc,
            "split by an empty separator with a limit",
        )?))),
    }
}

fn has_blanks(text: &str) -> bool
    ensures { result ≡ spec.has_blanks text.now }
{
    text.trim() != text
}

fn named(name: &str) -> Option<KubeFormat>
    ensures { option_map kind_of result ≡ kind_named name.now }
{
    KubeFormat::named(name)
}

fn format_named(alloc: Global, name: &str) -> Result<Answer, Refused>
    ensures value { IfOk result (λ r. outcome_view r ≡ spec.format_named name.now) }
{
    match named(name) {
        Some(format) => Ok(Ok(Value::Optional(OptionalValue::of(alloc, Value::Format(format))?))),
        None => Ok(Ok(Value::Optional(OptionalValue::none()))),
    }
}

fn unless_plain(answer: Answer, text: &str) -> Option<Answer>
    ensures { option_map outcome_view result ≡ spec.unless_plain (outcome_view answer) text.now }
{
    if has_blanks(text) { Some(answer) } else { None }
}

fn no_quantity(alloc: Global) -> Result<Answer, Refused>
    ensures value { IfOk result (λ r. outcome_view r ≡ spec.no_quantity) }
{
    Ok(Err(function_error(alloc, "quantity", "invalid quantity")?))
}

/// Returns the answer of a function of a string, if an API server gives another one.
///
/// # Errors
/// [`Refused::Memory`] if memory is refused.
pub(crate) fn changed_for_text(
    alloc: Global,
    name: &str,
    text: &str,
) -> Result<Option<Answer>, Refused>
    ensures value { IfOk result
        (λ r. option_map outcome_view r ≡ spec.changed_for_text name.now text.now) }
{
    match name {
        "quantity" => Ok(unless_plain(no_quantity(alloc)?, text)),
        "isQuantity" => Ok(unless_plain(Ok(Value::Bool(false)), text)),
        "format.named" => Ok(Some(format_named(alloc, text)?)),
        _ => Ok(None),
    }
}
