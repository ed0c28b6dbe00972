//! What is asked of an authorizer, and which of its answers is one to that.
ghost use Rattle.std.specs.Prelude.{◌≡◌, ◌++◌, IfOk, OnOk, option_map, string_bytes};
ghost use Rattle.cel_value.specs.Data.{text_key};
ghost use Rattle.cel_value.specs.Faults.{fault_view};
ghost use Rattle.cel_value.specs.Find.{find};
ghost use Rattle.cel_value.specs.View.{view, items_view};
ghost use Rattle.kube_server_authorizer.specs.Asked as spec;

use cel_value::{ExecutionError, Key, Map, Refused, Text, Value};
use std::alloc::{AllocError, Global};

/// The value at a name, if any.
pub(crate) fn member<'a>(
    alloc: Global,
    entries: &'a Map,
    name: &str,
) -> Result<Option<&'a Value>, Refused>
    ensures value { IfOk result
        (λ o. option_map (λ v. view v.now) o ≡ find (text_key name.now) entries.now) }
{
    let key = Key::String(Text::of_str(alloc, name)?);
    Ok(entries.get(&key))
}

/// The text at a name, which is empty if there is none.
pub(crate) fn text_at<'a>(alloc: Global, entries: &'a Map, name: &str) -> Result<&'a str, Refused>
    ensures value { IfOk result (λ s. s.now ≡ spec.text_at name.now entries.now) }
{
    match member(alloc, entries, name)? {
        Some(value) => Ok(value.as_str().unwrap_or("")),
        None => Ok(""),
    }
}

fn agree(alloc: Global, asked: &Map, answer: &Map, name: &str) -> Result<bool, Refused>
    ensures value { IfOk result (λ b. b ≡ spec.agree name.now asked.now answer.now) }
{
    Ok(text_at(alloc, asked, name)? == text_at(alloc, answer, name)?)
}

fn agree_in_all(alloc: Global, asked: &Map, verb: &str, answer: &Map) -> Result<bool, Refused>
    ensures value { IfOk result (λ b. b ≡ spec.agree_in_all asked.now verb.now answer.now) }
{
    Ok(
        verb == text_at(alloc, answer, "verb")?
            && agree(alloc, asked, answer, "path")?
            && agree(alloc, asked, answer, "serviceAccount")?
            && agree(alloc, asked, answer, "group")?
            && agree(alloc, asked, answer, "resource")?
            && agree(alloc, asked, answer, "subresource")?
            && agree(alloc, asked, answer, "namespace")?
            && agree(alloc, asked, answer, "name")?,
    )
}

fn answers_to(alloc: Global, asked: &Map, verb: &str, answer: &Value) -> Result<bool, Refused>
    ensures value { IfOk result (λ b. b ≡ spec.answers_to asked.now verb.now (view answer.now)) }
{
    match answer {
        Value::Map(answer) => agree_in_all(alloc, asked, verb, answer),
        _ => Ok(false),
    }
}

fn answer_in<'a>(
    alloc: Global,
    answers: &'a [Value],
    asked: &Map,
    verb: &str,
) -> Result<Option<&'a Value>, Refused>
    ensures value { IfOk result (λ o. option_map (λ v. view v.now) o
        ≡ spec.first_answer asked.now verb.now (items_view answers.now)) }
{
    for answer in answers {
        if answers_to(alloc, asked, verb, answer)? {
            return Ok(Some(answer));
        }
    }
    Ok(None)
}

/// Returns the first of the answers to what was asked and this verb, if any.
pub(crate) fn answer_among<'a>(
    alloc: Global,
    answers: &'a Value,
    asked: &Map,
    verb: &str,
) -> Result<Option<&'a Value>, Refused>
    ensures value { IfOk result (λ o. option_map (λ v. view v.now) o
        ≡ spec.answer_among (view answers.now) asked.now verb.now) }
{
    match answers {
        Value::List(answers) => answer_in(alloc, answers.as_slice(), asked, verb),
        _ => Ok(None),
    }
}

fn write_attribute(name: &str, text: &str, out: &mut String) -> Result<(), AllocError>
    ensures { OnOk result (string_bytes out.new
        ≡ string_bytes out.old ++ spec.attribute_text name.now text.now) }
{
    if text.is_empty() {
        return Ok(());
    }
    out.push(' ')?;
    out.push_str(name)?;
    out.push('=')?;
    out.push_str(text)
}

fn write_asked(alloc: Global, asked: &Map, name: &str, out: &mut String) -> Result<(), Refused>
    ensures { OnOk result (string_bytes out.new ≡ string_bytes out.old
        ++ spec.attribute_text name.now (spec.text_at name.now asked.now)) }
{
    let text = text_at(alloc, asked, name)?;
    write_attribute(name, text, out)?;
    Ok(())
}

fn asked_words(alloc: Global, asked: &Map, verb: &str) -> Result<String, Refused>
    ensures value { IfOk result (λ s. string_bytes s ≡ spec.asked_words asked.now verb.now) }
{
    let mut out = String::from_str(alloc, "authorizer")?;
    write_attribute("verb", verb, &mut out)?;
    write_asked(alloc, asked, "path", &mut out)?;
    write_asked(alloc, asked, "serviceAccount", &mut out)?;
    write_asked(alloc, asked, "group", &mut out)?;
    write_asked(alloc, asked, "resource", &mut out)?;
    write_asked(alloc, asked, "subresource", &mut out)?;
    write_asked(alloc, asked, "namespace", &mut out)?;
    write_asked(alloc, asked, "name", &mut out)?;
    Ok(out)
}

/// The error of what has no answer.
pub(crate) fn no_answer(alloc: Global, asked: &Map, verb: &str) -> Result<ExecutionError, Refused>
    ensures value { IfOk result (λ e. fault_view e ≡ spec.no_answer asked.now verb.now) }
{
    Ok(ExecutionError::UndeclaredReference(asked_words(alloc, asked, verb)?))
}
