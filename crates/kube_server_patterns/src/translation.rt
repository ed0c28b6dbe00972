//! The translation of a pattern.
ghost use Rattle.std.specs.Prelude.{◌≡◌, string_bytes, IfOk, IfErr};
ghost use Rattle.std.specs.Str.{chars};
ghost use Rattle.kube_server_patterns.specs.Translation as spec;
ghost use Rattle.kube_server_patterns.specs.States.{beginning, place_of};
ghost use Rattle.std.specs.Prelude.{length};
ghost use Rattle.kube_types_refused.specs.declared.Refused.TheVariants.{Memory};

use crate::refusal::Refusal;
use crate::state::State;
use kube_types_refused::Refused;
use std::alloc::{AllocError, Global};

fn characters(alloc: Global, text: &str) -> Result<Vec<char>, AllocError>
    ensures { IfOk result (λ v. v.items ≡ chars text.now) }
{
    text.chars().collect(alloc)
}

/// The text, if a pattern may end at the place.
fn finished(state: &State, out: String) -> Result<String, Refusal>
    ensures { spec.text_of result ≡ spec.after_text (string_bytes out) (spec.ended (place_of state.now)) }
{
    if state.is_end() {
        Ok(out)
    } else {
        Err(Refusal::Invalid)
    }
}

fn translated(alloc: Global, text: &[char]) -> Result<Result<String, Refusal>, AllocError>
    ensures { IfOk result
        (λ r. spec.text_of r ≡ spec.translated (length text.now) beginning text.now) }
{
    let mut state = State::new(alloc);
    let mut out = String::new(alloc);
    let mut rest = text;
    for _lexeme in 0..text.len() {
        if rest.is_empty() {
            return Ok(finished(&state, out));
        }
        match state.step(rest, &mut out)? {
            Ok(later) => rest = later,
            Err(refusal) => return Ok(Err(refusal)),
        }
    }
    if rest.is_empty() {
        Ok(finished(&state, out))
    } else {
        Ok(Err(Refusal::Invalid))
    }
}

/// Translates a pattern in the syntax of RE2 to one of the crate `regex` that matches the same.
///
/// # Errors
/// Only [`Refused::Memory`], if memory is refused.
#[tactic(auto, unfolding(crate::specs::Translation::translation))]
pub fn translate(alloc: Global, pattern: &str) -> Result<Result<String, Refusal>, Refused>
    ensures value { IfOk result (λ r. spec.text_of r ≡ spec.translation pattern.now) }
    ensures memory { IfErr result (λ e. e ≡ Memory) }
{
    let characters = characters(alloc, pattern)?;
    Ok(translated(alloc, characters.as_slice())?)
}
