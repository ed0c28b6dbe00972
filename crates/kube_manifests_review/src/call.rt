//! Adds the candidate findings of calls.
ghost use Rattle.std.specs.Prelude.{◌≡◌, [], ◌∷◌, OnOk, map, option_map};
ghost use Rattle.cel_syntax.specs.Term.{term};
ghost use Rattle.kube_manifests_review.specs.Calls as spec;
ghost use Rattle.kube_manifests_review.specs.Calls.{text_view};
ghost use Rattle.kube_manifests_review.specs.Candidates.{AddsCandidates, always};

use crate::candidate::{Candidate, Condition};
use crate::feature::{is_lacked, lacking_text};
use crate::finding::ReviewKind;
use crate::messages::{fails_text, old_self_text, pattern_text, unknown_text, wrong_text};
use crate::text::{Text, add_candidate};
use cel::{Form, Functions};
use cel_syntax::Expr;
use kube_functions::AllFunctions;
use std::alloc::{AllocError, Global};

/// The string of a string literal. `None` if the expression isn't one.
fn literal_text(expr: &Expr) -> Option<&str>
    ensures { option_map (λ s. s.now) result ≡ spec.literal_text (term expr.now) }
{
    match expr {
        Expr::Literal(value) => value.as_str(),
        _ => None,
    }
}

/// The string literal that is the only argument of a call without a receiver, if it has this form.
fn only_text<'a>(receiver: Option<&'a Expr>, args: &'a [Expr]) -> Option<&'a str>
    ensures { option_map (λ s. s.now) result
        ≡ spec.only_text (option_map (λ r. term r.now) receiver.entry) (map term args.now) }
{
    match receiver {
        Some(_) => None,
        None => match args {
            [] => None,
            [only] => literal_text(only),
            [_, _, ..] => None,
        },
    }
}

/// The string literal that is the second operand of a call, counting the receiver as the first.
fn second_text<'a>(receiver: Option<&'a Expr>, args: &'a [Expr]) -> Option<&'a str>
    ensures { option_map (λ s. s.now) result
        ≡ spec.second_text (option_map (λ r. term r.now) receiver.entry) (map term args.now) }
{
    let location = match receiver {
        Some(_) => 0,
        None => 1,
    };
    literal_text(args.get(location)?)
}

/// Reports whether the receiver is the name `oldSelf`.
fn is_old_self(receiver: Option<&Expr>) -> bool
    ensures { result ≡ spec.is_old_self (option_map (λ r. term r.now) receiver.entry) }
{
    match receiver {
        Some(Expr::Ident(name)) => name.as_str() == "oldSelf",
        Some(_) => false,
        None => false,
    }
}

/// Reports whether the function's second operand is a pattern.
#[tactic(auto, unfolding(crate::specs::Calls::takes_pattern))]
fn takes_pattern(name: &str) -> bool
    ensures { result ≡ spec.takes_pattern name.now }
{
    name == "matches" || name == "find" || name == "findAll"
}

/// Reports whether the function is a method of optionals.
#[tactic(auto, unfolding(crate::specs::Calls::asks_optional))]
fn asks_optional(name: &str) -> bool
    ensures { result ≡ spec.asks_optional name.now }
{
    name == "hasValue" || name == "value"
}

/// Adds a candidate if a method of optionals is called on `oldSelf`.
fn add_old_self(
    alloc: Global,
    text: Text<'_>,
    receiver: Option<&Expr>,
    name: &str,
    candidates: &mut Vec<Candidate>,
) -> Result<(), AllocError>
    ensures { OnOk result (AddsCandidates candidates.old.items candidates.new.items
        (spec.old_self_candidates (text_view text.entry) (option_map (λ r. term r.now) receiver.entry)
        name.now)) }
{
    if !asks_optional(name) {
        return Ok(());
    }
    if !is_old_self(receiver) {
        return Ok(());
    }
    let message = old_self_text(alloc, name)?;
    add_candidate(
        alloc,
        text,
        ReviewKind::Unsupported,
        message,
        Condition::Always,
        candidates,
    )
}

/// Adds a candidate: a call of this function with this string, if there is one, may always fail.
fn add_fails(
    alloc: Global,
    text: Text<'_>,
    name: &str,
    string: Option<&str>,
    candidates: &mut Vec<Candidate>,
) -> Result<(), AllocError>
    ensures { OnOk result (AddsCandidates candidates.old.items candidates.new.items
        (spec.fails_candidates (text_view text.entry) name.now (option_map (λ s. s.now) string.entry))) }
{
    let Some(string) = string else {
        return Ok(());
    };
    let condition = Condition::Fails {
        name: String::from_str(alloc, name)?,
        text: String::from_str(alloc, string)?,
    };
    let message = fails_text(alloc, name, string)?;
    add_candidate(
        alloc,
        text,
        ReviewKind::Literal,
        message,
        condition,
        candidates,
    )
}

/// Adds a candidate: this pattern, if there is one, may be refused.
fn add_refused(
    alloc: Global,
    text: Text<'_>,
    pattern: Option<&str>,
    candidates: &mut Vec<Candidate>,
) -> Result<(), AllocError>
    ensures { OnOk result (AddsCandidates candidates.old.items candidates.new.items
        (spec.refused_candidates (text_view text.entry) (option_map (λ s. s.now) pattern.entry))) }
{
    let Some(pattern) = pattern else {
        return Ok(());
    };
    let message = pattern_text(alloc, pattern)?;
    let condition = Condition::Refused(String::from_str(alloc, pattern)?);
    add_candidate(
        alloc,
        text,
        ReviewKind::Pattern,
        message,
        condition,
        candidates,
    )
}

/// Adds a candidate for the call's literal pattern, if it has one.
fn add_pattern(
    alloc: Global,
    text: Text<'_>,
    receiver: Option<&Expr>,
    name: &str,
    args: &[Expr],
    candidates: &mut Vec<Candidate>,
) -> Result<(), AllocError>
    ensures { OnOk result (AddsCandidates candidates.old.items candidates.new.items
        (spec.pattern_candidates (text_view text.entry) (option_map (λ r. term r.now) receiver.entry) name.now
        (map term args.now))) }
{
    if !takes_pattern(name) {
        return Ok(());
    }
    add_refused(alloc, text, second_text(receiver, args), candidates)
}

/// Adds the candidates of a call in a known form.
fn add_known(
    alloc: Global,
    text: Text<'_>,
    receiver: Option<&Expr>,
    name: &str,
    args: &[Expr],
    candidates: &mut Vec<Candidate>,
) -> Result<(), AllocError>
    ensures { OnOk result (AddsCandidates candidates.old.items candidates.new.items
        (spec.known_candidates (text_view text.entry) (option_map (λ r. term r.now) receiver.entry) name.now
        (map term args.now))) }
{
    add_old_self(alloc, text, receiver, name, candidates)?;
    add_fails(alloc, text, name, only_text(receiver, args), candidates)?;
    add_pattern(alloc, text, receiver, name, args, candidates)
}

/// Adds a candidate: the function has no form with this number of arguments, with or without a
/// receiver as given.
fn add_wrong(
    alloc: Global,
    text: Text<'_>,
    has_receiver: bool,
    name: &str,
    count: usize,
    candidates: &mut Vec<Candidate>,
) -> Result<(), AllocError>
    ensures { OnOk result (AddsCandidates candidates.old.items candidates.new.items
        (spec.text_candidate (text_view text.entry) ReviewKind.Call
        (spec.wrong_text name.now has_receiver count) always ∷ [])) }
{
    let message = wrong_text(alloc, name, has_receiver, count)?;
    add_candidate(
        alloc,
        text,
        ReviewKind::Call,
        message,
        Condition::Always,
        candidates,
    )
}

/// Adds a candidate if an unknown function is one that this project lacks, or if a messageExpression
/// calls it.
fn add_unknown(
    alloc: Global,
    text: Text<'_>,
    name: &str,
    candidates: &mut Vec<Candidate>,
) -> Result<(), AllocError>
    ensures { OnOk result (AddsCandidates candidates.old.items candidates.new.items
        (spec.unknown_candidates (text_view text.entry) name.now)) }
{
    if is_lacked(name) {
        let message = lacking_text(alloc, name)?;
        return add_candidate(
            alloc,
            text,
            ReviewKind::Unsupported,
            message,
            Condition::Always,
            candidates,
        );
    }
    if !text.is_message {
        return Ok(());
    }
    let message = unknown_text(alloc, name)?;
    add_candidate(
        alloc,
        text,
        ReviewKind::Call,
        message,
        Condition::Always,
        candidates,
    )
}

/// Adds the candidate findings of a call.
pub(crate) fn add_call(
    alloc: Global,
    text: Text<'_>,
    receiver: Option<&Expr>,
    name: &str,
    args: &[Expr],
    candidates: &mut Vec<Candidate>,
) -> Result<(), AllocError>
    ensures { OnOk result (AddsCandidates candidates.old.items candidates.new.items
        (spec.call_candidates (text_view text.entry) (option_map (λ r. term r.now) receiver.entry) name.now
        (map term args.now))) }
{
    let has_receiver = receiver.is_some();
    match AllFunctions.form(name, has_receiver, args.len()) {
        Form::Unknown => add_unknown(alloc, text, name, candidates)?,
        Form::Wrong => add_wrong(alloc, text, has_receiver, name, args.len(), candidates)?,
        Form::Known => add_known(alloc, text, receiver, name, args, candidates)?,
    }
    Ok(())
}
