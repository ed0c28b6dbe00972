//! Answers rows about the analysis of a rule without an object: unknown names, costs, and both.

use crate::parts::ways::compiled;
use crate::schemas::compiled_given;
use crate::types::wrong_pair;
use conformance_rows::keys::entry;
use conformance_rows::texts::yes_or_no;
use conformance_rows::{Field, Found, Output, Stop, given as rows};
use kube_cel::{AnalysisWarning, ScopeContext, analyze_rule, check_rule_scope, estimate_rule_cost};
use kube_cel_analysis::{Sizes, estimated_cost};
use std::alloc::Global;

/// Writes a warning about a rule: its kind and message. A copy of it must be equal.
fn put_warning(warning: &AnalysisWarning, rule: &str, out: &mut Output) {
    out.push_line("");
    out.debug(&warning.kind);
    out.push(": ");
    out.push(warning.message.as_str());
    if warning.rule.as_str() != rule {
        out.stop(Stop::Differs("the warning's rule"));
    }
    out.hold_copy(warning.try_clone(), warning);
}

/// Returns the warnings about a rule of the row's schema from the call that a key names.
fn warnings_of(
    alloc: Global,
    given: &[Field],
    (rule, scope): (&str, ScopeContext),
    key: &str,
    out: &mut Output,
) -> Option<Vec<AnalysisWarning>> {
    if key == "scope warnings" {
        return out.take(check_rule_scope(alloc, rule, scope));
    }
    let compiled = compiled_given(alloc, given, out)?;
    if key == "cost warnings" {
        out.take(estimate_rule_cost(alloc, rule, &compiled))
    } else {
        out.take(analyze_rule(alloc, rule, &compiled, scope))
    }
}

/// The scopes, by their names.
const SCOPES: [(&str, ScopeContext); 2] = [
    ("CrdValidation", ScopeContext::CrdValidation),
    ("AdmissionPolicy", ScopeContext::AdmissionPolicy),
];

/// Answers whether each scope equals itself and no other.
pub(crate) fn scopes_differ(found: &mut Found) {
    let scopes = [ScopeContext::CrdValidation, ScopeContext::AdmissionPolicy];
    found.say(yes_or_no(wrong_pair(&scopes, &scopes).is_none()));
}

/// Returns the row's rule, and its scope or, by default, that of a schema.
fn rule_given<'g>(given: &'g [Field], out: &mut Output) -> Option<(&'g str, ScopeContext)> {
    let rule = rows::required(given, "rule", out);
    let scope = rows::text(given, "scope").unwrap_or("CrdValidation");
    let scope = entry(&SCOPES, scope).ok_or(Stop::Unfit("scope"));
    Some((rule, out.take(scope)?))
}

/// Writes the warnings about the row's rule from the call that a key names.
fn put_warnings(alloc: Global, given: &[Field], key: &str, out: &mut Output) {
    let Some(rule) = rule_given(given, out) else {
        return;
    };
    if let Some(warnings) = warnings_of(alloc, given, rule, key, out) {
        for warning in warnings.iter() {
            put_warning(warning, rule.0, out);
        }
    }
}

/// The greatest length of lists and texts if the row gives no other.
const USUAL: u64 = 1_000;

/// Writes the estimated cost of the row's expression.
fn put_cost(alloc: Global, given: &[Field], out: &mut Output) {
    let sizes = Sizes {
        items: rows::number(given, "list size", out).unwrap_or(USUAL),
        length: rows::number(given, "text length", out).unwrap_or(USUAL),
    };
    let text = rows::required(given, "expression", out);
    if let Some(program) = out.take(compiled(alloc, text)) {
        out.show(&estimated_cost(program.expression(), sizes));
    }
}

/// Answers a field about the row's rule or expression. The warnings of `analyze_rule` must be those
/// about its names, followed by those about its cost.
pub(crate) fn find(alloc: Global, given: &[Field], field: &Field, found: &mut Found) {
    match field.key.as_str() {
        "cost" => put_cost(alloc, given, &mut found.text),
        "warnings" => {
            put_warnings(alloc, given, "warnings", &mut found.other);
            found.end("analyze_rule");
            put_warnings(alloc, given, "scope warnings", &mut found.other);
            put_warnings(alloc, given, "cost warnings", &mut found.other);
            found.end("check_rule_scope and estimate_rule_cost");
        }
        key => put_warnings(alloc, given, key, &mut found.text),
    }
}
