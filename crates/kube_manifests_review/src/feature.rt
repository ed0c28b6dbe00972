//! What this project lacks of the CEL that Kubernetes has.
ghost use Rattle.kube_manifests_review.specs.Features.{is_lacked, lacking_text, missing_functions, two_variable_macros, type_names};
ghost use Rattle.kube_manifests_texts.specs.Spelling.{is_word};
ghost use Rattle.std.specs.Prelude.{◌≡◌, IfOk, string_bytes};

use kube_manifests_texts::is_word;
use std::alloc::{AllocError, Global};

pub(crate) const TWO_VARIABLE_MACROS: [&str; 7] = [
    "all",
    "exists",
    "exists_one",
    "existsOne",
    "transformList",
    "transformMap",
    "transformMapEntry",
];

pub(crate) const MISSING_FUNCTIONS: [&str; 32] = [
    "type",
    "dyn",
    "bool",
    "of",
    "ofNonZeroValue",
    "none",
    "orValue",
    "or",
    "optMap",
    "optFlatMap",
    "sortBy",
    "bind",
    "ceil",
    "floor",
    "round",
    "trunc",
    "sqrt",
    "isInf",
    "isNaN",
    "isFinite",
    "asApproximateFloat",
    "getFullYear",
    "getMonth",
    "getDate",
    "getDayOfMonth",
    "getDayOfWeek",
    "getDayOfYear",
    "getHours",
    "getMinutes",
    "getSeconds",
    "getMilliseconds",
    "double",
];

const TYPE_NAMES: [&str; 7] = ["int", "uint", "string", "bytes", "list", "map", "null_type"];

fn is_two_variable_macro(name: &str) -> bool
    ensures { result ≡ is_word two_variable_macros name.now }
{
    is_word(&TWO_VARIABLE_MACROS, name)
}

fn is_missing_function(name: &str) -> bool
    ensures { result ≡ is_word missing_functions name.now }
{
    is_word(&MISSING_FUNCTIONS, name)
}

fn is_type_name(name: &str) -> bool
    ensures { result ≡ is_word type_names name.now }
{
    is_word(&TYPE_NAMES, name)
}

/// Reports whether a call of a function of this name is one that this project lacks.
pub(crate) fn is_lacked(name: &str) -> bool
    ensures { result ≡ is_lacked name.now }
{
    is_two_variable_macro(name) || is_missing_function(name)
}

/// Says in words which feature is lacking if an evaluation ends at a name that isn't known.
#[tactic(auto, unfolding(crate::specs::Features::lacking_text))]
pub fn lacking_text(alloc: Global, name: &str) -> Result<String, AllocError>
    ensures { IfOk result (λ s. string_bytes s ≡ lacking_text name.now) }
{
    if name == "double" {
        String::from_str(alloc, "numbers of kind double aren't supported")
    } else if is_two_variable_macro(name) {
        format!(in alloc; "{name}() with two variables isn't supported")
    } else if is_missing_function(name) {
        format!(in alloc; "{name}() isn't supported")
    } else if is_type_name(name) {
        format!(in alloc; "the type '{name}' as a value isn't supported")
    } else {
        format!(in alloc; "'{name}' is neither a variable nor a function that is known here")
    }
}
