//! Which errors of an evaluation are limits of this project.
ghost use Rattle.cel_value.specs.Faults.{fault_view};
ghost use Rattle.kube_manifests_limits.specs.Limits as spec;
ghost use Rattle.kube_manifests_limits.specs.Limits.{narrow_errors, narrow_formats, narrow_functions};
ghost use Rattle.kube_manifests_texts.specs.Spelling.{is_word};
ghost use Rattle.std.specs.Prelude.{◌≡◌};

use cel_value::ExecutionError;
use kube_manifests_texts::is_word;

const NARROW_FUNCTIONS: [&str; 5] = ["string", "int", "timestamp", "hasValue", "value"];

const NARROW_ERRORS: [&str; 4] = ["sum", "duration", "timestamp", "url"];

const NARROW_FORMATS: [&str; 3] = [
    "%s does not support bytes",
    "%s does not support duration",
    "%s does not support timestamp",
];

/// Reports whether an API server has this function for more operands.
#[tactic(auto, unfolding(crate::specs::Limits::narrow_functions))]
fn is_narrow_function(name: &str) -> bool
    ensures { result ≡ is_word narrow_functions name.now }
{
    is_word(&NARROW_FUNCTIONS, name)
}

/// Reports whether the own errors of this function are limits.
#[tactic(auto, unfolding(crate::specs::Limits::narrow_errors))]
fn has_narrow_errors(name: &str) -> bool
    ensures { result ≡ is_word narrow_errors name.now }
{
    is_word(&NARROW_ERRORS, name)
}

/// Reports whether `format` says this of a value that an API server has a text for.
#[tactic(auto, unfolding(crate::specs::Limits::narrow_formats))]
fn is_narrow_format(message: &str) -> bool
    ensures { result ≡ is_word narrow_formats message.now }
{
    is_word(&NARROW_FORMATS, message)
}

/// Reports whether the error of a function is a limit.
fn is_narrow(function: &str, message: &str) -> bool
    ensures { result ≡ spec.is_narrow function.now message.now }
{
    has_narrow_errors(function) || (function == "format" && is_narrow_format(message))
}

/// Reports whether an error of an evaluation is a limit of this project: an API server may have a
/// value there. Other errors are those of the expression.
pub fn is_limit(error: &ExecutionError) -> bool
    ensures { result ≡ spec.is_limit (fault_view error.now) }
{
    match error {
        ExecutionError::UndeclaredReference(_) | ExecutionError::InvalidPattern(_) => true,
        ExecutionError::NoSuchOverload(name) => is_narrow_function(name.as_str()),
        ExecutionError::FunctionError { function, message } => {
            is_narrow(function.as_str(), message.as_str())
        }
        ExecutionError::NoSuchKey(_)
        | ExecutionError::Overflow
        | ExecutionError::DivisionByZero
        | ExecutionError::RemainderByZero
        | ExecutionError::IndexOutOfBounds
        | ExecutionError::UnsupportedKey
        | ExecutionError::DuplicateKey => false,
    }
}
