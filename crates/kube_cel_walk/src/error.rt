//! The errors of a validation.
use cel_value::ExecutionError;
use serde::{Deserialize, Serialize};
use std::{fmt, slice, vec};

/// The kind of a validation error.
#[derive(Clone, Copy, Debug, PartialEq, Eq, Serialize, Deserialize)]
pub enum ErrorKind {
    /// The text of the rule doesn't parse as CEL, or that of its messageExpression doesn't.
    CompilationFailure,
    /// The rule isn't an object with the fields of a rule.
    InvalidRule,
    /// The rule evaluated to false.
    ValidationFailure,
    /// The rule evaluated to a value that isn't a bool.
    InvalidResult,
    /// Evaluation of the rule failed with an error.
    EvaluationError,
    /// The rule refers to a name that isn't declared.
    UnsupportedReference,
    /// The schema goes on past the maximum depth.
    SchemaTooDeep,
}

/// The error of one rule at one place of the object. Two errors are equal
/// if their five public fields are equal; the cause isn't compared.
#[derive(Drop, Serialize, Deserialize)]
#[derive_where(Debug, PartialEq, Eq)]
pub struct ValidationError {
    /// The text of the rule; empty if there is none.
    pub rule: String,
    /// The message for people.
    pub message: String,
    /// The path of the place in the object, such as `spec.replicas`;
    /// empty at the root. A rule's own `fieldPath` is appended to it.
    pub field_path: String,
    /// The rule's machine-readable reason, if it has one and is false.
    pub reason: Option<String>,
    /// The kind of error.
    pub kind: ErrorKind,
    #[derive_where(skip)]
    #[serde(skip)]
    pub(crate) cause: Option<ExecutionError>,
}

impl ValidationError {
    ghost use Rattle.std.specs.Prelude.{◌≡◌, option_map};
    ghost use Rattle.cel_value.specs.Faults.{fault_view};
    ghost use Rattle.kube_cel_walk.specs.Errors.{error_view};

    /// The error of the evaluation, if that is what failed.
    pub fn cause(&self) -> Option<&ExecutionError>
        ensures { option_map (λ e. fault_view e.now) result ≡ (error_view self.now).cause }
    {
        self.cause.as_ref()
    }
}

impl fmt::Display for ValidationError {
    ghost use Rattle.std.specs.Prelude.{Some};
    ghost use Rattle.kube_cel_walk.specs.Errors.{error_view};
    ghost use Rattle.kube_cel_walk.specs.Texts.{error_text};

    ghost output = { λ e. Some (error_text (error_view e)) };

    fn fmt<W: fmt::Write>(&self, f: &mut fmt::Formatter<W>) -> fmt::Result {
        if self.field_path.is_empty() {
            write!(f, "{}", self.message)
        } else {
            write!(f, "{}: {}", self.field_path, self.message)
        }
    }
}

/// The errors of one validation, in order.
#[derive(Debug, Drop, PartialEq, Eq, Serialize, Deserialize)]
#[serde(transparent)]
pub struct ValidationErrors {
    pub(crate) errors: Vec<ValidationError>,
}

impl From<Vec<ValidationError>> for ValidationErrors {
    ghost use Rattle.std.specs.Prelude.{◌≡◌};

    ghost from_gives = { λ v e. e.errors ≡ v };

    fn from(errors: Vec<ValidationError>) -> ValidationErrors {
        ValidationErrors { errors }
    }
}

impl ValidationErrors {
    ghost use Rattle.std.specs.Prelude.{◌≡◌, ◌↔◌, [], length, IsTrue};
    ghost use Rattle.kube_cel_walk.specs.ErrorLists.{errors_in};

    /// The number of errors.
    pub fn len(&self) -> usize
        ensures { result ≡ length (errors_in self.now) }
    {
        self.errors.len()
    }

    /// Reports whether there are no errors.
    pub fn is_empty(&self) -> bool
        ensures { IsTrue result ↔ (errors_in self.now ≡ []) }
    {
        self.errors.is_empty()
    }

    /// The errors, in order.
    pub fn as_slice(&self) -> &[ValidationError]
        ensures { result.now ≡ errors_in self.now }
    {
        self.errors.as_slice()
    }

    /// Returns the errors, in order.
    pub fn into_vec(self) -> Vec<ValidationError>
        ensures { result.items ≡ errors_in self }
    {
        let ValidationErrors { errors } = self;
        errors
    }
}

impl IntoIterator for ValidationErrors {
    ghost use Rattle.std.specs.Prelude.{◌≡◌, ◌<◌, ◌^◌};
    ghost use Rattle.std.specs.Iterator.Runs.{EveryRun, ItemsAre};
    ghost use Rattle.std.specs.Vec.Iter.{into_iter_items, into_iter_len, into_iter_steps};
    ghost use Rattle.std.specs.declared.alloc.Global.{Global};
    ghost use Rattle.kube_cel_walk.specs.declared.error.ValidationError.{ValidationError};

    type Item = ValidationError;

    type IntoIter = vec::IntoIter<ValidationError>;

    ghost into_iter_gives = { λ v r. (into_iter_items r ≡ v.errors.items) × (into_iter_len r < 2 ^ 64)
        × EveryRun (into_iter_steps {X = ValidationError} {Z = Global})
        (λ p. ItemsAre p (into_iter_items p.from)) };

    fn into_iter(self) -> vec::IntoIter<ValidationError> {
        self.errors.into_iter()
    }
}

impl<'a> IntoIterator for &'a ValidationErrors {
    ghost use Rattle.std.specs.Prelude.{◌≡◌, ◌<◌, ◌^◌, length};
    ghost use Rattle.std.specs.Iterator.Runs.{EveryRun, ItemsMapTo};
    ghost use Rattle.std.specs.Slice.Iter.{iter_rest, iter_steps};
    ghost use Rattle.kube_cel_walk.specs.declared.error.ValidationError.{ValidationError};

    type Item = &'a ValidationError;

    type IntoIter = slice::Iter<'a, ValidationError>;

    ghost into_iter_gives = { λ v r. (iter_rest r ≡ v.now.errors.items) × (length (iter_rest r) < 2 ^ 64)
        × EveryRun (iter_steps {A = ValidationError}) (λ p. ItemsMapTo p (λ x. x.now) (iter_rest p.from)) };

    fn into_iter(self) -> slice::Iter<'a, ValidationError> {
        self.as_slice().iter()
    }
}

impl fmt::Display for ValidationErrors {
    ghost use Rattle.std.specs.Prelude.{Some};
    ghost use Rattle.kube_cel_walk.specs.Texts.{errors_text};

    ghost output = { λ e. Some (errors_text e.errors.items) };

    fn fmt<W: fmt::Write>(&self, f: &mut fmt::Formatter<W>) -> fmt::Result {
        write!(f, "{} validation error(s):", self.len())?;
        for error in &self.errors {
            write!(f, "\n  - {error}")?;
        }
        Ok(())
    }
}
