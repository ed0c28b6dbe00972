//! The faults of documents that don't have the shape of their type.
ghost use Rattle.kube_manifests_bindings.specs.Faults.{fault_seen, fault_text, fault_view, kind_view, problem_text, problem_view};
ghost use Rattle.std.specs.Prelude.{◌≡◌, IfErr, IfOk, Some};

use crate::location::{Location, pointer_of};
use kube_manifests_texts::{joined, near};
use kube_types_refused::Refused;
use std::alloc::{AllocError, Global};
use std::fmt;

/// What is wrong at a location in a document.
#[derive(Debug, Drop)]
pub enum BindingProblem {
    /// A required value is missing, null or empty.
    Missing,
    /// The value is not an object.
    NotObject,
    /// The value is not a list.
    NotList,
    /// The value is not a string.
    NotString,
    /// The string is none of those that are supported at this location.
    Unsupported {
        /// The string.
        value: String,
        /// The strings that are supported, with a comma between each two.
        supported: String,
    },
    /// No field of this name is known at this location.
    UnknownField {
        /// The known field that was probably meant, if one is near.
        meant: Option<&'static str>,
    },
    /// An earlier item is the same.
    Repeated,
    /// Something is there that this must not stand beside.
    Beside {
        /// What this is.
        other: &'static str,
    },
}

impl fmt::Display for BindingProblem {
    ghost output = { λ k. Some (problem_text (kind_view k)) };

    fn fmt<W: fmt::Write>(&self, f: &mut fmt::Formatter<W>) -> fmt::Result {
        match self {
            BindingProblem::Missing => write!(f, "is required"),
            BindingProblem::NotObject => write!(f, "must be an object"),
            BindingProblem::NotList => write!(f, "must be a list"),
            BindingProblem::NotString => write!(f, "must be a string"),
            BindingProblem::Unsupported { value, supported } => write!(
                f,
                "has the unsupported value \"{value}\" (supported: {supported})"
            ),
            BindingProblem::UnknownField { meant: None } => write!(f, "is an unknown field"),
            BindingProblem::UnknownField { meant: Some(field) } => {
                write!(f, "is an unknown field (did you mean {field}?)")
            }
            BindingProblem::Repeated => write!(f, "is a duplicate"),
            BindingProblem::Beside { other } => write!(f, "must not stand beside {other}"),
        }
    }
}

/// Why a document is not a binding, or the constraints of a policy aren't any: its first fault.
#[derive(Debug, Drop)]
pub struct BindingFault {
    /// The location of the fault, a JSON Pointer (RFC 6901).
    pub pointer: String,
    /// What is wrong there.
    pub kind: BindingProblem,
}

impl fmt::Display for BindingFault {
    ghost output = { λ f. Some (fault_text (fault_view f)) };

    fn fmt<W: fmt::Write>(&self, f: &mut fmt::Formatter<W>) -> fmt::Result {
        write!(f, "at {}: {}", self.pointer, self.kind)
    }
}

/// What is wrong, by references into the document.
#[derive(Clone, Copy, Drop)]
pub(crate) enum Problem<'v> {
    Missing,
    NotObject,
    NotList,
    NotString,
    /// The string, and those that are supported.
    Unsupported(&'v str, &'static [&'static str]),
    /// The name of the field, and the fields that are known.
    UnknownField(&'v str, &'static [&'static str]),
    Repeated,
    /// What it must not stand beside.
    Beside(&'static str),
}

/// A fault whose pointer isn't written out yet.
#[derive(Clone, Copy, Drop)]
pub struct Found<'v> {
    pub(crate) location: Location<'v>,
    pub(crate) problem: Problem<'v>,
}

/// Returns what is wrong with texts of its own.
fn kind_of(alloc: Global, problem: Problem<'_>) -> Result<BindingProblem, AllocError>
    ensures { IfOk result (λ k. kind_view k ≡ problem_view problem.entry) }
{
    match problem {
        Problem::Missing => Ok(BindingProblem::Missing),
        Problem::NotObject => Ok(BindingProblem::NotObject),
        Problem::NotList => Ok(BindingProblem::NotList),
        Problem::NotString => Ok(BindingProblem::NotString),
        Problem::Unsupported(value, supported) => Ok(BindingProblem::Unsupported {
            value: String::from_str(alloc, value)?,
            supported: joined(alloc, supported)?,
        }),
        Problem::UnknownField(name, fields) => Ok(BindingProblem::UnknownField {
            meant: near(alloc, fields, name)?,
        }),
        Problem::Repeated => Ok(BindingProblem::Repeated),
        Problem::Beside(other) => Ok(BindingProblem::Beside { other }),
    }
}

/// Returns the fault with its pointer written out.
///
/// # Errors
///
/// Only [`Refused::Memory`], if memory is refused.
pub fn reported(alloc: Global, found: Found<'_>) -> Result<BindingFault, Refused>
    ensures fault { IfOk result (λ f. fault_view f ≡ fault_seen found.entry) }
    ensures memory { IfErr result (λ e. e ≡ Refused.Memory) }
{
    Ok(BindingFault {
        pointer: pointer_of(alloc, found.location)?,
        kind: kind_of(alloc, found.problem)?,
    })
}
