//! The faults of documents that don't have the expected shape.
ghost use Rattle.kube_manifests_documents.specs.Faults.{fault_seen, fault_text, fault_view, kind_view, problem_text, problem_view};
ghost use Rattle.std.specs.Prelude.{◌≡◌, IfOk, Some};

use crate::location::{Location, pointer_of};
use kube_manifests_texts::{joined, near};
use std::alloc::{AllocError, Global};
use std::fmt;

/// What is wrong at a location in a document.
#[derive(Debug, Drop)]
pub enum FaultKind {
    /// A required value is missing or null.
    Missing,
    /// The value is not an object.
    NotObject,
    /// The value is not a list.
    NotList,
    /// The value is not a string.
    NotString,
    /// The value is neither true nor false.
    NotBool,
    /// The string is none of those that are supported at this location.
    Unsupported {
        /// The string.
        value: String,
        /// The strings that are supported, with a comma between each two.
        supported: String,
    },
    /// No field of this name is known at this location.
    UnknownField {
        /// The known field that was probably meant, if one is near.
        meant: Option<&'static str>,
    },
    /// An earlier entry has the same name.
    Repeated,
    /// The policy has neither validations nor audit annotations.
    NothingToCheck,
}

impl fmt::Display for FaultKind {
    ghost output = { λ k. Some (problem_text (kind_view k)) };

    fn fmt<W: fmt::Write>(&self, f: &mut fmt::Formatter<W>) -> fmt::Result {
        match self {
            FaultKind::Missing => write!(f, "is required"),
            FaultKind::NotObject => write!(f, "must be an object"),
            FaultKind::NotList => write!(f, "must be a list"),
            FaultKind::NotString => write!(f, "must be a string"),
            FaultKind::NotBool => write!(f, "must be true or false"),
            FaultKind::Unsupported { value, supported } => write!(
                f,
                "has the unsupported value \"{value}\" (supported: {supported})"
            ),
            FaultKind::UnknownField { meant: None } => write!(f, "is an unknown field"),
            FaultKind::UnknownField { meant: Some(field) } => {
                write!(f, "is an unknown field (did you mean {field}?)")
            }
            FaultKind::Repeated => write!(f, "has a duplicate name"),
            FaultKind::NothingToCheck => write!(f, "must have validations or auditAnnotations"),
        }
    }
}

/// Why a document is not a policy, or not a review: its first fault.
#[derive(Debug, Drop)]
pub struct PolicyFault {
    /// The location of the fault, a JSON Pointer (RFC 6901).
    pub pointer: String,
    /// What is wrong there.
    pub kind: FaultKind,
}

impl fmt::Display for PolicyFault {
    ghost output = { λ f. Some (fault_text (fault_view f)) };

    fn fmt<W: fmt::Write>(&self, f: &mut fmt::Formatter<W>) -> fmt::Result {
        write!(f, "at {}: {}", self.pointer, self.kind)
    }
}

/// What is wrong, by references into the document.
#[derive(Clone, Copy, Drop)]
pub(crate) enum Problem<'v> {
    Missing,
    NotObject,
    NotList,
    NotString,
    NotBool,
    /// The string, and those that are supported.
    Unsupported(&'v str, &'static [&'static str]),
    /// The name of the field, and the fields that are known.
    UnknownField(&'v str, &'static [&'static str]),
    Repeated,
    NothingToCheck,
}

/// A fault whose pointer isn't written out yet.
#[derive(Clone, Copy, Drop)]
pub struct Found<'v> {
    pub(crate) location: Location<'v>,
    pub(crate) problem: Problem<'v>,
}

/// Returns what is wrong with texts of its own.
fn kind_of(alloc: Global, problem: Problem<'_>) -> Result<FaultKind, AllocError>
    ensures { IfOk result (λ k. kind_view k ≡ problem_view problem.entry) }
{
    match problem {
        Problem::Missing => Ok(FaultKind::Missing),
        Problem::NotObject => Ok(FaultKind::NotObject),
        Problem::NotList => Ok(FaultKind::NotList),
        Problem::NotString => Ok(FaultKind::NotString),
        Problem::NotBool => Ok(FaultKind::NotBool),
        Problem::Unsupported(value, supported) => Ok(FaultKind::Unsupported {
            value: String::from_str(alloc, value)?,
            supported: joined(alloc, supported)?,
        }),
        Problem::UnknownField(name, fields) => Ok(FaultKind::UnknownField {
            meant: near(alloc, fields, name)?,
        }),
        Problem::Repeated => Ok(FaultKind::Repeated),
        Problem::NothingToCheck => Ok(FaultKind::NothingToCheck),
    }
}

/// Returns the fault with its pointer written out.
///
/// # Errors
///
/// `AllocError` if memory is refused.
pub fn reported(alloc: Global, found: Found<'_>) -> Result<PolicyFault, AllocError>
    ensures { IfOk result (λ f. fault_view f ≡ fault_seen found.entry) }
{
    Ok(PolicyFault {
        pointer: pointer_of(alloc, found.location)?,
        kind: kind_of(alloc, found.problem)?,
    })
}
