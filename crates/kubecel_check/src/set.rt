//! Compiles definitions, or finds their first fault.
ghost use Rattle.kube_manifests.specs.DocumentsVersions.{Version};
ghost use Rattle.kubecel_check.specs.Definitions.{AreWhole, IsSetOf};
ghost use Rattle.kubecel_io.specs.Subjects.{subject_view};
ghost use Rattle.serde_json.specs.Data.{Data};
ghost use Rattle.serde_json.specs.View.{view};
ghost use Rattle.std.specs.Prelude.{◌≡◌, IfOk, List, None, map};

use kube_manifests::CrdSet;
use kube_manifests_documents::{CrdError, CrdFault, DefinedVersions, earlier_definition};
use kubecel_io::{Refused, Subject};
use serde_json::Value;
use std::alloc::{AllocError, Global};

/// Compiles these definitions. The inner error is the first fault of the first definition that has
/// one, with its place.
pub fn set_or_fault(
    alloc: Global,
    definitions: &[Subject<'_>],
) -> Result<Result<CrdSet, String>, Refused>
    ensures { IfOk result (λ r. IfOk r (IsSetOf (map subject_view definitions.now))) }
{
    let values = values_of(alloc, definitions)?;
    match CrdSet::from_documents(alloc, values.as_slice())? {
        Ok(set) => Ok(Ok(set)),
        Err(error) => Ok(Err(fault_text(alloc, definitions, values.as_slice(), &error)?)),
    }
}

/// Returns the first fault of the first of these definitions that has one, with its place. No schema
/// is compiled.
pub fn fault_of(alloc: Global, definitions: &[Subject<'_>]) -> Result<Option<String>, Refused>
    ensures { IfOk result (λ f. f ≡ None
        → (versions : List (Version Data)) × AreWhole (map subject_view definitions.now) versions) }
{
    let values = values_of(alloc, definitions)?;
    let read = DefinedVersions::read(alloc, values.as_slice())?;
    match read {
        Ok(_) => Ok(None),
        Err(error) => Ok(Some(fault_text(alloc, definitions, values.as_slice(), &error)?)),
    }
}

/// Formats a fault as `FILE: at PLACE: FAULT`, with what was found there. If a definition of the same
/// group and kind stands before, says where.
fn fault_text(
    alloc: Global,
    definitions: &[Subject<'_>],
    values: &[&Value],
    error: &CrdError,
) -> Result<String, Refused> {
    let Some(definition) = definitions.get(error.document) else {
        return Ok(format!(in alloc; "{error}")?);
    };
    let location = location_of(alloc, definition)?;
    let place = if error.pointer.is_empty() {
        ""
    } else {
        ": at "
    };
    let fault = error.explain(alloc, definition.value)?;
    let earlier = match error.fault {
        CrdFault::RepeatedKind => earlier_definition(values, error),
        _ => None,
    };
    let before = before_text(alloc, definitions, earlier)?;
    Ok(format!(in alloc; "{location}{place}{}: {fault}{before}", error.pointer)?)
}

/// Says where the definition at this index stands, if there is one.
fn before_text(
    alloc: Global,
    definitions: &[Subject<'_>],
    earlier: Option<usize>,
) -> Result<String, AllocError> {
    let Some(definition) = definitions.get(earlier.unwrap_or(definitions.len())) else {
        return Ok(String::new(alloc));
    };
    let location = location_of(alloc, definition)?;
    format!(in alloc; " (in {location})")
}

/// Returns the definitions' values.
fn values_of<'d>(alloc: Global, definitions: &[Subject<'d>]) -> Result<Vec<&'d Value>, AllocError>
    ensures { IfOk result (λ v. map (λ w. view w.now) v.items
        ≡ map (λ f. f.value) (map subject_view definitions.now)) }
{
    let mut values = Vec::with_capacity(alloc, definitions.len())?;
    for definition in definitions {
        values.push(definition.value)?;
    }
    Ok(values)
}

/// Returns the location of a definition: its file and, unless its document is the first there, the
/// index of that in the file.
fn location_of(alloc: Global, definition: &Subject<'_>) -> Result<String, AllocError> {
    match definition.index {
        0 => String::from_str(alloc, definition.file),
        index => format!(in alloc; "{}[{index}]", definition.file),
    }
}
