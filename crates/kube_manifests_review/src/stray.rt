//! Finds rules that stand where no schema of a version has its rules, and what stands where a schema
//! does and is none.
ghost use Rattle.std.specs.Prelude.{OnOk};
ghost use Rattle.kube_manifests_review.specs.Candidates.{AddsCandidates};
ghost use Rattle.kube_manifests_review.specs.Stray.{form_stray, key_stray, stray, stray_items, stray_members};
ghost use Rattle.serde_json.specs.View.{items_view, members_view, view};

use crate::candidate::Candidate;
use crate::finding::ReviewKind;
use crate::part::{Part, form_text, has_form, has_no_rules, item_part, member_part};
use crate::text::add_unconditional;
use kube_manifests_documents::{index_pointer, key_pointer};
use serde_json::{Map, Value};
use std::alloc::{AllocError, Global};

/// Adds a candidate for each member `x-kubernetes-validations` within a part that is none of a
/// schema's own, and for each value within it that hasn't the form of its own part.
#[cycle(stray)]
pub(crate) fn add_stray(
    alloc: Global,
    part: Part,
    pointer: &str,
    value: &Value,
    candidates: &mut Vec<Candidate>,
) -> Result<(), AllocError>
    ensures { OnOk result (AddsCandidates candidates.old.items candidates.new.items
        (stray part pointer.now (view value.now))) }
{
    match value {
        Value::Null => Ok(()),
        Value::Bool(_) => Ok(()),
        Value::Number(_) => Ok(()),
        Value::String(_) => Ok(()),
        Value::Array(items) => add_from_items(alloc, item_part(part), pointer, items, candidates),
        Value::Object(members) => add_from_members(alloc, part, pointer, members, candidates),
    }
}

/// Adds the candidates of items, each of which is this part.
#[cycle(stray)]
fn add_from_items(
    alloc: Global,
    part: Part,
    pointer: &str,
    items: &Vec<Value>,
    candidates: &mut Vec<Candidate>,
) -> Result<(), AllocError>
    ensures { OnOk result (AddsCandidates candidates.old.items candidates.new.items
        (stray_items part pointer.now 0 (items_view items.now.items))) }
{
    for (index, item) in items.iter().enumerate() {
        let inner = index_pointer(alloc, pointer, index)?;
        add_form_stray(alloc, part, inner.as_str(), item, candidates)?;
        add_stray(alloc, part, inner.as_str(), item, candidates)?;
    }
    Ok(())
}

/// Adds the candidates of the members of a part.
#[cycle(stray)]
fn add_from_members(
    alloc: Global,
    part: Part,
    pointer: &str,
    members: &Map<String, Value>,
    candidates: &mut Vec<Candidate>,
) -> Result<(), AllocError>
    ensures { OnOk result (AddsCandidates candidates.old.items candidates.new.items
        (stray_members part pointer.now (members_view members.now.entries))) }
{
    for (key, member) in members.iter() {
        let inner = key_pointer(alloc, pointer, key.as_str())?;
        add_key_stray(alloc, part, inner.as_str(), key.as_str(), candidates)?;
        let within = member_part(part, key.as_str());
        add_form_stray(alloc, within, inner.as_str(), member, candidates)?;
        add_stray(alloc, within, inner.as_str(), member, candidates)?;
    }
    Ok(())
}

/// Adds a candidate if a member's key is `x-kubernetes-validations`, and it is none of a schema's
/// own.
fn add_key_stray(
    alloc: Global,
    part: Part,
    pointer: &str,
    key: &str,
    candidates: &mut Vec<Candidate>,
) -> Result<(), AllocError>
    ensures { OnOk result (AddsCandidates candidates.old.items candidates.new.items
        (key_stray part pointer.now key.now)) }
{
    if has_no_rules(part) && key == "x-kubernetes-validations" {
        add_unconditional(
            alloc,
            pointer,
            ReviewKind::Rules,
            "this is no part of a version's schema, so these rules are never evaluated",
            candidates,
        )
    } else {
        Ok(())
    }
}

/// Adds a candidate if a value hasn't the form of its part.
fn add_form_stray(
    alloc: Global,
    part: Part,
    pointer: &str,
    value: &Value,
    candidates: &mut Vec<Candidate>,
) -> Result<(), AllocError>
    ensures { OnOk result (AddsCandidates candidates.old.items candidates.new.items
        (form_stray part pointer.now (view value.now))) }
{
    if has_form(part, value) {
        Ok(())
    } else {
        add_unconditional(
            alloc,
            pointer,
            ReviewKind::Keyword,
            form_text(part),
            candidates,
        )
    }
}
