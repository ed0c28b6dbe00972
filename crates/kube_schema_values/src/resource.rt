//! The fields that an embedded resource always has (Kubernetes documentation, "Extend the
//! Kubernetes API with CustomResourceDefinitions", `x-kubernetes-embedded-resource`).
ghost use Rattle.std.specs.Prelude.{◌≡◌, [], IfErr, OnOk};
ghost use Rattle.serde_json.specs.View.{members_view};
ghost use Rattle.cel_value.specs.Data.{map_of, no_entries, text};
ghost use Rattle.cel_value.specs.View.{entries_view};
ghost use Rattle.kube_schema_values.specs.Conversion.{put_absent, with_resource_fields};

use crate::values::{bind_text, put_entry};
use cel_value::{Entries, Refused, Value};
use serde_json::{Map as Members, Value as Json};
use std::alloc::Global;

/// Inserts the fields of a resource that the object lacks: an empty
/// string at `apiVersion` and at `kind`, an empty map at `metadata`.
///
/// # Errors
///
/// [`Refused`] if memory is refused.
#[tactic(auto, unfolding(crate::specs::Conversion::with_resource_fields))]
pub fn put_resource_fields(
    alloc: Global,
    members: &Members<String, Json>,
    entries: &mut Entries,
) -> Result<(), Refused>
    ensures fields { OnOk result (entries_view entries.new.entries
        ≡ with_resource_fields (members_view members.now.entries) (entries_view entries.old.entries)) }
    ensures memory { IfErr result (λ e. e ≡ Refused.Memory) }
{
    put_absent_text(alloc, members, "apiVersion", entries)?;
    put_absent_text(alloc, members, "kind", entries)?;
    put_absent_map(alloc, members, "metadata", entries)?;
    Ok(())
}

// Inserts an empty string, unless the object has the member.
fn put_absent_text(
    alloc: Global,
    members: &Members<String, Json>,
    name: &str,
    entries: &mut Entries,
) -> Result<(), Refused>
    ensures field { OnOk result (entries_view entries.new.entries
        ≡ put_absent (members_view members.now.entries) name.now
        (text []) (entries_view entries.old.entries)) }
    ensures memory { IfErr result (λ e. e ≡ Refused.Memory) }
{
    if members.contains_key(name) {
        return Ok(());
    }
    let value = bind_text(alloc, "")?;
    let key = String::from_str(alloc, name)?;
    put_entry(alloc, entries, key, value)?;
    Ok(())
}

// Inserts an empty map, unless the object has the member.
fn put_absent_map(
    alloc: Global,
    members: &Members<String, Json>,
    name: &str,
    entries: &mut Entries,
) -> Result<(), Refused>
    ensures field { OnOk result (entries_view entries.new.entries
        ≡ put_absent (members_view members.now.entries) name.now
        (map_of no_entries) (entries_view entries.old.entries)) }
    ensures memory { IfErr result (λ e. e ≡ Refused.Memory) }
{
    if members.contains_key(name) {
        return Ok(());
    }
    let value = Value::from_entries(alloc, Entries::new(alloc))?;
    let key = String::from_str(alloc, name)?;
    put_entry(alloc, entries, key, value)?;
    Ok(())
}
