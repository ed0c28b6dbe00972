//! What a map of an authorizer is.
ghost use Rattle.std.specs.Prelude.{◌≡◌, IfOk};
ghost use Rattle.kube_server_authorizer.specs.Asked.{is_there};
ghost use Rattle.kube_server_authorizer.specs.Calls as spec;

use crate::asked::member;
use cel_value::{Map, Refused};
use std::alloc::Global;

fn is_there(alloc: Global, entries: &Map, name: &str) -> Result<bool, Refused>
    ensures value { IfOk result (λ b. b ≡ is_there name.now entries.now) }
{
    Ok(member(alloc, entries, name)?.is_some())
}

/// Reports whether it is an authorizer of which neither a path nor a group was asked.
pub(crate) fn is_authorizer(alloc: Global, entries: &Map) -> Result<bool, Refused>
    ensures value { IfOk result (λ b. b ≡ spec.is_authorizer entries.now) }
{
    Ok(
        is_there(alloc, entries, "@authorizer")?
            && !(is_there(alloc, entries, "path")? || is_there(alloc, entries, "group")?),
    )
}

/// Reports whether it is a check of a group.
pub(crate) fn is_group_check(alloc: Global, entries: &Map) -> Result<bool, Refused>
    ensures value { IfOk result (λ b. b ≡ spec.is_group_check entries.now) }
{
    Ok(is_there(alloc, entries, "group")? && !is_there(alloc, entries, "resource")?)
}

/// Reports whether it is a check of a resource.
pub(crate) fn is_resource_check(alloc: Global, entries: &Map) -> Result<bool, Refused>
    ensures value { IfOk result (λ b. b ≡ spec.is_resource_check entries.now) }
{
    is_there(alloc, entries, "resource")
}

/// Reports whether it is a check of a path or of a resource.
pub(crate) fn is_check(alloc: Global, entries: &Map) -> Result<bool, Refused>
    ensures value { IfOk result (λ b. b ≡ spec.is_check entries.now) }
{
    Ok(is_there(alloc, entries, "path")? || is_there(alloc, entries, "resource")?)
}
