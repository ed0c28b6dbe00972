//! The errors of what isn't answered.
ghost use Rattle.std.specs.Prelude.{◌≡◌, IfOk};
ghost use Rattle.cel_value.specs.Faults.{fault_view};
ghost use Rattle.kube_server_times.specs.Limits as spec;

use cel_value::{ExecutionError, Refused};
use std::alloc::Global;

/// The error of a zone whose clock isn't known.
pub(crate) fn zone_limit(alloc: Global, zone: &str) -> Result<ExecutionError, Refused>
    ensures value { IfOk result (λ e. fault_view e ≡ spec.zone_limit zone.now) }
{
    let name = format!(in alloc; "time zone {zone}")?;
    Ok(ExecutionError::UndeclaredReference(name))
}

/// The error of a function for which a server computes with a double that rounds.
pub(crate) fn rounding_limit(alloc: Global, name: &str) -> Result<ExecutionError, Refused>
    ensures value { IfOk result (λ e. fault_view e ≡ spec.rounding_limit name.now) }
{
    let name = format!(in alloc; "{name} of a duration that a double rounds")?;
    Ok(ExecutionError::UndeclaredReference(name))
}

/// The error of `int` of a duration.
pub(crate) fn int_limit(alloc: Global) -> Result<ExecutionError, Refused>
    ensures value { IfOk result (λ e. fault_view e ≡ spec.int_limit) }
{
    let name = String::from_str(alloc, "int of a duration")?;
    Ok(ExecutionError::UndeclaredReference(name))
}
