//! The types of values.
ghost use Rattle.std.specs.Prelude.{◌≡◌, IfOk, Ok};
ghost use Rattle.cel_value.specs.Data as plain;
ghost use Rattle.cel_value.specs.View.{view, kind_of};
ghost use Rattle.cel_semantics.specs.Outcome.{outcome_view};
ghost use Rattle.kube_server_values.specs.Types as spec;

use cel_semantics::operators::Answer;
use cel_value::{Kind, Refused, Value};
use std::alloc::Global;

fn name_of(kind: Kind) -> &'static str
    ensures { result.now ≡ spec.type_name kind }
{
    match kind {
        Kind::Null => "null_type",
        Kind::Bool => "bool",
        Kind::Int => "int",
        Kind::UInt => "uint",
        Kind::Float => "double",
        Kind::String => "string",
        Kind::Bytes => "bytes",
        Kind::List => "list",
        Kind::Map => "map",
        Kind::Timestamp => "google.protobuf.Timestamp",
        Kind::Duration => "google.protobuf.Duration",
        Kind::Optional => "optional_type",
        Kind::Ip => "net.IP",
        Kind::Cidr => "net.CIDR",
        Kind::Quantity => "kubernetes.Quantity",
        Kind::Semver => "kubernetes.Semver",
        Kind::Url => "kubernetes.URL",
        Kind::Format => "kubernetes.NamedFormat",
    }
}

/// Returns the name of a value's type.
///
/// # Errors
/// [`Refused::Memory`] if memory is refused.
pub fn type_name(alloc: Global, value: &Value) -> Result<Answer, Refused>
    ensures value { IfOk result
        (λ r. outcome_view r ≡ Ok (plain.text (spec.type_name (kind_of (view value.now))))) }
{
    Ok(Ok(Value::of_str(alloc, name_of(value.type_of()))?))
}

/// `dyn`: returns the value.
///
/// # Errors
/// [`Refused::Memory`] if memory is refused.
pub fn dynamic(value: &Value) -> Result<Answer, Refused>
    ensures value { IfOk result (λ r. outcome_view r ≡ Ok (view value.now)) }
{
    Ok(Ok(value.try_clone()?))
}
