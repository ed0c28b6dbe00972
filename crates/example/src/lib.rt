//! Decides whether an object meets the rules of a schema, and if not, says why.
#![tactic(auto)]

ghost use Rattle.kube_cel.specs.Answers.{IsReportOf};
ghost use Rattle.kube_cel.specs.Raw.{raw_accessors};
ghost use Rattle.kube_cel.specs.Starts.{call_start};
ghost use Rattle.kube_cel.specs.ErrorLists.{errors_in};
ghost use Rattle.kube_cel.specs.Texts.{errors_text};
ghost use Rattle.kube_cel.specs.ValidationErrors.{ValidationErrors};
ghost use Rattle.std.specs.Prelude.{◌≡◌, Err, IfOk, IfSome, None, Ok, string_bytes};

use kube_cel::{Refused, validate};
use serde_json::Value;
use std::alloc::Global;

/// Returns why an object is denied, or `None` if it is admitted. `Refused` is neither: memory ran out.
pub fn denial(alloc: Global, schema: &Value, object: &Value) -> Result<Option<String>, Refused>
    ensures admitted { result ≡ Ok None
        → IsReportOf raw_accessors (call_start schema.now object.now None None) (Ok tt) }
    ensures denied { IfOk result (λ why. IfSome why (λ text. (errors : ValidationErrors)
        × IsReportOf raw_accessors (call_start schema.now object.now None None) (Err errors)
        × (string_bytes text ≡ errors_text (errors_in errors)))) }
{
    match validate(alloc, schema, object, None)? {
        Ok(()) => Ok(None),
        Err(errors) => Ok(Some(errors.to_string(alloc)?)),
    }
}
