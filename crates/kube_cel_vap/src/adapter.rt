//! Makes CEL values of the JSON that the expressions of a policy read.
ghost use Rattle.cel_value.specs.Data.{Data};
ghost use Rattle.cel_value.specs.View.{view};
ghost use Rattle.kube_schema_values.specs.Plain.{plain};
ghost use Rattle.serde_json.specs.Data.{Data as JsonData};
ghost use Rattle.serde_json.specs.View.{view as json_view};
ghost use Rattle.std.specs.Prelude.{◌≡◌, IfOk};

use cel_value::Value;
use kube_schema_values::bind_plain;
use kube_types::Refused;
use serde_json::Value as Json;
use std::alloc::Global;

/// Makes CEL values of JSON. `value` is the value that is made.
pub trait Adapter {
    ghost value: { Self → JsonData → Data };

    /// Makes a CEL value of JSON.
    ///
    /// # Errors
    ///
    /// [`Refused`] if memory is refused.
    fn value_of(&self, alloc: Global, json: &Json) -> Result<Value, Refused>
        ensures value { IfOk result (λ v. view v ≡ value self.now (json_view json.now)) };
}

/// Makes maps with escaped keys of objects.
#[derive(Drop)]
pub(crate) struct EscapedKeys;

impl Adapter for EscapedKeys {
    ghost value = { λ _. plain };

    fn value_of(&self, alloc: Global, json: &Json) -> Result<Value, Refused> {
        bind_plain(alloc, json)
    }
}
