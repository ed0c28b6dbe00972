//! The inputs of a policy.
ghost use Rattle.kube_manifests_documents.specs.Inputs.{inputs_view, no_variables};
ghost use Rattle.std.specs.Prelude.{◌≡◌};

use serde_json::Value;

/// The values that a policy is evaluated over. `None` means that the value isn't known: an
/// expression that reads it is not judged. A value known to be null is `Some(Value::Null)`:
/// `oldObject` when an object is created, `object` when one is deleted, `params` if a policy has
/// none, `namespaceObject` if the object has no namespace.
#[derive(Debug, Drop)]
pub struct PolicyInputs {
    /// The object of the request, `object`.
    pub object: Option<Value>,
    /// The object before the request, `oldObject`.
    pub old_object: Option<Value>,
    /// The parameters of the policy, `params`.
    pub params: Option<Value>,
    /// The object's namespace, `namespaceObject`.
    pub namespace_object: Option<Value>,
    /// The request, `request`, as the field `request` of an AdmissionReview has it. A field that it
    /// doesn't have is absent for expressions, too.
    pub request: Option<Value>,
}

impl PolicyInputs {
    /// Returns inputs of which none is known.
    pub fn none() -> PolicyInputs
        ensures { inputs_view result ≡ no_variables }
    {
        PolicyInputs {
            object: None,
            old_object: None,
            params: None,
            namespace_object: None,
            request: None,
        }
    }
}
