//! Laws of values and inputs. Each is the contract of a function.
ghost use Rattle.kube_manifests_names.specs.Unstructured.{KeepsKeys, unstructured};
ghost use Rattle.kube_schema_values.specs.Plain.{plain};
ghost use Rattle.serde_json.specs.Data.{Data as Json};
ghost use Rattle.std.specs.Prelude.{◌≡◌, ◌↔◌, IsTrue};

use crate::inputs::Input;

/// An object's value with its own keys is the one with escaped keys if escaping changes no key.
#[tactic(auto, using(crate::proofs::OwnKeys::plain_alike))]
pub fn escaped_alike()
    ensures { (d : Json) → KeepsKeys d → unstructured d ≡ plain d }
{}

/// Two inputs are equal exactly if they are the same.
pub fn equal_inputs(a: Input, b: Input) -> bool
    ensures { IsTrue result ↔ (a ≡ b) }
{
    a == b
}
