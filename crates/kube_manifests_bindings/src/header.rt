//! What the documents of policies and bindings begin with.
ghost use Rattle.kube_manifests_bindings.specs.Bindings.{header_of, header_view, type_fits};
ghost use Rattle.kube_manifests_bindings.specs.Faults.{reading_view};
ghost use Rattle.kube_manifests_bindings.specs.Fields.{form_view};
ghost use Rattle.serde_json.specs.View.{view};
ghost use Rattle.std.specs.Prelude.{◌≡◌};

use crate::fault::Found;
use crate::fields::{Form, required_object_at, required_text_at};
use crate::location::Place;
use serde_json::Value;

/// The apiVersions of policies and bindings.
const VERSIONS: [&str; 3] = [
    "admissionregistration.k8s.io/v1",
    "admissionregistration.k8s.io/v1beta1",
    "admissionregistration.k8s.io/v1alpha1",
];

/// The name and the `spec` of a document.
#[derive(Clone, Copy, Drop)]
pub(crate) struct Header<'v> {
    pub(crate) name: &'v str,
    pub(crate) spec: &'v Value,
}

/// Checks the apiVersion and the kind of a document.
pub(crate) fn check_type<'v>(document: &'v Value, kinds: Form) -> Result<(), Found<'v>>
    ensures { reading_view (λ u. u) result ≡ type_fits (form_view kinds) (view document.now) }
{
    let place = Place::At("");
    required_text_at(place, document, "apiVersion", Form::OneOf(&VERSIONS))?;
    required_text_at(place, document, "kind", kinds)?;
    Ok(())
}

/// Reads the name and the `spec` of a document.
#[tactic(auto, unfolding(crate::specs::Bindings::header_of))]
pub(crate) fn header_of(document: &Value) -> Result<Header<'_>, Found<'_>>
    ensures { reading_view header_view result ≡ header_of (view document.now) }
{
    let place = Place::At("");
    let metadata = required_object_at(place, document, "metadata")?;
    let name = required_text_at(Place::At("/metadata"), metadata, "name", Form::Filled)?;
    let spec = required_object_at(place, document, "spec")?;
    Ok(Header { name, spec })
}
