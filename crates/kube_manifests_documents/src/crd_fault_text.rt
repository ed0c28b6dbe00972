//! Says what was found where a definition has a fault.
ghost use Rattle.kube_manifests_documents.specs.Defined.{type_meta_view};
ghost use Rattle.kube_manifests_documents.specs.DefinitionTexts.{array_words, document_text, fault_explanation, found_text, kind_words, repeated_text, string_words};
ghost use Rattle.kube_manifests_documents.specs.Definitions.{unless_none};
ghost use Rattle.serde_json.specs.Find.{pointer as points_to};
ghost use Rattle.serde_json.specs.View.{items_view, view};
ghost use Rattle.std.specs.Prelude.{◌≡◌, IfErr, IfOk, option_map, string_bytes};

use crate::crd_fault::{CrdError, CrdFault};
use crate::definition::{TypeMeta, type_meta_of, unless_none};
use kube_types_refused::Refused;
use serde_json::Value;
use std::alloc::{AllocError, Global};

fn string_words(text: &str) -> &'static str
    ensures { result.now ≡ string_words text.now }
{
    if text.is_empty() {
        "an empty string"
    } else {
        "a string"
    }
}

fn array_words(items: &[Value]) -> &'static str
    ensures { result.now ≡ array_words (unless_none (items_view items.now)) }
{
    match unless_none(items) {
        Some(_) => "an array",
        None => "an empty array",
    }
}

/// Names what a value is.
fn kind_words(value: &Value) -> &'static str
    ensures { result.now ≡ kind_words (view value.now) }
{
    match value {
        Value::Null => "null",
        Value::Bool(_) => "a bool",
        Value::Number(_) => "a number",
        Value::String(text) => string_words(text.as_str()),
        Value::Array(items) => array_words(items.as_slice()),
        Value::Object(_) => "an object",
    }
}

/// Says what was found in place of what is needed.
fn found_text(alloc: Global, fault: CrdFault, found: Option<&Value>) -> Result<String, AllocError>
    ensures { IfOk result (λ s. string_bytes s
        ≡ found_text fault (option_map (λ v. view v.now) found.entry)) }
{
    match found {
        None => format!(in alloc; "{fault}, but is missing"),
        Some(value) => format!(in alloc; "{fault}, not {}", kind_words(value)),
    }
}

/// Says what a document is that is no definition of `v1`.
fn document_text(alloc: Global, meta: Option<TypeMeta<'_>>) -> Result<String, AllocError>
    ensures { IfOk result (λ s. string_bytes s ≡ document_text (option_map type_meta_view meta.entry)) }
{
    let fault = CrdFault::NotACrd;
    let Some(meta) = meta else {
        return fault.to_string(alloc);
    };
    let (version, kind) = (meta.api_version, meta.kind);
    if kind == "CustomResourceDefinition" {
        format!(in alloc; "{version} isn't supported, only apiextensions.k8s.io/v1")
    } else {
        format!(in alloc; "{fault}, not {kind} of {version}")
    }
}

/// Says which name an earlier definition or version has, too.
fn repeated_text(
    alloc: Global,
    fault: CrdFault,
    words: &str,
    found: Option<&Value>,
) -> Result<String, AllocError>
    ensures { IfOk result (λ s. string_bytes s
        ≡ repeated_text fault words.now (option_map (λ v. view v.now) found.entry)) }
{
    match found {
        Some(Value::String(name)) => format!(in alloc; "{words}{name}"),
        _ => fault.to_string(alloc),
    }
}

/// Says what is wrong with a definition, if `found` stands at the fault's pointer.
#[tactic(auto, unfolding(crate::specs::DefinitionTexts::fault_explanation))]
fn explained(alloc: Global, fault: CrdFault, found: Option<&Value>) -> Result<String, AllocError>
    ensures { IfOk result (λ s. string_bytes s
        ≡ fault_explanation fault (option_map (λ v. view v.now) found.entry)) }
{
    match fault {
        CrdFault::NotACrd => document_text(alloc, found.and_then(type_meta_of)),
        CrdFault::RepeatedKind => repeated_text(
            alloc,
            fault,
            "another definition has this group and the kind ",
            found,
        ),
        CrdFault::RepeatedVersion => repeated_text(
            alloc,
            fault,
            "another version of this kind has the name ",
            found,
        ),
        CrdFault::NoSchema => fault.to_string(alloc),
        CrdFault::NoName
        | CrdFault::NoGroup
        | CrdFault::NoKind
        | CrdFault::NoVersions
        | CrdFault::NoVersionName
        | CrdFault::NoServed
        | CrdFault::SchemaNotAnObject => found_text(alloc, fault, found),
    }
}

impl CrdError {
    /// Says what is wrong, with what was found there. `document` is the document of the error.
    ///
    /// # Errors
    ///
    /// [`Refused`] if memory is refused.
    pub fn explain(&self, alloc: Global, document: &Value) -> Result<String, Refused>
        ensures words { IfOk result (λ s. string_bytes s
            ≡ fault_explanation self.now.fault (points_to (string_bytes self.now.pointer) (view document.now))) }
        ensures memory { IfErr result (λ e. e ≡ Refused.Memory) }
    {
        let text = explained(alloc, self.fault, document.pointer(self.pointer.as_str()))?;
        Ok(text)
    }
}
