//! The cases that rows give to judge.

use conformance_rows::nested::{given_or_empty, value_given};
use conformance_rows::{Field, Found, given as rows};
use kube_cel::RootContext;
use serde_json::Value;
use std::alloc::Global;

/// A schema, an object with its old state, and the root context.
#[derive(Clone, Copy)]
pub(crate) struct Case<'v> {
    pub(crate) schema: &'v Value,
    pub(crate) object: &'v Value,
    pub(crate) old: Option<&'v Value>,
    pub(crate) root: Option<&'v RootContext>,
}

/// The values of a case that a row gives. What can't be read is null.
pub(crate) struct CaseValues {
    schema: Value,
    object: Value,
    old: Option<Value>,
    root: Option<RootContext>,
}

// By hand, so that a proof about code that owns one doesn't go through its parts.
impl Drop for CaseValues {
    fn drop(self) {
        let CaseValues {
            schema: _,
            object: _,
            old: _,
            root: _,
        } = self;
    }
}

impl CaseValues {
    /// The case of these values.
    pub(crate) fn case(&self) -> Case<'_> {
        Case {
            schema: &self.schema,
            object: &self.object,
            old: self.old.as_ref(),
            root: self.root.as_ref(),
        }
    }
}

/// Appends a member's text to a field, if there is one.
fn fill(field: &mut String, reported: &Value, key: &str, found: &mut Found) {
    if let Some(Value::String(text)) = reported.get(key) {
        let _ = found.take(field.push_str(text.as_str()));
    }
}

/// Returns a copy of the root context in JSON. Members that the JSON leaves out have their default.
fn root_of(alloc: Global, reported: &Value, found: &mut Found) -> Option<RootContext> {
    let mut root = RootContext::default(alloc);
    fill(&mut root.api_version, reported, "apiVersion", found);
    fill(&mut root.api_group, reported, "apiGroup", found);
    fill(&mut root.kind, reported, "kind", found);
    found.take(root.try_clone())
}

/// Reads the root context that a row gave last.
fn root_given(alloc: Global, given: &[Field], found: &mut Found) -> Option<RootContext> {
    let reported = rows::json(alloc, given, "root context", &mut found.other)?;
    root_of(alloc, &reported, found)
}

/// Reads the case that a row gives. If a part can't be read, records why.
pub(crate) fn given(alloc: Global, given: &[Field], found: &mut Found) -> CaseValues {
    CaseValues {
        schema: given_or_empty(alloc, given, "schema", &mut found.other),
        object: given_or_empty(alloc, given, "object", &mut found.other),
        old: value_given(alloc, given, "old object", &mut found.other),
        root: root_given(alloc, given, found),
    }
}
