//! The inputs that expressions read, and which of them aren't given.
ghost use Rattle.cel_syntax_ast.specs.Term.{term};
ghost use Rattle.kube_manifests_documents.specs.Inputs.{inputs_view};
ghost use Rattle.kube_manifests_names.specs.Inputs.{absent_fields, absent_in, asks_for, first_asked, first_missing, has_field, input_name, is_value, never_given, request_field, unless};
ghost use Rattle.serde_json.specs.View.{view as json_view};
ghost use Rattle.std.specs.Prelude.{◌≡◌, ◌++◌, IfOk, OnOk, option_map, Some};

use crate::request::is_null;
use crate::uses::asks;
use cel_syntax_ast::Expr;
use kube_manifests_documents::PolicyInputs;
use kube_types::Refused;
use serde_json::Value;
use std::alloc::{AllocError, Global};
use std::fmt;

/// An input that an expression may read and that isn't always given.
#[derive(Clone, Copy, Debug, PartialEq, Eq)]
pub enum Input {
    /// `object`.
    Object,
    /// `oldObject`.
    OldObject,
    /// `request`.
    Request,
    /// `request.dryRun`, which an API server fills in each request, as the three below.
    DryRun,
    /// `request.options`.
    Options,
    /// `request.requestKind`.
    RequestKind,
    /// `request.requestResource`.
    RequestResource,
    /// `params`.
    Params,
    /// `namespaceObject`. Match conditions are never given it.
    NamespaceObject,
    /// `authorizer`, which queries an API server. It is never given.
    Authorizer,
}

impl Input {
    /// The input as it is written in an expression.
    pub fn name(self) -> &'static str
        ensures { result.now ≡ input_name self }
    {
        match self {
            Input::Object => "object",
            Input::OldObject => "oldObject",
            Input::Request => "request",
            Input::DryRun => "request.dryRun",
            Input::Options => "request.options",
            Input::RequestKind => "request.requestKind",
            Input::RequestResource => "request.requestResource",
            Input::Params => "params",
            Input::NamespaceObject => "namespaceObject",
            Input::Authorizer => "authorizer",
        }
    }

    /// The field of `request` that the input is.
    fn request_field(self) -> Option<&'static str>
        ensures { option_map (λ s. s.now) result ≡ request_field self }
    {
        match self {
            Input::DryRun => Some("dryRun"),
            Input::Options => Some("options"),
            Input::RequestKind => Some("requestKind"),
            Input::RequestResource => Some("requestResource"),
            Input::Object => None,
            Input::OldObject => None,
            Input::Request => None,
            Input::Params => None,
            Input::NamespaceObject => None,
            Input::Authorizer => None,
        }
    }

    /// Reports whether an expression reads the input.
    fn is_asked(self, expr: &Expr) -> bool
        ensures { result ≡ asks_for self (term expr.now) }
    {
        match self.request_field() {
            None => expr.has_free_name(self.name()),
            Some(field) => asks(expr, "request", field, true),
        }
    }
}

impl fmt::Display for Input {
    ghost output = { λ i. Some (input_name i) };

    fn fmt<W: fmt::Write>(&self, f: &mut fmt::Formatter<W>) -> fmt::Result {
        f.write_str(self.name())
    }
}

/// Returns the first of these inputs that an expression reads, if any.
fn first_of(inputs: &[Input], expr: &Expr) -> Option<Input>
    ensures { result ≡ first_asked inputs.now (term expr.now) }
{
    for input in inputs {
        if input.is_asked(expr) {
            return Some(*input);
        }
    }
    None
}

/// Returns the first input that is never given and that an expression reads, if any.
fn first_never(expr: &Expr) -> Option<Input>
    ensures { result ≡ first_asked never_given (term expr.now) }
{
    let never = [Input::Authorizer];
    first_of(&never, expr)
}

/// Returns the first input that an expression reads among `absent` and those that are never given.
pub fn first_missing(absent: &[Input], expr: &Expr) -> Option<Input>
    ensures { result ≡ first_missing absent.now (term expr.now) }
{
    match first_of(absent, expr) {
        Some(input) => Some(input),
        None => first_never(expr),
    }
}

/// Appends an input, unless it is given.
fn push_unless(absent: &mut Vec<Input>, input: Input, given: bool) -> Result<(), AllocError>
    ensures { OnOk result (absent.new.items ≡ absent.old.items ++ unless given input) }
{
    if !given {
        absent.push(input)?;
    }
    Ok(())
}

/// Reports whether a request has a field that isn't null. If there is no request, that is what isn't
/// given.
fn has_field(request: &Option<Value>, name: &str) -> bool
    ensures { result ≡ has_field name.now (option_map json_view request.now) }
{
    match request {
        None => true,
        Some(request) => is_value(request.get(name)),
    }
}

fn is_value(value: Option<&Value>) -> bool
    ensures { result ≡ is_value (option_map (λ v. json_view v.now) value.entry) }
{
    match value {
        None => false,
        Some(value) => !is_null(value),
    }
}

/// Appends the fields of a request that an API server fills and that aren't given.
#[tactic(auto, unfolding(crate::specs::Inputs::absent_fields))]
fn push_absent_fields(absent: &mut Vec<Input>, request: &Option<Value>) -> Result<(), AllocError>
    ensures { OnOk result (absent.new.items
        ≡ absent.old.items ++ absent_fields (option_map json_view request.now)) }
{
    push_unless(absent, Input::DryRun, has_field(request, "dryRun"))?;
    push_unless(absent, Input::Options, has_field(request, "options"))?;
    push_unless(
        absent,
        Input::RequestKind,
        has_field(request, "requestKind"),
    )?;
    push_unless(
        absent,
        Input::RequestResource,
        has_field(request, "requestResource"),
    )?;
    Ok(())
}

/// Returns the inputs that aren't given, if `namespace` is the object's namespace.
///
/// # Errors
///
/// [`Refused`] if memory is refused.
#[tactic(auto, unfolding(crate::specs::Inputs::absent_in))]
pub fn absent_inputs(
    alloc: Global,
    inputs: &PolicyInputs,
    namespace: &Option<Value>,
) -> Result<Vec<Input>, Refused>
    ensures absent { IfOk result (λ v. v.items
        ≡ absent_in
        (record (inputs_view inputs.now) { namespace_object = option_map json_view namespace.now })) }
{
    let mut absent = Vec::new(alloc);
    push_unless(&mut absent, Input::Object, inputs.object.is_some())?;
    push_unless(&mut absent, Input::OldObject, inputs.old_object.is_some())?;
    push_unless(&mut absent, Input::Request, inputs.request.is_some())?;
    push_unless(&mut absent, Input::Params, inputs.params.is_some())?;
    push_unless(&mut absent, Input::NamespaceObject, namespace.is_some())?;
    push_absent_fields(&mut absent, &inputs.request)?;
    Ok(absent)
}
