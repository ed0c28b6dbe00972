//! Which names an expression of a policy may use.
ghost use Rattle.cel_value.specs.View.{view};
ghost use Rattle.cel_syntax_ast.specs.Term.{count_of, pairs_of as term_pairs, term, terms_of};
ghost use Rattle.kube_manifests_names.specs.Names.{always_declared, as_indexed, as_target, as_value, bound_names, by_form, called_on, function_shape, if_declared, is_authorizer, is_double, is_foreign, is_record, kind_members, kinds, literal_shape, math_functions, member_if, member_of, metadata_members, name_shape, names_view, namespace_member, other_functions, pairs_of, plain_members, refusal_of, refusal_text, refusal_view, request_member, resource_members, resources, shape_of, shape_seen, spec_members, status_members, user_members, value_of, values_of, variable_member};
ghost use Rattle.std.specs.List.{list_any};
ghost use Rattle.std.specs.Prelude.{◌≡◌, map, option_map, Some};
ghost use Rattle.std.specs.Str.{bytes_eq};

use crate::bound::Bound;
use cel_semantics::{Form, Functions};
use cel_syntax_ast::Expr;
use cel_value::Value;
use kube_functions::AllFunctions;
use std::collections::BTreeSet;
use std::fmt;

/// What an expression may read, besides what every expression may.
#[derive(Clone, Copy, Drop)]
pub struct Names<'n> {
    /// `params`.
    pub params: bool,
    /// `authorizer`.
    pub authorizer: bool,
    /// `variables`, with the members of these names.
    pub variables: Option<&'n BTreeSet<String>>,
}

/// Why an API server refuses an expression when the policy is made.
#[derive(Clone, Copy, Drop)]
pub enum Refusal<'e> {
    /// A name isn't declared.
    Undeclared(&'e str),
    /// A number is a double.
    NoDoubles,
    /// A function isn't known.
    NoFunction(&'e str),
    /// A function isn't known with these arguments.
    NoForm(&'e str),
    /// `variables`, `request`, `namespaceObject` or a part of these doesn't have this member.
    NoField(&'e str),
    /// `variables` or `request` is read otherwise than by selecting a member.
    Whole(&'static str),
}

impl fmt::Display for Refusal<'_> {
    ghost output = { λ r. Some (refusal_text (refusal_view r)) };

    fn fmt<W: fmt::Write>(&self, f: &mut fmt::Formatter<W>) -> fmt::Result {
        match self {
            Refusal::Undeclared(name) => write!(f, "undeclared reference to '{name}'"),
            Refusal::NoDoubles => write!(f, "numbers of kind double aren't supported"),
            Refusal::NoFunction(name) => write!(f, "function '{name}' is unknown"),
            Refusal::NoForm(name) => write!(f, "found no matching overload for '{name}'"),
            Refusal::NoField(name) => write!(f, "undefined field '{name}'"),
            Refusal::Whole(name) => write!(f, "'{name}' can only be read by its fields"),
        }
    }
}

/// What is known of the value of an expression.
#[derive(Clone, Copy, Drop)]
pub(crate) enum Shape {
    /// Nothing: any member may be selected.
    Any,
    /// It is `request`.
    Request,
    /// It is a kind with its group and version.
    Kind,
    /// It is a resource with its group and version.
    Resource,
    /// It is the user.
    User,
    /// It is `namespaceObject`.
    Namespace,
    /// It is the metadata of a namespace.
    Metadata,
    /// It is the `spec` of a namespace.
    Spec,
    /// It is the `status` of a namespace.
    Status,
    /// It is `variables`.
    Variables,
    /// It is `authorizer`, or what its functions return.
    Authorizer,
}

fn is_kind(name: &str) -> bool
    ensures { result ≡ list_any (bytes_eq name.now) kinds }
{
    name == "kind" || name == "requestKind"
}

fn is_resource(name: &str) -> bool
    ensures { result ≡ list_any (bytes_eq name.now) resources }
{
    name == "resource" || name == "requestResource"
}

fn is_plain_member(name: &str) -> bool
    ensures { result ≡ list_any (bytes_eq name.now) plain_members }
{
    name == "subResource"
        || name == "requestSubResource"
        || name == "name"
        || name == "namespace"
        || name == "operation"
        || name == "dryRun"
        || name == "options"
}

fn is_kind_member(name: &str) -> bool
    ensures { result ≡ list_any (bytes_eq name.now) kind_members }
{
    name == "group" || name == "version" || name == "kind"
}

fn is_resource_member(name: &str) -> bool
    ensures { result ≡ list_any (bytes_eq name.now) resource_members }
{
    name == "group" || name == "version" || name == "resource"
}

fn is_user_member(name: &str) -> bool
    ensures { result ≡ list_any (bytes_eq name.now) user_members }
{
    name == "username" || name == "uid" || name == "groups" || name == "extra"
}

fn is_metadata_member(name: &str) -> bool
    ensures { result ≡ list_any (bytes_eq name.now) metadata_members }
{
    name == "name"
        || name == "generateName"
        || name == "namespace"
        || name == "labels"
        || name == "annotations"
        || name == "creationTimestamp"
        || name == "deletionTimestamp"
        || name == "deletionGracePeriodSeconds"
        || name == "finalizers"
        || name == "resourceVersion"
        || name == "generation"
}

fn is_spec_member(name: &str) -> bool
    ensures { result ≡ list_any (bytes_eq name.now) spec_members }
{
    name == "finalizers"
}

fn is_status_member(name: &str) -> bool
    ensures { result ≡ list_any (bytes_eq name.now) status_members }
{
    name == "conditions" || name == "phase"
}

fn is_always_declared(name: &str) -> bool
    ensures { result ≡ list_any (bytes_eq name.now) always_declared }
{
    name == "object" || name == "oldObject"
}

/// Returns a member that isn't looked into, if it is there.
fn member_if(is_there: bool, name: &str) -> Result<Shape, Refusal<'_>>
    ensures { shape_seen result ≡ member_if is_there name.now }
{
    if is_there {
        return Ok(Shape::Any);
    }
    Err(Refusal::NoField(name))
}

fn request_member(name: &str) -> Result<Shape, Refusal<'_>>
    ensures { shape_seen result ≡ request_member name.now }
{
    if is_kind(name) {
        return Ok(Shape::Kind);
    }
    if is_resource(name) {
        return Ok(Shape::Resource);
    }
    if name == "userInfo" {
        return Ok(Shape::User);
    }
    member_if(is_plain_member(name), name)
}

fn namespace_member(name: &str) -> Result<Shape, Refusal<'_>>
    ensures { shape_seen result ≡ namespace_member name.now }
{
    if name == "metadata" {
        return Ok(Shape::Metadata);
    }
    if name == "spec" {
        return Ok(Shape::Spec);
    }
    if name == "status" {
        return Ok(Shape::Status);
    }
    Err(Refusal::NoField(name))
}

fn variable_member<'e>(names: &Names<'_>, name: &'e str) -> Result<Shape, Refusal<'e>>
    ensures { shape_seen result ≡ variable_member (names_view names.now).variables name.now }
{
    match names.variables {
        None => Err(Refusal::NoField(name)),
        Some(variables) => member_if(variables.contains(name), name),
    }
}

/// Returns the member of a value.
fn member_of<'e>(names: &Names<'_>, name: &'e str, shape: Shape) -> Result<Shape, Refusal<'e>>
    ensures { shape_seen result ≡ member_of (names_view names.now) name.now shape }
{
    match shape {
        Shape::Any => Ok(Shape::Any),
        Shape::Request => request_member(name),
        Shape::Kind => member_if(is_kind_member(name), name),
        Shape::Resource => member_if(is_resource_member(name), name),
        Shape::User => member_if(is_user_member(name), name),
        Shape::Namespace => namespace_member(name),
        Shape::Metadata => member_if(is_metadata_member(name), name),
        Shape::Spec => member_if(is_spec_member(name), name),
        Shape::Status => member_if(is_status_member(name), name),
        Shape::Variables => variable_member(names, name),
        Shape::Authorizer => Ok(Shape::Authorizer),
    }
}

/// Returns what is known of a name, if it is declared.
fn if_declared(is_declared: bool, shape: Shape, name: &str) -> Result<Shape, Refusal<'_>>
    ensures { shape_seen result ≡ if_declared is_declared shape name.now }
{
    if is_declared {
        return Ok(shape);
    }
    Err(Refusal::Undeclared(name))
}

/// Returns what is known of a name that no macro binds.
fn name_shape<'e>(names: &Names<'_>, name: &'e str) -> Result<Shape, Refusal<'e>>
    ensures { shape_seen result ≡ name_shape (names_view names.now) name.now }
{
    if name == "request" {
        return Ok(Shape::Request);
    }
    if name == "namespaceObject" {
        return Ok(Shape::Namespace);
    }
    if name == "variables" {
        return if_declared(names.variables.is_some(), Shape::Variables, name);
    }
    if name == "authorizer" {
        return if_declared(names.authorizer, Shape::Authorizer, name);
    }
    if name == "params" {
        return if_declared(names.params, Shape::Any, name);
    }
    if_declared(is_always_declared(name), Shape::Any, name)
}

/// Returns what is used as a value.
fn as_value<'e>(shape: Shape) -> Result<Shape, Refusal<'e>>
    ensures { shape_seen result ≡ as_value shape }
{
    match shape {
        Shape::Request => Err(Refusal::Whole("request")),
        Shape::Variables => Err(Refusal::Whole("variables")),
        Shape::Any => Ok(Shape::Any),
        Shape::Kind => Ok(Shape::Any),
        Shape::Resource => Ok(Shape::Any),
        Shape::User => Ok(Shape::Any),
        Shape::Namespace => Ok(Shape::Any),
        Shape::Metadata => Ok(Shape::Any),
        Shape::Spec => Ok(Shape::Any),
        Shape::Status => Ok(Shape::Any),
        Shape::Authorizer => Ok(Shape::Any),
    }
}

/// Reports whether the members are declared, and those alone.
fn is_record(shape: Shape) -> bool
    ensures { result ≡ is_record shape }
{
    match shape {
        Shape::Any => false,
        Shape::Request => false,
        Shape::Kind => true,
        Shape::Resource => true,
        Shape::User => true,
        Shape::Namespace => true,
        Shape::Metadata => true,
        Shape::Spec => true,
        Shape::Status => true,
        Shape::Variables => false,
        Shape::Authorizer => false,
    }
}

/// Returns what is indexed.
fn as_indexed<'e>(shape: Shape) -> Result<Shape, Refusal<'e>>
    ensures { shape_seen result ≡ as_indexed shape }
{
    if is_record(shape) {
        return Err(Refusal::NoForm("_[_]"));
    }
    as_value(shape)
}

fn is_authorizer(shape: Shape) -> bool
    ensures { result ≡ is_authorizer shape }
{
    matches!(shape, Shape::Authorizer)
}

/// Returns what a function is called on.
fn as_target<'e>(shape: Shape) -> Result<Shape, Refusal<'e>>
    ensures { shape_seen result ≡ as_target shape }
{
    if is_authorizer(shape) {
        return Ok(Shape::Authorizer);
    }
    as_value(shape)
}

fn is_math_function(name: &str) -> bool
    ensures { result ≡ list_any (bytes_eq name.now) math_functions }
{
    name == "math.abs"
        || name == "math.sign"
        || name == "math.greatest"
        || name == "math.least"
        || name == "math.bitAnd"
        || name == "math.bitOr"
        || name == "math.bitXor"
        || name == "math.bitNot"
        || name == "math.bitShiftLeft"
        || name == "math.bitShiftRight"
}

fn is_other_function(name: &str) -> bool
    ensures { result ≡ list_any (bytes_eq name.now) other_functions }
{
    name == "min"
        || name == "max"
        || name == "isIPv4"
        || name == "isIPv6"
        || name == "isCIDRv4"
        || name == "isCIDRv6"
        || name == "base64.decode"
        || name == "base64.encode"
        || name == "jsonpatch.escapeKey"
}

/// Reports whether no API server has a function of this name for policies, called so.
fn is_foreign(name: &str, receiver: bool) -> bool
    ensures { result ≡ is_foreign name.now receiver }
{
    if receiver {
        return name == "string";
    }
    is_math_function(name) || is_other_function(name)
}

/// Returns the result of a function that may be called so.
#[tactic(auto, unfolding(crate::specs::Names::function_shape))]
fn function_shape(name: &str, receiver: bool, count: usize) -> Result<Shape, Refusal<'_>>
    ensures { shape_seen result ≡ function_shape name.now receiver count }
{
    if is_foreign(name, receiver) {
        return Err(Refusal::NoFunction(name));
    }
    match AllFunctions.form(name, receiver, count) {
        Form::Known => Ok(Shape::Any),
        Form::Wrong => Err(Refusal::NoForm(name)),
        Form::Unknown => Err(Refusal::NoFunction(name)),
    }
}

/// Returns the result of a function that is called on a value. Without a receiver, nothing is known
/// of that value.
fn called_on(name: &str, receiver: bool, count: usize, target: Shape) -> Result<Shape, Refusal<'_>>
    ensures { shape_seen result ≡ called_on name.now receiver count target }
{
    if is_authorizer(target) {
        return Ok(Shape::Authorizer);
    }
    function_shape(name, receiver, count)
}

fn is_double(value: &Value) -> bool
    ensures { result ≡ is_double (view value.now) }
{
    matches!(value, Value::Float)
}

/// Returns what is known of a literal.
fn literal_shape<'e>(value: &Value) -> Result<Shape, Refusal<'e>>
    ensures { shape_seen result ≡ literal_shape (view value.now) }
{
    if is_double(value) {
        return Err(Refusal::NoDoubles);
    }
    Ok(Shape::Any)
}

/// The number of expressions.
#[tactic(auto, using(crate::proofs::Counts::count_is))]
fn count(items: &Vec<Expr>) -> usize
    ensures { result ≡ count_of (terms_of (map term items.now.items)) }
{
    items.len()
}

/// Returns what is known of the value of an expression, or the first reason to refuse it.
#[cycle(names)]
fn shape_of<'e>(names: &Names<'_>, bound: &Bound<'_>, expr: &'e Expr) -> Result<Shape, Refusal<'e>>
    ensures { shape_seen result
        ≡ shape_of (names_view names.now) (bound_names bound.now) (term expr.now) }
{
    match expr {
        Expr::Literal(value) => literal_shape(value),
        Expr::Ident(name) => {
            if bound.has(name.as_str()) {
                return Ok(Shape::Any);
            }
            name_shape(names, name.as_str())
        }
        Expr::Select(operand, name) => {
            member_of(names, name.as_str(), shape_of(names, bound, operand)?)
        }
        Expr::Has(operand, name) => {
            member_of(names, name.as_str(), shape_of(names, bound, operand)?)?;
            Ok(Shape::Any)
        }
        Expr::Index(operand, index) => {
            as_indexed(shape_of(names, bound, operand)?)?;
            value_of(names, bound, index)
        }
        Expr::Unary(_, operand) => value_of(names, bound, operand),
        Expr::Binary(_, left, right) => {
            value_of(names, bound, left)?;
            value_of(names, bound, right)
        }
        Expr::Cond(test, yes, no) => {
            value_of(names, bound, test)?;
            value_of(names, bound, yes)?;
            value_of(names, bound, no)
        }
        Expr::List(items) => values_of(names, bound, items),
        Expr::Map(pairs) => pairs_of(names, bound, pairs),
        Expr::Call { target, name, args } => match target {
            None => {
                let result = called_on(name.as_str(), false, count(args), Shape::Any)?;
                values_of(names, bound, args)?;
                Ok(result)
            }
            Some(target) => {
                let on = as_target(shape_of(names, bound, target)?)?;
                let result = called_on(name.as_str(), true, count(args), on)?;
                values_of(names, bound, args)?;
                Ok(result)
            }
        },
        Expr::Qualified { name, args } => {
            let result = function_shape(name.as_str(), false, count(args))?;
            values_of(names, bound, args)?;
            Ok(result)
        }
        Expr::Macro {
            kind: _,
            range,
            variable,
            filter,
            body,
        } => {
            value_of(names, bound, range)?;
            let inner = Bound::Name(variable.as_str(), bound);
            match filter {
                None => value_of(names, &inner, body),
                Some(filter) => {
                    value_of(names, &inner, filter)?;
                    value_of(names, &inner, body)
                }
            }
        }
    }
}

/// The same for an expression whose value is used.
#[cycle(names)]
fn value_of<'e>(names: &Names<'_>, bound: &Bound<'_>, expr: &'e Expr) -> Result<Shape, Refusal<'e>>
    ensures { shape_seen result
        ≡ value_of (names_view names.now) (bound_names bound.now) (term expr.now) }
{
    as_value(shape_of(names, bound, expr)?)
}

/// The same for expressions.
#[cycle(names)]
fn values_of<'e>(
    names: &Names<'_>,
    bound: &Bound<'_>,
    items: &'e Vec<Expr>,
) -> Result<Shape, Refusal<'e>>
    ensures { shape_seen result ≡ values_of (names_view names.now) (bound_names bound.now)
        (terms_of (map term items.now.items)) }
{
    for item in items {
        value_of(names, bound, item)?;
    }
    Ok(Shape::Any)
}

/// The same for keys and values.
#[cycle(names)]
fn pairs_of<'e>(
    names: &Names<'_>,
    bound: &Bound<'_>,
    pairs: &'e Vec<(Expr, Expr)>,
) -> Result<Shape, Refusal<'e>>
    ensures { shape_seen result ≡ pairs_of (names_view names.now) (bound_names bound.now)
        (term_pairs (map (λ p. (term p.0, term p.1)) pairs.now.items)) }
{
    for pair in pairs {
        value_of(names, bound, &pair.0)?;
        value_of(names, bound, &pair.1)?;
    }
    Ok(Shape::Any)
}

/// Returns the first reason to refuse an expression that may read these names, if there is one.
pub fn refusal_of<'e>(names: &Names<'_>, expr: &'e Expr) -> Option<Refusal<'e>>
    ensures { option_map refusal_view result ≡ refusal_of (names_view names.now) (term expr.now) }
{
    match value_of(names, &Bound::Nothing, expr) {
        Ok(_) => None,
        Err(refusal) => Some(refusal),
    }
}
