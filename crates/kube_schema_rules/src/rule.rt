//! The rules of a schema's node as JSON (Kubernetes API reference,
//! ValidationRule of CustomResourceDefinition; "Use CEL validation rules").
ghost use Rattle.std.specs.Prelude.{◌≡◌, IfErr, IfOk, option_map, string_bytes};
ghost use Rattle.serde_json.specs.View.{view, items_view};
ghost use Rattle.kube_schema_rules.specs.Rules.{fault_view, text_at, bool_at, rule_of, rule_items, parts_view, rule_view, reading_view};

use kube_types::Refused;
use serde_json::Value;
use std::alloc::{AllocError, Global};
use std::fmt;

/// The first reason why a JSON value isn't a rule.
#[derive(Clone, Copy, Debug, PartialEq, Eq)]
pub enum RuleFault {
    /// The value isn't an object.
    NotObject,
    /// The field `rule` is missing or not a string.
    RuleNotString,
    /// The named field is neither a string nor null.
    NotStringOrNull(&'static str),
    /// The field `optionalOldSelf` is neither a bool nor null.
    NotBoolOrNull,
}

impl fmt::Display for RuleFault {
    ghost use Rattle.std.specs.Prelude.{Some};
    ghost use Rattle.kube_schema_rules.specs.Rules.{fault_text};

    ghost output = { λ f. Some (fault_text (fault_view f)) };

    fn fmt<W: fmt::Write>(&self, f: &mut fmt::Formatter<W>) -> fmt::Result {
        match self {
            RuleFault::NotObject => write!(f, "a rule must be an object"),
            RuleFault::RuleNotString => write!(f, "field `rule` must be a string"),
            RuleFault::NotStringOrNull(name) => {
                write!(f, "field `{name}` must be a string or null")
            }
            RuleFault::NotBoolOrNull => {
                write!(f, "field `optionalOldSelf` must be a bool or null")
            }
        }
    }
}

/// A validation rule.
#[derive(Debug, Drop)]
pub struct Rule {
    /// The CEL expression that has to be true.
    pub rule: String,
    /// The message if it isn't.
    pub message: Option<String>,
    /// A CEL expression that evaluates to the message if the rule is false.
    pub message_expression: Option<String>,
    /// The machine-readable reason of the error.
    pub reason: Option<String>,
    /// The path of the error, relative to the value.
    pub field_path: Option<String>,
    /// Whether a transition rule also applies if there is no old value.
    pub optional_old_self: Option<bool>,
}

// The fields of a rule, borrowed from JSON.
#[derive(Clone, Copy)]
struct Parts<'a> {
    rule: &'a str,
    message: Option<&'a str>,
    message_expression: Option<&'a str>,
    reason: Option<&'a str>,
    field_path: Option<&'a str>,
    optional_old_self: Option<bool>,
}

impl Rule {
    /// Parses a rule. It is an object with a string at `rule`; a string, null
    /// or nothing at `message`, `messageExpression`, `reason` and `fieldPath`;
    /// and a bool, null or nothing at `optionalOldSelf`. Other fields are
    /// ignored. The first fault, in this order of the fields, is returned.
    ///
    /// # Errors
    ///
    /// [`Refused`] if memory is refused.
    pub fn from_json(alloc: Global, value: &Value) -> Result<Result<Rule, RuleFault>, Refused>
        ensures rule { IfOk result (λ r. reading_view rule_view r ≡ rule_of (view value.now)) }
        ensures memory { IfErr result (λ e. e ≡ Refused.Memory) }
    {
        match parts_of(value) {
            Err(fault) => Ok(Err(fault)),
            Ok(parts) => Ok(Ok(rule_from(alloc, parts)?)),
        }
    }

    /// Returns a copy.
    ///
    /// # Errors
    ///
    /// [`Refused`] if memory is refused.
    pub fn try_clone(&self) -> Result<Rule, Refused>
        ensures same { IfOk result (λ r. rule_view r ≡ rule_view self.now) }
        ensures memory { IfErr result (λ e. e ≡ Refused.Memory) }
    {
        Ok(Rule {
            rule: self.rule.clone()?,
            message: clone_of(&self.message)?,
            message_expression: clone_of(&self.message_expression)?,
            reason: clone_of(&self.reason)?,
            field_path: clone_of(&self.field_path)?,
            optional_old_self: self.optional_old_self,
        })
    }
}

/// The rules of a schema's node: the items of
/// `x-kubernetes-validations` if that is an array, else none.
#[tactic(auto, unfolding(crate::specs::Rules::rule_items))]
pub fn rule_values(schema: &Value) -> &[Value]
    ensures { items_view result.now ≡ rule_items (view schema.now) }
{
    match schema
        .get("x-kubernetes-validations")
        .and_then(Value::as_array)
    {
        Some(rules) => rules.as_slice(),
        None => &[],
    }
}

// The string at a field; None if the field is missing or null.
fn text_at<'v>(value: &'v Value, name: &'static str) -> Result<Option<&'v str>, RuleFault>
    ensures { reading_view (option_map (λ s. s.now)) result ≡ text_at name.now (view value.now) }
{
    match value.get(name) {
        None | Some(Value::Null) => Ok(None),
        Some(Value::String(text)) => Ok(Some(text.as_str())),
        Some(_) => Err(RuleFault::NotStringOrNull(name)),
    }
}

// The bool at a field; None if the field is missing or null.
fn bool_at(value: &Value, name: &str) -> Result<Option<bool>, RuleFault>
    ensures { reading_view (λ o. o) result ≡ bool_at name.now (view value.now) }
{
    match value.get(name) {
        None | Some(Value::Null) => Ok(None),
        Some(Value::Bool(truth)) => Ok(Some(*truth)),
        Some(_) => Err(RuleFault::NotBoolOrNull),
    }
}

// Returns the fields of a rule, or its first fault.
#[tactic(auto, unfolding(crate::specs::Rules::rule_of, crate::specs::Rules::fields_of))]
fn parts_of(value: &Value) -> Result<Parts<'_>, RuleFault>
    ensures { reading_view parts_view result ≡ rule_of (view value.now) }
{
    if !value.is_object() {
        return Err(RuleFault::NotObject);
    }
    let Some(rule) = value.get("rule").and_then(Value::as_str) else {
        return Err(RuleFault::RuleNotString);
    };
    let message = text_at(value, "message")?;
    let message_expression = text_at(value, "messageExpression")?;
    let reason = text_at(value, "reason")?;
    let field_path = text_at(value, "fieldPath")?;
    let optional_old_self = bool_at(value, "optionalOldSelf")?;
    Ok(Parts {
        rule,
        message,
        message_expression,
        reason,
        field_path,
        optional_old_self,
    })
}

// Copies these fields to a rule.
fn rule_from(alloc: Global, parts: Parts<'_>) -> Result<Rule, AllocError>
    ensures { IfOk result (λ r. rule_view r ≡ parts_view parts.entry) }
{
    Ok(Rule {
        rule: String::from_str(alloc, parts.rule)?,
        message: copy_of(alloc, parts.message)?,
        message_expression: copy_of(alloc, parts.message_expression)?,
        reason: copy_of(alloc, parts.reason)?,
        field_path: copy_of(alloc, parts.field_path)?,
        optional_old_self: parts.optional_old_self,
    })
}

fn copy_of(alloc: Global, text: Option<&str>) -> Result<Option<String>, AllocError>
    ensures { IfOk result (λ o. option_map string_bytes o ≡ option_map (λ s. s.now) text.entry) }
{
    match text {
        Some(text) => Ok(Some(String::from_str(alloc, text)?)),
        None => Ok(None),
    }
}

fn clone_of(text: &Option<String>) -> Result<Option<String>, AllocError>
    ensures { IfOk result (λ o. option_map string_bytes o ≡ option_map string_bytes text.now) }
{
    match text {
        Some(text) => Ok(Some(text.clone()?)),
        None => Ok(None),
    }
}
