//! The texts of values, keys and errors.
ghost use Rattle.std.specs.Prelude.{◌≡◌, ◌∷◌, ◌++◌, IfOk, IfErr, OnOk, Some, string_bytes, true, false};
ghost use Rattle.cel_value.specs.Keys.{key_view};
ghost use Rattle.cel_value.specs.View.{view};
ghost use Rattle.cel_value.specs.Faults.{fault_view};
ghost use Rattle.cel_value.specs.Texts.{printed_view, quoted_if, text_form, items_text, entries_text, key_form, textless, items_textless, entries_textless, printed_text, fault_text};

use crate::error::ExecutionError;
use crate::key::Key;
use crate::kind::Kind;
use crate::value::{List, Map, Value};
use kube_types::Refused;
use std::alloc::{AllocError, Global};
use std::fmt;
use std::fmt::Write;

impl fmt::Display for Key {
    ghost output = { λ k. Some (key_form false (key_view k)) };

    fn fmt<W: fmt::Write>(&self, f: &mut fmt::Formatter<W>) -> fmt::Result {
        match self {
            Key::Bool(b) => write!(f, "{b}"),
            Key::Int(n) => write!(f, "{n}"),
            Key::Uint(n) => write!(f, "{n}"),
            Key::String(text) => f.write_str(text.as_str()),
        }
    }
}

impl fmt::Display for ExecutionError {
    ghost output = { λ e. Some (fault_text (fault_view e)) };

    fn fmt<W: fmt::Write>(&self, f: &mut fmt::Formatter<W>) -> fmt::Result {
        match self {
            ExecutionError::UndeclaredReference(name) => {
                write!(f, "undeclared reference to '{name}'")
            }
            ExecutionError::NoSuchKey(key) => write!(f, "no such key: {key}"),
            ExecutionError::NoSuchOverload(name) => write!(f, "no such overload: {name}"),
            ExecutionError::FunctionError { function, message } => {
                write!(f, "error executing function '{function}': {message}")
            }
            ExecutionError::Overflow => write!(f, "integer overflow"),
            ExecutionError::DivisionByZero => write!(f, "division by zero"),
            ExecutionError::RemainderByZero => write!(f, "remainder by zero"),
            ExecutionError::IndexOutOfBounds => write!(f, "index out of bounds"),
            ExecutionError::UnsupportedKey => write!(f, "unsupported map key"),
            ExecutionError::DuplicateKey => write!(f, "duplicate map key"),
            ExecutionError::InvalidPattern(function) => {
                write!(f, "invalid pattern in function '{function}'")
            }
        }
    }
}

impl Value {
    /// Returns the text that `%s` prints, or the kind of the first part that has no text.
    pub fn text(&self, alloc: Global) -> Result<Result<String, Kind>, Refused>
        ensures value { IfOk result (λ r. printed_view r ≡ printed_text (view self.now)) }
        ensures memory { IfErr result (λ e. e ≡ Refused.Memory) }
    {
        match find_textless(self) {
            Some(kind) => Ok(Err(kind)),
            None => {
                let mut out = String::new(alloc);
                write_value(self, false, &mut out)?;
                Ok(Ok(out))
            }
        }
    }
}

#[cycle(textless)]
fn find_textless(value: &Value) -> Option<Kind>
    ensures { result ≡ textless (view value.now) }
{
    match value {
        Value::Null => None,
        Value::Bool(_) => None,
        Value::Int(_) => None,
        Value::UInt(_) => None,
        Value::String(_) => None,
        Value::List(items) => find_textless_item(items.as_ref()),
        Value::Map(entries) => find_textless_entry(entries),
        Value::Float => Some(Kind::Float),
        Value::Bytes(_) => Some(Kind::Bytes),
        Value::Timestamp(_) => Some(Kind::Timestamp),
        Value::Duration(_) => Some(Kind::Duration),
        Value::Optional(_) => Some(Kind::Optional),
        Value::Ip(_) => Some(Kind::Ip),
        Value::Cidr(_) => Some(Kind::Cidr),
        Value::Quantity(_) => Some(Kind::Quantity),
        Value::Semver(_) => Some(Kind::Semver),
        Value::Url(_) => Some(Kind::Url),
        Value::Format(_) => Some(Kind::Format),
    }
}

#[cycle(textless)]
fn find_textless_item(items: &List) -> Option<Kind>
    ensures { result ≡ items_textless items.now }
{
    for item in items.as_slice() {
        if let Some(kind) = find_textless(item) {
            return Some(kind);
        }
    }
    None
}

#[cycle(textless)]
fn find_textless_entry(entries: &Map) -> Option<Kind>
    ensures { result ≡ entries_textless entries.now }
{
    for (_key, value) in entries.iter() {
        if let Some(kind) = find_textless(value) {
            return Some(kind);
        }
    }
    None
}

fn write_quoted(text: &str, out: &mut String) -> Result<(), AllocError>
    ensures written { OnOk result (string_bytes out.new
        ≡ string_bytes out.old ++ quoted_if true text.now) }
{
    out.push_str("\"")?;
    out.push_str(text)?;
    out.push_str("\"")?;
    Ok(())
}

// Writes a key as it appears in the text of a map.
fn write_key(key: &Key, out: &mut String) -> Result<(), AllocError>
    ensures written { OnOk result (string_bytes out.new
        ≡ string_bytes out.old ++ key_form true (key_view key.now)) }
{
    match key {
        Key::Bool(b) => write!(out, "{b}")?,
        Key::Int(n) => write!(out, "{n}")?,
        Key::Uint(n) => write!(out, "{n}")?,
        Key::String(text) => write_quoted(text.as_str(), out)?,
    }
    Ok(())
}

#[cycle(write)]
fn write_value(value: &Value, inner: bool, out: &mut String) -> Result<(), AllocError>
    ensures written { OnOk result (string_bytes out.new
        ≡ string_bytes out.old ++ text_form inner (view value.now)) }
{
    match value {
        Value::Null => Ok(out.push_str("null")?),
        Value::Bool(b) => Ok(write!(out, "{b}")?),
        Value::Int(n) => Ok(write!(out, "{n}")?),
        Value::UInt(n) => Ok(write!(out, "{n}")?),
        Value::String(text) => {
            if inner {
                write_quoted(text.as_str(), out)
            } else {
                Ok(out.push_str(text.as_str())?)
            }
        }
        Value::List(items) => write_items(items.as_ref(), out),
        Value::Map(entries) => write_entries(entries, out),
        Value::Float => Ok(()),
        Value::Bytes(_) => Ok(()),
        Value::Timestamp(_) => Ok(()),
        Value::Duration(_) => Ok(()),
        Value::Optional(_) => Ok(()),
        Value::Ip(_) => Ok(()),
        Value::Cidr(_) => Ok(()),
        Value::Quantity(_) => Ok(()),
        Value::Semver(_) => Ok(()),
        Value::Url(_) => Ok(()),
        Value::Format(_) => Ok(()),
    }
}

#[cycle(write)]
fn write_items(items: &List, out: &mut String) -> Result<(), AllocError>
    ensures written { OnOk result (string_bytes out.new
        ≡ string_bytes out.old ++ (91 ∷ items_text false items.now)) }
{
    out.push_str("[")?;
    let mut later = false;
    for item in items.as_slice() {
        if later {
            out.push_str(", ")?;
        }
        write_value(item, true, out)?;
        later = true;
    }
    out.push_str("]")?;
    Ok(())
}

#[cycle(write)]
fn write_entries(entries: &Map, out: &mut String) -> Result<(), AllocError>
    ensures written { OnOk result (string_bytes out.new
        ≡ string_bytes out.old ++ (123 ∷ entries_text false entries.now)) }
{
    out.push_str("{")?;
    let mut later = false;
    for (key, value) in entries.iter() {
        if later {
            out.push_str(", ")?;
        }
        write_key(key, out)?;
        out.push_str(":")?;
        write_value(value, true, out)?;
        later = true;
    }
    out.push_str("}")?;
    Ok(())
}
