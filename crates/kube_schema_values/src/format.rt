//! Conversion of strings by the `format` of their schema (Kubernetes API reference,
//! JSONSchemaProps; "Use CEL validation rules", the CEL types of schema types).
ghost use Rattle.std.specs.Prelude.{◌≡◌, IfErr, IfOk};
ghost use Rattle.cel_value.specs.View.{view};
ghost use Rattle.kube_schema_values.specs.Formats.{format_named, value_by_format, timestamp_or_text, duration_or_text, bytes_or_text};

use crate::values::bind_text;
use base64::DecodeAllocError;
use base64::engine::general_purpose::STANDARD;
use cel_value::{Duration, Refused, Timestamp, Value};
use std::alloc::Global;
use std::rc::Rc;

/// How strings at a node of a schema are converted.
#[derive(Clone, Copy, Debug, Default, PartialEq, Eq)]
pub enum SchemaFormat {
    /// To timestamps, by RFC 3339: the format `date-time`.
    DateTime,
    /// To durations, as Go writes them: the format `duration`.
    Duration,
    /// To bytes, from padded base64: the format `byte`.
    Bytes,
    /// Strings stay strings, whatever the format, because the node also accepts integers.
    IntOrString,
    /// Strings stay strings.
    #[default]
    None,
}

impl SchemaFormat {
    /// Returns the format of this name; [`SchemaFormat::None`] if the name has no effect.
    #[tactic(auto, unfolding(crate::specs::Formats::format_named))]
    pub fn named(name: &str) -> SchemaFormat
        ensures { result ≡ format_named name.now }
    {
        match name {
            "date-time" => SchemaFormat::DateTime,
            "duration" => SchemaFormat::Duration,
            "byte" => SchemaFormat::Bytes,
            _ => SchemaFormat::None,
        }
    }
}

/// Converts a string by its format. A string that isn't in that format stays a string.
///
/// # Errors
///
/// [`Refused`] if memory is refused.
#[tactic(auto, unfolding(crate::specs::Formats::value_by_format))]
pub fn bind_formatted(alloc: Global, format: SchemaFormat, chars: &str) -> Result<Value, Refused>
    ensures value { IfOk result (λ v. view v ≡ value_by_format format chars.now) }
    ensures memory { IfErr result (λ e. e ≡ Refused.Memory) }
{
    match format {
        SchemaFormat::DateTime => bind_timestamp(alloc, chars),
        SchemaFormat::Duration => bind_duration(alloc, chars),
        SchemaFormat::Bytes => bind_bytes(alloc, chars),
        SchemaFormat::IntOrString => bind_text(alloc, chars),
        SchemaFormat::None => bind_text(alloc, chars),
    }
}

// Converts a string to a timestamp, if it is one.
fn bind_timestamp(alloc: Global, chars: &str) -> Result<Value, Refused>
    ensures value { IfOk result (λ v. view v ≡ timestamp_or_text chars.now) }
    ensures memory { IfErr result (λ e. e ≡ Refused.Memory) }
{
    match Timestamp::read(chars) {
        Some(timestamp) => Ok(Value::Timestamp(timestamp)),
        None => {
            let plain = bind_text(alloc, chars)?;
            Ok(plain)
        }
    }
}

// Converts a string to a duration, if it is one.
fn bind_duration(alloc: Global, chars: &str) -> Result<Value, Refused>
    ensures value { IfOk result (λ v. view v ≡ duration_or_text chars.now) }
    ensures memory { IfErr result (λ e. e ≡ Refused.Memory) }
{
    match Duration::read(chars) {
        Some(duration) => Ok(Value::Duration(duration)),
        None => {
            let plain = bind_text(alloc, chars)?;
            Ok(plain)
        }
    }
}

// Converts a string to the bytes whose padded base64 it is, if it is.
fn bind_bytes(alloc: Global, chars: &str) -> Result<Value, Refused>
    ensures value { IfOk result (λ v. view v ≡ bytes_or_text chars.now) }
    ensures memory { IfErr result (λ e. e ≡ Refused.Memory) }
{
    match STANDARD.decode(alloc, chars.as_bytes()) {
        Ok(bytes) => Ok(Value::Bytes(Rc::new(alloc, bytes)?)),
        Err(DecodeAllocError::OutOfMemory) => Err(Refused::Memory),
        Err(DecodeAllocError::DecodeError(_)) => {
            let plain = bind_text(alloc, chars)?;
            Ok(plain)
        }
    }
}
