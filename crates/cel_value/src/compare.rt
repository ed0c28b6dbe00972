//! The order of values.
ghost use Rattle.std.specs.Prelude.{◌≡◌};
ghost use Rattle.cel_value.specs.View.{view};
ghost use Rattle.cel_value.specs.Same.{comparison};

use crate::value::Value;
use std::cmp::Ordering;

impl Value {
    /// Compares two values, or returns `None` if they have no order. There are these
    /// ordered classes, each only within itself (CEL language definition, "Ordering"):
    /// bools (false first), numbers (ints and uints together), strings by code points,
    /// bytes, timestamps by their instants, and durations.
    pub fn compare(&self, other: &Value) -> Option<Ordering>
        ensures { result ≡ comparison (view self.now) (view other.now) }
    {
        match self {
            Value::Bool(x) => match other.as_bool() {
                Some(y) => Some(x.cmp(&y)),
                None => None,
            },
            Value::Int(x) => match other {
                Value::Int(y) => Some(x.cmp(y)),
                Value::UInt(y) => Some((*x as i128).cmp(&(*y as i128))),
                _ => None,
            },
            Value::UInt(x) => match other {
                Value::Int(y) => Some((*x as i128).cmp(&(*y as i128))),
                Value::UInt(y) => Some(x.cmp(y)),
                _ => None,
            },
            Value::String(x) => match other.as_str() {
                Some(y) => Some(x.as_str().cmp(y)),
                None => None,
            },
            Value::Bytes(x) => match other.as_bytes() {
                Some(y) => Some(x.as_slice().cmp(y)),
                None => None,
            },
            Value::Timestamp(x) => match other.as_timestamp() {
                Some(y) => Some(x.cmp(&y)),
                None => None,
            },
            Value::Duration(x) => match other.as_duration() {
                Some(y) => Some(x.cmp(&y)),
                None => None,
            },
            Value::Null => None,
            Value::Float => None,
            Value::List(_) => None,
            Value::Map(_) => None,
            Value::Optional(_) => None,
            Value::Ip(_) => None,
            Value::Cidr(_) => None,
            Value::Quantity(_) => None,
            Value::Semver(_) => None,
            Value::Url(_) => None,
            Value::Format(_) => None,
        }
    }
}
