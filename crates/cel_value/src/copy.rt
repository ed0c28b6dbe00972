//! Copies of values and keys, which share their contents, and the kinds of values.
ghost use Rattle.std.specs.Prelude.{◌≡◌, IfOk, IfErr};
ghost use Rattle.cel_value.specs.View.{view, kind_of};
ghost use Rattle.cel_value.specs.Keys.{key_view};

use crate::key::Key;
use crate::kind::Kind;
use crate::value::Value;
use kube_types::Refused;

impl Key {
    /// Returns a copy of the key. Its text is shared if it is long, so it allocates nothing.
    pub fn try_clone(&self) -> Result<Key, Refused>
        ensures value { IfOk result (λ k. key_view k ≡ key_view self.now) }
        ensures memory { IfErr result (λ e. e ≡ Refused.Memory) }
    {
        match self {
            Key::Bool(b) => Ok(Key::Bool(*b)),
            Key::Int(n) => Ok(Key::Int(*n)),
            Key::Uint(n) => Ok(Key::Uint(*n)),
            Key::String(text) => Ok(Key::String(text.clone()?)),
        }
    }
}

impl Value {
    /// Returns a copy of the value. What is large is shared, so it allocates nothing.
    pub fn try_clone(&self) -> Result<Value, Refused>
        ensures value { IfOk result (λ v. view v ≡ view self.now) }
        ensures memory { IfErr result (λ e. e ≡ Refused.Memory) }
    {
        match self {
            Value::Null => Ok(Value::Null),
            Value::Bool(b) => Ok(Value::Bool(*b)),
            Value::Int(n) => Ok(Value::Int(*n)),
            Value::UInt(n) => Ok(Value::UInt(*n)),
            Value::Float => Ok(Value::Float),
            Value::String(text) => Ok(Value::String(text.clone()?)),
            Value::Bytes(bytes) => Ok(Value::Bytes(bytes.clone()?)),
            Value::List(items) => Ok(Value::List(items.clone()?)),
            Value::Map(entries) => Ok(Value::Map(entries.try_clone()?)),
            Value::Timestamp(t) => Ok(Value::Timestamp(*t)),
            Value::Duration(d) => Ok(Value::Duration(*d)),
            Value::Optional(o) => Ok(Value::Optional(o.try_clone()?)),
            Value::Ip(ip) => Ok(Value::Ip(ip.clone()?)),
            Value::Cidr(cidr) => Ok(Value::Cidr(cidr.clone()?)),
            Value::Quantity(quantity) => Ok(Value::Quantity(quantity.clone()?)),
            Value::Semver(version) => Ok(Value::Semver(version.clone()?)),
            Value::Url(url) => Ok(Value::Url(url.clone()?)),
            Value::Format(format) => Ok(Value::Format(*format)),
        }
    }

    /// The kind of the value.
    pub fn type_of(&self) -> Kind
        ensures { result ≡ kind_of (view self.now) }
    {
        match self {
            Value::Null => Kind::Null,
            Value::Bool(_) => Kind::Bool,
            Value::Int(_) => Kind::Int,
            Value::UInt(_) => Kind::UInt,
            Value::Float => Kind::Float,
            Value::String(_) => Kind::String,
            Value::Bytes(_) => Kind::Bytes,
            Value::List(_) => Kind::List,
            Value::Map(_) => Kind::Map,
            Value::Timestamp(_) => Kind::Timestamp,
            Value::Duration(_) => Kind::Duration,
            Value::Optional(_) => Kind::Optional,
            Value::Ip(_) => Kind::Ip,
            Value::Cidr(_) => Kind::Cidr,
            Value::Quantity(_) => Kind::Quantity,
            Value::Semver(_) => Kind::Semver,
            Value::Url(_) => Kind::Url,
            Value::Format(_) => Kind::Format,
        }
    }
}
