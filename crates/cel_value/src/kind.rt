//! The kinds of values.
use std::fmt;

/// The kind of a value. It is displayed as the name that CEL and Kubernetes give it.
#[derive(Clone, Copy, Debug, PartialEq, Eq)]
pub enum Kind {
    /// `null`
    Null,
    /// `bool`
    Bool,
    /// `int`, signed, of 64 bits
    Int,
    /// `uint`, unsigned, of 64 bits
    UInt,
    /// `double`
    Float,
    /// `string`
    String,
    /// `bytes`
    Bytes,
    /// `list`
    List,
    /// `map`
    Map,
    /// `timestamp`
    Timestamp,
    /// `duration`
    Duration,
    /// `optional`
    Optional,
    /// `net.IP`
    Ip,
    /// `net.CIDR`
    Cidr,
    /// `kubernetes.Quantity`
    Quantity,
    /// `kubernetes.Semver`
    Semver,
    /// `kubernetes.URL`
    Url,
    /// `kubernetes.Format`
    Format,
}

impl fmt::Display for Kind {
    ghost use Rattle.std.specs.Prelude.{Some};
    ghost use Rattle.cel_value.specs.Kinds.{kind_name};

    ghost output = { λ k. Some (kind_name k) };

    fn fmt<W: fmt::Write>(&self, f: &mut fmt::Formatter<W>) -> fmt::Result {
        match self {
            Kind::Null => f.write_str("null"),
            Kind::Bool => f.write_str("bool"),
            Kind::Int => f.write_str("int"),
            Kind::UInt => f.write_str("uint"),
            Kind::Float => f.write_str("double"),
            Kind::String => f.write_str("string"),
            Kind::Bytes => f.write_str("bytes"),
            Kind::List => f.write_str("list"),
            Kind::Map => f.write_str("map"),
            Kind::Timestamp => f.write_str("timestamp"),
            Kind::Duration => f.write_str("duration"),
            Kind::Optional => f.write_str("optional"),
            Kind::Ip => f.write_str("net.IP"),
            Kind::Cidr => f.write_str("net.CIDR"),
            Kind::Quantity => f.write_str("kubernetes.Quantity"),
            Kind::Semver => f.write_str("kubernetes.Semver"),
            Kind::Url => f.write_str("kubernetes.URL"),
            Kind::Format => f.write_str("kubernetes.Format"),
        }
    }
}
