//! Accessors of the contents of values. Each returns `None` for a value of another kind.
ghost use Rattle.std.specs.Prelude.{◌≡◌, option_map};
ghost use Rattle.cel_value.specs.View.{view};
ghost use Rattle.cel_value.specs.Parts.{number_in, int_in, uint_in, bool_in, text_in, bytes_in, items_in, entries_in, held_in, timestamp_in, duration_in, ip_in, cidr_in, quantity_in, semver_in, url_in, format_in};
ghost use Rattle.cel_value_times.specs.Instants.{instant};
ghost use Rattle.kube_types.specs.Networks.{network};
ghost use Rattle.kube_types.specs.Shown.{address};
ghost use Rattle.kube_types.specs.Formats.{kind_of};
ghost use Rattle.kube_types.specs.Quantity.Shown.{number};
ghost use Rattle.kube_types.specs.Version.Shown.{parts};
ghost use Rattle.kube_types.specs.Url.Shown.{url_view};

use crate::value::{List, Map, OptionalValue, Value};
use cel_value_times::{Duration, Timestamp};
use kube_types::{KubeCIDR, KubeFormat, KubeIP, KubeQuantity, KubeSemver, KubeUrl};

impl Value {
    /// The value as a bool.
    pub fn as_bool(&self) -> Option<bool>
        ensures { result ≡ bool_in (view self.now) }
    {
        match self {
            Value::Bool(b) => Some(*b),
            _ => None,
        }
    }

    /// The number of an int or a uint.
    pub fn as_number(&self) -> Option<i128>
        ensures { result ≡ number_in (view self.now) }
    {
        match self {
            Value::Int(n) => Some(*n as i128),
            Value::UInt(n) => Some(*n as i128),
            _ => None,
        }
    }

    /// The value as an int.
    pub fn as_int(&self) -> Option<i64>
        ensures { result ≡ int_in (view self.now) }
    {
        match self {
            Value::Int(n) => Some(*n),
            _ => None,
        }
    }

    /// The value as a uint.
    pub fn as_uint(&self) -> Option<u64>
        ensures { result ≡ uint_in (view self.now) }
    {
        match self {
            Value::UInt(n) => Some(*n),
            _ => None,
        }
    }

    /// The text of a string.
    pub fn as_str(&self) -> Option<&str>
        ensures { option_map (λ s. s.now) result ≡ text_in (view self.now) }
    {
        match self {
            Value::String(text) => Some(text.as_str()),
            _ => None,
        }
    }

    /// The contents of bytes.
    pub fn as_bytes(&self) -> Option<&[u8]>
        ensures { option_map (λ s. s.now) result ≡ bytes_in (view self.now) }
    {
        match self {
            Value::Bytes(bytes) => Some(bytes.as_slice()),
            _ => None,
        }
    }

    /// The items of a list.
    pub fn as_list(&self) -> Option<&List>
        ensures { option_map (λ l. l.now) result ≡ items_in (view self.now) }
    {
        match self {
            Value::List(items) => Some(items.as_ref()),
            _ => None,
        }
    }

    /// The entries of a map.
    pub fn as_map(&self) -> Option<&Map>
        ensures { option_map (λ m. m.now) result ≡ entries_in (view self.now) }
    {
        match self {
            Value::Map(entries) => Some(entries),
            _ => None,
        }
    }

    /// The value as an optional.
    pub fn as_optional(&self) -> Option<&OptionalValue>
        ensures { option_map (λ o. o.now) result ≡ held_in (view self.now) }
    {
        match self {
            Value::Optional(o) => Some(o),
            _ => None,
        }
    }

    /// The value as a timestamp.
    pub fn as_timestamp(&self) -> Option<Timestamp>
        ensures { option_map (λ t. (instant t, t.offset_minutes)) result ≡ timestamp_in (view self.now) }
    {
        match self {
            Value::Timestamp(t) => Some(*t),
            _ => None,
        }
    }

    /// The value as a duration.
    pub fn as_duration(&self) -> Option<Duration>
        ensures { option_map (λ d. d.nanoseconds) result ≡ duration_in (view self.now) }
    {
        match self {
            Value::Duration(d) => Some(*d),
            _ => None,
        }
    }

    /// The value as an IP address.
    pub fn as_ip(&self) -> Option<&KubeIP>
        ensures { option_map (λ x. address x.now) result ≡ ip_in (view self.now) }
    {
        match self {
            Value::Ip(ip) => Some(ip.as_ref()),
            _ => None,
        }
    }

    /// The value as a network.
    pub fn as_cidr(&self) -> Option<&KubeCIDR>
        ensures { option_map (λ x. network x.now) result ≡ cidr_in (view self.now) }
    {
        match self {
            Value::Cidr(cidr) => Some(cidr.as_ref()),
            _ => None,
        }
    }

    /// The value as a quantity.
    pub fn as_quantity(&self) -> Option<&KubeQuantity>
        ensures { option_map (λ x. number x.now) result ≡ quantity_in (view self.now) }
    {
        match self {
            Value::Quantity(quantity) => Some(quantity.as_ref()),
            _ => None,
        }
    }

    /// The value as a version.
    pub fn as_semver(&self) -> Option<&KubeSemver>
        ensures { option_map (λ x. parts x.now) result ≡ semver_in (view self.now) }
    {
        match self {
            Value::Semver(version) => Some(version.as_ref()),
            _ => None,
        }
    }

    /// The value as a URL.
    pub fn as_url(&self) -> Option<&KubeUrl>
        ensures { option_map (λ x. url_view x.now) result ≡ url_in (view self.now) }
    {
        match self {
            Value::Url(url) => Some(url.as_ref()),
            _ => None,
        }
    }

    /// The value as a named format.
    pub fn as_format(&self) -> Option<KubeFormat>
        ensures { option_map kind_of result ≡ format_in (view self.now) }
    {
        match self {
            Value::Format(format) => Some(*format),
            _ => None,
        }
    }
}
