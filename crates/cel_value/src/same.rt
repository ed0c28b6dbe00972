//! Equality of values.
ghost use Rattle.std.specs.Prelude.{◌≡◌};
ghost use Rattle.cel_value.specs.View.{view};
ghost use Rattle.cel_value.specs.Same.{same, same_shapes, shapes, entry_shapes};

use crate::value::{List, Map, OptionalValue, Value};

impl PartialEq for Value {
    ghost use Rattle.std.specs.Cmp.{partial_equiv_from_equiv};
    ghost use Rattle.cel_value.specs.SameLaws.{value-equiv};

    ghost eq = { λ a b. same (view a) (view b) };

    ghost laws = { partial_equiv_from_equiv value-equiv };

    fn eq(&self, other: &Value) -> bool {
        is_same(self, other)
    }
}

impl Eq for Value {
    ghost use Rattle.cel_value.specs.SameLaws.{value-equiv};

    ghost laws = { value-equiv };
}

#[cycle(same)]
pub(crate) fn is_same(a: &Value, b: &Value) -> bool
    ensures { result ≡ same (view a.now) (view b.now) }
{
    match a {
        Value::Null => matches!(b, Value::Null),
        Value::Float => matches!(b, Value::Float),
        Value::Bool(x) => match b.as_bool() {
            Some(y) => *x == y,
            None => false,
        },
        Value::Int(x) => match b {
            Value::Int(y) => *x == *y,
            Value::UInt(y) => *x as i128 == *y as i128,
            _ => false,
        },
        Value::UInt(x) => match b {
            Value::Int(y) => *x as i128 == *y as i128,
            Value::UInt(y) => *x == *y,
            _ => false,
        },
        Value::String(x) => match b.as_str() {
            Some(y) => x.as_str() == y,
            None => false,
        },
        Value::Bytes(x) => match b.as_bytes() {
            Some(y) => x.as_slice() == y,
            None => false,
        },
        Value::List(x) => match b.as_list() {
            Some(y) => are_same(x.as_ref(), y),
            None => false,
        },
        Value::Map(x) => match b.as_map() {
            Some(y) => entries_same(x, y),
            None => false,
        },
        Value::Timestamp(x) => match b.as_timestamp() {
            Some(y) => *x == y,
            None => false,
        },
        Value::Duration(x) => match b.as_duration() {
            Some(y) => *x == y,
            None => false,
        },
        Value::Optional(x) => match b.as_optional() {
            Some(y) => held_same(x, y),
            None => false,
        },
        Value::Ip(x) => match b.as_ip() {
            Some(y) => x.as_ref() == y,
            None => false,
        },
        Value::Cidr(x) => match b.as_cidr() {
            Some(y) => x.as_ref() == y,
            None => false,
        },
        Value::Quantity(x) => match b.as_quantity() {
            Some(y) => x.as_ref() == y,
            None => false,
        },
        Value::Semver(x) => match b.as_semver() {
            Some(y) => x.as_ref() == y,
            None => false,
        },
        Value::Url(x) => match b.as_url() {
            Some(y) => x.as_ref() == y,
            None => false,
        },
        Value::Format(x) => match b.as_format() {
            Some(y) => *x == y,
            None => false,
        },
    }
}

#[cycle(same)]
fn held_same(a: &OptionalValue, b: &OptionalValue) -> bool
    ensures { result ≡ same_shapes (shapes a.now) (shapes b.now) }
{
    match a.value() {
        None => b.value().is_none(),
        Some(x) => match b.value() {
            None => false,
            Some(y) => is_same(x, y),
        },
    }
}

#[cycle(same)]
fn are_same(xs: &List, ys: &List) -> bool
    ensures { result ≡ same_shapes (shapes xs.now) (shapes ys.now) }
{
    let mut rest = ys.as_slice().iter();
    for x in xs.as_slice() {
        match rest.next() {
            None => return false,
            Some(y) => {
                if !is_same(x, y) {
                    return false;
                }
            }
        }
    }
    rest.next().is_none()
}

#[cycle(same)]
fn entries_same(xs: &Map, ys: &Map) -> bool
    ensures { result ≡ same_shapes (entry_shapes xs.now) (entry_shapes ys.now) }
{
    let mut rest = ys.iter();
    for (key, x) in xs.iter() {
        match rest.next() {
            None => return false,
            Some((other, y)) => {
                if *key != *other {
                    return false;
                }
                if !is_same(x, y) {
                    return false;
                }
            }
        }
    }
    rest.next().is_none()
}
