//! The keys of maps.
use crate::string::Text;
use std::cmp::Ordering;

/// The key of a map. Bools come first, then numbers, then
/// strings by their bytes. 1 and 1u are the same key.
#[derive(Debug, Drop)]
pub enum Key {
    /// `true` or `false`.
    Bool(bool),
    /// A signed number.
    Int(i64),
    /// An unsigned number.
    Uint(u64),
    /// A string.
    String(Text),
}

impl Key {
    ghost use Rattle.std.specs.Prelude.{◌≡◌};
    ghost use Rattle.cel_value.specs.Keys.{key_view, key_class, key_number, key_text, key_order};

    fn class(&self) -> u8
        ensures { result ≡ key_class (key_view self.now) }
    {
        match self {
            Key::Bool(_) => 0,
            Key::Int(_) => 1,
            Key::Uint(_) => 1,
            Key::String(_) => 2,
        }
    }

    fn number(&self) -> i128
        ensures { result ≡ key_number (key_view self.now) }
    {
        match self {
            Key::Bool(false) => 0,
            Key::Bool(true) => 1,
            Key::Int(n) => *n as i128,
            Key::Uint(n) => *n as i128,
            Key::String(_) => 0,
        }
    }

    fn text(&self) -> &str
        ensures { result.now ≡ key_text (key_view self.now) }
    {
        match self {
            Key::Bool(_) => "",
            Key::Int(_) => "",
            Key::Uint(_) => "",
            Key::String(text) => text.as_str(),
        }
    }

    /// The order of two keys. It is a call, so that the order of two numbers stays short enough to
    /// be inlined where keys are compared.
    #[inline(never)]
    #[tactic(auto, using(crate::proofs::KeyOrder::then_equal))]
    fn compare(&self, other: &Key) -> Ordering
        ensures { result ≡ key_order (key_view self.now) (key_view other.now) }
    {
        match (self, other) {
            (Key::String(a), Key::String(b)) => a.as_str().cmp(b.as_str()),
            _ => self
                .class()
                .cmp(&other.class())
                .then(self.number().cmp(&other.number()))
                .then(self.text().cmp(other.text())),
        }
    }
}

impl PartialEq for Key {
    ghost use Rattle.std.specs.Ordering.{eq_by_cmp};
    ghost use Rattle.std.specs.Cmp.{partial_equiv_from_equiv};
    ghost use Rattle.cel_value.specs.Keys.{key_view, key_order, key_equiv};

    ghost eq = { λ a b. eq_by_cmp key_order (key_view a) (key_view b) };

    ghost laws = { partial_equiv_from_equiv key_equiv };

    #[inline]
    fn eq(&self, other: &Key) -> bool {
        match (self, other) {
            (Key::String(a), Key::String(b)) => a.is_same(b),
            _ => matches!(self.cmp(other), Ordering::Equal),
        }
    }
}

impl Eq for Key {
    ghost use Rattle.cel_value.specs.Keys.{key_equiv};

    ghost laws = { key_equiv };
}

impl Ord for Key {
    ghost use Rattle.std.specs.Prelude.{refl};
    ghost use Rattle.cel_value.specs.Keys.{key_view, key_order, key_total};

    ghost cmp = { λ a b. key_order (key_view a) (key_view b) };

    ghost total = { key_total };

    ghost matches_partial_cmp = { λ a b. refl };

    ghost matches_eq = { λ a b. refl };

    #[inline(always)]
    #[tactic(auto, using(crate::proofs::KeyOrder::then_equal))]
    fn cmp(&self, other: &Key) -> Ordering {
        match (self, other) {
            (Key::Int(a), Key::Int(b)) => a.cmp(b),
            (Key::Uint(a), Key::Uint(b)) => a.cmp(b),
            _ => self.compare(other),
        }
    }
}

impl PartialOrd for Key {
    ghost use Rattle.std.specs.Ordering.{as_partial_cmp};
    ghost use Rattle.std.specs.Cmp.{partial_order_from_total};
    ghost use Rattle.cel_value.specs.Keys.{key_view, key_order, key_total};

    ghost partial_cmp = { as_partial_cmp (λ a b. key_order (key_view a) (key_view b)) };

    ghost laws = { partial_order_from_total key_total };

    fn partial_cmp(&self, other: &Key) -> Option<Ordering> {
        Some(self.cmp(other))
    }
}
