//! Laws of equality and order. Each is the contract of a function whose body is empty.
ghost use Rattle.std.specs.Prelude.{◌≡◌, ◌↔◌, ◌&&◌, ℕ, ℤ, pos, true};
ghost use Rattle.std.specs.Ordering.{is_some_and, is_eq, int_eq};
ghost use Rattle.std.specs.Cmp.{IsEquivalence};
ghost use Rattle.kube_types.specs.Addresses.{Address};
ghost use Rattle.kube_types.specs.Prefixes.{Network};
ghost use Rattle.kube_types.specs.FormatKind.{FormatKind};
ghost use Rattle.kube_types.specs.Quantity.Decimal.{Decimal, SameNumber};
ghost use Rattle.kube_types.specs.Version.Order.{same_parts};
ghost use Rattle.kube_types.specs.Version.Shown.{Parts};
ghost use Rattle.kube_types.specs.Url.Equality.{same_url};
ghost use Rattle.kube_types.specs.Url.Shown.{Shown};
ghost use Rattle.cel_value.specs.Data.{Data, int, uint, timestamp, ip, cidr, quantity, semver, url, format};
ghost use Rattle.cel_value.specs.Same.{same, comparison, has_order, is_ordered_kind};
ghost use Rattle.cel_value.specs.View.{kind_of};

/// Equality is reflexive, symmetric and transitive.
pub fn equality_is_an_equivalence()
    ensures { IsEquivalence same }
{}

/// `compare` returns `Equal` exactly if both values are of ordered kinds and are equal.
pub fn equal_where_same()
    ensures { (a b : Data)
        → is_some_and is_eq (comparison a b) ≡ (has_order a && (has_order b && same a b)) }
{}

/// Whether a value has an order depends on its kind: bools, numbers,
/// strings, bytes, timestamps and durations have one.
pub fn order_goes_by_kind()
    ensures { (d : Data) → has_order d ≡ is_ordered_kind (kind_of d) }
{}

/// An int and a uint are equal if they are the same number.
pub fn int_and_uint_by_number()
    ensures { (m : ℤ) (n : ℕ) → same (int m) (uint n) ≡ int_eq m (pos n) }
{}

/// Timestamps are equal if their instants are, whatever their offsets.
pub fn timestamps_by_instant()
    ensures { (s t o p : ℤ) → same (timestamp s o) (timestamp t p) ≡ int_eq s t }
{}

/// Quantities are equal exactly if they are the same number, at any scale.
pub fn quantities_by_number()
    ensures { (x y : Decimal) → (same (quantity x) (quantity y) ≡ true) ↔ SameNumber x y }
{}

/// IP addresses are equal exactly if they are the same address. CIDRs are equal
/// exactly if address and prefix length are the same.
pub fn addresses_by_parts()
    ensures address { (a b : Address) → (same (ip a) (ip b) ≡ true) ↔ (a ≡ b) }
    ensures cidr { (c d : Network) → (same (cidr c) (cidr d) ≡ true) ↔ (c ≡ d) }
{}

/// Versions are equal if all their parts are, including build metadata.
pub fn versions_by_parts()
    ensures { (v w : Parts) → same (semver v) (semver w) ≡ same_parts v w }
{}

/// URLs are equal if their texts are and both or neither were read from a path.
pub fn urls_by_text()
    ensures { (u v : Shown) → same (url u) (url v) ≡ same_url u v }
{}

/// Formats are equal exactly if their kinds are.
pub fn formats_by_kind()
    ensures { (f g : FormatKind) → (same (format f) (format g) ≡ true) ↔ (f ≡ g) }
{}
