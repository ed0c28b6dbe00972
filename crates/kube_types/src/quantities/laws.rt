//! Laws of quantities, about the definitions alone. Each
//! is the contract of a function with an empty body.
ghost use Rattle.std.specs.Cmp.{IsTotalOrder};
ghost use Rattle.std.specs.Int.{is_negative};
ghost use Rattle.std.specs.Prelude.{◌≡◌, ◌↔◌, false, ℕ, ℤ, pos, List, Some};
ghost use Rattle.std.specs.declared.cmp.Ordering.TheVariants.{Equal};
ghost use Rattle.kube_types.specs.Quantity.Decimal.{Decimal, SameNumber, decimal_cmp, natural, times_ten_to};
ghost use Rattle.kube_types.specs.Quantity.Normal.{IsNormal, normal_form};
ghost use Rattle.kube_types.specs.Quantity.Reading.{quantity_of};
ghost use Rattle.kube_types.specs.Quantity.Sums.{decimal_at};
ghost use Rattle.kube_types.specs.Quantity.Texts.{IsQuantityText};

/// The order of numbers is total, at any scales.
pub fn order_is_total()
    ensures { IsTotalOrder decimal_cmp }
{}

/// Two numbers compare as equal exactly if they are the same number, at any scales.
pub fn order_agrees_with_equality()
    ensures { (x y : Decimal) → (decimal_cmp x y ≡ Equal) ↔ SameNumber x y }
{}

/// Two numbers in normal form are the same number exactly if their mantissas and scales are equal.
pub fn equality_is_that_of_normal_forms()
    ensures { (x y : Decimal) → IsNormal x → IsNormal y → SameNumber x y ↔ (x ≡ y) }
{}

/// The normal form of a number is in normal form, and is the same number.
pub fn normal_form_keeps_the_number()
    ensures { (x : Decimal) → IsNormal (normal_form x) × SameNumber (normal_form x) x }
{}

/// A number in normal form is the integer z exactly if its scale
/// isn't negative and its mantissa times ten to the scale is z.
pub fn integers_have_no_places()
    ensures { (x : Decimal) (z : ℤ) → IsNormal x → SameNumber x (decimal_at z (pos 0))
        ↔ ((is_negative x.scale ≡ false) × (z ≡ times_ten_to x.mantissa (natural x.scale))) }
{}

/// A text parses as a quantity exactly if it spells a number and a
/// suffix. The quantity is the number times the suffix's factor.
pub fn texts_mean_their_number()
    ensures { (text : List ℕ) (x : Decimal) → (quantity_of text ≡ Some x) ↔ IsQuantityText text x }
{}
