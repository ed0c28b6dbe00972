//! The order of quantities: the order of their numbers, at any scales.
ghost use Rattle.std.specs.Ordering.{int_cmp, on, as_partial_cmp};
ghost use Rattle.std.specs.Prelude.{◌≡◌};
ghost use Rattle.kube_types.specs.Quantity.Decimal.{times_ten_to, decimal_cmp};
ghost use Rattle.kube_types.specs.Quantity.OrderLaws.{quantity_cmp_total, quantity_cmp_agrees, quantity_cmp_matches_eq, quantity_partial_order};
ghost use Rattle.kube_types.specs.Quantity.Shown.{number};

use crate::quantities::quantity::KubeQuantity;
use crate::quantities::scaling::scaled;
use std::cmp::Ordering;

/// Compares `left` times ten to the `places` with `right`.
///
/// A product that exceeds 128 bits is farther from zero than any mantissa.
fn compare_scaled(left: i128, places: u32, right: i128) -> Ordering
    ensures { result ≡ int_cmp (times_ten_to left places) right }
{
    match scaled(left, places) {
        Some(value) => value.cmp(&right),
        None => {
            if left < 0 {
                Ordering::Less
            } else {
                Ordering::Greater
            }
        }
    }
}

impl Ord for KubeQuantity {
    ghost cmp = { on number decimal_cmp };

    ghost total = { quantity_cmp_total };

    ghost matches_partial_cmp = { quantity_cmp_agrees };

    ghost matches_eq = { quantity_cmp_matches_eq };

    fn cmp(&self, other: &KubeQuantity) -> Ordering {
        let places = self.scale.abs_diff(other.scale);
        if self.scale < other.scale {
            compare_scaled(other.mantissa, places, self.mantissa).reverse()
        } else {
            compare_scaled(self.mantissa, places, other.mantissa)
        }
    }
}

impl PartialOrd for KubeQuantity {
    ghost partial_cmp = { as_partial_cmp (on number decimal_cmp) };

    ghost laws = { quantity_partial_order };

    fn partial_cmp(&self, other: &KubeQuantity) -> Option<Ordering> {
        Some(self.cmp(other))
    }
}
