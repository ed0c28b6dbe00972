//! Laws of rules, each stated as the contract of a function: what `==` compares.
ghost use Rattle.kube_schema_rules.specs.Rules.{fault_view};
ghost use Rattle.std.specs.Prelude.{◌≡◌, ◌↔◌, IsTrue};

use crate::rule::RuleFault;

/// Two faults of a rule are equal exactly if they are the same variant, for the same field.
pub fn equal_faults(a: &RuleFault, b: &RuleFault) -> bool
    ensures { IsTrue result ↔ (fault_view a.now ≡ fault_view b.now) }
{
    a == b
}
