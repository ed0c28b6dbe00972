//! Whether a policy applies to a request by a binding.
ghost use Rattle.kube_manifests_bindings.specs.Bindings.{binding_view, target_view};
ghost use Rattle.kube_manifests_bindings.specs.Constraints.{constraints_view};
ghost use Rattle.kube_manifests_matching.specs.Attributes.{attributes_view};
ghost use Rattle.kube_manifests_matching.specs.Pairs.{applicability, is_exempt, with_optional};
ghost use Rattle.std.specs.Prelude.{◌≡◌, option_map};

use crate::attributes::Attributes;
use crate::criteria::{Applicability, Owner, Reason};
use crate::rules::truth;
use kube_manifests_bindings::{Binding, Constraints, PolicyTarget};

/// Reports whether no policy applies to the resource of a request.
fn is_exempt(attributes: &Attributes<'_>) -> bool
    ensures { result ≡ is_exempt (attributes_view attributes.now) }
{
    attributes.served.group == "admissionregistration.k8s.io"
        && (attributes.resource == "validatingadmissionpolicies"
            || attributes.resource == "validatingadmissionpolicybindings")
}

/// Returns what was found, with the constraints of a binding, if it has any.
fn with_optional(
    found: Applicability,
    constraints: Option<Constraints<'_>>,
    attributes: &Attributes<'_>,
) -> Applicability
    ensures { result
        ≡ with_optional found (option_map constraints_view constraints.entry) (attributes_view attributes.now) }
{
    match constraints {
        Some(constraints) => found.with_constraints(Owner::Binding, constraints, attributes),
        None => found,
    }
}

/// Returns whether a policy applies to a request by a binding. If not, the first of these decides that
/// isn't met: the request isn't for a policy or a binding; the binding is one of this policy; the
/// criteria of the policy's constraints; those of the binding's. If all are met that are known, the
/// first decides that isn't known.
#[tactic(auto, unfolding(crate::specs::Pairs::applicability))]
pub fn applicability(
    policy: &PolicyTarget<'_>,
    binding: &Binding<'_>,
    attributes: &Attributes<'_>,
) -> Applicability
    ensures { result
        ≡ applicability (target_view policy.now) (binding_view binding.now) (attributes_view attributes.now) }
{
    let found = Applicability::Applies
        .and_also(Reason::Exempt, truth(!is_exempt(attributes)))
        .and_also(Reason::OtherPolicy, truth(binding.policy == policy.name))
        .with_constraints(Owner::Policy, policy.constraints, attributes);
    with_optional(found, binding.constraints, attributes)
}
