//! Laws of verdicts. Each is the contract of a function with an empty body.
ghost use Rattle.cel.specs.Book.{Book};
ghost use Rattle.kube_cel_vap.specs.Results.{policy_results};
ghost use Rattle.kube_manifests_documents.specs.Inputs.{Variables};
ghost use Rattle.kube_cel_vap.specs.Variables as single;
ghost use Rattle.kube_manifests_policies.specs.Single.{AreAlike, expression_of, passed_of};
ghost use Rattle.kube_manifests_policies.specs.Reports.{policy_verdict};
ghost use Rattle.kube_manifests_policies.specs.Laws.{HasVariables, IsApartFrom, IsJudged, IsJudgedIn, SameVariables, of_validations, passed_result};
ghost use Rattle.kube_manifests_policies.specs.Refusals.{is_refused, refusals_of};
ghost use Rattle.kube_manifests_documents.specs.Policies.{ItemData, PolicyData};
ghost use Rattle.kube_manifests_policies.specs.Scopes.{ScopeData, first_scope, variable_step};
ghost use Rattle.std.specs.List.{AllByRecursion};
ghost use Rattle.std.specs.Prelude.{◌≡◌, ◌↔◌, Bool, false, IsTrue, List, map};
ghost use Rattle.std.specs.Str.{bytes_eq};

use crate::verdict::PolicyDecision;

/// A policy that has validations only, each labelled with its expression, and none of which reads
/// an input that isn't given or is refused, passes exactly the validations that
/// `VapEvaluator::evaluate` of `kube_cel_vap` passes for the same objects, if escaping changes none
/// of their keys, and a request with the same value.
#[tactic(auto, using(crate::proofs::Vap::alike))]
pub fn validations_alone()
    ensures { (b : Book) (v : Variables) (w : single.Variables) → AreAlike v w
        → (ignores params : Bool) (xs : List ItemData)
        → is_refused (refusals_of (of_validations ignores params xs)) ≡ false
        → AllByRecursion (IsJudgedIn (first_scope v)) xs
        → map passed_result (policy_verdict b v (of_validations ignores params xs)).validations
        ≡ map passed_of (policy_results b w (map expression_of xs)) }
{}

/// If a policy admits a request, none of its match conditions, validations and audit annotations
/// reads an input that isn't given, none of them is refused, and no validation is false.
pub fn admitted_only_if_judged()
    ensures { (b : Book) (v : Variables) (p : PolicyData)
        → (policy_verdict b v p).decision ≡ PolicyDecision.Admitted
        → IsJudged (policy_verdict b v p) }
{}

/// The order of two variables with different names that don't read each other doesn't matter: in
/// either order, each has the same value or none.
#[tactic(auto, using(crate::proofs::Turned::either_order))]
pub fn variables_in_any_order()
    ensures { (b : Book) (s : ScopeData) (x y : ItemData) → HasVariables s → IsApartFrom x y → IsApartFrom y x
        → bytes_eq x.label y.label ≡ false
        → SameVariables (variable_step b (variable_step b s x) y) (variable_step b (variable_step b s y) x) }
{}

/// Two decisions are equal exactly if they are the same.
pub fn equal_decisions(a: PolicyDecision, b: PolicyDecision) -> bool
    ensures { IsTrue result ↔ (a ≡ b) }
{
    a == b
}
