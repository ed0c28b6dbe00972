//! Laws of definitions. Each is the contract of a function with an empty body.
ghost use Rattle.kube_manifests_matching.specs.Laws.{EmptySelectorsAreMet, EquivalentMatchesMore, ExclusionsTakeAway, OthersBindNothing, RulesAdd, UnboundApplyToNothing};

/// If constraints are met with more exclusions, they are met with fewer.
pub fn exclusions_take_away()
    ensures { ExclusionsTakeAway }
{}

/// If constraints with a rule are met, they are met with more rules.
pub fn rules_add()
    ensures { RulesAdd }
{}

/// An empty selector is met by every request.
pub fn empty_selectors_are_met()
    ensures { EmptySelectorsAreMet }
{}

/// A policy without bindings applies to nothing.
pub fn unbound_policies_apply_to_nothing()
    ensures { UnboundApplyToNothing }
{}

/// A binding of another policy lets a policy apply to nothing.
pub fn bindings_of_others_bind_nothing()
    ensures { OthersBindNothing }
{}

/// What rules match under `matchPolicy: Exact`, they match under `Equivalent`.
pub fn equivalent_matches_more()
    ensures { EquivalentMatchesMore }
{}
