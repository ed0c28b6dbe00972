//! What the walk needs of a schema's node.
ghost use Rattle.cel.specs.Alike.{Alike};
ghost use Rattle.cel.specs.Demand.{part_of};
ghost use Rattle.cel_value.specs.View.{view as cel_view};
ghost use Rattle.kube_cel_walk.specs.WalkAccessors.{WalkAccessors};
ghost use Rattle.kube_cel_walk.specs.NoRules.{HasNoRulesBelow};
ghost use Rattle.kube_schema_rules.specs.CompiledRules.{rules_in};
ghost use Rattle.serde_json.specs.View.{view};
ghost use Rattle.std.specs.Prelude.{◌≡◌, IfOk, IsTrue, OnOk, option_map};

use cel::Functions;
use cel_demand::Demand;
use cel_value::Value as CelValue;
use kube_schema_rules::{BranchKind, CompiledRules};
use kube_types::Refused;
use serde_json::Value;
use std::alloc::Global;

/// A node of a schema. `Seen` is its type in definitions, and `form`
/// the accessors by which definitions read it.
pub trait Node: Copy {
    /// The functions that rules may call.
    type FunctionSet: Functions;

    ghost Seen: { Type 0 };

    ghost seen: { Self → Seen };

    ghost form: { WalkAccessors Seen };

    /// The node that `properties` declares for a name, if any.
    fn property(&self, name: &str) -> Option<Self>
        ensures { option_map seen result ≡ form.steps.property name.now (seen self.now) };

    /// The node that `items` declares for all items, if any.
    fn items(&self) -> Option<Self>
        ensures { option_map seen result ≡ form.steps.items (seen self.now) };

    /// The node that `additionalProperties` declares for all
    /// members that `properties` doesn't declare, if any.
    fn additional_property(&self) -> Option<Self>
        ensures { option_map seen result ≡ form.steps.additional_property (seen self.now) };

    /// The number of branches under a keyword.
    fn branch_count(&self, kind: BranchKind) -> usize
        ensures { result ≡ form.steps.branch_count kind (seen self.now) };

    /// The branch at an index under a keyword, if any.
    fn branch(&self, kind: BranchKind, index: usize) -> Option<Self>
        ensures { option_map seen result ≡ form.steps.branch kind index (seen self.now) };

    /// The old counterpart of a member, by its key, in the old value at this node, if any.
    fn old_member<'v>(&self, key: &str, old: &'v Value) -> Option<&'v Value>
        ensures { option_map (λ v. view v.now) result
            ≡ form.steps.old_member key.now (seen self.now) (view old.now) };

    /// The old counterpart of an item, by its index, in the old value at this node, if any.
    fn old_item<'v>(&self, index: usize, list: &Value, old: &'v Value) -> Option<&'v Value>
        ensures { option_map (λ v. view v.now) result
            ≡ form.steps.old_item index (seen self.now) (view list.now) (view old.now) };

    /// Reports whether the rules of the node are run at a value.
    fn runs_at(&self, value: &Value) -> bool
        ensures { result ≡ form.runs_at (seen self.now) (view value.now) };

    /// Returns the rules of the node, in order, with what they read.
    fn rules(&self, alloc: Global) -> Result<CompiledRules<'_>, Refused>
        ensures rules { IfOk result (λ r. rules_in r ≡ form.rules (seen self.now)) };

    /// Converts the demanded part of a JSON value to CEL,
    /// at this node and `depth` steps from the root.
    fn bind_part(
        &self,
        alloc: Global,
        value: &Value,
        depth: usize,
        demand: &Demand,
    ) -> Result<CelValue, Refused>
        ensures value { IfOk result (λ v. Alike (part_of demand.now) (cel_view v)
            (form.bound depth (seen self.now) (view value.now))) };

    /// Converts like [`bind_part`](Node::bind_part), and puts the result in place of another value.
    fn rebind_part(
        &self,
        alloc: Global,
        value: &Value,
        depth: usize,
        demand: &Demand,
        place: &mut CelValue,
    ) -> Result<(), Refused>
        ensures value { OnOk result (Alike (part_of demand.now) (cel_view place.new)
            (form.bound depth (seen self.now) (view value.now))) };

    /// Returns what `oldSelf` is bound to in a rule that sets `optionalOldSelf`, by the old
    /// counterpart, at this node and `depth` steps from the root; None if it is bound as in other rules.
    fn optional_old(
        &self,
        alloc: Global,
        old: Option<&Value>,
        depth: usize,
    ) -> Result<Option<CelValue>, Refused>
        ensures value { IfOk result (λ o. option_map cel_view o
            ≡ form.optional_old depth (seen self.now) (option_map (λ v. view v.now) old.entry)) };

    /// Reports whether it is known that no node below this one has rules, and that there are
    /// at most `levels` levels of them. The contract only covers true.
    fn has_no_rules_below(&self, levels: usize) -> bool
        ensures { IsTrue result → HasNoRulesBelow form levels (seen self.now) };

    /// All values of the type are the same functions.
    ghost one_library: { (functions : Self.FunctionSet) → Self.FunctionSet.library functions ≡ form.library };
}
