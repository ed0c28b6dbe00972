//! The walk's view of a compiled schema.
ghost use Rattle.kube_cel.specs.CompiledSteps.{compiled_steps};
ghost use Rattle.kube_schema.specs.Shown.{node_tree};
ghost use Rattle.std.specs.Prelude.{◌≡◌, option_map, ⊤};

use cel_demand::Demand;
use cel_value::Value as CelValue;
use kube_cel_walk::Node;
use kube_functions::AllFunctions;
use kube_schema::{NodeKeywords, SchemaNode, bind_node_part, rebind_node_part};
use kube_schema_rules::{BranchKind, CompiledRules};
use kube_types::Refused;
use serde_json::Value;
use std::alloc::{AllocError, Global};

/// A node of a compiled schema.
pub(crate) struct CompiledNode<'a, K: NodeKeywords> {
    pub(crate) node: SchemaNode<'a, K>,
}

impl<K: NodeKeywords> Clone for CompiledNode<'_, K> {
    ghost is_clone = { λ n m. m ≡ n };

    ghost is_infallible = { λ _. ⊤ };

    fn clone(&self) -> Result<Self, AllocError> {
        Ok(*self)
    }
}

impl<K: NodeKeywords> Copy for CompiledNode<'_, K> {}

/// The node that `additionalProperties` declares, if any.
#[tactic(auto, unfolding(crate::specs::CompiledSteps::compiled_steps))]
fn additional_property<'a, K: NodeKeywords>(node: &SchemaNode<'a, K>) -> Option<SchemaNode<'a, K>>
    ensures { option_map node_tree result ≡ compiled_steps.additional_property (node_tree node.now) }
{
    if node.preserve_unknown_fields() {
        return None;
    }
    node.additional_properties()
}

impl<K: NodeKeywords> Node for CompiledNode<'_, K> {
    type FunctionSet = AllFunctions;

    ghost use Rattle.kube_cel.specs.Compiled.{compiled_accessors};
    ghost use Rattle.kube_cel.specs.OneLibrary.{one_library};
    ghost use Rattle.kube_schema.specs.Shown.{node_tree};
    ghost use Rattle.kube_schema.specs.Tree.{Node as Tree};

    ghost Seen = { Tree };

    ghost seen = { λ n. node_tree n.node };

    ghost form = { compiled_accessors };

    ghost one_library = { one_library };

    #[tactic(auto, unfolding(crate::specs::Compiled::compiled_accessors, crate::specs::CompiledSteps::compiled_steps))]
    fn property(&self, name: &str) -> Option<Self> {
        let node = self.node.property_named(name)?;
        Some(CompiledNode { node })
    }

    #[tactic(auto, unfolding(crate::specs::Compiled::compiled_accessors, crate::specs::CompiledSteps::compiled_steps))]
    fn items(&self) -> Option<Self> {
        let node = self.node.items()?;
        Some(CompiledNode { node })
    }

    #[tactic(auto, unfolding(crate::specs::Compiled::compiled_accessors, crate::specs::CompiledSteps::compiled_steps))]
    fn additional_property(&self) -> Option<Self> {
        let node = additional_property(&self.node)?;
        Some(CompiledNode { node })
    }

    #[tactic(auto, unfolding(crate::specs::Compiled::compiled_accessors, crate::specs::CompiledSteps::compiled_steps))]
    fn branch_count(&self, kind: BranchKind) -> usize {
        self.node.branch_count(kind)
    }

    #[tactic(auto, unfolding(crate::specs::Compiled::compiled_accessors, crate::specs::CompiledSteps::compiled_steps))]
    fn branch(&self, kind: BranchKind, index: usize) -> Option<Self> {
        let node = self.node.branch(kind, index)?;
        Some(CompiledNode { node })
    }

    #[tactic(auto, unfolding(crate::specs::Compiled::compiled_accessors, crate::specs::CompiledSteps::compiled_steps))]
    fn old_member<'v>(&self, key: &str, old: &'v Value) -> Option<&'v Value> {
        old.get(key)
    }

    #[tactic(auto, unfolding(crate::specs::Compiled::compiled_accessors, crate::specs::CompiledSteps::compiled_steps))]
    fn old_item<'v>(&self, index: usize, _list: &Value, old: &'v Value) -> Option<&'v Value> {
        old.get(index)
    }

    #[tactic(auto, unfolding(crate::specs::Compiled::compiled_accessors))]
    fn runs_at(&self, _value: &Value) -> bool {
        true
    }

    #[tactic(auto, unfolding(crate::specs::Compiled::compiled_accessors))]
    fn rules(&self, alloc: Global) -> Result<CompiledRules<'_>, Refused> {
        let rules = self.node.keywords().rules(alloc)?;
        Ok(rules)
    }

    #[tactic(auto, unfolding(crate::specs::Compiled::compiled_accessors))]
    fn bind_part(
        &self,
        alloc: Global,
        value: &Value,
        depth: usize,
        demand: &Demand,
    ) -> Result<CelValue, Refused> {
        let part = bind_node_part(alloc, &self.node, value, depth, demand)?;
        Ok(part)
    }

    #[tactic(auto, unfolding(crate::specs::Compiled::compiled_accessors))]
    fn rebind_part(
        &self,
        alloc: Global,
        value: &Value,
        depth: usize,
        demand: &Demand,
        place: &mut CelValue,
    ) -> Result<(), Refused> {
        rebind_node_part(alloc, &self.node, value, depth, demand, place)?;
        Ok(())
    }

    #[tactic(auto, unfolding(crate::specs::Compiled::compiled_accessors))]
    fn optional_old(
        &self,
        _alloc: Global,
        old: Option<&Value>,
        _depth: usize,
    ) -> Result<Option<CelValue>, Refused> {
        match old {
            Some(_) => Ok(None),
            None => Ok(Some(CelValue::Null)),
        }
    }

    fn has_no_rules_below(&self, levels: usize) -> bool {
        self.node.has_no_rules_below(levels)
    }
}
