//! The state of a walk at a place.
ghost use Rattle.kube_cel_walk.specs.Visits.{IsAlone};
ghost use Rattle.serde_json.specs.View.{view};
ghost use Rattle.std.specs.Prelude.{◌≡◌, IsTrue, option_and_then, option_map};

use crate::node::Node;
use crate::root::RootContext;
use serde_json::Value;

/// What a walk holds at a place: references into schema and objects, and no copies.
#[derive(Clone, Copy)]
pub struct WalkState<'a, N> {
    /// The node of the schema.
    pub node: N,
    /// The value at the place.
    pub value: &'a Value,
    /// The old counterpart of the value, if any.
    pub old: Option<&'a Value>,
    /// The root context: at the root, and at places that only branches lead to from there.
    pub root: Option<&'a RootContext>,
    /// The number of steps from the root.
    pub depth: usize,
}

/// Reports whether there are neither an old counterpart nor a root
/// context at a place. The contract only covers true.
pub(crate) fn is_alone<N>(state: &WalkState<'_, N>) -> bool
    ensures { IsTrue result → IsAlone state.now }
{
    state.old.is_none() && state.root.is_none()
}

/// The old counterpart of a member, by its key, if any.
pub(crate) fn old_member<'a, N: Node>(state: &WalkState<'a, N>, key: &str) -> Option<&'a Value>
    ensures { option_map (λ v. view v.now) result
        ≡ option_and_then (N.form.steps.old_member key.now (N.seen state.now.node))
        (option_map (λ v. view v.now) state.now.old) }
{
    state.node.old_member(key, state.old?)
}

/// The old counterpart of an item, by its index, if any.
pub(crate) fn old_item<'a, N: Node>(state: &WalkState<'a, N>, index: usize) -> Option<&'a Value>
    ensures { option_map (λ v. view v.now) result
        ≡ option_and_then (N.form.steps.old_item index (N.seen state.now.node) (view state.now.value.now))
        (option_map (λ v. view v.now) state.now.old) }
{
    state.node.old_item(index, state.value, state.old?)
}
