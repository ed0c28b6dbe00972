//! What a walk keeps from place to place.
ghost use Rattle.cel.specs.Bindings.{bindings_of};
ghost use Rattle.kube_cel_walk.specs.Kept.{BindsOnly};
ghost use Rattle.std.specs.Prelude.{◌≡◌, [], codes};

use cel::{Context, Functions, Stacks};
use std::alloc::Global;

/// A context and the stacks that rules run on, which are kept from place to place, so that
/// they aren't allocated anew at each. No name but `self` is bound in the context.
#[derive(Drop)]
pub struct KeptContext<'a, F: Functions> {
    pub(crate) context: Context<'a, F>,
    pub(crate) stacks: Stacks,
    ghost only_self: { BindsOnly (codes "self") (bindings_of context) },
}

impl<'a, F: Functions> KeptContext<'a, F> {
    /// Returns a context that binds no name yet. Allocates nothing.
    pub fn new(alloc: Global) -> KeptContext<'a, F>
        ensures { bindings_of result.context ≡ [] }
    {
        KeptContext {
            context: Context::default(alloc),
            stacks: Stacks::new(alloc),
        }
    }
}
