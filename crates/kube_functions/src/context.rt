//! The context in which rules are evaluated, and the trait that adds Kubernetes' functions to it.
ghost use Rattle.std.specs.Prelude.{◌≡◌};
ghost use Rattle.cel_semantics.specs.Bindings.{Bindings, bindings_of, functions_of};
ghost use Rattle.kube_functions.specs.declared.sets.KubeFunctions.{KubeFunctions};
ghost use Rattle.kube_functions.specs.declared.sets.KubeFunctions.TheVariants.{All};

use crate::sets::KubeFunctions;

/// The bindings of a rule's names, and the set of functions that it
/// may call. A context begins with the functions of the CEL standard.
pub type Context<'a> = cel_semantics::Context<'a, KubeFunctions>;

mod sealed {
    /// Only `Context` implements it, so no other type can implement `KubeCelExt`.
    pub trait Sealed {}
}

impl<'a> sealed::Sealed for Context<'a> {}

/// Adds the functions of Kubernetes to a [`Context`].
///
/// In contracts, `functions` is the context's set of functions, and `variables` are its bindings.
pub trait KubeCelExt: sealed::Sealed {
    ghost functions: { Self → KubeFunctions };

    ghost variables: { Self → Bindings };

    /// Adds all functions of Kubernetes, and returns
    /// the same context. The bindings stay as they are.
    fn register_all(&mut self) -> &mut Self
        ensures same { result.ghost_name ≡ self.entry.ghost_name }
        ensures functions { functions result.now ≡ All }
        ensures variables { variables result.now ≡ variables self.old };

    /// Returns the context with all functions of Kubernetes added. The bindings stay as they are.
    fn with_all(self) -> Self
        ensures functions { functions result ≡ All }
        ensures variables { variables result ≡ variables self };
}

impl<'a> KubeCelExt for Context<'a> {
    ghost functions = { functions_of };

    ghost variables = { bindings_of };

    fn register_all(&mut self) -> &mut Self {
        self.set_functions(KubeFunctions::All);
        self
    }

    fn with_all(mut self) -> Self {
        self.set_functions(KubeFunctions::All);
        self
    }
}
