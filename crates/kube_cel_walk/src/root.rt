//! The root context of an object.
use kube_types::Refused;
use std::alloc::Global;

/// What the rules at the root of an object may read of it: `apiVersion`, `apiGroup` and `kind`.
#[derive(Debug, Drop)]
pub struct RootContext {
    /// The object's `apiVersion`, such as `apps/v1`.
    pub api_version: String,
    /// The object's API group, such as `apps`.
    pub api_group: String,
    /// The object's kind, such as `Deployment`.
    pub kind: String,
}

impl RootContext {
    ghost use Rattle.kube_cel_walk.specs.Roots.{root_view};
    ghost use Rattle.std.specs.Prelude.{◌≡◌, [], IfErr, IfOk};

    /// Returns a root context of three empty strings. Allocates nothing.
    pub fn default(alloc: Global) -> RootContext
        ensures { root_view result ≡ record { api_version = []; api_group = []; kind = [] } }
    {
        RootContext {
            api_version: String::new(alloc),
            api_group: String::new(alloc),
            kind: String::new(alloc),
        }
    }

    /// Returns an equal root context.
    ///
    /// # Errors
    ///
    /// [`Refused`] if memory is refused.
    pub fn try_clone(&self) -> Result<RootContext, Refused>
        ensures same { IfOk result (λ r. root_view r ≡ root_view self.now) }
        ensures memory { IfErr result (λ e. e ≡ Refused.Memory) }
    {
        Ok(RootContext {
            api_version: self.api_version.clone()?,
            api_group: self.api_group.clone()?,
            kind: self.kind.clone()?,
        })
    }
}
