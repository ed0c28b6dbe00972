//! The names that the macros around an expression bind.
ghost use Rattle.kube_manifests_names.specs.Names.{bound_names};
ghost use Rattle.std.specs.List.{list_any};
ghost use Rattle.std.specs.Prelude.{◌≡◌};
ghost use Rattle.std.specs.Str.{bytes_eq};

/// The names that enclosing macros bind, the innermost first.
#[derive(Clone, Copy, Drop)]
pub(crate) enum Bound<'b> {
    Nothing,
    Name(&'b str, &'b Bound<'b>),
}

impl Bound<'_> {
    /// Reports whether a macro binds the name.
    pub(crate) fn has(&self, name: &str) -> bool
        ensures { result ≡ list_any (bytes_eq name.now) (bound_names self.now) }
    {
        match self {
            Bound::Nothing => false,
            Bound::Name(found, outer) => name == *found || outer.has(name),
        }
    }
}
