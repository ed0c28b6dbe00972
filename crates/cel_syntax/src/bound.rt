//! The variables that enclosing macros bind.
ghost use Rattle.std.specs.Prelude.{◌≡◌};
ghost use Rattle.std.specs.List.{list_any};
ghost use Rattle.std.specs.Str.{bytes_eq};
ghost use Rattle.cel_syntax.specs.Bound.{bound_names};

/// The variables of the enclosing macros, the innermost first.
#[derive(Drop)]
pub enum Bound<'a> {
    Nothing,
    Variable(&'a str, &'a Bound<'a>),
}

impl Bound<'_> {
    /// Reports whether an enclosing macro binds the name.
    pub fn has(&self, name: &str) -> bool
        ensures { result ≡ list_any (bytes_eq name.now) (bound_names self.now) }
    {
        match self {
            Bound::Nothing => false,
            Bound::Variable(variable, outer) => name == *variable || outer.has(name),
        }
    }
}
