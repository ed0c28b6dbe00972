//! The scopes around a scope.
ghost use Rattle.std.specs.Prelude.{◌≡◌, option_map};
ghost use Rattle.cel_value.specs.View.{view};
ghost use Rattle.cel_semantics.specs.Bindings.{bindings, binding};

use crate::names::Names;
use cel_value::Value;

/// Nested scopes, the innermost first.
#[derive(Drop)]
pub enum Scope<'a> {
    /// No scope.
    Empty,
    /// A scope and those around it.
    Named(&'a Names, &'a Scope<'a>),
}

impl<'a> Scope<'a> {
    /// The value that the name is bound to, if any.
    pub fn get(&self, name: &str) -> Option<&'a Value>
        ensures { option_map (λ v. view v.now) result ≡ binding name.now (bindings self.now) }
    {
        match self {
            Scope::Empty => None,
            Scope::Named(names, outer) => match names.find(name) {
                Some(value) => Some(value),
                None => outer.get(name),
            },
        }
    }
}
