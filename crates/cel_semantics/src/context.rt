//! The context of an evaluation: its variables and its functions.
ghost use Rattle.std.specs.Prelude.{◌≡◌, List, [], ℕ, Some, IfOk, IfErr, MatchOption, option_map, if◌then◌else◌};
ghost use Rattle.std.specs.Str.{bytes_eq};
ghost use Rattle.cel_value.specs.Data.{null};
ghost use Rattle.cel_value.specs.View.{view};
ghost use Rattle.cel_semantics.specs.Bindings.{binding, bindings_of, functions_of};

use crate::functions::Functions;
use crate::names::Names;
use crate::scope::Scope;
use cel_value::{Refused, Value};
use std::alloc::Global;

/// The variables of a scope, the scopes around it, and a set of functions.
#[derive(Drop)]
pub struct Context<'a, F> {
    alloc: Global,
    functions: F,
    names: Names,
    outer: Scope<'a>,
}

impl<'a, F: Functions> Context<'a, F> {
    /// Returns a context without variables, with the functions that
    /// the set starts with. It allocates from `alloc`.
    pub fn default(alloc: Global) -> Context<'a, F>
        ensures variables { bindings_of result ≡ [] }
        ensures functions { functions_of result ≡ F.first }
    {
        Context {
            alloc,
            functions: F::start(),
            names: Names::new(alloc),
            outer: Scope::Empty,
        }
    }

    /// Replaces the set of functions.
    pub fn set_functions(&mut self, functions: F)
        ensures functions { functions_of self.new ≡ functions }
        ensures variables { bindings_of self.new ≡ bindings_of self.old }
    {
        self.functions = functions;
    }

    /// Binds a name to a value in this scope, replacing an earlier binding. No other name changes.
    ///
    /// # Errors
    /// Only [`Refused::Memory`], if memory is refused. The value
    /// is then dropped, and the context is unchanged.
    #[inline(always)]
    pub fn add_variable(&mut self, name: &str, value: Value) -> Result<(), Refused>
        ensures functions { functions_of self.new ≡ functions_of self.old }
        ensures variables { IfOk result (λ _. (x : List ℕ) → binding x (bindings_of self.new)
            ≡ (if bytes_eq name.now x then Some (view value) else binding x (bindings_of self.old))) }
        ensures refused { IfErr result (λ _. bindings_of self.new ≡ bindings_of self.old) }
        ensures memory { IfErr result (λ e. e ≡ Refused.Memory) }
    {
        self.names.set(self.alloc, name, value)?;
        Ok(())
    }

    /// Takes the value that this scope binds a name to, and binds the name to null. Only the first
    /// 16 names that were bound in this scope are found so: returns None for other names, and
    /// changes nothing. No other name changes.
    #[inline]
    pub fn take_variable(&mut self, name: &str) -> Option<Value>
        ensures functions { functions_of self.new ≡ functions_of self.old }
        ensures variables { MatchOption result (bindings_of self.new ≡ bindings_of self.old)
            (λ v. (Some (view v) ≡ binding name.now (bindings_of self.old))
            × ((x : List ℕ) → binding x (bindings_of self.new)
            ≡ (if bytes_eq name.now x then Some null else binding x (bindings_of self.old)))) }
    {
        self.names.take(name)
    }

    /// Does the same as `add_variable`.
    ///
    /// # Errors
    /// Only [`Refused::Memory`], if memory is refused. The value
    /// is then dropped, and the context is unchanged.
    pub fn add_variable_from_value(&mut self, name: &str, value: Value) -> Result<(), Refused>
        ensures functions { functions_of self.new ≡ functions_of self.old }
        ensures variables { IfOk result (λ _. (x : List ℕ) → binding x (bindings_of self.new)
            ≡ (if bytes_eq name.now x then Some (view value) else binding x (bindings_of self.old))) }
        ensures refused { IfErr result (λ _. bindings_of self.new ≡ bindings_of self.old) }
        ensures memory { IfErr result (λ e. e ≡ Refused.Memory) }
    {
        self.add_variable(name, value)
    }

    /// Returns a scope inside this one. It starts with this one's variables and
    /// functions; bindings made in it don't affect this one.
    pub fn new_inner_scope(&self) -> Context<'_, F>
        ensures variables { bindings_of result ≡ bindings_of self.now }
        ensures functions { functions_of result ≡ functions_of self.now }
    {
        Context {
            alloc: self.alloc,
            functions: self.functions,
            names: Names::new(self.alloc),
            outer: Scope::Named(&self.names, &self.outer),
        }
    }

    /// The value that the name is bound to, if any.
    pub fn get(&self, name: &str) -> Option<&Value>
        ensures { option_map (λ v. view v.now) result ≡ binding name.now (bindings_of self.now) }
    {
        match self.names.find(name) {
            Some(value) => Some(value),
            None => self.outer.get(name),
        }
    }

    /// The context's set of functions.
    pub fn functions(&self) -> &F
        ensures { result.now ≡ functions_of self.now }
    {
        &self.functions
    }
}
