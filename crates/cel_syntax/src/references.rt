//! The names that an expression refers to.
ghost use Rattle.std.specs.Prelude.{◌≡◌, IfOk, IfErr};
ghost use Rattle.std.specs.List.{list_any};
ghost use Rattle.std.specs.Str.{bytes_eq};
ghost use Rattle.kube_types.specs.Refused.TheVariants.{Memory};
ghost use Rattle.cel_syntax_ast.specs.FreeNames.{is_free};
ghost use Rattle.cel_syntax_ast.specs.Term.{term};
ghost use Rattle.cel_syntax.specs.CallNames.{is_called};
ghost use Rattle.cel_syntax.specs.Names.{names_of, AreNames};
ghost use Rattle.cel_syntax.specs.References.{variable_names, function_names};

use crate::bound::Bound;
use crate::calls::add_calls;
use crate::names::in_order;
use crate::variables::add_variables;
use cel_syntax_ast::Expr;
use kube_types::Refused;
use std::alloc::Global;
use std::collections::BTreeSet;

/// The names that an expression refers to.
#[derive(Debug, Drop)]
pub struct References {
    variables: Vec<String>,
    functions: Vec<String>,
}

impl References {
    /// Returns the names that an expression refers to: exactly its free names
    /// and the names of the functions that it calls.
    ///
    /// # Errors
    /// Only [`Refused::Memory`], if memory is refused.
    pub fn of(alloc: Global, expr: &Expr) -> Result<References, Refused>
        ensures variables { IfOk result (λ r. AreNames (variable_names r) (λ x. is_free x (term expr.now))) }
        ensures functions { IfOk result
            (λ r. AreNames (function_names r) (λ x. is_called x (term expr.now))) }
        ensures memory { IfErr result (λ e. e ≡ Memory) }
    {
        let mut variables = BTreeSet::new(alloc);
        add_variables(alloc, expr, &Bound::Nothing, &mut variables)?;
        let mut functions = BTreeSet::new(alloc);
        add_calls(alloc, expr, &mut functions)?;
        Ok(References {
            variables: in_order(alloc, variables)?,
            functions: in_order(alloc, functions)?,
        })
    }

    /// The free names, without duplicates, sorted by name.
    pub fn variables(&self) -> &[String]
        ensures { names_of result.now ≡ variable_names self.now }
    {
        self.variables.as_slice()
    }

    /// Reports whether the name is one of the free names.
    pub fn has_variable(&self, name: &str) -> bool
        ensures { result ≡ list_any (bytes_eq name.now) (variable_names self.now) }
    {
        for variable in &self.variables {
            if name == variable.as_str() {
                return true;
            }
        }
        false
    }

    /// The names of the called functions, qualified ones
    /// in full, without duplicates, sorted by name.
    pub fn functions(&self) -> &[String]
        ensures { names_of result.now ≡ function_names self.now }
    {
        self.functions.as_slice()
    }
}
