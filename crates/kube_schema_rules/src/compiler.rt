//! Compilers of rules.
ghost use Rattle.cel_syntax.specs.Reading.{tree_of};
ghost use Rattle.kube_schema_rules.specs.Compilation.{Compiled, Malformed, compile_result_by, compiled_seen};
ghost use Rattle.kube_schema_rules.specs.Rules.{Fields, rule_view};
ghost use Rattle.std.specs.Prelude.{◌≡◌, IfErr, IfOk, Result};

use crate::compilation::{CompilationError, compile_texts};
use crate::result::CompilationResult;
use crate::rule::Rule;
use cel::Untyped;
use kube_types::Refused;
use std::alloc::Global;

/// Compiles rules.
///
/// `compiled` is what a rule with these fields is compiled to, or why it is malformed.
pub trait RuleCompiler {
    ghost compiled: { Self → Fields → Result Compiled Malformed };

    /// Compiles a rule.
    ///
    /// # Errors
    ///
    /// [`Refused`] if memory is refused.
    fn compile(
        &self,
        alloc: Global,
        rule: Rule,
    ) -> Result<Result<CompilationResult, CompilationError>, Refused>
        ensures rule { IfOk result (λ r. compiled_seen r ≡ compiled self.now (rule_view rule)) }
        ensures memory { IfErr result (λ e. e ≡ Refused.Memory) };
}

/// By the grammar of CEL, whatever the types are.
impl RuleCompiler for Untyped {
    ghost compiled = { λ _ fields. compile_result_by tree_of fields };

    fn compile(
        &self,
        alloc: Global,
        rule: Rule,
    ) -> Result<Result<CompilationResult, CompilationError>, Refused> {
        compile_texts(alloc, self, rule)
    }
}
