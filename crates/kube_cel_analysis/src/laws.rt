//! Laws of findings and warnings, each stated as the contract of
//! a function: where findings come from, and what `==` compares.
ghost use Rattle.cel.specs.Form.TheVariants.{Unknown};
ghost use Rattle.cel_syntax.specs.FreeNames.{is_free};
ghost use Rattle.cel_syntax.specs.Term.{Term};
ghost use Rattle.cel_syntax.specs.CallNames.{is_called};
ghost use Rattle.cel_syntax.specs.Names.{AreNames};
ghost use Rattle.kube_cel_analysis.specs.Findings.{Naming, finding_view, is_unknown};
ghost use Rattle.kube_cel_analysis.specs.Lint.{findings};
ghost use Rattle.kube_cel_analysis.specs.Nodes.{AreFoundAtNodes};
ghost use Rattle.kube_cel_analysis.specs.Warnings.{warning_view};
ghost use Rattle.kube_functions.specs.Kube.{all_library};
ghost use Rattle.kube_schema.specs.Shown.{whole};
ghost use Rattle.std.specs.Prelude.{◌≡◌, ◌↔◌, ℕ, Bool, true, List, [], IsTrue};

use crate::finding::{LintFinding, LintKind};
use crate::scope::ScopeContext;
use crate::warning::{AnalysisWarning, WarningKind};
use kube_schema::{CompiledSchema, NodeKeywords};

/// Each tree has a list of the names of its calls and a list of its
/// free names. So the names that findings speak of always exist.
pub fn each_tree_has_its_names()
    ensures called { (t : Term) → (names : List (List ℕ)) × AreNames names (λ x. is_called x t) }
    ensures free { (t : Term) → (names : List (List ℕ)) × AreNames names (λ x. is_free x t) }
    ensures naming { Naming }
{}

/// The findings of a compiled schema are those of the rules at exactly
/// its nodes. Each node is a list of steps from the root, and has the
/// JSON Pointer of those steps. The nodes are in the order of places.
pub fn findings_are_those_of_all_nodes<K: NodeKeywords>(schema: &CompiledSchema<K>)
    ensures { (names : Naming)
        → AreFoundAtNodes names (whole schema.now) (findings names [] (whole schema.now)) }
{}

/// A name is reported as unknown exactly if no form of it is known or
/// wrong, with or without a receiver, for any number of arguments.
pub fn reported_names_have_no_form()
    ensures reported { (name : List ℕ) → is_unknown name ≡ true → (receiver : Bool) (count : ℕ)
        → all_library.form_of name receiver count ≡ Unknown }
    ensures others { (name : List ℕ) (receiver : Bool) (count : ℕ)
        → all_library.form_of name receiver count ≡ Unknown
        → is_unknown name ≡ true }
{}

/// Two findings are equal exactly if all their fields are equal.
pub fn equal_findings(a: &LintFinding, b: &LintFinding) -> bool
    ensures { IsTrue result ↔ (finding_view a.now ≡ finding_view b.now) }
{
    a == b
}

/// Two kinds of findings are equal exactly if they are the same variant.
pub fn equal_lint_kinds(a: LintKind, b: LintKind) -> bool
    ensures { IsTrue result ↔ (a ≡ b) }
{
    a == b
}

/// Two warnings are equal exactly if all their fields are equal.
pub fn equal_warnings(a: &AnalysisWarning, b: &AnalysisWarning) -> bool
    ensures { IsTrue result ↔ (warning_view a.now ≡ warning_view b.now) }
{
    a == b
}

/// Two kinds of warnings are equal exactly if they are the same variant.
pub fn equal_kinds(a: WarningKind, b: WarningKind) -> bool
    ensures { IsTrue result ↔ (a ≡ b) }
{
    a == b
}

/// Two scopes are equal exactly if they are the same variant.
pub fn equal_scopes(a: ScopeContext, b: ScopeContext) -> bool
    ensures { IsTrue result ↔ (a ≡ b) }
{
    a == b
}
