//! The warnings of an analysis.
ghost use Rattle.std.specs.Prelude.{◌≡◌, IfErr, IfOk, map};
ghost use Rattle.kube_cel_analysis.specs.Warnings.{remark_view, warning, warning_view};

use kube_types::Refused;
use serde::{Deserialize, Serialize};
use std::alloc::{AllocError, Global};

/// The kind of a warning: what is wrong with a rule.
#[derive(Clone, Copy, Debug, PartialEq, Eq, Serialize, Deserialize)]
pub enum WarningKind {
    /// The rule uses a name that isn't available where it runs.
    WrongScope,
    /// The estimated cost of the rule is above the budget of a million.
    CostExceeded,
    /// The rule is a macro, and a property of its node is a list without `maxItems`.
    MissingBounds,
}

/// A warning of an analysis.
#[derive(Debug, Drop, PartialEq, Eq, Serialize, Deserialize)]
pub struct AnalysisWarning {
    /// The text of the rule.
    pub rule: String,
    /// The message of the warning.
    pub message: String,
    /// The kind of the warning.
    pub kind: WarningKind,
}

impl AnalysisWarning {
    /// Returns an equal warning.
    ///
    /// # Errors
    ///
    /// [`Refused`] if memory is refused.
    pub fn try_clone(&self) -> Result<AnalysisWarning, Refused>
        ensures copy { IfOk result (λ w. warning_view w ≡ warning_view self.now) }
        ensures memory { IfErr result (λ e. e ≡ Refused.Memory) }
    {
        Ok(AnalysisWarning {
            rule: self.rule.clone()?,
            message: self.message.clone()?,
            kind: self.kind,
        })
    }
}

/// What is wrong with a rule: a warning without the rule's text, so that
/// what is found of one rule takes no more room than its messages.
#[derive(Drop)]
pub(crate) struct Remark {
    pub(crate) message: String,
    pub(crate) kind: WarningKind,
}

/// Returns a remark about a rule as a warning.
fn warning_of(alloc: Global, rule: &str, remark: Remark) -> Result<AnalysisWarning, AllocError>
    ensures { IfOk result (λ w. warning_view w ≡ warning rule.now (remark_view remark)) }
{
    let Remark { message, kind } = remark;
    Ok(AnalysisWarning {
        rule: String::from_str(alloc, rule)?,
        message,
        kind,
    })
}

/// Returns remarks about a rule as warnings, in order.
pub(crate) fn warnings_of(
    alloc: Global,
    rule: &str,
    remarks: Vec<Remark>,
) -> Result<Vec<AnalysisWarning>, AllocError>
    ensures { IfOk result (λ v. map warning_view v.items
        ≡ map (warning rule.now) (map remark_view remarks.items)) }
{
    let mut warnings = Vec::with_capacity(alloc, remarks.len())?;
    for remark in remarks {
        warnings.push(warning_of(alloc, rule, remark)?)?;
    }
    Ok(warnings)
}
