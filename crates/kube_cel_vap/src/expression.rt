//! The expressions of a policy, and their results.
ghost use Rattle.std.specs.Prelude.{◌≡◌, IfOk, option_map, string_bytes};

use kube_types::Refused;
use serde::{Deserialize, Serialize};
use std::alloc::AllocError;

/// A validation of a policy.
#[derive(Debug, Drop, PartialEq, Eq, Serialize, Deserialize)]
#[serde(rename_all = "camelCase")]
pub struct VapExpression {
    /// The CEL expression that has to be true.
    pub expression: String,
    /// The message if it is false.
    pub message: Option<String>,
    /// A CEL expression for the message if the expression is false.
    /// If it evaluates to a string, that replaces `message`.
    pub message_expression: Option<String>,
}

impl VapExpression {
    ghost use Rattle.kube_cel_vap.specs.Validations.{expression_view};
    ghost use Rattle.std.specs.Prelude.{◌≡◌, IfErr, IfOk};

    /// Returns an equal expression.
    ///
    /// # Errors
    ///
    /// [`Refused`] if memory is refused.
    pub fn try_clone(&self) -> Result<VapExpression, Refused>
        ensures same { IfOk result (λ x. expression_view x ≡ expression_view self.now) }
        ensures memory { IfErr result (λ e. e ≡ Refused.Memory) }
    {
        Ok(VapExpression {
            expression: self.expression.clone()?,
            message: clone_text(&self.message)?,
            message_expression: clone_text(&self.message_expression)?,
        })
    }
}

/// The result of an expression of a policy.
#[derive(Debug, Drop, PartialEq, Eq, Serialize, Deserialize)]
pub struct VapResult {
    /// The text of the expression.
    pub expression: String,
    /// Whether the expression is true.
    pub passed: bool,
    /// The message of an expression that isn't true; None exactly if it passed.
    pub message: Option<String>,
}

impl VapResult {
    ghost use Rattle.kube_cel_vap.specs.Validations.{result_view};
    ghost use Rattle.std.specs.Prelude.{◌≡◌, IfErr, IfOk};

    /// Returns an equal result.
    ///
    /// # Errors
    ///
    /// [`Refused`] if memory is refused.
    pub fn try_clone(&self) -> Result<VapResult, Refused>
        ensures same { IfOk result (λ r. result_view r ≡ result_view self.now) }
        ensures memory { IfErr result (λ e. e ≡ Refused.Memory) }
    {
        Ok(VapResult {
            expression: self.expression.clone()?,
            passed: self.passed,
            message: clone_text(&self.message)?,
        })
    }
}

/// Returns a copy of the text, if there is one.
///
/// # Errors
///
/// [`AllocError`] if memory is refused.
pub fn clone_text(text: &Option<String>) -> Result<Option<String>, AllocError>
    ensures { IfOk result (λ o. option_map string_bytes o ≡ option_map string_bytes text.now) }
{
    match text {
        Some(text) => Ok(Some(text.clone()?)),
        None => Ok(None),
    }
}
