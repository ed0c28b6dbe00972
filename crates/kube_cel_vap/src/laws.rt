//! Laws of requests, expressions, results and policies, each stated as the contract of a function.
ghost use Rattle.cel.specs.Book.{Book};
ghost use Rattle.kube_cel_vap.specs.Expressions.{compile_result};
ghost use Rattle.kube_cel_vap.specs.Requests.{kind_view, request_view, resource_view};
ghost use Rattle.kube_cel_vap.specs.Results.{compiled_results, policy_results};
ghost use Rattle.kube_cel_vap.specs.Validations.{expression_view, result_view, ExpressionData};
ghost use Rattle.kube_cel_vap.specs.Variables.{Variables};
ghost use Rattle.std.specs.Prelude.{◌≡◌, ◌↔◌, IsTrue, ◌++◌, is_none, List, map};

use crate::expression::{VapExpression, VapResult};
use crate::request::{AdmissionRequest, GroupVersionKind, GroupVersionResource};

/// Two kinds are equal exactly if all their fields are equal.
pub fn equal_kinds(a: &GroupVersionKind, b: &GroupVersionKind) -> bool
    ensures { IsTrue result ↔ (kind_view a.now ≡ kind_view b.now) }
{
    a == b
}

/// Two resources are equal exactly if all their fields are equal.
pub fn equal_resources(a: &GroupVersionResource, b: &GroupVersionResource) -> bool
    ensures { IsTrue result ↔ (resource_view a.now ≡ resource_view b.now) }
{
    a == b
}

/// Two requests are equal exactly if all their fields are equal.
pub fn equal_requests(a: &AdmissionRequest, b: &AdmissionRequest) -> bool
    ensures { IsTrue result ↔ (request_view a.now ≡ request_view b.now) }
{
    a == b
}

/// Two expressions are equal exactly if all their fields are equal.
pub fn equal_expressions(a: &VapExpression, b: &VapExpression) -> bool
    ensures { IsTrue result ↔ (expression_view a.now ≡ expression_view b.now) }
{
    a == b
}

/// Two results are equal exactly if all their fields are equal.
pub fn equal_results(a: &VapResult, b: &VapResult) -> bool
    ensures { IsTrue result ↔ (result_view a.now ≡ result_view b.now) }
{
    a == b
}

/// Under one book, the results of two concatenated lists of
/// expressions are the concatenated lists of their results.
#[tactic(auto, using(crate::proofs::Results::results_of_joined))]
pub fn joined_lists()
    ensures { (b : Book) (v : Variables) (xs ys : List ExpressionData)
        → policy_results b v (xs ++ ys) ≡ policy_results b v xs ++ policy_results b v ys }
{}

/// There is one result for each expression, in order, with the text of that expression.
#[tactic(auto, using(crate::proofs::Results::results_in_order))]
pub fn one_for_each()
    ensures { (b : Book) (v : Variables) (xs : List ExpressionData)
        → map (λ r. r.expression) (policy_results b v xs) ≡ map (λ x. x.expression) xs }
{}

/// Under one book, compiling expressions beforehand gives the same results.
#[tactic(auto, using(crate::proofs::Results::results_of_compiled))]
pub fn compiled_first()
    ensures { (b : Book) (v : Variables) (xs : List ExpressionData)
        → compiled_results b v (map compile_result xs) ≡ policy_results b v xs }
{}

/// A result has a message exactly if its expression didn't pass.
#[tactic(auto, using(crate::proofs::Results::messages_reported))]
pub fn message_unless_passed()
    ensures { (b : Book) (v : Variables) (xs : List ExpressionData)
        → map (λ r. r.passed) (policy_results b v xs) ≡ map (λ r. is_none r.message) (policy_results b v xs) }
{}
