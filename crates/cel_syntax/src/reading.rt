//! Parses texts to trees.

ghost use Rattle.std.specs.Prelude.{◌≡◌, MatchResult, IfOk, option_map};
ghost use Rattle.kube_types.specs.Refused.TheVariants.{Memory};
ghost use Rattle.cel_syntax_ast.specs.Term.{Term, term};
ghost use Rattle.cel_syntax.specs.Reading.{TextDerives, tree_of, tree_seen};

use crate::error::ParseErrors;
use crate::parser::parse_tokens;
use cel_syntax_ast::Expr;
use cel_syntax_lexer::lexer::tokens;
use kube_types::Refused;
use std::alloc::{AllocError, Global};

/// Returns the tree that a text derives, or `None` if it derives none.
#[tactic(auto, using(crate::proofs::Trees::of_no_tokens))]
fn read(alloc: Global, text: &[u8]) -> Result<Option<Expr>, AllocError>
    ensures { IfOk result (λ answer. option_map term answer ≡ tree_of text.now) }
{
    match tokens(alloc, text)? {
        Some(found) => parse_tokens(alloc, &found),
        None => Ok(None),
    }
}

/// Parses a text. Returns the tree that it derives.
///
/// # Errors
///
/// [`ParseErrors`] if it derives none. The outer error is always [`Refused::Memory`].
///
/// The tree may nest up to level 250. Source: the section "Syntax" of the CEL language definition.
#[tactic(auto, using(crate::proofs::Trees::some_derives, crate::proofs::Trees::none_derives))]
pub fn parse(alloc: Global, text: &str) -> Result<Result<Expr, ParseErrors>, Refused>
    ensures grammar { MatchResult result
        (λ answer. MatchResult answer (λ e. TextDerives text.now (term e))
        (λ _. (t : Term) → TextDerives text.now t → ⊥))
        (λ refused. refused ≡ Memory) }
    ensures reads { IfOk result (λ answer. tree_seen answer ≡ tree_of text.now) }
{
    match read(alloc, text.as_bytes())? {
        Some(tree) => Ok(Ok(tree)),
        None => Ok(Err(ParseErrors)),
    }
}
