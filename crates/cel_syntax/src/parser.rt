//! Parses tokens to trees.

ghost use Rattle.std.specs.Prelude.{◌≡◌, MatchOption, IfOk, map, option_map};
ghost use Rattle.cel_syntax_lexer.specs.Token.{token_of};
ghost use Rattle.cel_syntax_ast.specs.Term.{Term, term};
ghost use Rattle.cel_syntax.specs.Grammar.{Derives};
ghost use Rattle.cel_syntax.specs.Parser.{tree_of_tokens};

use crate::cursor::Cursor;
use crate::grammar::expr;
use crate::syntax_error::SyntaxError;
use cel_syntax_ast::Expr;
use cel_syntax_lexer::token::Token;
use std::alloc::{AllocError, Global};

/// The largest level of a tree that is parsed.
const MAX_LEVEL: u8 = 250;

#[tactic(auto, using(crate::proofs::Last::if_none_left, crate::proofs::Last::if_some_left), unfolding(crate::specs::Parser::tree_of_tokens))]
fn read(alloc: Global, tokens: &[Token<'_>]) -> Result<Option<Expr>, AllocError>
    ensures { IfOk result (λ answer. option_map term answer ≡ tree_of_tokens (map token_of tokens.now)) }
{
    let mut cursor = Cursor { rest: tokens };
    match expr(alloc, &mut cursor, MAX_LEVEL) {
        Ok(found) => Ok(if cursor.len() == 0 && found.1 <= usize::from(MAX_LEVEL) {
            Some(found.0)
        } else {
            drop(found);
            None
        }),
        Err(SyntaxError::Invalid) => Ok(None),
        Err(SyntaxError::Memory) => Err(AllocError),
    }
}

/// Returns the tree that the tokens derive, or `None` if they derive none.
///
/// The tree may nest up to level 250. Source: the section "Syntax" of the CEL language definition.
pub fn parse_tokens(alloc: Global, tokens: &[Token<'_>]) -> Result<Option<Expr>, AllocError>
    ensures grammar { IfOk result
        (λ answer. MatchOption answer ((t : Term) → Derives (map token_of tokens.now) t → ⊥)
        (λ e. Derives (map token_of tokens.now) (term e))) }
    ensures reads { IfOk result
        (λ answer. option_map term answer ≡ tree_of_tokens (map token_of tokens.now)) }
{
    read(alloc, tokens)
}
