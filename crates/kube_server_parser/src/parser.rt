//! Parses texts.

ghost use Rattle.std.specs.Prelude.{◌≡◌, ◌≤◌, IfErr, IfOk, MatchResult, length, drop};
ghost use Rattle.cel_syntax_lexer.specs.Token.{token_of};
ghost use Rattle.kube_types.specs.Refused.TheVariants.{Memory};
ghost use Rattle.kube_server_syntax.specs.Tree.{Tree, tree};
ghost use Rattle.kube_server_parser.specs.Answers as answers;
ghost use Rattle.kube_server_parser.specs.Answers.{Reads, Fails};
ghost use Rattle.kube_server_parser.specs.Texts as spec;
ghost use Rattle.kube_server_parser.specs.Texts.{GoesWrong, TextDerives};

use crate::expected::Expected;
use crate::machine::Machine;
use crate::mode::Mode;
use crate::part::Part;
use crate::stop::Stop;
use crate::syntax_error::{Problem, SyntaxError};
use cel_syntax_lexer::takes_minus;
use cel_syntax_lexer::token::Token;
use kube_server_lexer::lexer::{Piece, first_piece};
use kube_server_syntax::node::{Node, Place};
use kube_server_syntax::token::PlacedToken;
use kube_types::Refused;
use std::alloc::Global;

/// Why no tree is returned.
#[derive(Clone, Copy)]
pub(crate) enum Failure {
    /// Memory was refused.
    Memory,
    /// The text derives no tree.
    Wrong(SyntaxError),
}

fn error_at(begin: usize, end: usize, problem: Problem) -> SyntaxError
    ensures { result ≡ spec.error_at begin end problem }
{
    SyntaxError {
        place: Place { begin, end },
        problem,
    }
}

/// Why no token begins a text.
fn no_token(text: &[u8]) -> Problem
    ensures { result ≡ spec.no_token_at text.now }
{
    match text {
        [b'"', ..] => Problem::Unclosed,
        [b'\'', ..] => Problem::Unclosed,
        _ => Problem::NoToken,
    }
}

/// Whether the token is a number or a string.
fn is_spelled(token: Token<'_>) -> bool
    ensures { result ≡ spec.is_spelled (token_of token.entry) }
{
    match token {
        Token::Number(_) => true,
        Token::Quoted(_) => true,
        Token::Word(_) => false,
        Token::Punctuator(_) => false,
    }
}

/// Whether a literal is expected, and this one has no value.
fn lacks_value(expected: Expected, token: Token<'_>) -> bool
    ensures { result ≡ spec.lacks_value expected (token_of token.entry) }
{
    match expected {
        Expected::Operand => is_spelled(token),
        Expected::Number => takes_minus(token),
        Expected::FirstItem => is_spelled(token),
        Expected::NextItem => is_spelled(token),
        Expected::FirstKey => is_spelled(token),
        Expected::NextKey => is_spelled(token),
        Expected::FirstArgument => is_spelled(token),
        Expected::Index => is_spelled(token),
        _ => false,
    }
}

/// Why the machine stops at a token.
fn wrong_token(expected: Expected, token: Token<'_>) -> Problem
    ensures { result ≡ spec.wrong_token_at expected (token_of token.entry) }
{
    if lacks_value(expected, token) {
        Problem::InvalidLiteral
    } else {
        Problem::Unexpected(expected)
    }
}

/// What the machine's stop at a token means.
fn stopped_at(stop: Stop, token: PlacedToken<'_>) -> Failure
    ensures { Fails stop token.entry result }
{
    let place = token.place;
    match stop {
        Stop::Memory => Failure::Memory,
        Stop::TooDeep => Failure::Wrong(error_at(place.begin, place.end, Problem::TooDeep)),
        Stop::Unexpected(expected) => Failure::Wrong(error_at(
            place.begin,
            place.end,
            wrong_token(expected, token.token),
        )),
    }
}

/// What the machine's stop at the end of the text means.
fn stopped_at_end(stop: Stop, end: usize) -> Failure
    ensures { answers.FailsAtEnd stop end result }
{
    match stop {
        Stop::Memory => Failure::Memory,
        Stop::TooDeep => Failure::Wrong(error_at(end, end, Problem::TooDeep)),
        Stop::Unexpected(expected) => {
            Failure::Wrong(error_at(end, end, Problem::Unfinished(expected)))
        }
    }
}

/// The text without its first bytes.
fn after(text: &[u8], count: usize) -> &[u8]
    requires { count ≤ length text.now }
    ensures { result.now ≡ drop count text.now }
{
    &text[count..]
}

/// The place of a text where no token begins.
fn unknown(text: &[u8], at: usize) -> Failure
    requires { at ≤ length text.now }
    ensures { result ≡ Failure.Wrong (spec.error_at at at (spec.no_token_at (drop at text.now))) }
{
    Failure::Wrong(error_at(at, at, no_token(after(text, at))))
}

/// The end of a text.
fn finished(machine: Machine, mode: Mode, end: usize) -> Result<Part, Failure>
    ensures { answers.Ends machine.frames.items mode end result }
{
    let mut machine = machine;
    match machine.finish(mode) {
        Ok(part) => Ok(part),
        Err(stop) => Err(stopped_at_end(stop, end)),
    }
}

/// Reads a text.
fn read(alloc: Global, text: &[u8]) -> Result<Part, Failure>
    ensures { Reads text.now result }
{
    let frames = Vec::new(alloc);
    let mut machine = Machine { alloc, frames };
    let mut mode = Mode::Needs;
    let mut at: usize = 0;
    while at < text.len() {
        match first_piece(after(text, at)) {
            Piece::Blank(length) => at += length,
            Piece::Of(token, length) => {
                let token = PlacedToken {
                    token,
                    place: Place {
                        begin: at,
                        end: at + length,
                    },
                };
                match machine.step(mode, token) {
                    Ok(next) => mode = next,
                    Err(stop) => return Err(stopped_at(stop, token)),
                }
                at += length;
            }
            Piece::Unknown => return Err(unknown(text, at)),
        }
    }
    finished(machine, mode, at)
}

/// Parses a text. Returns the tree that it derives.
///
/// # Errors
///
/// [`SyntaxError`] if it derives none, or none up to level 250: where it goes wrong first. The outer
/// error is always [`Refused::Memory`].
pub fn parse(alloc: Global, text: &str) -> Result<Result<Node, SyntaxError>, Refused>
    ensures grammar { IfOk result (λ answer. MatchResult answer (λ node. TextDerives text.now (tree node))
        (λ _. (t : Tree) → TextDerives text.now t → ⊥)) }
    ensures error { IfOk result (λ answer. IfErr answer (λ error. GoesWrong text.now error)) }
    ensures memory { IfErr result (λ refused. refused ≡ Memory) }
{
    match read(alloc, text.as_bytes()) {
        Ok(part) => Ok(Ok(part.node)),
        Err(Failure::Wrong(error)) => Ok(Err(error)),
        Err(Failure::Memory) => Err(Refused::Memory),
    }
}
