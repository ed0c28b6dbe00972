//! How operands begin.

ghost use Rattle.std.specs.Prelude.{◌≡◌, Some, None, true};
ghost use Rattle.cel_syntax_lexer.specs.Literal.{literal_value};
ghost use Rattle.cel_syntax_lexer.specs.Token.{token_of};
ghost use Rattle.kube_server_syntax.specs.Machine as machine;
ghost use Rattle.kube_server_syntax.specs.Placed.{across, placed_of};
ghost use Rattle.kube_server_syntax.specs.Tree.{tree};
ghost use Rattle.kube_server_parser.specs.Expects as expects;
ghost use Rattle.kube_server_parser.specs.Results.{Steps};
ghost use Rattle.kube_server_parser.specs.Tables as spec;
ghost use Rattle.kube_server_parser.specs.Views.{frames_of};

use crate::build::literal_part;
use crate::calls::{no_entries, no_items};
use crate::expected::Expected;
use crate::frame::{Frame, Waiting};
use crate::level::across;
use crate::machine::Machine;
use crate::mode::Mode;
use crate::part::Part;
use crate::stop::Stop;
use cel_syntax_ast::{UnaryOperator, identifier};
use cel_syntax_lexer::punctuator::Punctuator;
use cel_syntax_lexer::token::Token;
use cel_syntax_lexer::{literal, takes_minus};
use cel_value::Text;
use kube_server_syntax::node::Place;
use kube_server_syntax::token::PlacedToken;

impl Machine {
    /// Whether the sign may follow what waits: the signs of an operand are of one kind.
    fn allows(&self, sign: UnaryOperator) -> bool
        ensures { result ≡ spec.allows (frames_of self.now.frames.items) sign }
    {
        match (self.frames.last(), sign) {
            (Some(Frame::Waiting(Waiting::Sign(UnaryOperator::Not, _))), UnaryOperator::Negate) =>
                false,
            (Some(Frame::Waiting(Waiting::Sign(UnaryOperator::Negate, _))), UnaryOperator::Not) =>
                false,
            _ => true,
        }
    }

    /// An operand that begins with a mark.
    fn begin_by_mark(
        &mut self,
        mark: Punctuator,
        place: Place,
        expected: Expected,
    ) -> Result<Mode, Stop>
        ensures { Steps (machine.begin_by_mark mark place (frames_of self.old.frames.items)) expected result
            self.new.frames.items }
    {
        match mark {
            Punctuator::OpenRound => {
                self.open(Frame::Round(place))?;
                Ok(Mode::Needs)
            }
            Punctuator::OpenSquare => {
                self.open(Frame::List(no_items(self.alloc, place), false))?;
                Ok(Mode::Opened)
            }
            Punctuator::OpenBrace => {
                self.open(Frame::Key(no_entries(self.alloc, place), false))?;
                Ok(Mode::Opened)
            }
            Punctuator::Not if self.allows(UnaryOperator::Not) => {
                self.open(Frame::Waiting(Waiting::Sign(UnaryOperator::Not, place)))?;
                Ok(Mode::Needs)
            }
            Punctuator::Minus => Ok(Mode::Minus(place)),
            _ => Err(Stop::Unexpected(expected)),
        }
    }

    /// An operand that is no literal.
    fn begin_by_token(&mut self, token: PlacedToken<'_>, expected: Expected) -> Result<Mode, Stop>
        ensures { Steps (machine.begin_by_token (token_of token.entry.token) token.entry.place
            (frames_of self.old.frames.items)) expected result self.new.frames.items }
    {
        match token.token {
            Token::Word(word) => match identifier(word) {
                Some(name) => Ok(Mode::Named(token.place, Text::of_str(self.alloc, name)?)),
                None => Err(Stop::Unexpected(expected)),
            },
            Token::Number(_) => Err(Stop::Unexpected(expected)),
            Token::Quoted(_) => Err(Stop::Unexpected(expected)),
            Token::Punctuator(mark) => self.begin_by_mark(mark, token.place, expected),
        }
    }

    /// The first token of an operand.
    pub(crate) fn begin(&mut self, token: PlacedToken<'_>, expected: Expected) -> Result<Mode, Stop>
        ensures { Steps (machine.begin (frames_of self.old.frames.items) (placed_of token.entry)) expected result
            self.new.frames.items }
    {
        match literal(self.alloc, false, token.token)? {
            Some(value) => Ok(Mode::Has(literal_part(token.place, value))),
            None => self.begin_by_token(token, expected),
        }
    }

    /// The number of a literal whose minus is at the place.
    fn negative(
        &self,
        minus: Place,
        token: PlacedToken<'_>,
        expected: Expected,
    ) -> Result<Mode, Stop>
        ensures { Steps (machine.literal_or (literal_value true (token_of token.entry.token))
            (across minus token.entry.place) (frames_of self.now.frames.items) None) expected result
            self.now.frames.items }
    {
        match literal(self.alloc, true, token.token)? {
            Some(value) => Ok(Mode::Has(literal_part(across(minus, token.place), value))),
            None => Err(Stop::Unexpected(expected)),
        }
    }

    /// What may follow a minus.
    pub(crate) fn operand(&self) -> Expected
        ensures { result ≡ expects.after_minus (frames_of self.now.frames.items) }
    {
        if self.allows(UnaryOperator::Negate) {
            Expected::Operand
        } else {
            Expected::Number
        }
    }

    /// What follows a minus.
    pub(crate) fn after_minus(&mut self, minus: Place, token: PlacedToken<'_>) -> Result<Mode, Stop>
        ensures { Steps (machine.after_minus minus (frames_of self.old.frames.items) (placed_of token.entry))
            (expects.after_minus (frames_of self.old.frames.items)) result self.new.frames.items }
    {
        if takes_minus(token.token) {
            return self.negative(minus, token, self.operand());
        }
        if !self.allows(UnaryOperator::Negate) {
            return Err(Stop::Unexpected(Expected::Number));
        }
        self.open(Frame::Waiting(Waiting::Sign(UnaryOperator::Negate, minus)))?;
        self.begin(token, Expected::Operand)
    }

    /// What follows the bracket of an index.
    pub(crate) fn indexed(&mut self, operand: Part, token: PlacedToken<'_>) -> Result<Mode, Stop>
        ensures { Steps (machine.step (machine.indexed (tree operand.node)) (frames_of self.old.frames.items)
            (placed_of token.entry)) Expected.Index result self.new.frames.items }
    {
        match token.token {
            Token::Punctuator(Punctuator::Question) => {
                self.open(Frame::Index(operand, true))?;
                Ok(Mode::Needs)
            }
            _ => {
                self.open(Frame::Index(operand, false))?;
                self.begin(token, Expected::Index)
            }
        }
    }
}
