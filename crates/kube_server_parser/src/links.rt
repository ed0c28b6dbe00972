//! What follows an operand.

ghost use Rattle.std.specs.Prelude.{◌≡◌, Some, codes, false, true};
ghost use Rattle.std.specs.Str.{bytes_eq};
ghost use Rattle.cel_syntax_lexer.specs.Token as token;
ghost use Rattle.cel_syntax_lexer.specs.Token.{token_of};
ghost use Rattle.kube_server_syntax.specs.Machine as machine;
ghost use Rattle.kube_server_syntax.specs.Placed.{placed_of};
ghost use Rattle.kube_server_syntax.specs.Tree.{tree};
ghost use Rattle.kube_server_parser.specs.Expects as expects;
ghost use Rattle.kube_server_parser.specs.Results.{Acts, Steps};
ghost use Rattle.kube_server_parser.specs.Tables as spec;
ghost use Rattle.kube_server_parser.specs.Views.{frames_of};
ghost use Rattle.kube_server_syntax.specs.declared.node.Place.{Place};

use crate::build::{ident, select};
use crate::calls::{global, method};
use crate::expected::{Closing, Expected};
use crate::frame::{Frame, Waiting};
use crate::machine::Machine;
use crate::mode::Mode;
use crate::part::{Call, Part};
use crate::stop::Stop;
use cel_syntax_ast::{BinaryOperator, selector};
use cel_syntax_lexer::punctuator::Punctuator;
use cel_syntax_lexer::token::Token;
use cel_value::Text;
use kube_server_syntax::node::Place;
use kube_server_syntax::token::PlacedToken;
use std::alloc::Global;

/// What follows an operand.
#[derive(Clone, Copy)]
pub(crate) enum Link {
    /// `.`
    Dot,
    /// `[`
    Index,
    /// A binary operator, with its level.
    Operator(u8, BinaryOperator),
    /// What ends a part or a condition.
    End(Punctuator),
}

/// What the mark is behind an operand. A larger level binds more loosely.
fn link_of(mark: Punctuator) -> Link
    ensures { result ≡ spec.link_of mark }
{
    match mark {
        Punctuator::Dot => Link::Dot,
        Punctuator::OpenSquare => Link::Index,
        Punctuator::Star => Link::Operator(1, BinaryOperator::Multiply),
        Punctuator::Slash => Link::Operator(1, BinaryOperator::Divide),
        Punctuator::Percent => Link::Operator(1, BinaryOperator::Remainder),
        Punctuator::Plus => Link::Operator(2, BinaryOperator::Add),
        Punctuator::Minus => Link::Operator(2, BinaryOperator::Subtract),
        Punctuator::Less => Link::Operator(3, BinaryOperator::Less),
        Punctuator::LessOrEqual => Link::Operator(3, BinaryOperator::LessOrEqual),
        Punctuator::Greater => Link::Operator(3, BinaryOperator::Greater),
        Punctuator::GreaterOrEqual => Link::Operator(3, BinaryOperator::GreaterOrEqual),
        Punctuator::Equal => Link::Operator(3, BinaryOperator::Equal),
        Punctuator::NotEqual => Link::Operator(3, BinaryOperator::NotEqual),
        Punctuator::And => Link::Operator(4, BinaryOperator::And),
        Punctuator::Or => Link::Operator(5, BinaryOperator::Or),
        _ => Link::End(mark),
    }
}

/// Whether the word is an operator.
fn is_in(word: &[u8]) -> bool
    ensures { result ≡ bytes_eq word.now (codes "in") }
{
    let name: &[u8] = b"in";
    word == name
}

/// Whether the mark ends or separates parts.
fn ends(closing: Closing, mark: Punctuator) -> bool
    ensures { result ≡ spec.ends closing mark }
{
    match (closing, mark) {
        (Closing::Round, Punctuator::CloseRound) => true,
        (Closing::Argument, Punctuator::CloseRound) => true,
        (Closing::Argument, Punctuator::Comma) => true,
        (Closing::Index, Punctuator::CloseSquare) => true,
        (Closing::Item, Punctuator::CloseSquare) => true,
        (Closing::Item, Punctuator::Comma) => true,
        (Closing::Key, Punctuator::Colon) => true,
        (Closing::Value, Punctuator::CloseBrace) => true,
        (Closing::Value, Punctuator::Comma) => true,
        _ => false,
    }
}

/// The name of a field.
fn field(alloc: Global, token: Token<'_>, expected: Expected) -> Result<Text, Stop>
    ensures { spec.IsField (token_of token.entry) expected result }
{
    let Token::Word(word) = token else {
        return Err(Stop::Unexpected(expected));
    };
    match selector(word) {
        Some(name) => Ok(Text::of_str(alloc, name)?),
        None => Err(Stop::Unexpected(expected)),
    }
}

impl Machine {
    /// Whether an operand may be followed by the mark.
    fn takes(&self, mark: Punctuator) -> bool
        ensures { result ≡ spec.takes (frames_of self.now.frames.items) mark }
    {
        match mark {
            Punctuator::Question => !self.is_asking(),
            Punctuator::Colon => self.is_asking() || ends(self.bracket(), mark),
            _ => ends(self.bracket(), mark),
        }
    }

    /// Whether an operand may be followed by this.
    fn goes_on(&self, link: Link) -> bool
        ensures { result ≡ spec.goes_on (frames_of self.now.frames.items) link }
    {
        match link {
            Link::End(mark) => self.takes(mark),
            Link::Dot => true,
            Link::Index => true,
            Link::Operator(_, _) => true,
        }
    }

    /// What the mark is behind an operand.
    fn marked(&self, mark: Punctuator) -> Result<Link, Stop>
        ensures { spec.IsLink (frames_of self.now.frames.items) (token.punctuator mark) result }
    {
        let link = link_of(mark);
        if self.goes_on(link) {
            Ok(link)
        } else {
            Err(Stop::Unexpected(self.after()))
        }
    }

    /// What the word is behind an operand.
    fn worded(&self, word: &[u8]) -> Result<Link, Stop>
        ensures { spec.IsLink (frames_of self.now.frames.items) (token.word word.now) result }
    {
        if is_in(word) {
            Ok(Link::Operator(3, BinaryOperator::In))
        } else {
            Err(Stop::Unexpected(self.after()))
        }
    }

    /// What the token is behind an operand.
    fn link(&self, token: Token<'_>) -> Result<Link, Stop>
        ensures { spec.IsLink (frames_of self.now.frames.items) (token_of token.entry) result }
    {
        match token {
            Token::Punctuator(mark) => self.marked(mark),
            Token::Word(word) => self.worded(word),
            Token::Number(_) => Err(Stop::Unexpected(self.after())),
            Token::Quoted(_) => Err(Stop::Unexpected(self.after())),
        }
    }

    /// A left operand with its operator.
    fn operator(&mut self, level: u8, operator: BinaryOperator, operand: Part) -> Result<Mode, Stop>
        ensures { Acts (Some (machine.operator_by level operator
            (machine.reduced level (frames_of self.old.frames.items) (tree operand.node)))) result self.new.frames.items }
    {
        match self.take_in(Some(level), operand) {
            Ok(left) => self.needs(Frame::Waiting(Waiting::Operator(left, operator, level))),
            Err(stop) => Err(stop),
        }
    }

    /// A condition.
    fn question(&mut self, operand: Part) -> Result<Mode, Stop>
        ensures { Acts (machine.question_by (machine.reduced 5 (frames_of self.old.frames.items) (tree operand.node)))
            result self.new.frames.items }
    {
        if self.is_asking() {
            return Err(Stop::Unexpected(Expected::Operand));
        }
        match self.take_in(Some(5), operand) {
            Ok(test) => self.needs(Frame::Question(test)),
            Err(stop) => Err(stop),
        }
    }

    /// The end of a part of a bracket.
    fn close_part(&mut self, mark: Punctuator, operand: Part, place: Place) -> Result<Mode, Stop>
        ensures { Acts (machine.part_by_mark
            (machine.closed (frames_of self.old.frames.items) (tree operand.node)) mark place)
            result self.new.frames.items }
    {
        match self.take_in(None, operand) {
            Ok(part) => self.part(part, mark, place),
            Err(stop) => Err(stop),
        }
    }

    /// A condition with its first branch.
    fn first_branch(&mut self, yes: Part) -> Result<Mode, Stop>
        ensures { expects.asks (frames_of self.old.frames.items) ≡ true → (place : Place)
            → Acts (machine.colon_by (tree yes.node, frames_of self.old.frames.items) place) result self.new.frames.items }
    {
        match self.close() {
            Some(Frame::Question(test)) => self.needs(Frame::Waiting(Waiting::Colon(test, yes))),
            Some(_other) => Err(Stop::Unexpected(Expected::Operand)),
            None => Err(Stop::Unexpected(Expected::Operand)),
        }
    }

    /// The first branch of a condition, or a key.
    fn colon(&mut self, operand: Part, place: Place) -> Result<Mode, Stop>
        ensures { Acts (machine.colon_by (machine.reduced 5 (frames_of self.old.frames.items) (tree operand.node)) place)
            result self.new.frames.items }
    {
        if !self.is_asking() {
            return self.close_part(Punctuator::Colon, operand, place);
        }
        match self.take_in(Some(5), operand) {
            Ok(yes) => self.first_branch(yes),
            Err(stop) => Err(stop),
        }
    }

    /// What ends a part or a condition.
    fn end_of_part(&mut self, mark: Punctuator, operand: Part, place: Place) -> Result<Mode, Stop>
        ensures { Acts (machine.end_of_part (frames_of self.old.frames.items) (tree operand.node) mark place)
            result self.new.frames.items }
    {
        match mark {
            Punctuator::Question => self.question(operand),
            Punctuator::Colon => self.colon(operand, place),
            _ => self.close_part(mark, operand, place),
        }
    }

    fn go_on(&mut self, link: Link, operand: Part, place: Place) -> Result<Mode, Stop>
        ensures { Acts (spec.linked link (frames_of self.old.frames.items) (tree operand.node) place)
            result self.new.frames.items }
    {
        match link {
            Link::Dot => Ok(Mode::Dotted(operand)),
            Link::Index => Ok(Mode::Indexed(operand)),
            Link::Operator(level, operator) => self.operator(level, operator, operand),
            Link::End(mark) => self.end_of_part(mark, operand, place),
        }
    }

    /// What follows an operand.
    pub(crate) fn after_member(
        &mut self,
        operand: Part,
        token: PlacedToken<'_>,
    ) -> Result<Mode, Stop>
        ensures { Steps (machine.after_member (frames_of self.old.frames.items) (tree operand.node) (placed_of token.entry))
            (Expected.After (expects.ending (frames_of self.old.frames.items))) result self.new.frames.items }
    {
        match self.link(token.token) {
            Ok(link) => self.go_on(link, operand, token.place),
            Err(stop) => Err(stop),
        }
    }

    /// What follows an identifier.
    pub(crate) fn named(
        &mut self,
        place: Place,
        name: Text,
        token: PlacedToken<'_>,
    ) -> Result<Mode, Stop>
        ensures { Steps (machine.step (machine.named place name) (frames_of self.old.frames.items) (placed_of token.entry))
            (Expected.After (expects.ending (frames_of self.old.frames.items))) result self.new.frames.items }
    {
        match token.token {
            Token::Punctuator(Punctuator::OpenRound) => {
                self.open(Frame::Arguments(global(self.alloc, place, name)))?;
                Ok(Mode::Opened)
            }
            _ => self.after_member(ident(place, name), token),
        }
    }

    /// What follows the name of a field.
    pub(crate) fn fielded(
        &mut self,
        operand: Part,
        place: Place,
        name: Text,
        token: PlacedToken<'_>,
    ) -> Result<Mode, Stop>
        ensures { Steps (machine.step (machine.fielded (tree operand.node) place name) (frames_of self.old.frames.items)
            (placed_of token.entry)) (Expected.After (expects.ending (frames_of self.old.frames.items))) result
            self.new.frames.items }
    {
        match token.token {
            Token::Punctuator(Punctuator::OpenRound) => {
                let call = method(self.alloc, operand, name)?;
                self.open(Frame::Arguments(call))?;
                Ok(Mode::Opened)
            }
            _ => self.selected(operand, place, name, token),
        }
    }

    /// What follows a selection.
    fn selected(
        &mut self,
        operand: Part,
        place: Place,
        name: Text,
        token: PlacedToken<'_>,
    ) -> Result<Mode, Stop>
        ensures { Steps (machine.after_member (frames_of self.old.frames.items)
            (machine.selected (tree operand.node) false place name) (placed_of token.entry))
            (Expected.After (expects.ending (frames_of self.old.frames.items))) result self.new.frames.items }
    {
        match self.link(token.token) {
            Ok(link) => match select(self.alloc, operand, false, place, name) {
                Ok(operand) => self.go_on(link, operand, token.place),
                Err(stop) => Err(stop),
            },
            Err(stop) => Err(stop),
        }
    }

    /// What follows a dot.
    pub(crate) fn dotted(&mut self, operand: Part, token: PlacedToken<'_>) -> Result<Mode, Stop>
        ensures { Steps (machine.step (machine.dotted (tree operand.node)) (frames_of self.old.frames.items)
            (placed_of token.entry)) Expected.Member result self.new.frames.items }
    {
        match token.token {
            Token::Punctuator(Punctuator::Question) => Ok(Mode::DotMarked(operand)),
            _ => match field(self.alloc, token.token, Expected::Member) {
                Ok(name) => Ok(Mode::Fielded(operand, token.place, name)),
                Err(stop) => Err(stop),
            },
        }
    }

    /// What follows a dot with a question mark.
    pub(crate) fn dot_marked(&mut self, operand: Part, token: PlacedToken<'_>) -> Result<Mode, Stop>
        ensures { Steps (machine.step (machine.dot_marked (tree operand.node)) (frames_of self.old.frames.items)
            (placed_of token.entry)) Expected.Field result self.new.frames.items }
    {
        match field(self.alloc, token.token, Expected::Field) {
            Ok(name) => match select(self.alloc, operand, true, token.place, name) {
                Ok(operand) => Ok(Mode::Has(operand)),
                Err(stop) => Err(stop),
            },
            Err(stop) => Err(stop),
        }
    }
}
