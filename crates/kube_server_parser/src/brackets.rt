//! Brackets: how their parts begin and end.

ghost use Rattle.std.specs.Prelude.{◌≡◌, ◌∷◌, Some};
ghost use Rattle.cel_syntax_lexer.specs.Token.{token_of};
ghost use Rattle.kube_server_syntax.specs.Machine as machine;
ghost use Rattle.kube_server_syntax.specs.Placed.{placed_of};
ghost use Rattle.kube_server_syntax.specs.Tree.{tree};
ghost use Rattle.kube_server_parser.specs.Expects as expects;
ghost use Rattle.kube_server_parser.specs.Results.{Acts, Steps};
ghost use Rattle.kube_server_parser.specs.Tables as spec;
ghost use Rattle.kube_server_parser.specs.Views.{frame_view, frames_of};
ghost use Rattle.kube_server_parser.specs.declared.frame.Frame.TheVariants as frame;

use crate::build::{index, round};
use crate::calls::{called, list, map, with_argument, with_entry, with_item};
use crate::expected::Expected;
use crate::frame::Frame;
use crate::machine::Machine;
use crate::mode::Mode;
use crate::part::{Call, Entries, Items, Part};
use crate::stop::Stop;
use cel_syntax_lexer::punctuator::Punctuator;
use cel_syntax_lexer::token::Token;
use kube_server_syntax::node::Place;
use kube_server_syntax::token::PlacedToken;

/// The innermost bracket.
#[derive(Clone, Copy)]
pub(crate) enum Holder {
    List,
    Map,
    Arguments,
    Other,
}

/// What a token is where a bracket has no part, or behind a comma.
#[derive(Clone, Copy)]
pub(crate) enum Inside {
    /// The end of the bracket.
    End,
    /// The question mark of a part.
    Mark,
    /// A comma.
    Comma,
    /// An operand, or nothing that may stand there.
    Operand,
}

fn by_mark(holder: Holder, mark: Punctuator) -> Inside
    ensures { result ≡ spec.by_mark holder mark }
{
    match (holder, mark) {
        (Holder::List, Punctuator::CloseSquare) => Inside::End,
        (Holder::List, Punctuator::Question) => Inside::Mark,
        (Holder::List, Punctuator::Comma) => Inside::Comma,
        (Holder::Map, Punctuator::CloseBrace) => Inside::End,
        (Holder::Map, Punctuator::Question) => Inside::Mark,
        (Holder::Map, Punctuator::Comma) => Inside::Comma,
        (Holder::Arguments, Punctuator::CloseRound) => Inside::End,
        _ => Inside::Operand,
    }
}

/// What the token is where the bracket has no part.
fn before_part(holder: Holder, token: Token<'_>) -> Inside
    ensures { result ≡ spec.in_holder holder (token_of token.entry) }
{
    match token {
        Token::Punctuator(mark) => by_mark(holder, mark),
        _ => Inside::Operand,
    }
}

/// What the token is behind a comma.
fn behind_comma(holder: Holder, token: Token<'_>) -> Inside
    ensures { result ≡ spec.in_more holder (token_of token.entry) }
{
    match holder {
        Holder::List => before_part(holder, token),
        Holder::Map => before_part(holder, token),
        Holder::Arguments => Inside::Operand,
        Holder::Other => Inside::Operand,
    }
}

/// What follows a tree that is complete.
fn complete(part: Result<Part, Stop>) -> Result<Mode, Stop>
    ensures { spec.Completes part result }
{
    match part {
        Ok(part) => Ok(Mode::Has(part)),
        Err(stop) => Err(stop),
    }
}

impl Machine {
    fn holder(&self) -> Holder
        ensures { result ≡ spec.holder_of (frames_of self.now.frames.items) }
    {
        match self.frames.last() {
            Some(Frame::List(_, _)) => Holder::List,
            Some(Frame::Key(_, _)) => Holder::Map,
            Some(Frame::Arguments(_)) => Holder::Arguments,
            _ => Holder::Other,
        }
    }

    /// What the first part of the innermost bracket may be.
    pub(crate) fn first_part(&self) -> Expected
        ensures { result ≡ expects.first_part (frames_of self.now.frames.items) }
    {
        match self.holder() {
            Holder::List => Expected::FirstItem,
            Holder::Map => Expected::FirstKey,
            Holder::Arguments => Expected::FirstArgument,
            Holder::Other => Expected::Operand,
        }
    }

    /// What another part may be.
    pub(crate) fn next_part(&self) -> Expected
        ensures { result ≡ expects.next_part (frames_of self.now.frames.items) }
    {
        match self.holder() {
            Holder::List => Expected::NextItem,
            Holder::Map => Expected::NextKey,
            Holder::Arguments => Expected::Operand,
            Holder::Other => Expected::Operand,
        }
    }

    /// The end of the innermost bracket.
    pub(crate) fn its_end(&self) -> Expected
        ensures { result ≡ expects.its_end (frames_of self.now.frames.items) }
    {
        match self.holder() {
            Holder::List => Expected::EndOfList,
            Holder::Map => Expected::EndOfMap,
            Holder::Arguments => Expected::FirstArgument,
            Holder::Other => Expected::EndOfList,
        }
    }

    /// The end of a bracket that holds no further part.
    fn end_empty(&mut self, place: Place) -> Result<Mode, Stop>
        ensures { Acts (spec.end_empty (frames_of self.old.frames.items) place) result self.new.frames.items }
    {
        match self.close() {
            Some(Frame::List(items, _)) => complete(list(items, place)),
            Some(Frame::Key(entries, _)) => complete(map(entries, place)),
            Some(Frame::Arguments(arguments)) => complete(called(arguments, place)),
            Some(_other) => Err(Stop::Unexpected(Expected::EndOfList)),
            None => Err(Stop::Unexpected(Expected::EndOfList)),
        }
    }

    /// The question mark of an item or an entry.
    fn mark(&mut self) -> Result<Mode, Stop>
        ensures { Acts (spec.marked (frames_of self.old.frames.items)) result self.new.frames.items }
    {
        match self.close() {
            Some(Frame::List(items, _)) => {
                self.open(Frame::List(items, true))?;
                Ok(Mode::Needs)
            }
            Some(Frame::Key(entries, _)) => {
                self.open(Frame::Key(entries, true))?;
                Ok(Mode::Needs)
            }
            Some(_other) => Err(Stop::Unexpected(Expected::Operand)),
            None => Err(Stop::Unexpected(Expected::Operand)),
        }
    }

    /// The first part of the innermost bracket, or its end.
    pub(crate) fn opened(&mut self, token: PlacedToken<'_>) -> Result<Mode, Stop>
        ensures { Steps (machine.step_opened (frames_of self.old.frames.items) (placed_of token.entry))
            (expects.first_part (frames_of self.old.frames.items)) result self.new.frames.items }
    {
        let expected = self.first_part();
        match before_part(self.holder(), token.token) {
            Inside::End => self.end_empty(token.place),
            Inside::Mark => self.mark(),
            Inside::Comma => Ok(Mode::Ended),
            Inside::Operand => self.begin(token, expected),
        }
    }

    /// Another part of the innermost bracket, or, of a list or a map, its end.
    pub(crate) fn more(&mut self, token: PlacedToken<'_>) -> Result<Mode, Stop>
        ensures { Steps (machine.step_more (frames_of self.old.frames.items) (placed_of token.entry))
            (expects.next_part (frames_of self.old.frames.items)) result self.new.frames.items }
    {
        let expected = self.next_part();
        match behind_comma(self.holder(), token.token) {
            Inside::End => self.end_empty(token.place),
            Inside::Mark => self.mark(),
            Inside::Comma => Err(Stop::Unexpected(expected)),
            Inside::Operand => self.begin(token, expected),
        }
    }

    /// The end of a list or a map.
    pub(crate) fn ended(&mut self, token: PlacedToken<'_>) -> Result<Mode, Stop>
        ensures { Steps (machine.step_ended (frames_of self.old.frames.items) (placed_of token.entry))
            (expects.its_end (frames_of self.old.frames.items)) result self.new.frames.items }
    {
        match before_part(self.holder(), token.token) {
            Inside::End => self.end_empty(token.place),
            Inside::Mark => Err(Stop::Unexpected(self.its_end())),
            Inside::Comma => Err(Stop::Unexpected(self.its_end())),
            Inside::Operand => Err(Stop::Unexpected(self.its_end())),
        }
    }

    /// The end of an expression in round brackets.
    fn in_round(
        &mut self,
        bracket: Place,
        part: Part,
        mark: Punctuator,
        place: Place,
    ) -> Result<Mode, Stop>
        ensures { Acts (machine.part_by_mark
            (tree part.node, machine.in_round bracket ∷ frames_of self.old.frames.items) mark place)
            result self.new.frames.items }
    {
        match mark {
            Punctuator::CloseRound => complete(round(self.alloc, bracket, part, place)),
            _ => Err(Stop::Unexpected(Expected::Operand)),
        }
    }

    /// The end of an index.
    fn in_index(
        &mut self,
        operand: Part,
        is_optional: bool,
        part: Part,
        mark: Punctuator,
        place: Place,
    ) -> Result<Mode, Stop>
        ensures { Acts (machine.part_by_mark (
          tree part.node,
          frame_view (frame.Index operand is_optional)
              ∷ frames_of self.old.frames.items,
        ) mark place) result self.new.frames.items }
    {
        match mark {
            Punctuator::CloseSquare => complete(index(
                self.alloc,
                operand,
                is_optional,
                part,
                place,
            )),
            _ => Err(Stop::Unexpected(Expected::Operand)),
        }
    }

    /// The end of an argument.
    fn in_arguments(
        &mut self,
        arguments: Call,
        part: Part,
        mark: Punctuator,
        place: Place,
    ) -> Result<Mode, Stop>
        ensures { Acts (machine.part_by_mark (
          tree part.node,
          frame_view (frame.Arguments arguments)
              ∷ frames_of self.old.frames.items,
        ) mark place) result self.new.frames.items }
    {
        let arguments = with_argument(arguments, part)?;
        match mark {
            Punctuator::CloseRound => complete(called(arguments, place)),
            Punctuator::Comma => {
                self.open(Frame::Arguments(arguments))?;
                Ok(Mode::Needs)
            }
            _ => Err(Stop::Unexpected(Expected::Operand)),
        }
    }

    /// The end of an item.
    fn in_list(
        &mut self,
        items: Items,
        is_optional: bool,
        part: Part,
        mark: Punctuator,
        place: Place,
    ) -> Result<Mode, Stop>
        ensures { Acts (machine.part_by_mark (
          tree part.node,
          frame_view (frame.List items is_optional)
              ∷ frames_of self.old.frames.items,
        ) mark place) result self.new.frames.items }
    {
        let items = with_item(items, is_optional, part)?;
        match mark {
            Punctuator::CloseSquare => complete(list(items, place)),
            Punctuator::Comma => {
                self.open(Frame::List(items, false))?;
                Ok(Mode::More)
            }
            _ => Err(Stop::Unexpected(Expected::Operand)),
        }
    }

    /// The end of a key.
    fn in_key(
        &mut self,
        entries: Entries,
        is_optional: bool,
        key: Part,
        mark: Punctuator,
        place: Place,
    ) -> Result<Mode, Stop>
        ensures { Acts (machine.part_by_mark (
          tree key.node,
          frame_view (frame.Key entries is_optional)
              ∷ frames_of self.old.frames.items,
        ) mark place) result self.new.frames.items }
    {
        match mark {
            Punctuator::Colon => {
                self.open(Frame::Value(entries, is_optional, key))?;
                Ok(Mode::Needs)
            }
            _ => Err(Stop::Unexpected(Expected::Operand)),
        }
    }

    /// The end of a value.
    fn in_value(
        &mut self,
        entries: Entries,
        is_optional: bool,
        key: Part,
        part: Part,
        mark: Punctuator,
        place: Place,
    ) -> Result<Mode, Stop>
        ensures { Acts (machine.part_by_mark (
          tree part.node,
          frame_view (frame.Value entries is_optional key)
              ∷ frames_of self.old.frames.items,
        ) mark place) result self.new.frames.items }
    {
        let entries = with_entry(entries, is_optional, key, part)?;
        match mark {
            Punctuator::CloseBrace => complete(map(entries, place)),
            Punctuator::Comma => {
                self.open(Frame::Key(entries, false))?;
                Ok(Mode::More)
            }
            _ => Err(Stop::Unexpected(Expected::Operand)),
        }
    }

    /// What follows a part of a bracket.
    pub(crate) fn part(&mut self, part: Part, mark: Punctuator, place: Place) -> Result<Mode, Stop>
        ensures { Acts (machine.part_by_mark (tree part.node, frames_of self.old.frames.items) mark place)
            result self.new.frames.items }
    {
        match self.close() {
            Some(Frame::Round(bracket)) => self.in_round(bracket, part, mark, place),
            Some(Frame::List(items, is_optional)) => self.in_list(
                items,
                is_optional,
                part,
                mark,
                place,
            ),
            Some(Frame::Key(entries, is_optional)) => self.in_key(
                entries,
                is_optional,
                part,
                mark,
                place,
            ),
            Some(Frame::Value(entries, is_optional, key)) => self.in_value(
                entries,
                is_optional,
                key,
                part,
                mark,
                place,
            ),
            Some(Frame::Arguments(arguments)) => self.in_arguments(arguments, part, mark, place),
            Some(Frame::Index(operand, is_optional)) => self.in_index(
                operand,
                is_optional,
                part,
                mark,
                place,
            ),
            Some(Frame::Question(_)) => Err(Stop::Unexpected(Expected::Operand)),
            Some(Frame::Waiting(_)) => Err(Stop::Unexpected(Expected::Operand)),
            None => Err(Stop::Unexpected(Expected::Operand)),
        }
    }
}
