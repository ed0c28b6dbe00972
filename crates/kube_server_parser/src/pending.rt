//! An operand takes in the signs and operators that wait for it.

ghost use Rattle.std.specs.Prelude.{◌≡◌, ◌∷◌, [], List, MatchOption, MatchResult, Some, false, true};
ghost use Rattle.kube_server_syntax.specs.Machine as machine;
ghost use Rattle.kube_server_syntax.specs.Tree.{tree};
ghost use Rattle.kube_server_parser.specs.Expects as spec;
ghost use Rattle.kube_server_parser.specs.Pending.{applied, next_waits, taken_in};
ghost use Rattle.kube_server_parser.specs.Results.{Acts, Builds, TakesIn};
ghost use Rattle.kube_server_parser.specs.Views.{frame_view, frames_of, waiting_view};
ghost use Rattle.kube_server_parser.specs.declared.stop.Stop.TheVariants.{Memory};

use crate::build::{chosen, operated, signed};
use crate::expected::{Closing, Expected};
use crate::frame::{Frame, Waiting};
use crate::level::push;
use crate::machine::Machine;
use crate::mode::Mode;
use crate::part::Part;
use crate::stop::Stop;
use std::alloc::Global;

/// Whether the frame waits for an operand within its bracket: with a level, whether it is a sign or an operator up to
/// this level.
fn waits(loosest: Option<u8>, frame: &Frame) -> bool
    ensures { result ≡ spec.waits loosest (frame_view frame.now) }
{
    match (frame, loosest) {
        (Frame::Waiting(Waiting::Sign(_, _)), _) => true,
        (Frame::Waiting(Waiting::Operator(_, _, _)), None) => true,
        (Frame::Waiting(Waiting::Operator(_, _, level)), Some(loosest)) => *level <= loosest,
        (Frame::Waiting(Waiting::Colon(_, _)), None) => true,
        _ => false,
    }
}

/// Applies what waits to an operand.
fn apply(alloc: Global, waiting: Waiting, operand: Part) -> Result<Part, Stop>
    ensures { Builds (applied (waiting_view waiting) (tree operand.node)) result }
{
    match waiting {
        Waiting::Sign(operator, place) => signed(alloc, operator, place, operand),
        Waiting::Operator(left, operator, _) => operated(alloc, left, operator, operand),
        Waiting::Colon(test, yes) => chosen(alloc, test, yes, operand),
    }
}

impl Machine {
    /// The innermost frame that doesn't wait.
    fn settled(&self, loosest: Option<u8>) -> Option<&Frame>
        ensures { MatchOption result (spec.settled loosest (frames_of self.now.frames.items) ≡ [])
            (λ f. (fs : List machine.Frame)
            × (spec.settled loosest (frames_of self.now.frames.items) ≡ frame_view f.now ∷ fs)) }
    {
        let mut count = self.frames.len();
        while 0 < count {
            count -= 1;
            let frame = &self.frames[count];
            if !waits(loosest, frame) {
                return Some(frame);
            }
        }
        None
    }

    /// Whether an operand belongs to the first branch of a condition.
    pub(crate) fn is_asking(&self) -> bool
        ensures { result ≡ spec.is_asking (frames_of self.now.frames.items) }
    {
        matches!(self.settled(Some(5)), Some(Frame::Question(_)))
    }

    /// What ends the part that an operand belongs to, if it isn't the first branch of a condition.
    pub(crate) fn bracket(&self) -> Closing
        ensures { result ≡ spec.closing_of (spec.settled None (frames_of self.now.frames.items)) }
    {
        match self.settled(None) {
            None => Closing::Text,
            Some(Frame::Round(_)) => Closing::Round,
            Some(Frame::List(_, _)) => Closing::Item,
            Some(Frame::Key(_, _)) => Closing::Key,
            Some(Frame::Value(_, _, _)) => Closing::Value,
            Some(Frame::Arguments(_)) => Closing::Argument,
            Some(Frame::Index(_, _)) => Closing::Index,
            Some(Frame::Question(_)) => Closing::Branch,
            Some(Frame::Waiting(_)) => Closing::Branch,
        }
    }

    /// What may follow an operand.
    pub(crate) fn after(&self) -> Expected
        ensures { result ≡ Expected.After (spec.ending (frames_of self.now.frames.items)) }
    {
        Expected::After(if self.is_asking() {
            Closing::Branch
        } else {
            self.bracket()
        })
    }

    /// Opens a frame.
    pub(crate) fn open(&mut self, frame: Frame) -> Result<(), Stop>
        ensures { MatchResult result
            (λ u. frames_of self.new.frames.items ≡ frame_view frame ∷ frames_of self.old.frames.items)
            (λ e. e ≡ Memory) }
    {
        push(&mut self.frames, frame)
    }

    /// Opens a frame that an operand follows.
    pub(crate) fn needs(&mut self, frame: Frame) -> Result<Mode, Stop>
        ensures { Acts (Some (machine.needs, frame_view frame ∷ frames_of self.old.frames.items)) result
            self.new.frames.items }
    {
        self.open(frame)?;
        Ok(Mode::Needs)
    }

    /// Closes the innermost frame.
    pub(crate) fn close(&mut self) -> Option<Frame>
        ensures { MatchOption result
            ((frames_of self.old.frames.items ≡ []) × (frames_of self.new.frames.items ≡ []))
            (λ f. frames_of self.old.frames.items ≡ frame_view f ∷ frames_of self.new.frames.items) }
    {
        self.frames.pop()
    }

    /// Closes the innermost frame if it waits.
    fn waiting(&mut self, loosest: Option<u8>) -> Option<Waiting>
        ensures { MatchOption result
            ((next_waits loosest (frames_of self.old.frames.items) ≡ false)
            × (frames_of self.new.frames.items ≡ frames_of self.old.frames.items))
            (λ w. (frames_of self.old.frames.items ≡ waiting_view w ∷ frames_of self.new.frames.items)
            × (spec.waits loosest (waiting_view w) ≡ true)) }
    {
        match self.frames.last() {
            Some(frame) if waits(loosest, frame) => {}
            _ => return None,
        }
        match self.frames.pop() {
            Some(Frame::Waiting(waiting)) => Some(waiting),
            Some(_other) => None,
            None => None,
        }
    }

    /// The operand with what waits for it.
    pub(crate) fn take_in(&mut self, loosest: Option<u8>, operand: Part) -> Result<Part, Stop>
        ensures { TakesIn (taken_in loosest (frames_of self.old.frames.items) (tree operand.node)) result
            self.new.frames.items }
    {
        let mut part = operand;
        while let Some(waiting) = self.waiting(loosest) {
            part = match apply(self.alloc, waiting, part) {
                Ok(part) => part,
                Err(stop) => return Err(stop),
            };
        }
        Ok(part)
    }
}
