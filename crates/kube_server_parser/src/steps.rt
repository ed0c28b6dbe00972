//! The machine's steps.

ghost use Rattle.std.specs.Prelude.{◌≡◌};
ghost use Rattle.kube_server_syntax.specs.Machine as machine;
ghost use Rattle.kube_server_syntax.specs.Placed.{placed_of};
ghost use Rattle.kube_server_syntax.specs.Tree.{tree};
ghost use Rattle.kube_server_parser.specs.Expects as spec;
ghost use Rattle.kube_server_parser.specs.Results.{Finishes, Steps};
ghost use Rattle.kube_server_parser.specs.Views.{frames_of, mode_view};

use crate::build::{ident, select};
use crate::expected::{Closing, Expected};
use crate::machine::Machine;
use crate::mode::Mode;
use crate::part::Part;
use crate::stop::Stop;
use cel_value::Text;
use kube_server_syntax::node::Place;
use kube_server_syntax::token::PlacedToken;

impl Machine {
    /// Takes a token. Returns what comes next.
    pub(crate) fn step(&mut self, mode: Mode, token: PlacedToken<'_>) -> Result<Mode, Stop>
        ensures { Steps (machine.step (mode_view mode) (frames_of self.old.frames.items) (placed_of token.entry))
            (spec.expected (mode_view mode) (frames_of self.old.frames.items)) result self.new.frames.items }
    {
        match mode {
            Mode::Needs => self.begin(token, Expected::Operand),
            Mode::Opened => self.opened(token),
            Mode::More => self.more(token),
            Mode::Ended => self.ended(token),
            Mode::Minus(place) => self.after_minus(place, token),
            Mode::Named(place, name) => self.named(place, name, token),
            Mode::Has(operand) => self.after_member(operand, token),
            Mode::Dotted(operand) => self.dotted(operand, token),
            Mode::DotMarked(operand) => self.dot_marked(operand, token),
            Mode::Fielded(operand, place, name) => self.fielded(operand, place, name, token),
            Mode::Indexed(operand) => self.indexed(operand, token),
        }
    }

    /// Whether nothing is open.
    fn is_whole(&self) -> bool
        ensures { result ≡ spec.is_whole (frames_of self.now.frames.items) }
    {
        matches!(self.bracket(), Closing::Text)
    }

    /// The end of the text behind an operand.
    fn whole(&mut self, operand: Part) -> Result<Part, Stop>
        ensures { Finishes (machine.end (machine.has (tree operand.node)) (frames_of self.old.frames.items))
            (Expected.After (spec.ending (frames_of self.old.frames.items))) result }
    {
        if self.is_whole() {
            self.take_in(None, operand)
        } else {
            Err(Stop::Unexpected(self.after()))
        }
    }

    /// The end of the text behind the name of a field.
    fn whole_selection(&mut self, operand: Part, place: Place, name: Text) -> Result<Part, Stop>
        ensures { Finishes (machine.end (machine.fielded (tree operand.node) place name) (frames_of self.old.frames.items))
            (Expected.After (spec.ending (frames_of self.old.frames.items))) result }
    {
        if !self.is_whole() {
            return Err(Stop::Unexpected(self.after()));
        }
        match select(self.alloc, operand, false, place, name) {
            Ok(operand) => self.take_in(None, operand),
            Err(stop) => Err(stop),
        }
    }

    /// The end of the text. Returns the tree of the whole.
    pub(crate) fn finish(&mut self, mode: Mode) -> Result<Part, Stop>
        ensures { Finishes (machine.end (mode_view mode) (frames_of self.old.frames.items))
            (spec.expected (mode_view mode) (frames_of self.old.frames.items)) result }
    {
        match mode {
            Mode::Needs => Err(Stop::Unexpected(Expected::Operand)),
            Mode::Opened => Err(Stop::Unexpected(self.first_part())),
            Mode::More => Err(Stop::Unexpected(self.next_part())),
            Mode::Ended => Err(Stop::Unexpected(self.its_end())),
            Mode::Minus(_) => Err(Stop::Unexpected(self.operand())),
            Mode::Named(place, name) => self.whole(ident(place, name)),
            Mode::Has(operand) => self.whole(operand),
            Mode::Dotted(_) => Err(Stop::Unexpected(Expected::Member)),
            Mode::DotMarked(_) => Err(Stop::Unexpected(Expected::Field)),
            Mode::Fielded(operand, place, name) => self.whole_selection(operand, place, name),
            Mode::Indexed(_) => Err(Stop::Unexpected(Expected::Index)),
        }
    }
}
