//! The state of a run.
ghost use Rattle.std.specs.Prelude.{◌≡◌, ◌<◌, [], length};
ghost use Rattle.cel_semantics.specs.Ranges.{range_list};

use cel_semantics::operators::Answer;
use cel_semantics::ranges::Range;
use cel_syntax_ast::MacroKind;
use cel_value::{ExecutionError, Value};
use std::alloc::Global;

/// A loop: its range, the index of the current item, the results so far, and the
/// program counters where its body starts and ends.
#[derive(Drop)]
pub struct LoopState {
    pub range: Range,
    pub index: usize,
    pub results: Vec<Value>,
    pub start: usize,
    pub finish: usize,
    ghost inside: { index < length (range_list range) },
}

/// The stacks of values, of pending errors and of loops, and a buffer for the arguments of a call.
/// They can be lent to one run after another, which then need no memory of their own.
pub struct Stacks {
    pub(crate) values: Vec<Answer>,
    pub(crate) absorbed: Vec<Option<ExecutionError>>,
    pub(crate) loops: Vec<LoopState>,
    pub(crate) args: Vec<Value>,
}

// By hand, so that a proof about code that owns one doesn't go through its parts.
impl Drop for Stacks {
    fn drop(self) {
        let Stacks {
            values: _,
            absorbed: _,
            loops: _,
            args: _,
        } = self;
    }
}

impl Stacks {
    /// Returns empty stacks, for runs that allocate from `alloc`. Allocates nothing.
    pub fn new(alloc: Global) -> Stacks
        ensures values { result.values.items ≡ [] }
        ensures absorbed { result.absorbed.items ≡ [] }
        ensures loops { result.loops.items ≡ [] }
        ensures args { result.args.items ≡ [] }
    {
        Stacks {
            values: Vec::new(alloc),
            absorbed: Vec::new(alloc),
            loops: Vec::new(alloc),
            args: Vec::new(alloc),
        }
    }

    /// Drops what a run left that was refused.
    pub(crate) fn clear(&mut self)
        ensures values { self.new.values.items ≡ [] }
        ensures absorbed { self.new.absorbed.items ≡ [] }
        ensures loops { self.new.loops.items ≡ [] }
        ensures args { self.new.args.items ≡ [] }
    {
        self.values.clear();
        self.absorbed.clear();
        self.loops.clear();
        self.args.clear();
    }
}

/// The end of a loop's body: the macro, and whether its body has a filter.
#[derive(Clone, Copy, Debug, PartialEq, Eq)]
pub struct End {
    pub kind: MacroKind,
    pub filtered: bool,
}

/// How a macro makes its outcome: an item that is this bool decides
/// it, or it is made of the results at all items.
#[derive(Clone, Copy)]
pub enum ResultRule {
    Decided(bool),
    Collected(MacroKind),
}

/// Where an instruction of a loop leads: into the body at an item, past the loop, or out of range.
#[derive(Clone, Copy, Debug, PartialEq, Eq)]
pub enum LoopStep {
    Inside,
    AfterLoop,
    OutOfRange,
}
