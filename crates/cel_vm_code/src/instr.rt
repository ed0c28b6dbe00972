//! The instructions of the machine.

use cel_syntax_ast::{BinaryOperator, MacroKind, UnaryOperator};
use cel_value::{Key, Text, Value};

/// What a branch tests: a condition, or the filter of a macro. Errors refer to it by its name.
#[derive(Clone, Copy, Debug, PartialEq, Eq)]
pub enum Test {
    Condition,
    Filter,
}

/// An operation on values. None of its operands is an error.
#[derive(Debug, Drop)]
pub enum Operation {
    /// A unary operator.
    Unary(UnaryOperator),
    /// A binary operator.
    Binary(BinaryOperator),
    /// A binary operator whose right operand is a literal.
    WithLiteral(BinaryOperator, Value),
    /// Selects the member of a map at a key.
    Select(Key),
    /// Reports whether a map has a member at a key.
    Has(Key),
    /// Indexes the lower value by the topmost one.
    Index,
    /// Makes a list of this many values.
    List(usize),
    /// Adds an entry to a map literal: its operands are the map so far, the key and the value.
    Put,
}

/// An instruction. It takes its operands from a stack whose entries are values
/// or errors, and leaves its result there. An `offset` or `on_false` is the
/// number of instructions that a jump passes over.
#[derive(Debug, Drop)]
pub enum Instr {
    /// Pushes a value.
    Push(Value),
    /// Pushes the value that the context binds to a name, or an error if it binds none.
    Load(Text),
    /// Pushes the item of the loop this many levels out; the innermost loop is 0.
    LoadItem(usize),
    /// If an error is on top, drops `depth` values below it and jumps over `offset` instructions.
    Guard {
        depth: usize,
        offset: usize,
    },
    /// Applies an operation to the topmost values.
    Apply(Operation),
    /// Tests whether a name may be called in this form: with a receiver or without, and with
    /// `count` arguments. If not, pushes an error and jumps over `offset` instructions.
    Form {
        name: Text,
        receiver: bool,
        count: usize,
        offset: usize,
    },
    /// Calls a function with a receiver or without, and with `count` arguments.
    Call {
        name: Text,
        receiver: bool,
        count: usize,
    },
    /// Pops a bool: goes on if it is true, and jumps over `on_false` instructions if it is false.
    /// An error stays on top, and a value of another kind is replaced by an error; then `offset`
    /// instructions (both branches) are jumped over.
    Branch {
        test: Test,
        on_false: usize,
        offset: usize,
    },
    /// Jumps over this many instructions.
    Skip(usize),
    /// Pops the left operand of `&&` or `||`. If it is the bool `stop`, leaves `stop` and jumps
    /// over the right operand; else keeps its error pending, if any.
    Absorb {
        stop: bool,
        offset: usize,
    },
    /// Pops the right operand and the pending error of `&&` or `||`, and pushes
    /// the outcome. The bool is the one that decides.
    Join(bool),
    /// Pops a macro's range: goes on with its first item, or jumps over the
    /// loop if there is none, with the macro's outcome.
    Begin {
        kind: MacroKind,
        offset: usize,
    },
    /// Pops what the body left at an item: ends the loop, or goes back to the body with the next
    /// item. After a filter that is `true` with the result below it, or `false` alone.
    Next {
        kind: MacroKind,
        filtered: bool,
    },
}
