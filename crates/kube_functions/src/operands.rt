//! The operands of a call: the receiver, if there is one, followed by the arguments.
ghost use Rattle.std.specs.Prelude.{◌≡◌, map, option_map};
ghost use Rattle.cel_value.specs.View.{view, items_view};
ghost use Rattle.cel_semantics.specs.Members.{nth_item};
ghost use Rattle.cel_stdlib.specs.Standard as standard;
ghost use Rattle.kube_functions.specs.Operands as spec;

use cel_value::Value;

/// The argument at an index, if any.
pub(crate) fn nth(args: &[Value], index: usize) -> Option<&Value>
    ensures { option_map (λ v. view v.now) result ≡ nth_item index (items_view args.now) }
{
    args.get(index)
}

/// The first operand: the receiver, or the first argument if there is no receiver.
pub(crate) fn first_operand<'a>(receiver: Option<&'a Value>, args: &'a [Value]) -> Option<&'a Value>
    ensures { option_map (λ v. view v.now) result
        ≡ standard.first_operand (option_map (λ v. view v.now) receiver.entry) (map view args.now) }
{
    match receiver {
        Some(value) => Some(value),
        None => nth(args, 0),
    }
}

/// The second operand, if any.
#[inline(always)]
pub(crate) fn second_operand<'a>(
    receiver: Option<&'a Value>,
    args: &'a [Value],
) -> Option<&'a Value>
    ensures { option_map (λ v. view v.now) result
        ≡ standard.second_operand (option_map (λ v. view v.now) receiver.entry) (map view args.now) }
{
    match receiver {
        Some(_) => nth(args, 0),
        None => nth(args, 1),
    }
}

/// The third operand, if any.
#[inline(always)]
pub(crate) fn third_operand<'a>(receiver: Option<&'a Value>, args: &'a [Value]) -> Option<&'a Value>
    ensures { option_map (λ v. view v.now) result
        ≡ spec.third_operand (option_map (λ v. view v.now) receiver.entry) (map view args.now) }
{
    match receiver {
        Some(_) => nth(args, 1),
        None => nth(args, 2),
    }
}

/// The fourth operand, if any.
#[inline(always)]
pub(crate) fn fourth_operand<'a>(
    receiver: Option<&'a Value>,
    args: &'a [Value],
) -> Option<&'a Value>
    ensures { option_map (λ v. view v.now) result
        ≡ spec.fourth_operand (option_map (λ v. view v.now) receiver.entry) (map view args.now) }
{
    match receiver {
        Some(_) => nth(args, 2),
        None => nth(args, 3),
    }
}
