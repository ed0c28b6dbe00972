//! The operands of a call: the receiver, if there is one, followed by the arguments.
ghost use Rattle.std.specs.Prelude.{◌≡◌, map, option_map};
ghost use Rattle.cel_value.specs.View.{view, items_view};
ghost use Rattle.cel_semantics.specs.Members.{nth_item};
ghost use Rattle.cel_stdlib.specs.Standard.{first_operand, second_operand};
ghost use Rattle.kube_functions.specs.Operands.{third_operand};

use cel_value::Value;

fn nth(args: &[Value], index: usize) -> Option<&Value>
    ensures { option_map (λ v. view v.now) result ≡ nth_item index (items_view args.now) }
{
    args.get(index)
}

/// The first three operands of a call.
#[derive(Clone, Copy)]
pub(crate) struct Operands<'a> {
    pub(crate) first: Option<&'a Value>,
    pub(crate) second: Option<&'a Value>,
    pub(crate) third: Option<&'a Value>,
}

/// Returns the first three operands of a call with this receiver and these arguments.
pub(crate) fn operands_of<'a>(receiver: Option<&'a Value>, args: &'a [Value]) -> Operands<'a>
    ensures first { option_map (λ v. view v.now) result.first
        ≡ first_operand (option_map (λ v. view v.now) receiver.entry) (map view args.now) }
    ensures second { option_map (λ v. view v.now) result.second
        ≡ second_operand (option_map (λ v. view v.now) receiver.entry) (map view args.now) }
    ensures third { option_map (λ v. view v.now) result.third
        ≡ third_operand (option_map (λ v. view v.now) receiver.entry) (map view args.now) }
{
    match receiver {
        Some(value) => Operands {
            first: Some(value),
            second: nth(args, 0),
            third: nth(args, 1),
        },
        None => Operands {
            first: nth(args, 0),
            second: nth(args, 1),
            third: nth(args, 2),
        },
    }
}
