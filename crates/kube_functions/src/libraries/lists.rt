//! The functions of the lists libraries of CEL-Go and Kubernetes.
ghost use Rattle.std.specs.Prelude.{◌≡◌, IfOk, option_map};
ghost use Rattle.cel_value.specs.View.{view};
ghost use Rattle.cel_semantics.specs.Outcome.{outcome_view};
ghost use Rattle.kube_functions.specs.Lists as spec;

use cel_semantics::operators::{Answer, no_such_overload};
use cel_value::{Refused, Value};
use kube_functions_lists::{levels, lists, orders, ranges, sums};
use std::alloc::Global;

/// A function of the lists libraries.
#[derive(Clone, Copy)]
pub(crate) enum ListsFunction {
    Distinct,
    First,
    Flatten,
    IsSorted,
    Last,
    Max,
    Min,
    Range,
    Slice,
    Sort,
    Sum,
}

impl ListsFunction {
    /// Returns the answer to a call of the function. The operands are the receiver, if
    /// there is one, followed by the arguments. `name` is the function's name in errors.
    ///
    /// # Errors
    /// [`Refused::Memory`] if memory is refused.
    pub(crate) fn answer(
        self,
        alloc: Global,
        name: &str,
        first: Option<&Value>,
        second: Option<&Value>,
        third: Option<&Value>,
    ) -> Result<Answer, Refused>
        ensures value { IfOk result (λ r. outcome_view r ≡ spec.answer self name.now
            (option_map (λ v. view v.now) first.entry) (option_map (λ v. view v.now) second.entry)
            (option_map (λ v. view v.now) third.entry)) }
    {
        match (self, first, second, third) {
            (Self::Distinct, Some(value), _, _) => lists::distinct(alloc, value),
            (Self::First, Some(value), _, _) => lists::first(alloc, value),
            (Self::Flatten, Some(value), _, _) => levels::flatten(alloc, value, second),
            (Self::IsSorted, Some(value), _, _) => orders::is_sorted(alloc, value),
            (Self::Last, Some(value), _, _) => lists::last(alloc, value),
            (Self::Max, Some(value), _, _) => orders::max(alloc, value),
            (Self::Min, Some(value), _, _) => orders::min(alloc, value),
            (Self::Range, Some(value), _, _) => ranges::range(alloc, value),
            (Self::Slice, Some(value), Some(start), Some(end)) => lists::slice(
                alloc, value, start, end,
            ),
            (Self::Sort, Some(value), _, _) => orders::sort(alloc, value),
            (Self::Sum, Some(value), _, _) => sums::sum(alloc, value),
            (_, None, _, _) | (_, _, None, _) | (_, _, _, None) => Ok(Err(no_such_overload(
                alloc, name,
            )?)),
        }
    }
}
