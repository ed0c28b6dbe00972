//! The functions of CEL-Go's strings library. `indexOf`,
//! `lastIndexOf` and `reverse` also take lists.
ghost use Rattle.std.specs.Prelude.{◌≡◌, IfOk, option_map};
ghost use Rattle.cel_value.specs.View.{view};
ghost use Rattle.cel_semantics.specs.Outcome.{outcome_view};
ghost use Rattle.kube_functions.specs.Strings as spec;

use crate::overloads::{index_of, last_index_of, reverse};
use cel_semantics::operators::{Answer, no_such_overload};
use cel_value::{Refused, Value};
use kube_functions_format::format;
use kube_functions_strings::{
    char_at, join, lower_ascii, quote, replace, split, substring, trim, upper_ascii,
};
use std::alloc::Global;

/// A function of the strings library.
#[derive(Clone, Copy)]
pub(crate) enum StringsFunction {
    CharAt,
    Format,
    IndexOf,
    Join,
    LastIndexOf,
    LowerAscii,
    Quote,
    Replace,
    Reverse,
    Split,
    Substring,
    Trim,
    UpperAscii,
}

impl StringsFunction {
    /// Returns the answer to a call of the function. The operands are the receiver, if
    /// there is one, followed by the arguments. `name` is the function's name in errors.
    ///
    /// # Errors
    /// [`Refused::Memory`] if memory is refused.
    pub(crate) fn answer(
        self,
        alloc: Global,
        name: &str,
        first: Option<&Value>,
        second: Option<&Value>,
        third: Option<&Value>,
        fourth: Option<&Value>,
    ) -> Result<Answer, Refused>
        ensures value { IfOk result (λ r. outcome_view r ≡ spec.answer self name.now
            (option_map (λ v. view v.now) first.entry) (option_map (λ v. view v.now) second.entry)
            (option_map (λ v. view v.now) third.entry) (option_map (λ v. view v.now) fourth.entry)) }
    {
        match (self, first, second, third) {
            (Self::CharAt, Some(value), Some(index), _) => char_at(alloc, value, index),
            (Self::Format, Some(value), Some(items), _) => format(alloc, value, items),
            (Self::IndexOf, Some(value), Some(part), _) => index_of(alloc, value, part, third),
            (Self::Join, Some(value), _, _) => join(alloc, value, second),
            (Self::LastIndexOf, Some(value), Some(part), _) => last_index_of(
                alloc, value, part, third,
            ),
            (Self::LowerAscii, Some(value), _, _) => lower_ascii(alloc, value),
            (Self::Quote, Some(value), _, _) => quote(alloc, value),
            (Self::Replace, Some(value), Some(part), Some(new)) => replace(
                alloc, value, part, new, fourth,
            ),
            (Self::Reverse, Some(value), _, _) => reverse(alloc, value),
            (Self::Split, Some(value), Some(part), _) => split(alloc, value, part, third),
            (Self::Substring, Some(value), Some(start), _) => substring(alloc, value, start, third),
            (Self::Trim, Some(value), _, _) => trim(alloc, value),
            (Self::UpperAscii, Some(value), _, _) => upper_ascii(alloc, value),
            (_, None, _, _) | (_, _, None, _) | (_, _, _, None) => Ok(Err(no_such_overload(
                alloc, name,
            )?)),
        }
    }
}
