//! The functions that Kubernetes adds to the standard ones, by library.
ghost use Rattle.std.specs.Prelude.{◌≡◌};
ghost use Rattle.kube_functions.specs.Table as spec;

use crate::libraries::encoders::EncodersFunction;
use crate::libraries::format::FormatFunction;
use crate::libraries::lists::ListsFunction;
use crate::libraries::math::MathFunction;
use crate::libraries::net::NetFunction;
use crate::libraries::quantity::QuantityFunction;
use crate::libraries::regex::RegexFunction;
use crate::libraries::semver::SemverFunction;
use crate::libraries::sets::SetsFunction;
use crate::libraries::strings::StringsFunction;
use crate::libraries::url::UrlFunction;

/// A function that Kubernetes adds, by its library.
#[derive(Clone, Copy)]
pub(crate) enum Function {
    Strings(StringsFunction),
    Lists(ListsFunction),
    Math(MathFunction),
    Sets(SetsFunction),
    Encoders(EncodersFunction),
    Regex(RegexFunction),
    Net(NetFunction),
    Semver(SemverFunction),
    Quantity(QuantityFunction),
    Url(UrlFunction),
    Format(FormatFunction),
}

/// A function, and the forms in which it may be called.
#[derive(Clone, Copy)]
pub(crate) struct Declaration {
    /// Whether the function is called on a receiver.
    pub(crate) receiver: bool,
    /// The least number of arguments.
    pub(crate) least: usize,
    /// The greatest number of arguments; None if there is no limit.
    pub(crate) greatest: Option<usize>,
    /// The function.
    pub(crate) function: Function,
}

/// Reports whether the function may be called with `count` arguments.
pub(crate) fn takes(declaration: Declaration, count: usize) -> bool
    ensures { result ≡ spec.takes declaration count }
{
    match declaration.greatest {
        Some(greatest) => declaration.least <= count && count <= greatest,
        None => declaration.least <= count,
    }
}
