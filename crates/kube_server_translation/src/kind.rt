//! The kinds of calls.

use cel_syntax_ast::MacroKind;

/// What a call stands for, by its target, its name and the number of its arguments.
#[derive(Clone, Copy, Debug, PartialEq, Eq)]
pub enum CallKind {
    /// `has(a.b)`
    Has,
    /// `dyn(v)`
    Dynamic,
    /// `type(v)`
    Type,
    /// `o.hasValue()`
    HasValue,
    /// `o.value()`
    Value,
    /// `o.or(p)`
    Or,
    /// `o.orValue(v)`
    OrValue,
    /// `o.optMap(x, b)`
    OptMap,
    /// `o.optFlatMap(x, b)`
    OptFlatMap,
    /// `optional.none()`, `optional.of(v)`, `optional.ofNonZeroValue(v)`
    Optional,
    /// `cel.bind(x, v, b)`
    Bind,
    /// A macro with a variable, as `r.all(x, p)`, `r.map(x, f, b)`.
    OneVariable(MacroKind),
    /// A macro with two variables, as `r.all(i, v, p)`; `Map` is `transformList`.
    TwoVariables(MacroKind),
    /// `r.transformMap(k, v, b)`, `r.transformMap(k, v, f, b)`
    TransformMap,
    /// `r.transformMapEntry(k, v, b)`, `r.transformMapEntry(k, v, f, b)`
    TransformMapEntry,
    /// Any other call.
    Ordinary,
}
