//! Dispatches the fields of rows by area.

use crate::parts::{bound, filled, items, names, nodes, patterns, rules, sources, values, ways};
use crate::{analysis, commands, errors, findings, policies, types, verdicts};
use conformance_rows::keys::{entry, item_given};
use conformance_rows::{Field, Found, Stop};
use kube_cel::cel::PatternBook;
use std::alloc::Global;

/// What a field asks about.
#[derive(Clone, Copy)]
enum Area {
    /// A pattern and a text.
    Matches,
    Spans,
    /// A CEL text.
    Source,
    /// The CEL name of a field.
    Escaped,
    Unescaped,
    /// Copies of values.
    Keys,
    Optionals,
    /// An expression.
    Expression,
    /// A schema, alone or with an object.
    Filled,
    Bound,
    Node,
    RulesRead,
    Verdict,
    /// A command of a program.
    Command,
    EachWrite,
    Policy,
    /// A schema or a rule without an object.
    Findings,
    Analysis,
    Scopes,
    /// Errors in JSON, a value that serde writes, and a list of values that differ.
    PartsRead,
    Written,
    Differ,
}

/// The keys of fields that state an answer, with their areas. Those about items aren't among them.
const AREAS: [(&str, Area); 44] = [
    ("matches", Area::Matches),
    ("spans", Area::Spans),
    ("tokens", Area::Source),
    ("read", Area::Source),
    ("tree", Area::Source),
    ("free names", Area::Source),
    ("called names", Area::Source),
    ("name is free", Area::Source),
    ("escaped", Area::Escaped),
    ("unescaped", Area::Unescaped),
    ("keys equal their copies", Area::Keys),
    ("optionals equal their copies", Area::Optionals),
    ("value", Area::Expression),
    ("kind", Area::Expression),
    ("prints", Area::Expression),
    ("error", Area::Expression),
    ("refused", Area::Expression),
    ("filled", Area::Filled),
    ("bound", Area::Bound),
    ("node count", Area::Node),
    ("shown", Area::Node),
    ("rules compiled", Area::Node),
    ("compilation errors", Area::Node),
    ("rules read", Area::RulesRead),
    ("errors", Area::Verdict),
    ("error parts", Area::Verdict),
    ("printed", Area::Verdict),
    ("errors written", Area::Verdict),
    ("status", Area::Command),
    ("output", Area::Command),
    ("error output", Area::Command),
    ("each write refused", Area::EachWrite),
    ("result", Area::Policy),
    ("results", Area::Policy),
    ("compiled", Area::Policy),
    ("findings", Area::Findings),
    ("scope warnings", Area::Analysis),
    ("cost warnings", Area::Analysis),
    ("warnings", Area::Analysis),
    ("cost", Area::Analysis),
    ("scopes differ", Area::Scopes),
    ("parts read", Area::PartsRead),
    ("written", Area::Written),
    ("differ", Area::Differ),
];

/// Answers a field with the row's book of patterns. If the row gives an item, all its fields ask
/// about that.
pub(crate) fn find(
    alloc: Global,
    given: &[Field],
    field: &Field,
    book: &mut PatternBook,
    found: &mut Found,
) {
    if let Some(item) = item_given(given, false) {
        return items::find(alloc, given, item, field, found);
    }
    match entry(&AREAS, field.key.as_str()) {
        Some(Area::Matches) => patterns::matches(book, given, found),
        Some(Area::Spans) => patterns::spans(book, given, found),
        Some(Area::Source) => sources::find(alloc, given, field, found),
        Some(Area::Escaped) => names::escaped(alloc, given, found),
        Some(Area::Unescaped) => names::unescaped(alloc, given, found),
        Some(Area::Keys) => values::keys_are_kept(alloc, found),
        Some(Area::Optionals) => values::optionals_are_kept(alloc, found),
        Some(Area::Expression) => ways::find(alloc, given, field, found),
        Some(Area::Filled) => filled::find(alloc, given, field, found),
        Some(Area::Bound) => bound::find(alloc, given, found),
        Some(Area::Node) => nodes::find(alloc, given, field, found),
        Some(Area::RulesRead) => rules::read(alloc, given, &mut found.text),
        Some(Area::Verdict) => verdicts::find(alloc, given, field, found),
        Some(Area::Command) => commands::find(alloc, given, field, found),
        Some(Area::EachWrite) => commands::refuse_each_write(alloc, given, found),
        Some(Area::Policy) => policies::find(alloc, given, field, found),
        Some(Area::Findings) => findings::find(alloc, given, &mut found.text),
        Some(Area::Analysis) => analysis::find(alloc, given, field, found),
        Some(Area::Scopes) => analysis::scopes_differ(found),
        Some(Area::PartsRead) => errors::put_read(alloc, given, &mut found.text),
        Some(Area::Written) => types::written(alloc, given, field, found),
        Some(Area::Differ) => types::differ(alloc, given, field, found),
        None => found.stop(Stop::Unfit("a key that is known here")),
    }
}
