//! Prints the nodes of compiled schemas.

use conformance_rows::Output;
use kube_schema::{BranchKind, CompiledSchema, SchemaFormat, SchemaNode};

/// Writes a line for each keyword that a node has.
pub(crate) fn put_keywords(node: &SchemaNode<'_>, out: &mut Output) {
    let format = node.format();
    if *format != SchemaFormat::None {
        out.push_line("format: ");
        out.debug(format);
    }
    if let Some(default) = node.default() {
        out.push_line("default: ");
        out.show(default);
    }
    out.push_flag("is a map", node.is_map());
    out.push_flag("preserves unknown fields", node.preserve_unknown_fields());
    out.push_flag("embedded resource", node.embedded_resource());
    out.push_number("max length", node.max_length());
    out.push_number("max items", node.max_items());
    out.push_number("max properties", node.max_properties());
    out.push_count("rules", node.validations().len());
}

/// Writes a line for each child of a node.
pub(crate) fn put_children(node: &SchemaNode<'_>, out: &mut Output) {
    for index in 0..node.property_count() {
        if let Some((name, _)) = node.property(index) {
            out.push_line("property: ");
            out.push(name);
        }
    }
    out.push_flag("items", node.items().is_some());
    out.push_flag(
        "additional properties",
        node.additional_properties().is_some(),
    );
    out.push_count("all of", node.branch_count(BranchKind::AllOf));
    out.push_count("one of", node.branch_count(BranchKind::OneOf));
    out.push_count("any of", node.branch_count(BranchKind::AnyOf));
}

/// Reports whether a compiled schema has the same keywords and children as its root.
pub(crate) fn shows_its_root(compiled: &CompiledSchema, root: &SchemaNode<'_>) -> bool {
    let equal = [
        compiled.property_count() == root.property_count(),
        compiled.is_map() == root.is_map(),
        compiled.preserve_unknown_fields() == root.preserve_unknown_fields(),
        compiled.embedded_resource() == root.embedded_resource(),
        compiled.max_length() == root.max_length(),
        compiled.max_items() == root.max_items(),
        compiled.max_properties() == root.max_properties(),
        compiled.format() == root.format(),
        compiled.has_errors() == root.has_errors(),
        compiled.validations().len() == root.validations().len(),
        shows_its_children(compiled, root),
    ];
    !equal.contains(&false)
}

/// Reports whether both are there or neither is.
fn are_alike<T: Drop>(first: Option<T>, second: Option<T>) -> bool {
    first.is_some() == second.is_some()
}

/// Reports whether a compiled schema has the same children and default as its root.
fn shows_its_children(compiled: &CompiledSchema, root: &SchemaNode<'_>) -> bool {
    let equal = [
        compiled.default() == root.default(),
        are_alike(compiled.property(0), root.property(0)),
        are_alike(compiled.items(), root.items()),
        are_alike(
            compiled.additional_properties(),
            root.additional_properties(),
        ),
        are_alike(compiled.all_of(0), root.all_of(0)),
        are_alike(compiled.one_of(0), root.one_of(0)),
        are_alike(compiled.any_of(0), root.any_of(0)),
    ];
    !equal.contains(&false)
}
