//! Which requests a rule matches.
ghost use Rattle.kube_manifests_bindings.specs.Constraints.{rule_view, rules_of};
ghost use Rattle.kube_manifests_matching.specs.Attributes.{attributes_view};
ghost use Rattle.kube_manifests_matching.specs.Rules.{any_apart, any_defined, any_equivalent, any_matches, any_means, any_under, any_version, by_equivalents, in_scope, is_listed, is_named, is_namespaced, is_of_namespaces, is_or_any, is_slash, matches_apart, matches_under, means, text_means, truth};
ghost use Rattle.kube_manifests_resources.specs.Resources.{served_view};
ghost use Rattle.serde_json.specs.View.{items_view};
ghost use Rattle.std.specs.List.{after_first, before_first};
ghost use Rattle.std.specs.Prelude.{◌≡◌, map, option_map};

use crate::attributes::{Attributes, Equivalents};
use crate::labels::{has_no_item, has_text};
use crate::truth::Truth;
use kube_manifests_bindings::{Rule, Scope};
use kube_manifests_resources::{GroupVersion, served_name};
use serde_json::Value;

/// Reports whether a text or `*` is one of the strings of a list.
fn is_listed(items: &[Value], text: &str) -> bool
    ensures { result ≡ is_listed (items_view items.now) text.now }
{
    has_text(items, "*") || has_text(items, text)
}

/// Reports whether a pattern is a text or `*`.
fn is_or_any(pattern: &str, text: &str) -> bool
    ensures { result ≡ is_or_any pattern.now text.now }
{
    pattern == "*" || pattern == text
}

/// The parts of a pattern for a resource and a subresource.
fn parts_of(pattern: &str) -> (&str, &str)
    ensures resource { result.0.now ≡ before_first is_slash pattern.now }
    ensures subresource { result.1.now ≡ after_first is_slash pattern.now }
{
    match pattern.split_once('/') {
        Some((resource, subresource)) => (resource, subresource),
        None => (pattern, ""),
    }
}

/// Reports whether a pattern means the resource of a request.
fn means(pattern: &str, attributes: &Attributes<'_>) -> bool
    ensures { result ≡ means pattern.now (attributes_view attributes.now) }
{
    let (resource, subresource) = parts_of(pattern);
    is_or_any(resource, attributes.resource) && is_or_any(subresource, attributes.subresource)
}

/// Reports whether there is a pattern, and it means the resource of a request.
fn text_means(pattern: Option<&str>, attributes: &Attributes<'_>) -> bool
    ensures { result
        ≡ text_means (option_map (λ s. s.now) pattern.entry) (attributes_view attributes.now) }
{
    match pattern {
        Some(pattern) => means(pattern, attributes),
        None => false,
    }
}

/// Reports whether one of these patterns means the resource of a request.
fn any_means(patterns: &[Value], attributes: &Attributes<'_>) -> bool
    ensures { result ≡ any_means (items_view patterns.now) (attributes_view attributes.now) }
{
    for pattern in patterns {
        if text_means(pattern.as_str(), attributes) {
            return true;
        }
    }
    false
}

/// Reports whether a request is for a Namespace.
pub(crate) fn is_of_namespaces(attributes: &Attributes<'_>) -> bool
    ensures { result ≡ is_of_namespaces (attributes_view attributes.now) }
{
    attributes.served.group == "" && attributes.resource == "namespaces"
}

/// Reports whether the resource of a request is in a namespace.
pub(crate) fn is_namespaced(attributes: &Attributes<'_>) -> bool
    ensures { result ≡ is_namespaced (attributes_view attributes.now) }
{
    attributes.namespace != "" && !is_of_namespaces(attributes)
}

/// Reports whether a scope has the resource of a request.
fn in_scope(scope: Scope, attributes: &Attributes<'_>) -> bool
    ensures { result ≡ in_scope scope (attributes_view attributes.now) }
{
    match scope {
        Scope::Whole => true,
        Scope::Cluster => !is_namespaced(attributes),
        Scope::Namespaced => is_namespaced(attributes),
    }
}

/// Reports whether the name of the object of a request is one of these, or there are no names.
fn is_named(names: &[Value], attributes: &Attributes<'_>) -> bool
    ensures { result ≡ is_named (items_view names.now) (attributes_view attributes.now) }
{
    has_no_item(names) || has_text(names, attributes.name)
}

/// Reports whether a rule matches a request, whatever its groups and versions are.
fn matches_apart(rule: &Rule<'_>, attributes: &Attributes<'_>) -> bool
    ensures { result ≡ matches_apart (rule_view rule.now) (attributes_view attributes.now) }
{
    is_listed(rule.operations, attributes.operation.word())
        && any_means(rule.resources, attributes)
        && in_scope(rule.scope, attributes)
        && is_named(rule.names, attributes)
}

/// Reports whether a rule matches a request that asks for the resource under this group and version.
fn matches_under(served: &GroupVersion<'_>, rule: &Rule<'_>, attributes: &Attributes<'_>) -> bool
    ensures { result
        ≡ matches_under (served_view served.now) (rule_view rule.now) (attributes_view attributes.now) }
{
    is_listed(rule.groups, served.group)
        && is_listed(rule.versions, served.version)
        && matches_apart(rule, attributes)
}

/// Reports whether one of these rules matches a request, whatever its groups and versions are.
fn any_apart(rules: &[Value], attributes: &Attributes<'_>) -> bool
    ensures { result ≡ any_apart (rules_of (items_view rules.now)) (attributes_view attributes.now) }
{
    for value in rules {
        if matches_apart(&Rule::of(value), attributes) {
            return true;
        }
    }
    false
}

/// Reports whether one of these rules matches a request that asks for the resource under this group
/// and version.
fn any_under(served: &GroupVersion<'_>, rules: &[Value], attributes: &Attributes<'_>) -> bool
    ensures { result
        ≡ any_under (served_view served.now) (rules_of (items_view rules.now)) (attributes_view attributes.now) }
{
    for value in rules {
        if matches_under(served, &Rule::of(value), attributes) {
            return true;
        }
    }
    false
}

/// Reports whether one of these rules matches a request that asks for the resource under one of these
/// groups and versions.
fn any_equivalent(
    equivalents: &[GroupVersion<'_>],
    rules: &[Value],
    attributes: &Attributes<'_>,
) -> bool
    ensures { result
        ≡ any_equivalent (map served_view equivalents.now) (rules_of (items_view rules.now)) (attributes_view attributes.now) }
{
    for served in equivalents {
        if any_under(served, rules, attributes) {
            return true;
        }
    }
    false
}

/// Reports whether one of these rules matches a request that asks for the resource under a version of
/// this group, if it has a name.
fn any_version(
    group: &str,
    name: Option<&str>,
    rules: &[Value],
    attributes: &Attributes<'_>,
) -> bool
    ensures { result ≡ any_version group.now (option_map (λ s. s.now) name.entry)
        (rules_of (items_view rules.now)) (attributes_view attributes.now) }
{
    match name {
        Some(version) => any_under(&GroupVersion { group, version }, rules, attributes),
        None => false,
    }
}

/// Reports whether one of these rules matches a request that asks for the resource under a version that
/// is served, of these entries of a definition.
fn any_defined(
    group: &str,
    versions: &[Value],
    rules: &[Value],
    attributes: &Attributes<'_>,
) -> bool
    ensures { result ≡ any_defined group.now (items_view versions.now)
        (rules_of (items_view rules.now)) (attributes_view attributes.now) }
{
    for version in versions {
        let name = served_name(version, attributes.subresource);
        if any_version(group, name, rules, attributes) {
            return true;
        }
    }
    false
}

pub(crate) fn truth(holds: bool) -> Truth
    ensures { result ≡ truth holds }
{
    if holds { Truth::Yes } else { Truth::No }
}

/// Returns whether one of these rules matches a request under an equivalent group and version.
fn by_equivalents(rules: &[Value], attributes: &Attributes<'_>) -> Truth
    ensures { result
        ≡ by_equivalents (attributes_view attributes.now).equivalents (rules_of (items_view rules.now)) (attributes_view attributes.now) }
{
    match attributes.equivalents {
        Equivalents::Unknown => {
            if any_apart(rules, attributes) {
                Truth::Unknown
            } else {
                Truth::No
            }
        }
        Equivalents::Listed(listed) => truth(any_equivalent(listed, rules, attributes)),
        Equivalents::Defined(resource) => {
            truth(any_defined(resource.group, resource.versions, rules, attributes))
        }
    }
}

/// Returns whether one of these rules matches a request, as it is asked for or, unless `is_exact`,
/// under an equivalent group and version.
pub(crate) fn any_matches(is_exact: bool, rules: &[Value], attributes: &Attributes<'_>) -> Truth
    ensures { result
        ≡ any_matches is_exact (rules_of (items_view rules.now)) (attributes_view attributes.now) }
{
    let matches = any_under(&attributes.served, rules, attributes);
    if is_exact {
        return truth(matches);
    }
    if matches {
        return Truth::Yes;
    }
    by_equivalents(rules, attributes)
}
