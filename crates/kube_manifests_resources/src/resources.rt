//! The resources of an API server.
ghost use Rattle.kube_manifests_resources.specs.Builtins.{builtins};
ghost use Rattle.kube_manifests_resources.specs.Resources.{builtin_named, builtin_of, builtin_view, first_of, named, of_kind};
ghost use Rattle.std.specs.Prelude.{◌≡◌, map, option_map};

use crate::table::builtins;

/// A group and a version of an API.
#[derive(Clone, Copy, Drop)]
pub struct GroupVersion<'a> {
    /// The group. Empty for the core API.
    pub group: &'a str,
    /// The version.
    pub version: &'a str,
}

/// Whether objects of a resource are in namespaces.
#[derive(Clone, Copy, Drop)]
pub enum ResourceScope {
    /// They are not.
    Cluster,
    /// Each is in one.
    Namespaced,
}

/// A resource of an API server.
#[derive(Clone, Copy, Drop)]
pub struct Builtin {
    /// The group. Empty for the core API.
    pub group: &'static str,
    /// The kind of its objects.
    pub kind: &'static str,
    /// Its plural name, as rules and paths have it.
    pub plural: &'static str,
    /// Whether its objects are in namespaces.
    pub scope: ResourceScope,
    /// All groups and versions under which the API server has the same resource.
    pub served: &'static [GroupVersion<'static>],
    /// Its subresources.
    pub subresources: &'static [&'static str],
}

/// The first of these resources with this group and kind.
fn first_of_kind(rows: &'static [Builtin], group: &str, kind: &str) -> Option<&'static Builtin>
    ensures { option_map (λ r. builtin_view r.now) result
        ≡ first_of (of_kind group.now kind.now) (map builtin_view rows.now) }
{
    for row in rows {
        if row.group == group && row.kind == kind {
            return Some(row);
        }
    }
    None
}

/// The first of these resources with this group and plural name.
fn first_named(rows: &'static [Builtin], group: &str, plural: &str) -> Option<&'static Builtin>
    ensures { option_map (λ r. builtin_view r.now) result
        ≡ first_of (named group.now plural.now) (map builtin_view rows.now) }
{
    for row in rows {
        if row.group == group && row.plural == plural {
            return Some(row);
        }
    }
    None
}

/// The resource of a kind in an API server of Kubernetes 1.33, if it has one.
#[tactic(auto, unfolding(crate::specs::Resources::builtin_of))]
pub fn builtin_of(group: &str, kind: &str) -> Option<&'static Builtin>
    ensures { option_map (λ r. builtin_view r.now) result ≡ builtin_of group.now kind.now }
{
    first_of_kind(builtins(), group, kind)
}

/// The resource of a plural name in an API server of Kubernetes 1.33, if it has one.
#[tactic(auto, unfolding(crate::specs::Resources::builtin_named))]
pub fn builtin_named(group: &str, plural: &str) -> Option<&'static Builtin>
    ensures { option_map (λ r. builtin_view r.now) result ≡ builtin_named group.now plural.now }
{
    first_named(builtins(), group, plural)
}
