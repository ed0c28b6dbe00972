//! Chooses the version that judges an object.
ghost use Rattle.kube_manifests.specs.Lists.{IsIndexed, list_view, version_view};
ghost use Rattle.kube_manifests.specs.Parts.{choice_view};
ghost use Rattle.kube_manifests.specs.Versions.{chosen_version, is_of_kind};
ghost use Rattle.serde_json.specs.View.{view};
ghost use Rattle.std.specs.List.{list_any};
ghost use Rattle.std.specs.Prelude.{◌≡◌, map};

use crate::judgement::NotJudged;
use crate::list::Versions;
use crate::version::CrdVersion;
use kube_manifests_documents::text_at;
use serde_json::Value;

/// Returns the version whose schema judges an object, or the reason why none does.
#[tactic(auto, unfolding(crate::specs::Versions::chosen_version))]
pub(crate) fn chosen<'s>(
    versions: &'s Versions,
    object: &Value,
) -> Result<&'s CrdVersion, NotJudged>
    requires { IsIndexed versions.now }
    ensures { choice_view result ≡ chosen_version (list_view versions.now) (view object.now) }
{
    if !object.is_object() {
        return Err(NotJudged::NotAnObject);
    }
    let Some(api_version) = text_at(object, "apiVersion") else {
        return Err(NotJudged::NoApiVersion);
    };
    let Some(kind) = text_at(object, "kind") else {
        return Err(NotJudged::NoKind);
    };
    match versions.find(api_version, kind) {
        Some(version) if version.served => Ok(version),
        Some(_) => Err(NotJudged::NotServed),
        None if has_kind(&versions.list, api_version, kind) => Err(NotJudged::NoSuchVersion),
        None => Err(NotJudged::NoSuchKind),
    }
}

/// Reports whether any version, whatever its name, has this kind and the group of this apiVersion.
fn has_kind(versions: &[CrdVersion], api_version: &str, kind: &str) -> bool
    ensures { result ≡ list_any (is_of_kind api_version.now kind.now) (map version_view versions.now) }
{
    for version in versions {
        if version.is_of_kind(api_version, kind) {
            return true;
        }
    }
    false
}
