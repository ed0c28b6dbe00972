//! A list of compiled versions, in which each is found by its apiVersion and its kind.
ghost use Rattle.kube_manifests.specs.Lists.{IsIndexed, list_view, version_view};
ghost use Rattle.kube_manifests.specs.Sets.{with_tree};
ghost use Rattle.kube_manifests_documents.specs.Defined as spec;
ghost use Rattle.kube_manifests_documents.specs.Defined.{defined_view};
ghost use Rattle.kube_manifests_documents.specs.Versions.{is_of_version};
ghost use Rattle.std.specs.List.{find, slice_get};
ghost use Rattle.std.specs.Prelude.{◌≡◌, IfErr, IfOk, map, option_map};

use crate::version::CrdVersion;
use kube_cel::Refused;
use kube_manifests_documents::{DefinedVersion, DefinedVersions};
use kube_manifests_texts::Index;
use std::alloc::Global;

/// Versions of definitions, in the order of their documents.
#[derive(Drop)]
pub struct Versions {
    pub(crate) list: Vec<CrdVersion>,
    /// The position of the first version of each apiVersion and kind.
    by_version: Index,
}

/// The version at a position, if any.
fn version_at(versions: &[CrdVersion], position: usize) -> Option<&CrdVersion>
    ensures { option_map (λ v. version_view v.now) result
        ≡ slice_get (map version_view versions.now) position }
{
    versions.get(position)
}

/// Compiles the schema of each version.
fn compiled_versions(
    alloc: Global,
    defined: &[DefinedVersion<'_>],
) -> Result<Vec<CrdVersion>, Refused>
    ensures versions { IfOk result (λ v. map version_view v.items
        ≡ map with_tree (map defined_view defined.now)) }
    ensures memory { IfErr result (λ e. e ≡ Refused.Memory) }
{
    let mut versions = Vec::with_capacity(alloc, defined.len())?;
    for version in defined {
        versions.push(CrdVersion::compiled(alloc, version)?)?;
    }
    Ok(versions)
}

impl Versions {
    /// Compiles the schema of each version that documents define.
    pub(crate) fn compiled(alloc: Global, defined: DefinedVersions<'_>) -> Result<Versions, Refused>
        requires { spec.IsIndexed defined }
        ensures versions { IfOk result (λ v. list_view v ≡ map with_tree (spec.list_view defined.entry)) }
        ensures indexed { IfOk result (λ v. IsIndexed v) }
        ensures memory { IfErr result (λ e. e ≡ Refused.Memory) }
    {
        let list = compiled_versions(alloc, defined.list.as_slice())?;
        let DefinedVersions { by_version, .. } = defined;
        Ok(Versions { list, by_version })
    }

    /// The first version with this apiVersion and kind, if any.
    pub(crate) fn find(&self, api_version: &str, kind: &str) -> Option<&CrdVersion>
        requires { IsIndexed self.now }
        ensures { option_map (λ v. version_view v.now) result
            ≡ find (is_of_version api_version.now kind.now) (list_view self.now) }
    {
        match self.by_version.get(api_version, kind) {
            Some(position) => version_at(self.list.as_slice(), position),
            None => None,
        }
    }
}
