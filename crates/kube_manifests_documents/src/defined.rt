//! The versions that documents define, each found by its apiVersion or group and its kind.
ghost use Rattle.kube_manifests_documents.specs.Defined.{IsIndexed, defined_view, list_view};
ghost use Rattle.kube_manifests_documents.specs.Versions as spec;
ghost use Rattle.kube_manifests_documents.specs.Versions.{is_defined, is_of_version};
ghost use Rattle.std.specs.List.{list_any};
ghost use Rattle.std.specs.Prelude.{◌≡◌, ◌++◌, ◌∷◌, [], OnOk};

use kube_manifests_texts::Index;
use serde_json::Value;
use std::alloc::{AllocError, Global};

/// A version of a custom resource, as its definition has it.
#[derive(Clone, Copy)]
pub struct DefinedVersion<'v> {
    /// The group of its objects.
    pub group: &'v str,
    /// The kind of its objects.
    pub kind: &'v str,
    /// The name of the version.
    pub name: &'v str,
    /// Whether the version is served.
    pub served: bool,
    /// Its schema, an object.
    pub schema: &'v Value,
}

/// Versions of definitions, in the order of their documents.
#[derive(Drop)]
pub struct DefinedVersions<'v> {
    /// The versions.
    pub list: Vec<DefinedVersion<'v>>,
    /// The position of the first version of each apiVersion and kind.
    pub by_version: Index,
    /// The position of the first version of each group and kind.
    pub by_group: Index,
}

impl<'v> DefinedVersions<'v> {
    /// Returns a list without versions.
    pub(crate) fn new(alloc: Global) -> DefinedVersions<'v>
        ensures empty { list_view result ≡ [] }
        ensures indexed { IsIndexed result }
    {
        DefinedVersions {
            list: Vec::new(alloc),
            by_version: Index::new(alloc),
            by_group: Index::new(alloc),
        }
    }

    /// Reports whether any version has this apiVersion and kind.
    pub(crate) fn has_version(&self, api_version: &str, kind: &str) -> bool
        requires { IsIndexed self.now }
        ensures { result ≡ list_any (is_of_version api_version.now kind.now) (list_view self.now) }
    {
        self.by_version.get(api_version, kind).is_some()
    }

    /// Reports whether any version has this group and kind.
    pub(crate) fn has_group(&self, group: &str, kind: &str) -> bool
        requires { IsIndexed self.now }
        ensures { result ≡ list_any (is_defined group.now kind.now) (list_view self.now) }
    {
        self.by_group.get(group, kind).is_some()
    }

    /// Adds a version, whose objects have this apiVersion.
    pub(crate) fn push(
        &mut self,
        alloc: Global,
        api_version: &str,
        version: DefinedVersion<'v>,
    ) -> Result<(), AllocError>
        requires own { api_version.now ≡ spec.api_version (defined_view version) }
        requires indexed { IsIndexed self.old }
        ensures added { OnOk result (list_view self.new ≡ list_view self.old ++ defined_view version.entry ∷ []) }
        ensures indexed { OnOk result (IsIndexed self.new) }
    {
        let position = self.list.len();
        let kind = version.kind;
        self.by_version
            .insert_first(alloc, api_version, kind, position)?;
        self.by_group
            .insert_first(alloc, version.group, kind, position)?;
        self.list.push(version)?;
        Ok(())
    }
}
