//! The versions of definitions, with their compiled schemas.
ghost use Rattle.kube_manifests.specs.Rules.{saturated_count, rules_in};
ghost use Rattle.kube_manifests_documents.specs.Versions.{group_prefix};
ghost use Rattle.kube_schema.specs.Shown.{whole};
ghost use Rattle.std.proofs.Props.{props};
ghost use Rattle.std.specs.List.{starts_with};
ghost use Rattle.std.specs.Prelude.{◌≡◌, ◌++◌, IfErr, IfOk, nat_eq, string_bytes};
ghost use Rattle.std.specs.Str.{chars};

use crate::rules::rule_count;
use kube_cel::{CompiledSchema, Refused, RootContext, compile_schema};
use kube_manifests_documents::DefinedVersion;
use kube_manifests_texts::{is_near, is_near_spelled, letters_of};
use std::alloc::{AllocError, Global};

/// A version of a definition, with its compiled schema.
#[derive(Drop)]
pub struct CrdVersion {
    /// The apiVersion, group and kind of the version's objects.
    pub(crate) root: RootContext,
    /// The group and a slash: the prefix of the apiVersion of every version of the group.
    pub(crate) prefix: String,
    pub(crate) name: String,
    /// The characters of the kind.
    kind_letters: Vec<char>,
    pub(crate) served: bool,
    pub(crate) schema: CompiledSchema,
    /// The number of rules of the schema, at most `u64::MAX`.
    pub(crate) rules: u64,
    ghost prefixed: { string_bytes prefix
        ≡ group_prefix (string_bytes root.api_group) } by { Prim.hlevel props },
    ghost named: { string_bytes root.api_version
        ≡ group_prefix (string_bytes root.api_group) ++ string_bytes name } by { Prim.hlevel props },
    ghost spelled: { kind_letters.items ≡ chars (string_bytes root.kind) },
    ghost right: { rules ≡ saturated_count (rules_in (whole schema)) },
}

impl CrdVersion {
    ghost use Rattle.kube_manifests.specs.Explanations.{is_of_near_kind, is_of_near_version};
    ghost use Rattle.kube_manifests.specs.Lists.{version_view};
    ghost use Rattle.kube_manifests.specs.Sets.{with_tree};
    ghost use Rattle.kube_manifests.specs.Versions.{is_of_kind};
    ghost use Rattle.kube_manifests_documents.specs.Defined.{defined_view};
    ghost use Rattle.kube_manifests_documents.specs.Versions.{is_defined};

    /// Returns a version with its schema compiled.
    pub(crate) fn compiled(
        alloc: Global,
        version: &DefinedVersion<'_>,
    ) -> Result<CrdVersion, Refused>
        ensures version { IfOk result (λ v. version_view v ≡ with_tree (defined_view version.now)) }
        ensures memory { IfErr result (λ e. e ≡ Refused.Memory) }
    {
        let (group, kind, name) = (version.group, version.kind, version.name);
        let root = RootContext {
            api_version: format!(in alloc; "{group}/{name}")?,
            api_group: String::from_str(alloc, group)?,
            kind: String::from_str(alloc, kind)?,
        };
        let prefix = format!(in alloc; "{group}/")?;
        let kind_letters = letters_of(alloc, kind)?;
        let name = String::from_str(alloc, name)?;
        let schema = compile_schema(alloc, version.schema)?;
        let rules = rule_count(&schema);
        Ok(CrdVersion {
            root,
            prefix,
            name,
            kind_letters,
            served: version.served,
            schema,
            rules,
        })
    }

    /// Reports whether the version has this group and kind.
    pub(crate) fn is_defined(&self, group: &str, kind: &str) -> bool
        ensures { result ≡ is_defined group.now kind.now (version_view self.now) }
    {
        self.root.api_group.as_str() == group && self.root.kind.as_str() == kind
    }

    /// Reports whether this apiVersion is one of the version's group.
    pub(crate) fn is_of_group(&self, api_version: &str) -> bool
        ensures { result ≡ starts_with nat_eq api_version.now (group_prefix (version_view self.now).group) }
    {
        has_start(api_version, self.prefix.as_str())
    }

    /// Reports whether this apiVersion is one of the version's group, and the version's kind is near
    /// this one, which has these characters.
    pub(crate) fn is_of_near_kind(&self, api_version: &str, kind: &str, letters: &[char]) -> bool
        requires { letters.now ≡ chars kind.now }
        ensures { result ≡ is_of_near_kind api_version.now kind.now (version_view self.now) }
    {
        self.is_of_group(api_version)
            && is_near_spelled(
                kind,
                letters,
                self.root.kind.as_str(),
                self.kind_letters.as_slice(),
            )
    }

    /// Reports whether the version is of this kind, and its apiVersion is near this one.
    pub(crate) fn is_of_near_version(
        &self,
        alloc: Global,
        api_version: &str,
        kind: &str,
    ) -> Result<bool, AllocError>
        ensures { IfOk result (λ b. b ≡ is_of_near_version api_version.now kind.now (version_view self.now)) }
    {
        if self.root.kind.as_str() != kind {
            return Ok(false);
        }
        is_near(alloc, api_version, self.root.api_version.as_str())
    }

    /// Reports whether objects with this apiVersion and kind have the version's group and kind.
    pub(crate) fn is_of_kind(&self, api_version: &str, kind: &str) -> bool
        ensures { result ≡ is_of_kind api_version.now kind.now (version_view self.now) }
    {
        self.is_of_group(api_version) && self.root.kind.as_str() == kind
    }
}

fn has_start(text: &str, start: &str) -> bool
    ensures { result ≡ starts_with nat_eq text.now start.now }
{
    text.starts_with(start)
}
