//! The faults that keep documents from becoming a set of definitions.
ghost use Rattle.kube_manifests_documents.specs.Definitions.{fault_at};
ghost use Rattle.kube_manifests_documents.specs.Defined.{error_view, location_view};
ghost use Rattle.std.specs.Prelude.{◌≡◌, IfOk};

use std::alloc::{AllocError, Global};
use std::fmt;

/// What is wrong with a definition. Only the first fault is reported: those of the definition
/// itself in this order, then those of its versions, one version after another.
#[derive(Clone, Copy, Debug, PartialEq, Eq)]
pub enum CrdFault {
    /// The value isn't declared a CustomResourceDefinition of `apiextensions.k8s.io/v1`, and isn't
    /// a list.
    NotACrd,
    /// `metadata.name` is missing, empty or not a string.
    NoName,
    /// `spec.group` is missing, empty or not a string.
    NoGroup,
    /// `spec.names.kind` is missing, empty or not a string.
    NoKind,
    /// `spec.versions` is missing, empty or not an array.
    NoVersions,
    /// An earlier definition has the same group and kind.
    RepeatedKind,
    /// The `name` of a version is missing, empty or not a string.
    NoVersionName,
    /// `served` of a version is missing or not a bool.
    NoServed,
    /// `schema.openAPIV3Schema` of a version is missing.
    NoSchema,
    /// `schema.openAPIV3Schema` of a version is not an object.
    SchemaNotAnObject,
    /// An earlier version has the same apiVersion and kind: two versions of the definition have the
    /// same name.
    RepeatedVersion,
}

/// Why documents don't make a set: the first fault of the first definition that has one.
#[derive(Debug, Drop)]
pub struct CrdError {
    /// The index of the document, counted from 0.
    pub document: usize,
    /// The index of the definition in the document, counted from 0, if the document is a list.
    pub item: Option<usize>,
    /// A JSON Pointer (RFC 6901) into the document. If a field is missing, the pointer it would
    /// have.
    pub pointer: String,
    /// What is wrong there.
    pub fault: CrdFault,
}

/// Where a definition is: the index of its document and, if the document is a list, that of its
/// item.
#[derive(Clone, Copy)]
pub struct CrdLocation {
    pub(crate) document: usize,
    pub(crate) item: Option<usize>,
}

impl fmt::Display for CrdFault {
    ghost use Rattle.std.specs.Prelude.{Some};
    ghost use Rattle.kube_manifests_documents.specs.DefinitionTexts.{fault_text};

    ghost output = { λ f. Some (fault_text f) };

    fn fmt<W: fmt::Write>(&self, f: &mut fmt::Formatter<W>) -> fmt::Result {
        match self {
            CrdFault::NotACrd => write!(
                f,
                "expected a CustomResourceDefinition of apiextensions.k8s.io/v1, or a list of them"
            ),
            CrdFault::NoName | CrdFault::NoVersionName => {
                write!(f, "field `name` must be a non-empty string")
            }
            CrdFault::NoGroup => write!(f, "field `group` must be a non-empty string"),
            CrdFault::NoKind => write!(f, "field `kind` must be a non-empty string"),
            CrdFault::NoVersions => write!(f, "field `versions` must be a non-empty array"),
            CrdFault::RepeatedKind => write!(f, "another definition has this group and kind"),
            CrdFault::NoServed => write!(f, "field `served` must be a bool"),
            CrdFault::NoSchema => write!(f, "a version must have a schema"),
            CrdFault::SchemaNotAnObject => write!(f, "a schema must be an object"),
            CrdFault::RepeatedVersion => {
                write!(f, "another version has this apiVersion and kind")
            }
        }
    }
}

impl fmt::Display for CrdError {
    ghost use Rattle.std.specs.Prelude.{Some};
    ghost use Rattle.kube_manifests_documents.specs.Defined.{error_view};
    ghost use Rattle.kube_manifests_documents.specs.DefinitionTexts.{error_text};

    ghost output = { λ e. Some (error_text (error_view e)) };

    fn fmt<W: fmt::Write>(&self, f: &mut fmt::Formatter<W>) -> fmt::Result {
        write!(
            f,
            "document {}{}: {}",
            self.document, self.pointer, self.fault
        )
    }
}

impl CrdFault {
    ghost use Rattle.std.specs.Prelude.{◌≡◌};
    ghost use Rattle.kube_manifests_documents.specs.Definitions.{field_pointer};

    /// The pointer of the field at fault, relative to the definition or to the version.
    fn pointer(self) -> &'static str
        ensures { result.now ≡ field_pointer self }
    {
        match self {
            CrdFault::NotACrd => "",
            CrdFault::NoName => "/metadata/name",
            CrdFault::NoGroup => "/spec/group",
            CrdFault::NoKind | CrdFault::RepeatedKind => "/spec/names/kind",
            CrdFault::NoVersions => "/spec/versions",
            CrdFault::NoVersionName | CrdFault::RepeatedVersion => "/name",
            CrdFault::NoServed => "/served",
            CrdFault::NoSchema | CrdFault::SchemaNotAnObject => "/schema/openAPIV3Schema",
        }
    }
}

/// Returns the error for a fault of the definition at `location` or, if `version` is given, of that
/// version of it.
pub(crate) fn error_at(
    alloc: Global,
    location: CrdLocation,
    version: Option<usize>,
    fault: CrdFault,
) -> Result<CrdError, AllocError>
    ensures { IfOk result (λ e. error_view e ≡ fault_at (location_view location) version fault) }
{
    let field = fault.pointer();
    let pointer = match (location.item, version) {
        (None, None) => String::from_str(alloc, field)?,
        (Some(item), None) => format!(in alloc; "/items/{item}{field}")?,
        (None, Some(version)) => format!(in alloc; "/spec/versions/{version}{field}")?,
        (Some(item), Some(version)) => {
            format!(in alloc; "/items/{item}/spec/versions/{version}{field}")?
        }
    };
    Ok(CrdError {
        document: location.document,
        item: location.item,
        pointer,
        fault,
    })
}
