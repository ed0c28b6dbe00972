//! Admission requests (Kubernetes API reference, AdmissionRequest of `admission.k8s.io/v1`).
ghost use Rattle.std.specs.Prelude.{◌≡◌, IfOk, map, string_bytes};

use crate::owned::or_refused;
use cel_syntax_ast::both;
use kube_types::Refused;
use serde::{Deserialize, Serialize};
use std::alloc::{AllocError, Global};

/// The kind of an object, with its API group and version.
#[derive(Debug, Drop, PartialEq, Eq, Hash, Serialize, Deserialize)]
pub struct GroupVersionKind {
    /// The API group, such as `apps`; empty for the core group.
    pub group: String,
    /// The version, such as `v1`.
    pub version: String,
    /// The kind, such as `Deployment`.
    pub kind: String,
}

impl GroupVersionKind {
    ghost use Rattle.kube_cel_vap.specs.Requests.{empty_kind, kind_view};
    ghost use Rattle.std.specs.Prelude.{◌≡◌, IfErr, IfOk};

    /// Returns a kind of three empty strings. Allocates nothing.
    pub fn default(alloc: Global) -> GroupVersionKind
        ensures { kind_view result ≡ empty_kind }
    {
        GroupVersionKind {
            group: String::new(alloc),
            version: String::new(alloc),
            kind: String::new(alloc),
        }
    }

    /// Returns an equal kind.
    ///
    /// # Errors
    ///
    /// [`Refused`] if memory is refused.
    pub fn try_clone(&self) -> Result<GroupVersionKind, Refused>
        ensures same { IfOk result (λ k. kind_view k ≡ kind_view self.now) }
        ensures memory { IfErr result (λ e. e ≡ Refused.Memory) }
    {
        Ok(GroupVersionKind {
            group: self.group.clone()?,
            version: self.version.clone()?,
            kind: self.kind.clone()?,
        })
    }
}

/// The resource under which objects of a kind are served.
#[derive(Debug, Drop, PartialEq, Eq, Hash, Serialize, Deserialize)]
pub struct GroupVersionResource {
    /// The API group, such as `apps`; empty for the core group.
    pub group: String,
    /// The version, such as `v1`.
    pub version: String,
    /// The name of the resource, such as `deployments`.
    pub resource: String,
}

impl GroupVersionResource {
    ghost use Rattle.kube_cel_vap.specs.Requests.{empty_resource, resource_view};
    ghost use Rattle.std.specs.Prelude.{◌≡◌, IfErr, IfOk};

    /// Returns a resource of three empty strings. Allocates nothing.
    pub fn default(alloc: Global) -> GroupVersionResource
        ensures { resource_view result ≡ empty_resource }
    {
        GroupVersionResource {
            group: String::new(alloc),
            version: String::new(alloc),
            resource: String::new(alloc),
        }
    }

    /// Returns an equal resource.
    ///
    /// # Errors
    ///
    /// [`Refused`] if memory is refused.
    pub fn try_clone(&self) -> Result<GroupVersionResource, Refused>
        ensures same { IfOk result (λ r. resource_view r ≡ resource_view self.now) }
        ensures memory { IfErr result (λ e. e ≡ Refused.Memory) }
    {
        Ok(GroupVersionResource {
            group: self.group.clone()?,
            version: self.version.clone()?,
            resource: self.resource.clone()?,
        })
    }
}

/// An admission request: the operation, its object and its user.
#[derive(Debug, Drop, PartialEq, Eq, Serialize, Deserialize)]
#[serde(rename_all = "camelCase")]
pub struct AdmissionRequest {
    /// The operation, such as `CREATE`.
    pub operation: String,
    /// The name of the user.
    pub username: String,
    /// The UID of the user.
    pub uid: String,
    /// The groups that the user belongs to.
    pub groups: Vec<String>,
    /// The name of the object.
    pub name: String,
    /// The namespace of the object.
    pub namespace: String,
    /// Whether this is a dry run, whose changes aren't persisted.
    pub dry_run: bool,
    /// The kind of the object.
    pub kind: GroupVersionKind,
    /// The resource of the object.
    pub resource: GroupVersionResource,
}

impl AdmissionRequest {
    ghost use Rattle.kube_cel_vap.specs.Requests.{empty_request, request_view};
    ghost use Rattle.std.specs.Prelude.{◌≡◌, IfErr, IfOk};

    /// Returns an empty request: empty strings, no groups, no dry run. Allocates nothing.
    pub fn default(alloc: Global) -> AdmissionRequest
        ensures { request_view result ≡ empty_request }
    {
        AdmissionRequest {
            operation: String::new(alloc),
            username: String::new(alloc),
            uid: String::new(alloc),
            groups: Vec::new(alloc),
            name: String::new(alloc),
            namespace: String::new(alloc),
            dry_run: false,
            kind: GroupVersionKind::default(alloc),
            resource: GroupVersionResource::default(alloc),
        }
    }

    /// Returns an equal request.
    ///
    /// # Errors
    ///
    /// [`Refused`] if memory is refused.
    pub fn try_clone(&self) -> Result<AdmissionRequest, Refused>
        ensures same { IfOk result (λ r. request_view r ≡ request_view self.now) }
        ensures memory { IfErr result (λ e. e ≡ Refused.Memory) }
    {
        let groups = clone_texts(*self.groups.allocator(), self.groups.as_slice());
        let user = both(self.username.clone(), both(self.uid.clone(), groups));
        let object = both(self.name.clone(), self.namespace.clone());
        let texts = both(self.operation.clone(), both(user, object));
        let kinds = both(self.kind.try_clone(), self.resource.try_clone());
        let (texts, (kind, resource)) = both(or_refused(texts), kinds)?;
        let (operation, ((username, (uid, groups)), (name, namespace))) = texts;
        Ok(AdmissionRequest {
            operation,
            username,
            uid,
            groups,
            name,
            namespace,
            dry_run: self.dry_run,
            kind,
            resource,
        })
    }
}

/// Returns copies of the texts.
fn clone_texts(alloc: Global, texts: &[String]) -> Result<Vec<String>, AllocError>
    ensures { IfOk result (λ v. map string_bytes v.items ≡ map string_bytes texts.now) }
{
    let mut cloned = Vec::with_capacity(alloc, texts.len())?;
    for text in texts {
        cloned.push(text.clone()?)?;
    }
    Ok(cloned)
}
