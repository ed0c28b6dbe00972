//! Finds old objects by their identity, in a time that hardly grows with their number.
ghost use Rattle.kubecel_io.specs.Index.{IsIndex, identity_text};
ghost use Rattle.kubecel_io.specs.Objects.{first_same, identity_view, old_of};
ghost use Rattle.kubecel_io.specs.Subjects.{subject_view};
ghost use Rattle.serde_json.specs.View.{view};
ghost use Rattle.std.specs.Prelude.{◌≡◌, IfOk, map, option_map, string_bytes};

use crate::objects::Identity;
use crate::subject::Subject;
use crate::subjects::first_same;
use serde_json::Value;
use std::alloc::{AllocError, Global};
use std::collections::BTreeMap;

/// Old objects, with an index of them: by a text of an identity, the number of the first that has it.
#[derive(Drop)]
pub struct OldObjects<'o, 'd> {
    pub objects: &'o [Subject<'d>],
    index: BTreeMap<String, usize>,
    ghost indexed: { IsIndex index (map (λ f. f.value) (map subject_view objects.now)) },
}

/// Returns a text that objects of one identity share.
fn identity_text(alloc: Global, identity: &Identity<'_>) -> Result<String, AllocError>
    ensures { IfOk result (λ s. string_bytes s ≡ identity_text (identity_view identity.now)) }
{
    let (name, namespace) = (identity.name, identity.namespace);
    let (kind, group) = (identity.kind, identity.group);
    format!(in alloc; "{name}\n{namespace}\n{kind}\n{group}")
}

/// Returns an index of old objects.
fn index_of(alloc: Global, olds: &[Subject<'_>]) -> Result<BTreeMap<String, usize>, AllocError>
    ensures { IfOk result (λ m. IsIndex m (map (λ f. f.value) (map subject_view olds.now))) }
{
    let mut index = BTreeMap::new(alloc);
    for number in (0..olds.len()).rev() {
        let Some(old) = olds.get(number) else {
            return Ok(index);
        };
        let text = identity_text(alloc, &old.identity)?;
        index.insert(text, number)?;
    }
    Ok(index)
}

impl<'o, 'd> OldObjects<'o, 'd> {
    /// Makes the index of these old objects.
    pub fn of(alloc: Global, objects: &'o [Subject<'d>]) -> Result<OldObjects<'o, 'd>, AllocError>
        ensures { IfOk result (λ o. o.objects.now ≡ objects.now) }
    {
        let index = index_of(alloc, objects)?;
        Ok(OldObjects { objects, index })
    }

    /// Returns the first of the old objects that has the subject's identity, if any.
    pub fn old_of(
        &self,
        alloc: Global,
        subject: &Subject<'_>,
    ) -> Result<Option<&'d Value>, AllocError>
        ensures { IfOk result (λ o. option_map (λ v. view v.now) o
            ≡ old_of (map (λ f. f.value) (map subject_view self.now.objects.now)) (subject_view subject.now).value) }
    {
        if subject.identity.is_named() {
            self.first_same(alloc, subject)
        } else {
            Ok(None)
        }
    }

    /// Returns the first of the old objects that has the subject's names, if any.
    fn first_same(
        &self,
        alloc: Global,
        subject: &Subject<'_>,
    ) -> Result<Option<&'d Value>, AllocError>
        ensures { IfOk result (λ o. option_map (λ v. view v.now) o
            ≡ first_same (map (λ f. f.value) (map subject_view self.now.objects.now)) (subject_view subject.now).value) }
    {
        let text = identity_text(alloc, &subject.identity)?;
        let Some(number) = self.index.get(text.as_str()) else {
            return Ok(None);
        };
        match self.objects.get(*number) {
            Some(old) if old.identity.is_same(&subject.identity) => Ok(Some(old.value)),
            // another identity with the same text
            Some(_) | None => Ok(first_same(self.objects, subject)),
        }
    }
}
