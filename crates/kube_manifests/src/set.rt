//! Sets of definitions, and the judging of objects by them.
ghost use Rattle.kube_manifests.specs.Lists.{IsIndexed};
ghost use Rattle.std.proofs.Props.{props};

use crate::choice::chosen;
use crate::explanation::explained;
use crate::judgement::{Judgement, NotJudged};
use crate::list::Versions;
use kube_cel::cel::PatternBook;
use kube_cel::{Refused, Validator};
use kube_manifests_documents::{CrdError, DefinedVersions};
use serde_json::Value;
use std::alloc::Global;

/// The versions of CustomResourceDefinitions, each with its schema compiled once.
#[derive(Drop)]
pub struct CrdSet {
    pub(crate) versions: Versions,
    ghost indexed: { IsIndexed versions } by { Prim.hlevel props },
}

impl CrdSet {
    ghost use Rattle.cel.specs.Book.{Book, Extends};
    ghost use Rattle.cel.specs.Entries.{entries_of};
    ghost use Rattle.kube_manifests.specs.Explanations.{explanation};
    ghost use Rattle.kube_manifests.specs.Sets.{IsJudgement, IsJudgementUnder, all_compiled, outcome_view, reason_of, rules_of, set_view, why_not, with_tree};
    ghost use Rattle.kube_manifests.specs.Versions.{chosen_version};
    ghost use Rattle.kube_manifests_documents.specs.Defined as spec;
    ghost use Rattle.kube_manifests_documents.specs.Defined.{defined_in};
    ghost use Rattle.kube_manifests_documents.specs.Definitions.{versions_of};
    ghost use Rattle.kube_manifests_documents.specs.Versions.{Version};
    ghost use Rattle.serde_json.specs.Data.{Data};
    ghost use Rattle.serde_json.specs.View.{items_of, view};
    ghost use Rattle.std.specs.Prelude.{◌≡◌, IfErr, IfOk, List, map, option_map, string_bytes};

    /// Reads all versions of all definitions in the documents, served or not. A document is a
    /// CustomResourceDefinition of `apiextensions.k8s.io/v1`, or a list of them: a value whose kind
    /// ends in `List`, with an array in `items`. The inner error is the first fault of the first
    /// definition that has one.
    ///
    /// # Errors
    ///
    /// [`Refused`] if memory is refused.
    pub fn from_documents(
        alloc: Global,
        documents: &[&Value],
    ) -> Result<Result<CrdSet, CrdError>, Refused>
        ensures versions { IfOk result (λ r. outcome_view r
            ≡ all_compiled (versions_of (items_of (map (λ v. view v.now) documents.now)))) }
        ensures memory { IfErr result (λ e. e ≡ Refused.Memory) }
    {
        let defined = DefinedVersions::read(alloc, documents)?;
        CrdSet::of_defined(alloc, defined)
    }

    /// Compiles the versions that documents define, or returns their fault.
    fn of_defined(
        alloc: Global,
        defined: Result<DefinedVersions<'_>, CrdError>,
    ) -> Result<Result<CrdSet, CrdError>, Refused>
        requires { IfOk defined (λ v. spec.IsIndexed v) }
        ensures versions { IfOk result (λ r. outcome_view r ≡ all_compiled (defined_in defined.entry)) }
        ensures memory { IfErr result (λ e. e ≡ Refused.Memory) }
    {
        match defined {
            Ok(defined) => {
                let versions = Versions::compiled(alloc, defined)?;
                Ok(Ok(CrdSet { versions }))
            }
            Err(error) => Ok(Err(error)),
        }
    }

    /// Judges an object, with its old state if given, by the schema for its apiVersion and kind.
    /// Rules at the root may read its apiVersion, group and kind. If the set has no such version
    /// that is served, the answer is the reason.
    ///
    /// # Errors
    ///
    /// [`Refused`] if memory is refused, or a URL that a rule reads is too large.
    pub fn validate(
        &self,
        alloc: Global,
        object: &Value,
        old: Option<&Value>,
    ) -> Result<Judgement, Refused>
        ensures reason { IfOk result (λ j. reason_of j
            ≡ why_not (chosen_version (set_view self.now) (view object.now))) }
        ensures judgement { IfOk result (λ j. (versions : List (Version Data))
            → set_view self.now ≡ map with_tree versions
            → IsJudgement versions (view object.now) (option_map (λ v. view v.now) old.entry) j) }
    {
        let mut book = PatternBook::new(alloc);
        let judgement = self.validate_in(alloc, object, old, &mut book)?;
        Ok(judgement)
    }

    /// Judges an object like `validate`, with a lent book of patterns: a pattern that several
    /// objects are matched with is built once. Afterwards the book has all the entries that it had,
    /// and perhaps more.
    ///
    /// # Errors
    ///
    /// [`Refused`] if memory is refused, or a URL that a rule reads is too large.
    pub fn validate_in(
        &self,
        alloc: Global,
        object: &Value,
        old: Option<&Value>,
        book: &mut PatternBook,
    ) -> Result<Judgement, Refused>
        ensures kept { Extends (entries_of book.new) (entries_of book.old) }
        ensures reason { IfOk result (λ j. reason_of j
            ≡ why_not (chosen_version (set_view self.now) (view object.now))) }
        ensures judgement { IfOk result (λ j. (versions : List (Version Data))
            → set_view self.now ≡ map with_tree versions
            → IsJudgement versions (view object.now) (option_map (λ v. view v.now) old.entry) j) }
        ensures books { IfOk result (λ j. (versions : List (Version Data))
            → set_view self.now ≡ map with_tree versions
            → (b : Book) → Extends b (entries_of book.new)
            → IsJudgementUnder b versions (view object.now) (option_map (λ v. view v.now) old.entry) j) }
    {
        let version = match chosen(&self.versions, object) {
            Ok(version) => version,
            Err(reason) => return Ok(Judgement::NotJudged(reason)),
        };
        let root = Some(&version.root);
        let answer = Validator::new().validate_compiled_in(
            alloc,
            &version.schema,
            object,
            old,
            root,
            book,
        )?;
        Ok(Judgement::Judged(answer))
    }

    /// The number of rules of the schema that judges an object. Allocates nothing.
    ///
    /// # Errors
    ///
    /// [`NotJudged`] if no schema judges the object, with the same reason as `validate`.
    pub fn rule_count(&self, object: &Value) -> Result<u64, NotJudged>
        ensures { result ≡ rules_of (chosen_version (set_view self.now) (view object.now)) }
    {
        match chosen(&self.versions, object) {
            Ok(version) => Ok(version.rules),
            Err(reason) => Err(reason),
        }
    }

    /// Says why no schema judges an object, for this reason of [`validate`](CrdSet::validate): which
    /// kind and version were looked for, which there are, and which was probably meant.
    ///
    /// # Errors
    ///
    /// [`Refused`] if memory is refused.
    pub fn explain(
        &self,
        alloc: Global,
        object: &Value,
        reason: NotJudged,
    ) -> Result<String, Refused>
        ensures words { IfOk result (λ s. string_bytes s
            ≡ explanation (set_view self.now) (view object.now) reason) }
        ensures memory { IfErr result (λ e. e ≡ Refused.Memory) }
    {
        let text = explained(alloc, &self.versions.list, object, reason)?;
        Ok(text)
    }
}
