//! Reads the files that a command names.
ghost use Rattle.kube_types_refused.specs.declared.Refused.TheVariants.{Memory};
ghost use Rattle.kubecel_report.specs.Items.{item_view};
ghost use Rattle.kubecel_io.specs.Reads.{AreRead, AreTried, Found, IsRead, IsTried, IsUnread, are_none, document_view, text_seen, unusable_item, unusable_of, with_indices, without_mark};
ghost use Rattle.kubecel_io.specs.declared.sources.Stop.TheVariants as variant;
ghost use Rattle.serde_json.specs.View.{view};
ghost use Rattle.std.specs.Prelude.{◌≡◌, ◌∷◌, ◌++◌, [], ⊤, ℕ, true, List, Option, IfErr, IfOk, IfSome, OnOk, map, string_bytes};

use crate::documents::documents_of;
use kube_types_refused::Refused;
use kubecel_report::{Finding, Item, Verdict};
use serde_json::Value;
use std::alloc::{AllocError, Global};

/// A source of the files that a command names.
pub trait Sources {
    // The relation `reads before path text after`: in the state `before`, a read at `path` may
    // return `text`, or none if the file can't be read, and leave the state `after`. For real files
    // nothing is promised.
    ghost reads: { Self → List ℕ → Option (List ℕ) → Self → Type 0 } = { λ _ _ _ _. ⊤ };

    /// Reads the text of a file. The inner error is the reason why it can't be read.
    fn read(&mut self, alloc: Global, path: &str) -> Result<Result<String, String>, Refused>
        ensures { IfOk result (λ text. reads self.old path.now (text_seen text) self.new) };
}

/// Why a run stops before it reports anything.
#[derive(Drop)]
pub enum Stop {
    /// Memory was refused, or a text is too long.
    Refused(Refused),
    /// The reason in words.
    Said(String),
    /// Files that aren't used, each with the reason.
    Unusable(Vec<Item>),
}

impl From<Refused> for Stop {
    ghost from_gives = { λ refused stop. stop ≡ variant.Refused refused };

    fn from(refused: Refused) -> Stop {
        Stop::Refused(refused)
    }
}

impl From<AllocError> for Stop {
    ghost from_gives = { λ _ stop. stop ≡ variant.Refused Memory };

    fn from(_error: AllocError) -> Stop {
        Stop::Refused(Refused::Memory)
    }
}

/// A document of a file.
#[derive(Drop)]
pub struct Document {
    /// The path of the file.
    pub file: String,
    /// Its index in the file, counted from 0.
    pub index: usize,
    pub value: Value,
}

/// What the files at some paths hold.
#[derive(Drop)]
pub struct Contents {
    /// The documents of the files that were read, in order.
    pub documents: Vec<Document>,
    /// The files that aren't used, in order, each with the reason.
    pub unusable: Vec<Item>,
}

impl Contents {
    /// Reports whether all files are used.
    pub fn is_whole(&self) -> bool
        ensures { result ≡ are_none (map item_view self.now.unusable.items) }
    {
        match self.unusable.as_slice() {
            [] => true,
            [_, ..] => false,
        }
    }
}

/// Reads the files at these paths, in order. A file isn't used if it can't be read, if it isn't made
/// of JSON documents or has a key twice in an object, or if it has no document.
pub fn read_files<S: Sources>(
    alloc: Global,
    paths: &[&str],
    files: &mut S,
) -> Result<Contents, Refused>
    ensures tried { IfOk result (λ c. AreTried S.reads files.old (map (λ s. s.now) paths.now) [] []
        (map document_view c.documents.items) (map item_view c.unusable.items) files.new) }
    ensures all { IfOk result (λ c. are_none (map item_view c.unusable.items) ≡ true
        → AreRead S.reads files.old (map (λ s. s.now) paths.now) (map document_view c.documents.items) files.new) }
{
    let contents = try_files(alloc, paths, files)?;
    Ok(contents)
}

/// Reads the files at these paths, one after another.
fn try_files<S: Sources>(alloc: Global, paths: &[&str], files: &mut S) -> Result<Contents, Refused>
    ensures { IfOk result (λ c. AreTried S.reads files.old (map (λ s. s.now) paths.now) [] []
        (map document_view c.documents.items) (map item_view c.unusable.items) files.new) }
{
    let documents = Vec::new(alloc);
    let unusable = Vec::new(alloc);
    let mut contents = Contents {
        documents,
        unusable,
    };
    for path in paths {
        read_into(alloc, path, files, &mut contents)?;
    }
    Ok(contents)
}

/// Reads the documents of the files at these paths, in order, all of which have to be used.
///
/// # Errors
/// All files that aren't used.
pub fn read_documents<S: Sources>(
    alloc: Global,
    paths: &[&str],
    files: &mut S,
) -> Result<Vec<Document>, Stop>
    ensures read { IfOk result (λ v. AreRead S.reads files.old (map (λ s. s.now) paths.now)
        (map document_view v.items) files.new) }
    ensures stops { IfErr result (λ stop. IfSome (unusable_of stop) (λ unusable. (found : List Found)
        × AreTried S.reads files.old (map (λ s. s.now) paths.now) [] [] found unusable files.new)) }
{
    let contents = read_files(alloc, paths, files)?;
    all_or_stop(contents)
}

/// Returns the documents, unless there are files that aren't used.
fn all_or_stop(contents: Contents) -> Result<Vec<Document>, Stop>
    ensures all { IfOk result (λ v. (v ≡ contents.documents) × (map item_view contents.unusable.items ≡ [])) }
    ensures some { IfErr result (λ stop. IfSome (unusable_of stop)
        (λ unusable. unusable ≡ map item_view contents.unusable.items)) }
{
    match contents.unusable.as_slice() {
        [] => Ok(contents.documents),
        [_, ..] => Err(Stop::Unusable(contents.unusable)),
    }
}

/// Reads the file at a path, and adds what it holds.
fn read_into<S: Sources>(
    alloc: Global,
    path: &str,
    files: &mut S,
    contents: &mut Contents,
) -> Result<(), Refused>
    ensures { OnOk result (IsTried S.reads files.old path.now
        (map document_view contents.old.documents.items) (map item_view contents.old.unusable.items)
        (map document_view contents.new.documents.items) (map item_view contents.new.unusable.items) files.new) }
{
    match read_file(alloc, path, files)? {
        Ok(values) => Ok(add_values(alloc, path, values, &mut contents.documents)?),
        Err(reason) => Ok(add_unusable(alloc, path, reason, &mut contents.unusable)?),
    }
}

/// Returns a text without the byte order mark that it may begin with.
fn without_mark(text: &str) -> &str
    ensures { result.now ≡ without_mark text.now }
{
    match text.strip_prefix("\u{feff}") {
        Some(rest) => rest,
        None => text,
    }
}

/// Reads the documents of the file at a path, of which there has to be one. The inner error is the
/// reason why the file isn't used.
fn read_file<S: Sources>(
    alloc: Global,
    path: &str,
    files: &mut S,
) -> Result<Result<Vec<Value>, String>, Refused>
    ensures read { IfOk result (λ r. IfOk r (λ v.
        IsRead S.reads files.old path.now (map view v.items) files.new)) }
    ensures unread { IfOk result (λ r. IfErr r (λ reason.
        IsUnread S.reads files.old path.now (string_bytes reason) files.new)) }
{
    let text = match files.read(alloc, path)? {
        Ok(text) => text,
        Err(reason) => return Ok(Err(reason)),
    };
    let json = without_mark(text.as_str());
    match documents_of(alloc, json)? {
        Ok(values) => {
            if values.is_empty() {
                return Ok(Err(String::from_str(alloc, "no document")?));
            }
            Ok(Ok(values))
        }
        Err(fault) => Ok(Err(format!(in alloc; "{fault}")?)),
    }
}

/// Appends a file that isn't used.
fn add_unusable(
    alloc: Global,
    path: &str,
    reason: String,
    unusable: &mut Vec<Item>,
) -> Result<(), AllocError>
    ensures { OnOk result (map item_view unusable.new.items
        ≡ map item_view unusable.old.items ++ unusable_item path.now (string_bytes reason) ∷ []) }
{
    let item = unusable_item(alloc, path, reason)?;
    unusable.push(item)?;
    Ok(())
}

/// Appends these items.
pub fn add_items(items: &mut Vec<Item>, more: Vec<Item>) -> Result<(), AllocError>
    ensures { OnOk result (items.new.items ≡ items.old.items ++ more.items) }
{
    items.extend(more)
}

/// Builds the item of a file that isn't used, for this reason.
pub(crate) fn unusable_item(alloc: Global, path: &str, reason: String) -> Result<Item, AllocError>
    ensures { IfOk result (λ i. item_view i ≡ unusable_item path.now (string_bytes reason)) }
{
    let mut findings = Vec::new(alloc);
    findings.push(Finding {
        location: String::new(alloc),
        rule: String::new(alloc),
        message: reason,
    })?;
    Ok(Item {
        file: String::from_str(alloc, path)?,
        index: 0,
        kind: String::new(alloc),
        namespace: String::new(alloc),
        name: String::new(alloc),
        verdict: Verdict::NotJudged,
        findings,
    })
}

/// Appends the documents of a file.
fn add_values(
    alloc: Global,
    file: &str,
    values: Vec<Value>,
    found: &mut Vec<Document>,
) -> Result<(), AllocError>
    ensures { OnOk result (map document_view found.new.items
        ≡ map document_view found.old.items ++ with_indices file.now 0 (map view values.items)) }
{
    for (index, value) in values.into_iter().enumerate() {
        let file = String::from_str(alloc, file)?;
        found.push(Document { file, index, value })?;
    }
    Ok(())
}
