//! Reads the documents of a text.
ghost use Rattle.kubecel_io.specs.Documents.{IsAt, IsFirstRefused, all_read, documents, is_space, read_document, with_documents, with_piece};
ghost use Rattle.kubecel_io.specs.Faults.{IsFault, IsKindOf};
ghost use Rattle.kubecel_io.specs.declared.cut.Mode.TheVariants.{Outside};
ghost use Rattle.serde_json.specs.View.{view};
ghost use Rattle.std.specs.List.{list_all};
ghost use Rattle.std.specs.Prelude.{◌≡◌, ◌∷◌, ◌++◌, ◌⊎◌, [], ℕ, List, Some, None, false, IfErr, IfOk, OnErr, OnOk, map};
ghost use Rattle.std.specs.Str.{IsUtf8};

use crate::cut::{Mode, is_space};
use crate::fault::{Fault, FaultKind, Flaw, fault_in, flaw_of};
use crate::keys::repeated_key;
use crate::unique::has_unique_keys;
use kube_types_refused::Refused;
use serde_json::Value;
use std::alloc::Global;

/// The state of reading a text.
#[derive(Drop)]
struct Reading<'t> {
    mode: Mode,
    /// The number of open brackets.
    depth: usize,
    /// The part of the current document that was read so far.
    piece: &'t [u8],
    /// The documents that are complete.
    found: Vec<Value>,
}

/// Reports whether a piece consists of white space only.
fn is_blank(piece: &[u8]) -> bool
    ensures { result ≡ list_all is_space piece.now }
{
    piece.iter().all(|byte| is_space(*byte))
}

/// Reads a document.
///
/// # Errors
/// What is wrong with it, if it isn't JSON or an object in it has a key twice.
#[tactic(auto, unfolding(crate::specs::Documents::read_document))]
fn read_document(alloc: Global, document: &[u8]) -> Result<Result<Value, Flaw>, Refused>
    ensures read { IfOk result (λ r. IfOk r (λ v. read_document document.now ≡ Some (view v))) }
    ensures refused { IfOk result (λ r. IfErr r (λ flaw. IsUtf8 document.now
        → (read_document document.now ≡ None) × (IsKindOf document.now flaw.kind))) }
{
    let Ok(text) = str::from_utf8(document) else {
        let kind = FaultKind::NotJson;
        return Ok(Err(Flaw { kind, offset: 0 }));
    };
    let is_unique = has_unique_keys(alloc, text)?;
    match Value::from_str(alloc, text) {
        Ok(value) if is_unique => Ok(Ok(value)),
        Ok(_) => {
            let kind = FaultKind::RepeatedKey;
            let offset = repeated_key(alloc, document)?;
            Ok(Err(Flaw { kind, offset }))
        }
        Err(error) if error.is_memory() => Err(Refused::Memory),
        Err(error) => Ok(Err(flaw_of(alloc, document, &error)?)),
    }
}

impl<'t> Reading<'t> {
    /// Reads one byte, with which the current document is `piece` so far.
    ///
    /// # Errors
    /// What is wrong with the document that ends here, if it is refused.
    fn take(
        &mut self,
        alloc: Global,
        piece: &'t [u8],
        byte: u8,
    ) -> Result<Result<(), Flaw>, Refused>
        requires { piece.now ≡ self.old.piece.now ++ byte ∷ [] }
        ensures read { IfOk result (λ r. OnOk r ((text rest : List ℕ)
            → IsAt text self.old (byte ∷ rest) → IsAt text self.new rest)) }
        ensures piece { IfOk result (λ r. OnOk r
            ((self.new.piece.now ≡ piece.now) ⊎ (self.new.piece.now ≡ []))) }
        ensures refused { IfOk result (λ r. IfErr r (λ flaw. (text rest : List ℕ) → IsAt text self.old (byte ∷ rest)
            → (before : List ℕ) × IsFirstRefused text before piece.now rest
            × (IsKindOf piece.now flaw.kind))) }
    {
        let depth = self
            .mode
            .depth_after(self.depth, byte)
            .ok_or(Refused::TooLarge)?;
        let ends = self.mode.ends(self.depth, depth, byte);
        self.piece = piece;
        if ends {
            return self.end(alloc);
        }
        self.mode = self.mode.after(byte);
        self.depth = depth;
        Ok(Ok(()))
    }

    /// Ends the current document, if one has begun.
    ///
    /// # Errors
    /// What is wrong with the document, if it is refused.
    fn end(&mut self, alloc: Global) -> Result<Result<(), Flaw>, Refused>
        ensures read { IfOk result (λ r. OnOk r ((rest : List (List ℕ))
            → with_documents (map view self.old.found.items) (all_read (with_piece self.old.piece.now rest))
            ≡ with_documents (map view self.new.found.items) (all_read rest))) }
        ensures begun { IfOk result (λ r. OnOk r ((self.new.mode ≡ Outside) × (self.new.depth ≡ 0)
            × (self.new.piece.now ≡ []))) }
        ensures refused { IfOk result (λ r. IfErr r (λ flaw. (list_all is_space self.old.piece.now ≡ false)
            × (IsUtf8 self.old.piece.now → (read_document self.old.piece.now ≡ None)
            × (IsKindOf self.old.piece.now flaw.kind)))) }
    {
        if !is_blank(self.piece) {
            match read_document(alloc, self.piece)? {
                Ok(value) => self.found.push(value)?,
                Err(flaw) => return Ok(Err(flaw)),
            }
        }
        self.mode = Mode::Outside;
        self.depth = 0;
        self.piece = b"";
        Ok(Ok(()))
    }
}

/// Parses the JSON documents that follow one another in a text.
///
/// # Errors
/// The place of the first document that isn't JSON, or in which an object has a key twice.
/// [`Refused`] if memory is refused, a document is too long, or a number of open brackets
/// overflows.
pub fn documents_of(alloc: Global, text: &str) -> Result<Result<Vec<Value>, Fault>, Refused>
    ensures read { IfOk result (λ r. IfOk r (λ v. documents text.now ≡ Some (map view v.items))) }
    ensures refused { IfOk result (λ r. OnErr r (documents text.now ≡ None)) }
    ensures fault { IfOk result (λ r. IfErr r (λ f. IsFault text.now f)) }
{
    let bytes = text.as_bytes();
    let mut reading = Reading {
        mode: Mode::Outside,
        depth: 0,
        piece: b"",
        found: Vec::new(alloc),
    };
    for (i, byte) in bytes.iter().enumerate() {
        let piece = &bytes[i - reading.piece.len()..i + 1];
        if let Err(flaw) = reading.take(alloc, piece, *byte)? {
            let fault = fault_in(bytes, piece, i + 1, flaw);
            return Ok(Err(fault));
        }
    }
    let piece = reading.piece;
    if let Err(flaw) = reading.end(alloc)? {
        let fault = fault_in(bytes, piece, bytes.len(), flaw);
        return Ok(Err(fault));
    }
    Ok(Ok(reading.found))
}
