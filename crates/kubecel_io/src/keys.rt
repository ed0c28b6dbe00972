//! Finds a key that an object has twice.
ghost use Rattle.std.specs.Prelude.{◌≤◌, IfOk, length};

use crate::cut::Mode;
use kube_types_refused::Refused;
use serde_json::Value;
use std::alloc::Global;
use std::collections::BTreeSet;

/// The keys of a document that were read so far.
#[derive(Drop)]
struct Keys {
    mode: Mode,
    /// The offsets of the open brackets.
    open: Vec<usize>,
    /// The offset of the quotation mark that begins the last string.
    begin: usize,
    /// The offset of the one that ends it.
    end: usize,
    /// The keys, each with the offset of its object.
    seen: BTreeSet<(usize, String)>,
}

impl Keys {
    /// Reads the byte at an offset. Reports whether it follows a key that its object has already.
    fn take(
        &mut self,
        alloc: Global,
        document: &[u8],
        offset: usize,
        byte: u8,
    ) -> Result<bool, Refused> {
        match (self.mode, byte) {
            (Mode::Outside, b'{' | b'[') => self.open.push(offset)?,
            (Mode::Outside, b'}' | b']') => drop(self.open.pop()),
            (Mode::Outside, b'"') => self.begin = offset,
            (Mode::Within, b'"') => self.end = offset,
            (Mode::Outside, b':') => return self.is_repeated(alloc, document),
            _ => {}
        }
        self.mode = self.mode.after(byte);
        Ok(false)
    }

    /// Adds the last string as a key. Reports whether its object has the key already.
    fn is_repeated(&mut self, alloc: Global, document: &[u8]) -> Result<bool, Refused> {
        let object = self.open.last().copied().unwrap_or(0);
        let Some(quoted) = document.get(self.begin..=self.end) else {
            return Ok(false);
        };
        let value = match Value::from_slice(alloc, quoted) {
            Ok(value) => value,
            Err(error) if error.is_memory() => return Err(Refused::Memory),
            Err(_) => return Ok(false),
        };
        let Some(key) = value.as_str() else {
            return Ok(false);
        };
        let key = String::from_str(alloc, key)?;
        let is_new = self.seen.insert((object, key))?;
        Ok(!is_new)
    }
}

/// Returns the offset of the first key in a document that its object has already, or the document's
/// length if there is none.
pub(crate) fn repeated_key(alloc: Global, document: &[u8]) -> Result<usize, Refused>
    ensures { IfOk result (λ n. n ≤ length document.now) }
{
    let mut keys = Keys {
        mode: Mode::Outside,
        open: Vec::new(alloc),
        begin: 0,
        end: 0,
        seen: BTreeSet::new(alloc),
    };
    for (offset, byte) in document.iter().enumerate() {
        if keys.take(alloc, document, offset, *byte)? {
            return Ok(keys.begin.min(document.len()));
        }
    }
    Ok(document.len())
}
