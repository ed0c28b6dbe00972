//! Reads the files that a command names.
ghost use Rattle.celcheck_cli.specs.Runs.{IsRead, IsReadWhereNamed, text_seen};
ghost use Rattle.serde_json.specs.View.{view};
ghost use Rattle.std.specs.Prelude.{⊤, ℕ, List, Option, IfOk, option_map};

use crate::status::{Stop, unreadable};
use kube_cel::Refused;
use serde_json::Value;
use std::alloc::Global;
use std::io;

/// A source of the files that a command names.
pub trait Sources {
    // The relation `reads before path text after`: in the state `before`, a read at `path` may
    // return `text`, or none if the file can't be read, and leave the state `after`. For real files
    // nothing is promised.
    ghost reads: { Self → List ℕ → Option (List ℕ) → Self → Type 0 } = { λ _ _ _ _. ⊤ };

    /// Reads the text of a file. The inner error is the reason why it can't be read.
    fn read(&mut self, alloc: Global, path: &str) -> Result<io::Result<String>, Refused>
        ensures { IfOk result (λ text. reads self.old path.now (text_seen text) self.new) };
}

/// Reads the JSON of a file. `None` if no file is named.
pub(crate) fn read_where_named<S: Sources>(
    alloc: Global,
    path: Option<&str>,
    files: &mut S,
) -> Result<Option<Value>, Stop>
    ensures { IfOk result (λ value. IsReadWhereNamed S.reads files.old
        (option_map (λ s. s.now) path.entry) (option_map view value) files.new) }
{
    match path {
        Some(path) => Ok(Some(read_json(alloc, path, files)?)),
        None => Ok(None),
    }
}

/// Reads the JSON of a file.
pub(crate) fn read_json<S: Sources>(alloc: Global, path: &str, files: &mut S) -> Result<Value, Stop>
    ensures { IfOk result (λ value. IsRead S.reads files.old path.now (view value) files.new) }
{
    let text = match files.read(alloc, path)? {
        Ok(text) => text,
        Err(_) => return Err(unreadable(alloc, path)),
    };
    match Value::from_str(alloc, text.as_str()) {
        Ok(value) => Ok(value),
        Err(error) => {
            if error.is_memory() {
                Err(Stop::Refused(Refused::Memory))
            } else {
                Err(unreadable(alloc, path))
            }
        }
    }
}
