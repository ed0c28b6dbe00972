//! Files in memory.

use celcheck_cli::Sources;
use conformance_rows::{Field, given};
use kube_cel::Refused;
use std::alloc::Global;
use std::io;

/// The files that a row gives: the key of a file's text is its path. Reads fail from the one
/// numbered `failing` on, and the one numbered `refused` gets no memory; they count from 1.
#[derive(Drop)]
pub(crate) struct Files<'g> {
    pub(crate) given: &'g [Field],
    /// The number of reads so far.
    pub(crate) reads: u64,
    pub(crate) failing: u64,
    pub(crate) refused: u64,
}

impl Sources for Files<'_> {
    fn read(&mut self, alloc: Global, path: &str) -> Result<io::Result<String>, Refused> {
        self.reads = self.reads.saturating_add(1);
        if self.reads == self.refused {
            return Err(Refused::Memory);
        }
        if self.reads >= self.failing {
            return Ok(Err(io::Error::from(io::ErrorKind::Other)));
        }
        match given::text(self.given, path) {
            Some(text) => Ok(Ok(String::from_str(alloc, text)?)),
            None => Ok(Err(io::Error::from(io::ErrorKind::NotFound))),
        }
    }
}
