//! Reads the machine's files.

use kubecel_cli::{Refused, Sources};
use std::alloc::{AllocError, Global};
use std::collections::BTreeMap;
use std::io::Read;
use std::{fs, io};

/// The machine's files. The path `-` is standard input.
#[derive(Drop)]
pub struct Files<'r, 'm> {
    pub rt: &'r HostRuntime,
    /// What is read in place of the files at these paths.
    pub others: &'m BTreeMap<String, String>,
    /// Whether standard input was read. It can be read once.
    pub is_input_read: bool,
}

/// Returns the line and the column of the byte behind these.
fn place_behind(bytes: &[u8]) -> (u64, u64) {
    let mut line = 1u64;
    let mut column = 1u64;
    for byte in bytes {
        if *byte == b'\n' {
            line = line.saturating_add(1);
            column = 1;
        } else {
            column = column.saturating_add(1);
        }
    }
    (line, column)
}

/// Returns the text of a file's bytes. The inner error says where they aren't UTF-8.
fn text_of(alloc: Global, bytes: Vec<u8>) -> Result<Result<String, String>, AllocError> {
    if let Err(error) = str::from_utf8(bytes.as_slice()) {
        let valid = bytes.get(..error.valid_up_to()).unwrap_or_default();
        let (line, column) = place_behind(valid);
        return Ok(Err(format!(in alloc; "{line}:{column}: not UTF-8")?));
    }
    match String::from_utf8(bytes) {
        Ok(text) => Ok(Ok(text)),
        Err(_) => Ok(Err(String::from_str(alloc, "not UTF-8")?)),
    }
}

impl Files<'_, '_> {
    /// Reads the bytes of standard input.
    fn read_input(&self, alloc: Global) -> io::Result<Vec<u8>> {
        let mut bytes = Vec::new(alloc);
        self.rt.stdin().read_to_end(&mut bytes)?;
        Ok(bytes)
    }

    /// Reads the text of the file that lies at a path. The inner error says where it isn't UTF-8.
    fn read_at(&self, alloc: Global, path: &str) -> io::Result<Result<String, String>> {
        let bytes = if path == "-" {
            self.read_input(alloc)?
        } else {
            fs::read(self.rt, path)?
        };
        Ok(text_of(alloc, bytes)?)
    }

    /// Reads the text of a file. The inner error is the reason why it isn't read.
    fn read_text(&self, alloc: Global, path: &str) -> io::Result<Result<String, String>> {
        let Some(other) = self.others.get(path) else {
            return self.read_at(alloc, path);
        };
        let other = other.as_str();
        if let Some(reason) = other.strip_prefix('!') {
            return Ok(Err(String::from_str(alloc, reason)?));
        }
        if other.starts_with('/') {
            return self.read_at(alloc, other);
        }
        Ok(Ok(String::from_str(alloc, other)?))
    }

    /// Returns why there is no file of this name to be read, whatever the machine holds.
    fn fault_in(&self, path: &str) -> Option<&'static str> {
        match path {
            "" => Some("the name is empty"),
            "-" if self.is_input_read => Some("standard input is named twice"),
            _ => None,
        }
    }
}

impl Sources for Files<'_, '_> {
    fn read(&mut self, alloc: Global, path: &str) -> Result<Result<String, String>, Refused> {
        if let Some(fault) = self.fault_in(path) {
            return Ok(Err(String::from_str(alloc, fault)?));
        }
        self.is_input_read = self.is_input_read || path == "-";
        match self.read_text(alloc, path) {
            Ok(read) => Ok(read),
            Err(error) if error.kind() == io::ErrorKind::OutOfMemory => Err(Refused::Memory),
            Err(error) => Ok(Err(format!(in alloc; "{error}")?)),
        }
    }
}
