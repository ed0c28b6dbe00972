//! Reads the machine's files.

use celcheck_cli::Sources;
use kube_cel::Refused;
use std::alloc::Global;
use std::{fs, io};

/// The machine's files.
#[derive(Drop)]
pub struct Files<'a> {
    pub rt: &'a HostRuntime,
}

impl Sources for Files<'_> {
    fn read(&mut self, _alloc: Global, path: &str) -> Result<io::Result<String>, Refused> {
        match fs::read_to_string(self.rt, path) {
            Ok(text) => Ok(Ok(text)),
            Err(error) => {
                if error.kind() == io::ErrorKind::OutOfMemory {
                    Err(Refused::Memory)
                } else {
                    Ok(Err(error))
                }
            }
        }
    }
}
