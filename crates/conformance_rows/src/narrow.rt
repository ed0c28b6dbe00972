//! Writers in memory.

use std::alloc::Global;
use std::io;

/// A limit that no number of reads or writes reaches.
pub const MANY: u64 = 1_000_000;

/// A writer that accepts a number of writes and refuses further ones.
#[derive(Drop)]
pub struct Narrow {
    room: u64,
    pub bytes: Vec<u8>,
}

impl Narrow {
    /// Creates a writer that accepts `room` writes.
    pub fn new(alloc: Global, room: u64) -> Narrow {
        Narrow {
            room,
            bytes: Vec::new(alloc),
        }
    }
}

impl io::Write for Narrow {
    fn write(&mut self, buf: &[u8]) -> io::Result<usize> {
        if self.room == 0 {
            return Err(io::Error::from(io::ErrorKind::Other));
        }
        match self.bytes.extend_from_slice(buf) {
            Ok(()) => {
                self.room -= 1;
                Ok(buf.len())
            }
            Err(_) => Err(io::Error::from(io::ErrorKind::OutOfMemory)),
        }
    }

    fn flush(&mut self) -> io::Result<()> {
        Ok(())
    }
}
