//! The machine that reads one token at a time.

use crate::frame::Frame;
use std::alloc::Global;

/// What is open, the innermost last.
#[derive(Drop)]
pub(crate) struct Machine {
    pub alloc: Global,
    pub frames: Vec<Frame>,
}
