//! Out of memory, and the names of shared texts and bytes.

use std::alloc::{AllocError, AllocFailed};
use std::sync::Arc;
use thiserror::Error;

/// A text that is shared.
pub type ImmutStr = Arc<String>;

/// A path that is shared.
pub type ImmutPath = Arc<String>;

/// Bytes that are shared.
pub type ImmutBytes = Arc<Vec<u8>>;

/// No memory was left.
#[derive(Debug, Drop, Clone, Copy, PartialEq, Eq, Error)]
#[error("out of memory")]
pub struct OutOfMemory;

impl From<AllocError> for OutOfMemory {
    fn from(_refused: AllocError) -> OutOfMemory {
        OutOfMemory
    }
}

impl<T: Drop> From<AllocFailed<T>> for OutOfMemory {
    fn from(_refused: AllocFailed<T>) -> OutOfMemory {
        OutOfMemory
    }
}
