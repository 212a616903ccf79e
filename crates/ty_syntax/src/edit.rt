//! Why a text wasn't edited.
ghost use Rattle.std.specs.Prelude.{◌≡◌};

use thiserror::Error;
use ty_path::OutOfMemory;

/// Why a text wasn't edited.
#[derive(Clone, Copy, Debug, PartialEq, Eq, Error)]
pub enum EditFault {
    /// The offsets are no span of the text.
    #[error("no span of the text")]
    Range,
    /// No memory was left.
    #[error("out of memory")]
    OutOfMemory,
}

impl From<OutOfMemory> for EditFault {
    ghost use Rattle.ty_syntax.specs.declared.edit.EditFault.TheVariants.{OutOfMemory as no_memory};

    ghost from_gives = { λ _ fault. fault ≡ no_memory };

    fn from(_: OutOfMemory) -> Self {
        EditFault::OutOfMemory
    }
}
