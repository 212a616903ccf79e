//! What becomes the kind of an error.
ghost use Rattle.std.specs.Prelude.{◌≡◌, Some, string_bytes};
ghost use Rattle.tinymist_std.specs.Error.{Kind, message, no_memory, plain};
ghost use Rattle.tinymist_std.specs.ErrKind.{kind_of};
ghost use Rattle.tinymist_std.specs.Context.{IsKindFrom, IsMessageOf};

use crate::error::{ErrKind, Error};
use crate::untyped_error::untyped_kind;
use std::alloc::{AllocError, Global};
use std::fmt::Display;
use ty_path::OutOfMemory;

/// What becomes the kind of an error: a kind, a text, or another error by its printed text.
pub trait ErrKindExt: Drop {
    ghost gives_kind: { Self → Kind → Type 0 };

    /// The kind; `OutOfMemory` where its text finds no memory, or where it is another error's kind.
    fn to_error_kind(self, alloc: Global) -> ErrKind
        ensures { gives_kind self (kind_of result) };
}

impl ErrKindExt for ErrKind {
    ghost gives_kind = { λ kind given. given ≡ kind_of kind };

    fn to_error_kind(self, _alloc: Global) -> ErrKind {
        self
    }
}

impl ErrKindExt for String {
    ghost gives_kind = { λ text given. given ≡ plain (message (string_bytes text)) };

    fn to_error_kind(self, _alloc: Global) -> ErrKind {
        ErrKind::Msg(self)
    }
}

impl ErrKindExt for &str {
    ghost gives_kind = { λ text given. IsMessageOf (Some text.now) given };

    fn to_error_kind(self, alloc: Global) -> ErrKind {
        message_kind(alloc, &self)
    }
}

impl ErrKindExt for Error {
    ghost gives_kind = { IsKindFrom };

    fn to_error_kind(self, alloc: Global) -> ErrKind {
        untyped_kind(alloc, &self)
    }
}

/// Memory that ran out stays that.
impl ErrKindExt for OutOfMemory {
    ghost gives_kind = { λ _ given. given ≡ plain no_memory };

    fn to_error_kind(self, _alloc: Global) -> ErrKind {
        ErrKind::OutOfMemory
    }
}

impl ErrKindExt for AllocError {
    ghost gives_kind = { λ _ given. given ≡ plain no_memory };

    fn to_error_kind(self, _alloc: Global) -> ErrKind {
        ErrKind::OutOfMemory
    }
}

/// The kind that is a message of what a value prints; `OutOfMemory` where that finds no memory.
pub(crate) fn message_kind<D: Display>(alloc: Global, value: &D) -> ErrKind
    ensures { IsMessageOf (D.output value.now) (kind_of result) }
{
    match value.to_string(alloc) {
        Ok(text) => ErrKind::Msg(text),
        Err(_) => ErrKind::OutOfMemory,
    }
}
