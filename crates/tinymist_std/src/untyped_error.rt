//! Errors of which only the printed text is kept, and that memory ran out.
ghost use Rattle.std.specs.Prelude.{◌≡◌, ◌↔◌, true, IsTrue};
ghost use Rattle.std.specs.IoError.{error_kind};
ghost use Rattle.std.specs.declared.io.ErrorKind.TheVariants.{OutOfMemory as no_memory};
ghost use Rattle.tinymist_std.specs.Context.{IsToldAs, lacks_memory};
ghost use Rattle.tinymist_std.specs.ErrKind.{kind_of};

use crate::err_kind_ext::message_kind;
use crate::error::{ErrKind, Error};
use std::alloc::{AllocError, AllocFailed, Global};
use std::fmt::Display;
use std::io::ErrorKind;
use std::num::ParseIntError;
use std::str::Utf8Error;
use std::{fmt, io};
use ty_path::OutOfMemory;

/// An error that is kept as a message of what it prints, unless it says that memory ran out.
pub trait UntypedError: Display + Drop {
    // The error says that memory ran out.
    ghost LacksMemory: { Self → Type 0 };

    /// Whether the error says that memory ran out.
    fn is_out_of_memory(&self) -> bool
        ensures { IsTrue result ↔ LacksMemory self.now };
}

/// A value that prints, taken for an error that doesn't say that memory ran out.
#[derive(Clone, Copy, Debug, PartialEq, Eq, Drop)]
pub struct Printed<D>(pub D);

impl<D: Display> Display for Printed<D> {
    ghost output = { λ p. D.output p.0 };

    fn fmt<W: fmt::Write>(&self, f: &mut fmt::Formatter<W>) -> fmt::Result {
        self.0.fmt(f)
    }
}

impl<D: Display + Drop> UntypedError for Printed<D> {
    ghost LacksMemory = { λ _. ⊥ };

    fn is_out_of_memory(&self) -> bool {
        false
    }
}

impl UntypedError for &str {
    ghost LacksMemory = { λ _. ⊥ };

    fn is_out_of_memory(&self) -> bool {
        false
    }
}

impl UntypedError for String {
    ghost LacksMemory = { λ _. ⊥ };

    fn is_out_of_memory(&self) -> bool {
        false
    }
}

impl UntypedError for ParseIntError {
    ghost LacksMemory = { λ _. ⊥ };

    fn is_out_of_memory(&self) -> bool {
        false
    }
}

impl UntypedError for Utf8Error {
    ghost LacksMemory = { λ _. ⊥ };

    fn is_out_of_memory(&self) -> bool {
        false
    }
}

impl UntypedError for Error {
    ghost LacksMemory = { λ e. IsTrue (lacks_memory e.kind) };

    fn is_out_of_memory(&self) -> bool {
        self.kind().is_out_of_memory()
    }
}

impl UntypedError for OutOfMemory {
    ghost LacksMemory = { λ _. Unit {0} };

    fn is_out_of_memory(&self) -> bool {
        true
    }
}

impl UntypedError for AllocError {
    ghost LacksMemory = { λ _. Unit {0} };

    fn is_out_of_memory(&self) -> bool {
        true
    }
}

impl<T: Drop> UntypedError for AllocFailed<T> {
    ghost LacksMemory = { λ _. Unit {0} };

    fn is_out_of_memory(&self) -> bool {
        true
    }
}

impl UntypedError for io::Error {
    ghost LacksMemory = { λ e. error_kind e ≡ no_memory };

    fn is_out_of_memory(&self) -> bool {
        matches!(self.kind(), ErrorKind::OutOfMemory)
    }
}

/// The kind that an error becomes: a message of what it prints, and `OutOfMemory` where it says
/// that memory ran out, or where its text finds none.
pub(crate) fn untyped_kind<E: UntypedError>(alloc: Global, error: &E) -> ErrKind
    ensures { IsToldAs (E.LacksMemory error.now) (E.output error.now) (kind_of result) }
{
    if error.is_out_of_memory() {
        return ErrKind::OutOfMemory;
    }
    message_kind(alloc, error)
}
