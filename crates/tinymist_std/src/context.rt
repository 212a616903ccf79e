//! Errors with the place where they were met, made of results, options and other errors.
ghost use Rattle.std.specs.Prelude.{◌≡◌, Option, Some, None, Ok, IsErrAnd, MatchResult};
ghost use Rattle.std.specs.Option.{option_map};
ghost use Rattle.tinymist_std.specs.Error.{Kind, plain, untold, arguments_of};
ghost use Rattle.tinymist_std.specs.ErrKind.{kind_of};
ghost use Rattle.tinymist_std.specs.Context.{IsGivenBy, IsMet, IsToldAs, IsWrapped, lacks_memory};

use crate::err_kind_ext::ErrKindExt;
use crate::error::{Args, ErrKind, Error, Result};
use crate::untyped_error::{UntypedError, untyped_kind};
use std::alloc::Global;

/// Says where a failure was met. The error has the kind that the failure becomes (`ErrKindExt`), and
/// in place of a `None` the kind that says nothing.
pub trait WithContext<T>: Sized {
    // `holds self x`: self is no failure, and x is its value.
    ghost holds: { Self → T → Type 0 };

    // `gives_kind self k`: self is a failure, and k is a kind that its error may get.
    ghost gives_kind: { Self → Kind → Type 0 };

    /// The value, or an error of that place.
    fn context(self, alloc: Global, loc: &'static str) -> Result<T, Error>
        ensures { MatchResult result (holds self) (IsMet loc.now (gives_kind self) (λ a. a ≡ None)) };

    /// The same with the arguments that the closure gives. It is called only for an error that has
    /// another kind than `OutOfMemory`.
    fn with_context<A: Into<Option<Args>>, G: FnOnce() -> A + Drop>(
        self,
        alloc: Global,
        loc: &'static str,
        f: G,
    ) -> Result<T, Error>
        requires { G.pre f }
        ensures { MatchResult result (holds self) (IsMet loc.now (gives_kind self)
            (IsGivenBy (G.post f) A.converts)) };
}

impl<T: Drop, E: ErrKindExt> WithContext<T> for Result<T, E> {
    ghost holds = { λ s x. s ≡ Ok x };

    ghost gives_kind = { λ s k. IsErrAnd s (λ e. E.gives_kind e k) };

    fn context(self, alloc: Global, loc: &'static str) -> Result<T, Error> {
        match self {
            Ok(value) => Ok(value),
            Err(error) => Err(Error::new(loc, error.to_error_kind(alloc), None)),
        }
    }

    fn with_context<A: Into<Option<Args>>, G: FnOnce() -> A + Drop>(
        self,
        alloc: Global,
        loc: &'static str,
        f: G,
    ) -> Result<T, Error> {
        match self {
            Ok(value) => Ok(value),
            Err(error) => Err(met_with(loc, error.to_error_kind(alloc), f)),
        }
    }
}

impl<T: Drop> WithContext<T> for Option<T> {
    ghost holds = { λ s x. s ≡ Some x };

    ghost gives_kind = { λ s k. (s ≡ None) × (k ≡ plain untold) };

    fn context(self, _alloc: Global, loc: &'static str) -> Result<T, Error> {
        match self {
            Some(value) => Ok(value),
            None => Err(Error::new(loc, ErrKind::None, None)),
        }
    }

    fn with_context<A: Into<Option<Args>>, G: FnOnce() -> A + Drop>(
        self,
        _alloc: Global,
        loc: &'static str,
        f: G,
    ) -> Result<T, Error> {
        match self {
            Some(value) => Ok(value),
            None => Err(met_with(loc, ErrKind::None, f)),
        }
    }
}

/// Says where an error was met, and keeps what it prints as a message. Out of memory stays that.
pub trait WithContextUntyped<T>: Sized {
    // `holds self x`: self is no failure, and x is its value.
    ghost holds: { Self → T → Type 0 };

    // `gives_kind self k`: self is a failure, and k is a kind that its error may get.
    ghost gives_kind: { Self → Kind → Type 0 };

    /// The value, or an error of that place whose kind is a message of the printed error, or
    /// `OutOfMemory` where the error says that.
    fn context_ut(self, alloc: Global, loc: &'static str) -> Result<T, Error>
        ensures { MatchResult result (holds self) (IsMet loc.now (gives_kind self) (λ a. a ≡ None)) };

    /// The same with the arguments that the closure gives. It is called only for an error that
    /// has another kind than `OutOfMemory`.
    fn with_context_ut<A: Into<Option<Args>>, G: FnOnce() -> A + Drop>(
        self,
        alloc: Global,
        loc: &'static str,
        f: G,
    ) -> Result<T, Error>
        requires { G.pre f }
        ensures { MatchResult result (holds self) (IsMet loc.now (gives_kind self)
            (IsGivenBy (G.post f) A.converts)) };
}

impl<T: Drop, E: UntypedError> WithContextUntyped<T> for Result<T, E> {
    ghost holds = { λ s x. s ≡ Ok x };

    ghost gives_kind = { λ s k. IsErrAnd s (λ e. IsToldAs (E.LacksMemory e) (E.output e) k) };

    fn context_ut(self, alloc: Global, loc: &'static str) -> Result<T, Error> {
        match self {
            Ok(value) => Ok(value),
            Err(error) => Err(Error::new(loc, untyped_kind(alloc, &error), None)),
        }
    }

    fn with_context_ut<A: Into<Option<Args>>, G: FnOnce() -> A + Drop>(
        self,
        alloc: Global,
        loc: &'static str,
        f: G,
    ) -> Result<T, Error> {
        match self {
            Ok(value) => Ok(value),
            Err(error) => Err(met_with(loc, untyped_kind(alloc, &error), f)),
        }
    }
}

/// An error with the arguments that the closure gives; where memory ran out, without.
fn met_with<A: Into<Option<Args>>, G: FnOnce() -> A + Drop>(
    loc: &'static str,
    kind: ErrKind,
    f: G,
) -> Error
    requires { G.pre f }
    ensures { IsMet loc.now (λ k. k ≡ kind_of kind) (IsGivenBy (G.post f) A.converts) result }
{
    if kind.is_out_of_memory() {
        return Error::new(loc, kind, None);
    }
    Error::new(loc, kind, f().into())
}

/// A value that is absent says nothing.
impl<T: Drop> WithContextUntyped<T> for Option<T> {
    ghost holds = { λ s x. s ≡ Some x };

    ghost gives_kind = { λ s k. (s ≡ None) × (k ≡ plain untold) };

    fn context_ut(self, alloc: Global, loc: &'static str) -> Result<T, Error> {
        self.context(alloc, loc)
    }

    fn with_context_ut<A: Into<Option<Args>>, G: FnOnce() -> A + Drop>(
        self,
        alloc: Global,
        loc: &'static str,
        f: G,
    ) -> Result<T, Error> {
        self.with_context(alloc, loc, f)
    }
}

/// An error with arguments; where memory ran out, without.
fn met(loc: &'static str, kind: ErrKind, args: Args) -> Error
    ensures { IsMet loc.now (λ k. k ≡ kind_of kind)
        (λ a. a ≡ Some (arguments_of args.entry.items)) result }
{
    if kind.is_out_of_memory() {
        return Error::new(loc, kind, None);
    }
    Error::new(loc, kind, Some(args))
}

/// An error of that place whose kind is a message of the printed error, or `OutOfMemory` where the
/// error says that.
pub fn map_string_err<E: UntypedError>(alloc: Global, loc: &'static str, e: E) -> Error
    ensures { IsMet loc.now (IsToldAs (E.LacksMemory e) (E.output e)) (λ a. a ≡ None) result }
{
    Error::new(loc, untyped_kind(alloc, &e), None)
}

/// An error of that place and of the kind that the value gives.
pub fn map_err<E: ErrKindExt>(alloc: Global, loc: &'static str, e: E) -> Error
    ensures { IsMet loc.now (E.gives_kind e) (λ a. a ≡ None) result }
{
    Error::new(loc, e.to_error_kind(alloc), None)
}

/// An error of that place and of the kind that the value gives once it is converted.
pub fn map_into_err<S: ErrKindExt, E: Into<S>>(alloc: Global, loc: &'static str, e: E) -> Error
    ensures { (s : S) × E.converts e s × IsMet loc.now (S.gives_kind s) (λ a. a ≡ None) result }
{
    map_err(alloc, loc, e.into())
}

/// An error of that place within which the other stands, but out of memory stays that.
pub fn wrap_err(alloc: Global, loc: &'static str, e: Error) -> Error
    ensures { IsMet loc.now (IsWrapped e) (λ a. a ≡ None) result }
{
    Error::new(loc, wrapping_kind(alloc, e), None)
}

/// As [`map_string_err`], with arguments.
pub fn map_string_err_with_args<E: UntypedError>(
    alloc: Global,
    loc: &'static str,
    e: E,
    args: Args,
) -> Error
    ensures { IsMet loc.now (IsToldAs (E.LacksMemory e) (E.output e))
        (λ a. a ≡ Some (arguments_of args.entry.items)) result }
{
    met(loc, untyped_kind(alloc, &e), args)
}

/// As [`map_err`], with arguments.
pub fn map_err_with_args<E: ErrKindExt>(alloc: Global, loc: &'static str, e: E, args: Args) -> Error
    ensures { IsMet loc.now (E.gives_kind e) (λ a. a ≡ Some (arguments_of args.entry.items)) result }
{
    met(loc, e.to_error_kind(alloc), args)
}

/// As [`map_into_err`], with arguments.
pub fn map_into_err_with_args<S: ErrKindExt, E: Into<S>>(
    alloc: Global,
    loc: &'static str,
    e: E,
    args: Args,
) -> Error
    ensures { (s : S) × E.converts e s
        × IsMet loc.now (S.gives_kind s) (λ a. a ≡ Some (arguments_of args.entry.items)) result }
{
    map_err_with_args(alloc, loc, e.into(), args)
}

/// As [`wrap_err`], with arguments.
pub fn wrap_err_with_args(alloc: Global, loc: &'static str, e: Error, args: Args) -> Error
    ensures { IsMet loc.now (IsWrapped e)
        (λ a. a ≡ Some (arguments_of args.entry.items)) result }
{
    met(loc, wrapping_kind(alloc, e), args)
}

/// The kind within which an error stands; `OutOfMemory` where that is its own kind.
fn wrapping_kind(alloc: Global, e: Error) -> ErrKind
    ensures { IsWrapped e (kind_of result) }
{
    if e.kind().is_out_of_memory() {
        return ErrKind::OutOfMemory;
    }
    match Box::new(alloc, e) {
        Ok(inner) => ErrKind::Inner(inner),
        Err(_) => ErrKind::OutOfMemory,
    }
}
