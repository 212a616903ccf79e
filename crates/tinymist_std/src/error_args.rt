//! The named arguments of an error, built one after another.
ghost use Rattle.std.specs.Prelude.{◌≡◌, [], Some, IfOk, IfSome, is_some, if◌then◌else◌};
ghost use Rattle.std.specs.Bool.{MatchBool};
ghost use Rattle.tinymist_std.specs.Error.{arguments_of, no_memory, plain, untold};
ghost use Rattle.tinymist_std.specs.ErrorArgs.{AddsArgument, IsMetWith};
ghost use Rattle.tinymist_std.specs.Context.{IsToldAs};

use crate::context::{map_err_with_args, map_string_err_with_args};
use crate::err_kind_ext::ErrKindExt;
use crate::error::{Args, ErrKind, Error};
use crate::untyped_error::UntypedError;
use std::alloc::{AllocError, Global};
use std::fmt::Display;
use std::marker::Model;

/// Named arguments with the printed values, or none once memory ran out.
#[derive(Drop)]
pub struct ErrorArgs {
    args: Option<Args>,
}

impl Model for ErrorArgs {
    ghost use Rattle.std.specs.Prelude.{Option};
    ghost use Rattle.std.specs.Option.{option_map};
    ghost use Rattle.tinymist_std.specs.Error.{Arguments, arguments_of};

    ghost Value = { Option Arguments };

    ghost view = { λ a. option_map (λ v. arguments_of v.items) a.args };
}

impl ErrorArgs {
    /// No arguments yet.
    pub fn new(alloc: Global) -> ErrorArgs
        ensures { result ≡ Some [] }
    {
        ErrorArgs {
            args: Some(Vec::new(alloc)),
        }
    }

    /// One argument more: the name, and what the value prints.
    pub fn with<D: Display>(self, alloc: Global, name: &'static str, value: &D) -> ErrorArgs
        ensures { IfSome result (AddsArgument self name.now (D.output value.now)) }
    {
        let Some(args) = self.args else {
            return ErrorArgs { args: None };
        };
        ErrorArgs {
            args: with_argument(alloc, args, name, value).ok(),
        }
    }

    /// An error of that place with these arguments and nothing else to say.
    pub fn error(self, loc: &'static str) -> Error
        ensures place { result.place ≡ loc.now }
        ensures arguments { result.arguments ≡ self }
        ensures kind { result.kind ≡ (if is_some self then plain untold else plain no_memory) }
    {
        match self.args {
            Some(args) => Error::new(loc, ErrKind::None, Some(args)),
            None => Error::new(loc, ErrKind::OutOfMemory, None),
        }
    }

    /// An error as [`map_err_with_args`] makes it with these arguments.
    pub fn map_err<E: ErrKindExt>(self, alloc: Global, loc: &'static str, error: E) -> Error
        ensures { IsMetWith self loc.now (E.gives_kind error) result }
    {
        match self.args {
            Some(args) => map_err_with_args(alloc, loc, error, args),
            None => Error::new(loc, ErrKind::OutOfMemory, None),
        }
    }

    /// An error as [`map_string_err_with_args`] makes it with these arguments.
    pub fn map_string_err<E: UntypedError>(
        self,
        alloc: Global,
        loc: &'static str,
        error: E,
    ) -> Error
        ensures { IsMetWith self loc.now (IsToldAs (E.LacksMemory error) (E.output error)) result }
    {
        match self.args {
            Some(args) => map_string_err_with_args(alloc, loc, error, args),
            None => Error::new(loc, ErrKind::OutOfMemory, None),
        }
    }
}

/// The arguments with one more.
fn with_argument<D: Display>(
    alloc: Global,
    mut args: Args,
    name: &'static str,
    value: &D,
) -> Result<Args, AllocError>
    ensures { IfOk result (λ more. AddsArgument (Some (arguments_of args.entry.items)) name.now
        (D.output value.now) (arguments_of more.items)) }
{
    let text = value.to_string(alloc)?;
    args.push((name, text))?;
    Ok(args)
}
