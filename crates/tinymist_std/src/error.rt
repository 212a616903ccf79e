//! Errors that say where they were met, of what kind they are, and with which arguments.
ghost use Rattle.std.specs.Prelude.{◌≡◌, [], ◌++◌, IfOk, unwrap_or};
ghost use Rattle.std.specs.Option.{option_map};
ghost use Rattle.std.specs.Fmt.{DisplaysOnOk, WritesOnOk};
ghost use Rattle.tinymist_std.specs.Error.{arguments_of, arguments_text, bare_text, cause_text, message_text, place_text, printed_text};
ghost use Rattle.tinymist_std.specs.ErrKind.{kind_of};
ghost use Rattle.tinymist_std.specs.Context.{lacks_memory};

use crate::diagnostic::DiagMessage;
use std::alloc::Global;
use std::fmt;
use std::marker::Model;
use ty_path::{OutOfMemory, Share};

/// A result whose error is [`Error`] where none is named.
pub type Result<T, Err = Error> = std::result::Result<T, Err>;

/// The named arguments of an error, each a name and a text.
pub type Args = Vec<(&'static str, String)>;

/// What kind of error it is.
#[derive(Debug, Drop)]
#[cycle(error)]
pub enum ErrKind {
    /// Nothing is said beside the place.
    None,
    /// A message.
    Msg(String),
    /// A message about a file.
    Diag(Box<DiagMessage>),
    /// Another error.
    Inner(Box<Error>),
    /// Memory ran out.
    OutOfMemory,
}

/// An error: the place where it was met, its kind and named arguments.
#[derive(Debug, Drop)]
#[cycle(error)]
pub struct Error {
    loc: &'static str,
    kind: ErrKind,
    args: Option<Args>,
}

impl ErrKind {
    /// Whether the kind says that memory ran out.
    pub fn is_out_of_memory(&self) -> bool
        ensures { result ≡ lacks_memory (kind_of self.now) }
    {
        matches!(self, ErrKind::OutOfMemory)
    }
}

impl Model for Error {
    ghost use Rattle.tinymist_std.specs.Error.{Failure, arguments_of};

    ghost Value = { Failure };

    ghost use Rattle.std.specs.Prelude.{length};
    ghost use Rattle.std.specs.Option.{option_map};
    ghost use Rattle.tinymist_std.specs.ErrKind.{kind_of};

    ghost view = { λ e. record {
      place = e.loc.now;
      arguments = option_map (λ v. arguments_of v.items) e.args;
      kind = kind_of e.kind;
    } };

    ghost size = { λ f. length f.kind.within };

    ghost use Rattle.std.proofs.Common.{arith};

    ghost size_decreases = { λ e h. Prim.grind arith };
}

impl Error {
    /// An error at a place.
    pub fn new(loc: &'static str, kind: ErrKind, args: Option<Args>) -> Error
        ensures place { result.place ≡ loc.now }
        ensures kind { result.kind ≡ kind_of kind }
        ensures arguments { result.arguments ≡ option_map (λ v. arguments_of v.items) args.entry }
    {
        Error { loc, kind, args }
    }

    /// The place where the error was met.
    pub fn loc(&self) -> &'static str
        ensures { result.now ≡ self.now.place }
    {
        self.loc
    }

    /// The kind of the error.
    pub fn kind(&self) -> &ErrKind
        ensures { kind_of result.now ≡ self.now.kind }
    {
        &self.kind
    }

    /// The named arguments of the error; none where it was made without.
    pub fn arguments(&self) -> &[(&'static str, String)]
        ensures { arguments_of result.now ≡ unwrap_or self.now.arguments [] }
    {
        match &self.args {
            Some(args) => args.as_slice(),
            None => &[],
        }
    }
}

impl Share for Error {
    ghost use Rattle.tinymist_std.specs.Error.{Failure};

    ghost Seen = { Failure };

    ghost seen = { λ e. e };

    fn share(&self, alloc: Global) -> std::result::Result<Error, OutOfMemory> {
        Ok(share_error(self, alloc)?)
    }
}

impl Share for ErrKind {
    ghost use Rattle.tinymist_std.specs.Error.{Kind};
    ghost use Rattle.tinymist_std.specs.ErrKind.{kind_of};

    ghost Seen = { Kind };

    ghost seen = { kind_of };

    fn share(&self, alloc: Global) -> std::result::Result<ErrKind, OutOfMemory> {
        let ErrKind::Inner(inner) = self else {
            return share_plain(self, alloc);
        };
        let inner = share_error(&**inner, alloc)?;
        Ok(ErrKind::Inner(Box::new(alloc, inner)?))
    }
}

/// A copy of an error, with copies of those within it.
fn share_error(error: &Error, alloc: Global) -> std::result::Result<Error, OutOfMemory>
    ensures { IfOk result (λ again. again ≡ error.now) }
{
    let args = share_arguments(&error.args, alloc)?;
    let ErrKind::Inner(inner) = &error.kind else {
        let kind = share_plain(&error.kind, alloc)?;
        return Ok(Error::new(error.loc, kind, args));
    };
    let inner = Box::new(alloc, share_error(&**inner, alloc)?)?;
    Ok(Error::new(error.loc, ErrKind::Inner(inner), args))
}

/// A copy of a kind that has no error within it.
fn share_plain(kind: &ErrKind, alloc: Global) -> std::result::Result<ErrKind, OutOfMemory>
    requires { (kind_of kind.now).within ≡ [] }
    ensures { IfOk result (λ again. kind_of again ≡ kind_of kind.now) }
{
    match kind {
        ErrKind::None => Ok(ErrKind::None),
        ErrKind::Msg(text) => Ok(ErrKind::Msg(String::from_str(alloc, text.as_str())?)),
        ErrKind::Diag(report) => Ok(ErrKind::Diag(Box::new(alloc, report.share(alloc)?)?)),
        ErrKind::Inner(_) => unreachable!(),
        ErrKind::OutOfMemory => Ok(ErrKind::OutOfMemory),
    }
}

/// A copy of the arguments, where there are any.
fn share_arguments(
    args: &Option<Args>,
    alloc: Global,
) -> std::result::Result<Option<Args>, OutOfMemory>
    ensures { IfOk result (λ again. option_map (λ v. arguments_of v.items) again
        ≡ option_map (λ v. arguments_of v.items) args.now) }
{
    match args {
        Some(args) => Ok(Some(share_list(args, alloc)?)),
        None => Ok(None),
    }
}

/// A copy of the list of arguments.
fn share_list(args: &Args, alloc: Global) -> std::result::Result<Args, OutOfMemory>
    ensures { IfOk result (λ again. arguments_of again.items ≡ arguments_of args.now.items) }
{
    let mut again = Vec::new(alloc);
    for (name, text) in args {
        again.push((*name, String::from_str(alloc, text.as_str())?))?;
    }
    Ok(again)
}

impl fmt::Display for Error {
    ghost output = { printed_text };

    fn fmt<W: fmt::Write>(&self, f: &mut fmt::Formatter<W>) -> fmt::Result {
        let ErrKind::Inner(inner) = &self.kind else {
            write_cause(f, self.loc, &self.kind)?;
            return write_arguments(f, &self.args);
        };
        write_place(f, self.loc)?;
        (**inner).fmt(f)?;
        write_arguments(f, &self.args)
    }
}

impl std::error::Error for Error {}

/// Writes what stands before a body.
fn write_place<W: fmt::Write>(f: &mut fmt::Formatter<W>, place: &str) -> fmt::Result
    ensures { WritesOnOk W.write_str_gives f.old result (place_text place.now) f.new }
{
    if place.is_empty() {
        return Ok(());
    }
    f.write_str(place)?;
    f.write_str(": ")
}

/// Writes a place with nothing beside it.
fn write_bare<W: fmt::Write>(f: &mut fmt::Formatter<W>, place: &str) -> fmt::Result
    ensures { WritesOnOk W.write_str_gives f.old result (bare_text place.now) f.new }
{
    f.write_str(if place.is_empty() {
        "unknown error"
    } else {
        place
    })
}

/// Writes a place and a body.
fn write_body<W: fmt::Write>(f: &mut fmt::Formatter<W>, place: &str, body: &str) -> fmt::Result
    ensures { WritesOnOk W.write_str_gives f.old result (place_text place.now ++ body.now) f.new }
{
    write_place(f, place)?;
    f.write_str(body)
}

/// Writes a place and a message, or the place alone where the message is empty.
fn write_message<W: fmt::Write>(
    f: &mut fmt::Formatter<W>,
    place: &str,
    message: &str,
) -> fmt::Result
    ensures { WritesOnOk W.write_str_gives f.old result (message_text place.now message.now) f.new }
{
    if message.is_empty() {
        f.write_str(place)
    } else {
        write_body(f, place, message)
    }
}

/// Writes a place and the cause that a kind without an error within it has.
fn write_cause<W: fmt::Write>(f: &mut fmt::Formatter<W>, place: &str, kind: &ErrKind) -> fmt::Result
    requires { (kind_of kind.now).within ≡ [] }
    ensures { WritesOnOk W.write_str_gives f.old result
        (cause_text place.now (kind_of kind.now).cause) f.new }
{
    match kind {
        ErrKind::None => write_bare(f, place),
        ErrKind::Msg(text) => write_message(f, place, text.as_str()),
        ErrKind::Diag(report) => write_body(f, place, report.message.as_str()),
        ErrKind::Inner(_) => unreachable!(),
        ErrKind::OutOfMemory => write_body(f, place, "out of memory"),
    }
}

/// Writes the list of arguments, where there is one.
fn write_arguments<W: fmt::Write>(f: &mut fmt::Formatter<W>, args: &Option<Args>) -> fmt::Result
    ensures { DisplaysOnOk W.write_str_gives f.old result
        (arguments_text (option_map (λ v. arguments_of v.items) args.now)) f.new }
{
    match args {
        Some(args) => write!(f, ", with {args:?}"),
        None => Ok(()),
    }
}
