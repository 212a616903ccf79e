//! What each call makes of a failure or of another error.
use crate::errors::{args, expect, text};
use std::alloc::{AllocError, Global};
use std::io;
use std::num::ParseIntError;
use std::process::Abort;
use std::test::Fail;
use tinymist_std::{
    Args, ErrKind, ErrKindExt, Error, Printed, UntypedError, WithContext, WithContextUntyped, bail,
    error_once, error_once_map, error_once_map_string, map_err, map_err_with_args, map_into_err,
    map_into_err_with_args, map_string_err, map_string_err_with_args, wrap_err, wrap_err_with_args,
};
use ty_path::OutOfMemory;

fn failed() -> Result<u8, &'static str> {
    Err("m")
}

fn number(alloc: Global, digits: &str) -> tinymist_std::Result<u8> {
    let parsed: Result<u8, ParseIntError> = digits.parse();
    parsed.with_context_ut(alloc, "number", || None::<Args>)
}

fn reported(alloc: Global, name: &str) -> tinymist_std::Result<()> {
    bail!(alloc, "reported", "no file {name}")
}

fn mapped(alloc: Global, digits: &str) -> tinymist_std::Result<u8> {
    let parsed: Result<u8, ParseIntError> = digits.parse();
    parsed.map_err(error_once_map_string!(alloc, "mapped", digits: digits, count: 2))
}

/// The calls that make an error.
#[derive(Clone, Copy)]
enum Call {
    Context,
    WithContext,
    ContextUntyped,
    ContextOfError,
    AbsentContext,
    AbsentWithContext,
    MapStringErr,
    Bail,
    ErrorOnce,
    ErrorOnceBare,
    ErrorOnceMap,
    ErrorOnceMapString,
    AbsentContextUntyped,
    AbsentWithContextUntyped,
    ErrorOnceMapBare,
    ErrorOnceMapStringBare,
}

static MADE: [(Call, &str); 16] = [
    (Call::Context, "p: m"),
    (Call::WithContext, "p: m, with [(\"k\", \"v\")]"),
    (Call::ContextUntyped, "p: m"),
    (
        Call::ContextOfError,
        "p: number: invalid digit found in string",
    ),
    (Call::AbsentContext, "p"),
    (Call::AbsentWithContext, "p, with [(\"k\", \"v\")]"),
    (Call::MapStringErr, "p: 7"),
    (Call::Bail, "reported: no file a"),
    (Call::ErrorOnce, "p, with [(\"path\", \"a\")]"),
    (Call::ErrorOnceBare, "p, with []"),
    (Call::ErrorOnceMap, "p: m, with [(\"k\", \"1\")]"),
    (
        Call::ErrorOnceMapString,
        "mapped: invalid digit found in string, with [(\"digits\", \"x\"), (\"count\", \"2\")]",
    ),
    (Call::AbsentContextUntyped, "p"),
    (Call::AbsentWithContextUntyped, "p, with [(\"k\", \"v\")]"),
    (Call::ErrorOnceMapBare, "p: m, with []"),
    (Call::ErrorOnceMapStringBare, "p: m, with []"),
];

/// The error that the call makes.
fn made(alloc: Global, call: Call) -> Option<Error> {
    match call {
        Call::Context => failed().context(alloc, "p").err(),
        Call::WithContext => failed()
            .with_context(alloc, "p", || args(alloc, "k", "v").ok())
            .err(),
        Call::ContextUntyped => failed().context_ut(alloc, "p").err(),
        Call::ContextOfError => number(alloc, "x").context(alloc, "p").err(),
        Call::AbsentContext => None::<u8>.context(alloc, "p").err(),
        Call::AbsentWithContext => None::<u8>
            .with_context(alloc, "p", || args(alloc, "k", "v").ok())
            .err(),
        Call::MapStringErr => Some(map_string_err(alloc, "p", Printed(7))),
        Call::Bail => reported(alloc, "a").err(),
        Call::ErrorOnce => Some(error_once!(alloc, "p", path: "a")),
        Call::ErrorOnceBare => Some(error_once!(alloc, "p")),
        Call::ErrorOnceMap => failed().map_err(error_once_map!(alloc, "p", k: 1)).err(),
        Call::ErrorOnceMapString => mapped(alloc, "x").err(),
        other => made_bare(alloc, other),
    }
}

/// The error that the call makes of what is absent, or with no pair.
fn made_bare(alloc: Global, call: Call) -> Option<Error> {
    match call {
        Call::AbsentContextUntyped => None::<u8>.context_ut(alloc, "p").err(),
        Call::AbsentWithContextUntyped => None::<u8>
            .with_context_ut(alloc, "p", || args(alloc, "k", "v").ok())
            .err(),
        Call::ErrorOnceMapBare => failed().map_err(error_once_map!(alloc, "p")).err(),
        Call::ErrorOnceMapStringBare => failed().map_err(error_once_map_string!(alloc, "p")).err(),
        _ => None,
    }
}

#[test]
fn each_call_gives_its_error(rt: HostRuntime) -> Result<(), Fail> {
    for (call, want) in &MADE {
        let error = made(rt.alloc(), *call).ok_or("no error")?;
        expect(&rt, rt.alloc(), &error, want)?;
    }
    Ok(())
}

#[test]
fn values_pass_through(rt: HostRuntime) {
    let kept = number(rt.alloc(), "7").context(rt.alloc(), "p");
    assert!(rt; matches!(kept, Ok(7)));
}

fn said(alloc: Global) -> Result<Error, AllocError> {
    Ok(map_err(alloc, "q", text(alloc, "m")?))
}

fn said_again(alloc: Global) -> Result<Error, AllocError> {
    Ok(map_err_with_args(alloc, "p", said(alloc)?, args(alloc, "k", "v")?))
}

fn converted(alloc: Global) -> Result<Error, AllocError> {
    let message = text(alloc, "m")?;
    Ok(map_into_err_with_args::<String, String>(alloc, "p", message, args(alloc, "k", "v")?))
}

#[test]
fn kinds_come_from_texts_and_errors(rt: HostRuntime) -> Result<(), Fail> {
    let alloc = rt.alloc();
    expect(&rt, alloc, &said(alloc)?, "q: m")?;
    expect(
        &rt,
        alloc,
        &said_again(alloc)?,
        "p: q: m, with [(\"k\", \"v\")]",
    )?;
    let kept = converted(alloc)?;
    assert_eq!(rt; kept.loc(), "p");
    assert_eq!(rt; kept.arguments().len(), 1);
    Ok(())
}

#[test]
fn kinds_of_errors_are_messages(rt: HostRuntime) {
    let error = map_into_err::<ErrKind, ErrKind>(rt.alloc(), "p", ErrKind::None);
    assert!(rt; matches!(error.to_error_kind(rt.alloc()), ErrKind::Msg(_)));
}

/// An error that says that memory ran out.
fn out_of_memory() -> Error {
    Error::new("q", ErrKind::OutOfMemory, None)
}

/// The calls that make of an error another one.
#[derive(Clone, Copy)]
enum Way {
    Context,
    WithContext,
    MapErr,
    MapErrWithArgs,
    MapIntoErr,
    MapIntoErrWithArgs,
    ErrorOnceMap,
}

static WAYS: [Way; 7] = [
    Way::Context,
    Way::WithContext,
    Way::MapErr,
    Way::MapErrWithArgs,
    Way::MapIntoErr,
    Way::MapIntoErrWithArgs,
    Way::ErrorOnceMap,
];

/// A failure with that error.
fn failed_with<E>(given: E) -> Result<u8, E> {
    Err(given)
}

/// The error that the call makes of one.
fn gone<E: ErrKindExt>(alloc: Global, way: Way, given: E) -> Result<Option<Error>, AllocError> {
    let arguments = args(alloc, "k", "v")?;
    Ok(match way {
        Way::Context => failed_with(given).context(alloc, "p").err(),
        Way::WithContext => failed_with(given)
            .with_context(alloc, "p", || args(alloc, "k", "v").ok())
            .err(),
        Way::ErrorOnceMap => failed_with(given)
            .map_err(error_once_map!(alloc, "p", k: 1))
            .err(),
        Way::MapErr => Some(map_err(alloc, "p", given)),
        Way::MapErrWithArgs => Some(map_err_with_args(alloc, "p", given, arguments)),
        Way::MapIntoErr => Some(map_into_err::<E, E>(alloc, "p", given)),
        Way::MapIntoErrWithArgs => Some(map_into_err_with_args::<E, E>(
            alloc, "p", given, arguments,
        )),
    })
}

/// The calls that make of an error a message.
#[derive(Clone, Copy)]
enum TextWay {
    ContextUntyped,
    WithContextUntyped,
    MapStringErr,
    MapStringErrWithArgs,
    ErrorOnceMapString,
}

static TEXT_WAYS: [TextWay; 5] = [
    TextWay::ContextUntyped,
    TextWay::WithContextUntyped,
    TextWay::MapStringErr,
    TextWay::MapStringErrWithArgs,
    TextWay::ErrorOnceMapString,
];

/// The error that the call makes of one by its text.
fn told<E: UntypedError>(
    alloc: Global,
    way: TextWay,
    given: E,
) -> Result<Option<Error>, AllocError> {
    let arguments = args(alloc, "k", "v")?;
    Ok(match way {
        TextWay::ContextUntyped => failed_with(given).context_ut(alloc, "p").err(),
        TextWay::WithContextUntyped => failed_with(given)
            .with_context_ut(alloc, "p", || args(alloc, "k", "v").ok())
            .err(),
        TextWay::ErrorOnceMapString => failed_with(given)
            .map_err(error_once_map_string!(alloc, "p", k: 1))
            .err(),
        TextWay::MapStringErr => Some(map_string_err(alloc, "p", given)),
        TextWay::MapStringErrWithArgs => {
            Some(map_string_err_with_args(alloc, "p", given, arguments))
        }
    })
}

/// The errors that say that memory ran out.
#[derive(Clone, Copy)]
enum Lack {
    Error,
    OutOfMemory,
    AllocError,
    Io,
}

static LACKS: [Lack; 3] = [Lack::Error, Lack::OutOfMemory, Lack::AllocError];

static TEXT_LACKS: [Lack; 4] = [Lack::Error, Lack::OutOfMemory, Lack::AllocError, Lack::Io];

/// The error that the call makes of that one.
fn gone_of(alloc: Global, way: Way, lack: Lack) -> Result<Option<Error>, AllocError> {
    match lack {
        Lack::Error => gone(alloc, way, out_of_memory()),
        Lack::OutOfMemory => gone(alloc, way, OutOfMemory),
        Lack::AllocError => gone(alloc, way, AllocError),
        Lack::Io => Ok(None),
    }
}

/// The error that the call makes of that one by its text.
fn told_of(alloc: Global, way: TextWay, lack: Lack) -> Result<Option<Error>, AllocError> {
    match lack {
        Lack::Error => told(alloc, way, out_of_memory()),
        Lack::OutOfMemory => told(alloc, way, OutOfMemory),
        Lack::AllocError => told(alloc, way, AllocError),
        Lack::Io => told(alloc, way, io::Error::from(io::ErrorKind::OutOfMemory)),
    }
}

/// The error says that memory ran out, and nothing more.
fn expect_out_of_memory(
    rt: &impl Abort,
    alloc: Global,
    error: Option<Error>,
) -> Result<(), AllocError> {
    match error {
        Some(error) => {
            assert!(rt; error.kind().is_out_of_memory());
            expect(rt, alloc, &error, "p: out of memory")
        }
        None => panic!(rt; "no error"),
    }
}

/// Each call that makes another error keeps that memory ran out.
fn expect_gone(rt: &impl Abort, alloc: Global, lack: Lack) -> Result<(), AllocError> {
    for way in &WAYS {
        expect_out_of_memory(rt, alloc, gone_of(alloc, *way, lack)?)?;
    }
    Ok(())
}

/// Each call that makes a message keeps that memory ran out.
fn expect_told(rt: &impl Abort, alloc: Global, lack: Lack) -> Result<(), AllocError> {
    for way in &TEXT_WAYS {
        expect_out_of_memory(rt, alloc, told_of(alloc, *way, lack)?)?;
    }
    Ok(())
}

#[test]
fn out_of_memory_stays_that(rt: HostRuntime) -> Result<(), Fail> {
    for lack in &LACKS {
        expect_gone(&rt, rt.alloc(), *lack)?;
    }
    Ok(())
}

#[test]
fn out_of_memory_is_no_message(rt: HostRuntime) -> Result<(), Fail> {
    for lack in &TEXT_LACKS {
        expect_told(&rt, rt.alloc(), *lack)?;
    }
    Ok(())
}

#[test]
fn out_of_memory_is_not_wrapped(rt: HostRuntime) -> Result<(), Fail> {
    let alloc = rt.alloc();
    let wrapped = wrap_err(alloc, "p", out_of_memory());
    expect_out_of_memory(&rt, alloc, Some(wrapped))?;
    let wrapped = wrap_err_with_args(alloc, "p", out_of_memory(), args(alloc, "k", "v")?);
    expect_out_of_memory(&rt, alloc, Some(wrapped))?;
    Ok(())
}
