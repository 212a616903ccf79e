//! Errors by their parts: what they print.
use std::alloc::{AllocError, Global};
use std::fmt::Display;
use std::process::Abort;
use std::test::Fail;
use tinymist_std::{
    Args, DiagMessage, DiagSeverity, ErrKind, Error, LspPosition, LspRange,
    map_string_err_with_args, wrap_err, wrap_err_with_args,
};
use ty_path::Share;

pub fn text(alloc: Global, text: &str) -> Result<String, AllocError> {
    String::from_str(alloc, text)
}

/// One argument.
pub fn args(alloc: Global, name: &'static str, value: &str) -> Result<Args, AllocError> {
    Ok(vec![in alloc; (name, text(alloc, value)?)]?)
}

/// Compares what a value prints.
pub fn expect<D: Display>(
    rt: &impl Abort,
    alloc: Global,
    value: &D,
    want: &str,
) -> Result<(), AllocError> {
    let got = value.to_string(alloc)?;
    assert_eq!(rt; got.as_str(), want);
    Ok(())
}

/// What an error says beside its place.
enum Said {
    Nothing,
    Message(&'static str),
    OutOfMemory,
}

/// The parts of an error, and what it prints.
struct Row {
    place: &'static str,
    said: Said,
    argument: Option<(&'static str, &'static str)>,
    want: &'static str,
}

static PRINTED: [Row; 8] = [
    Row {
        place: "p",
        said: Said::Message("m"),
        argument: None,
        want: "p: m",
    },
    Row {
        place: "p",
        said: Said::Message("m"),
        argument: Some(("k", "v")),
        want: "p: m, with [(\"k\", \"v\")]",
    },
    Row {
        place: "",
        said: Said::Message("m"),
        argument: None,
        want: "m",
    },
    Row {
        place: "",
        said: Said::Nothing,
        argument: None,
        want: "unknown error",
    },
    Row {
        place: "p",
        said: Said::Nothing,
        argument: None,
        want: "p",
    },
    Row {
        place: "p",
        said: Said::Message(""),
        argument: None,
        want: "p",
    },
    Row {
        place: "p",
        said: Said::Nothing,
        argument: Some(("k", "é")),
        want: "p, with [(\"k\", \"é\")]",
    },
    Row {
        place: "p",
        said: Said::OutOfMemory,
        argument: None,
        want: "p: out of memory",
    },
];

fn kind(alloc: Global, said: &Said) -> Result<ErrKind, AllocError> {
    match said {
        Said::Nothing => Ok(ErrKind::None),
        Said::Message(message) => Ok(ErrKind::Msg(text(alloc, message)?)),
        Said::OutOfMemory => Ok(ErrKind::OutOfMemory),
    }
}

fn argument(
    alloc: Global,
    given: &Option<(&'static str, &'static str)>,
) -> Result<Option<Args>, AllocError> {
    match given {
        Some((name, value)) => Ok(Some(args(alloc, name, value)?)),
        None => Ok(None),
    }
}

fn error(alloc: Global, row: &Row) -> Result<Error, AllocError> {
    let kind = kind(alloc, &row.said)?;
    let args = argument(alloc, &row.argument)?;
    Ok(Error::new(row.place, kind, args))
}

#[test]
fn errors_print_place_body_and_arguments(rt: HostRuntime) -> Result<(), Fail> {
    for row in &PRINTED {
        let error = error(rt.alloc(), row)?;
        expect(&rt, rt.alloc(), &error, row.want)?;
    }
    Ok(())
}

const NESTED: &str = "p: q: m, with [(\"k\", \"v\")], with [(\"l\", \"w\")]";

fn nested(alloc: Global) -> Result<Error, AllocError> {
    let inner = map_string_err_with_args(alloc, "q", "m", args(alloc, "k", "v")?);
    Ok(wrap_err_with_args(alloc, "p", inner, args(alloc, "l", "w")?))
}

#[test]
fn errors_within_are_the_body(rt: HostRuntime) -> Result<(), Fail> {
    let outer = nested(rt.alloc())?;
    assert!(rt; matches!(outer.kind(), ErrKind::Inner(_)));
    expect(&rt, rt.alloc(), &outer, NESTED)?;
    expect(&rt, rt.alloc(), &wrap_err(rt.alloc(), "", outer), NESTED)?;
    Ok(())
}

fn report(alloc: Global) -> Result<DiagMessage, AllocError> {
    let start = LspPosition {
        line: 1,
        character: 2,
    };
    Ok(DiagMessage {
        package: text(alloc, "@local/a:0.1.0")?,
        path: text(alloc, "/main.typ")?,
        message: text(alloc, "m")?,
        severity: DiagSeverity::Hint,
        range: Some(LspRange { start, end: start }),
    })
}

#[test]
fn reports_print_their_message(rt: HostRuntime) -> Result<(), Fail> {
    let alloc = rt.alloc();
    let report = report(alloc)?;
    expect(&rt, alloc, &report.severity, "hint")?;
    let error = Error::new("p", ErrKind::Diag(Box::new(alloc, report)?), None);
    expect(&rt, alloc, &error, "p: m")?;
    Ok(())
}

#[test]
fn severities_have_names_and_numbers(rt: HostRuntime) -> Result<(), Fail> {
    let rows = [
        (DiagSeverity::Error, 1, "error"),
        (DiagSeverity::Warning, 2, "warning"),
        (DiagSeverity::Information, 3, "information"),
        (DiagSeverity::Hint, 4, "hint"),
    ];
    for (severity, number, name) in rows {
        assert_eq!(rt; severity as u8, number);
        expect(&rt, rt.alloc(), &severity, name)?;
    }
    Ok(())
}

#[test]
fn shares_print_the_same(rt: HostRuntime) -> Result<(), Fail> {
    let alloc = rt.alloc();
    let error = nested(alloc)?;
    let again = error.share(alloc)?;
    expect(&rt, alloc, &again, NESTED)?;
    expect(
        &rt,
        alloc,
        &Error::new("p", error.kind().share(alloc)?, None),
        "p: q: m, with [(\"k\", \"v\")]",
    )?;
    let report = report(alloc)?.share(alloc)?;
    assert_eq!(rt; report.path.as_str(), "/main.typ");
    Ok(())
}
