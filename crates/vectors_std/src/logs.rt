//! Failures that are told to a log.
use crate::errors::text;
use log::sink::{Lines, Memory};
use log::{Level, Log, Logged};
use std::alloc::{AllocError, Global};
use std::process::Abort;
use std::test::Fail;
use tinymist_std::IgnoreLogging;

fn failed() -> Result<u8, &'static str> {
    Err("m")
}

fn found() -> Result<u8, &'static str> {
    Ok(7)
}

fn expect_lines(rt: &impl Abort, lines: Lines, expected: &[&str]) {
    assert_eq!(rt; lines.len(), expected.len());
    for (line, text) in lines.as_slice().iter().zip(expected) {
        assert!(rt; line.as_str() == *text, "{line:?} is not {text:?}");
    }
}

fn tell_errors<L: Log + Abort>(logged: &L, alloc: Global) -> Result<(), AllocError> {
    let late = text(alloc, "late")?;
    assert_eq!(logged; failed().log_error(logged, "t"), None);
    assert_eq!(logged; failed().log_error_with(logged, move || late), None);
    Ok(())
}

fn tell_absent<L: Log + Abort>(logged: &L, alloc: Global) -> Result<(), AllocError> {
    let none = text(alloc, "none")?;
    assert_eq!(logged; None::<u8>.log_error(logged, "absent"), None);
    assert_eq!(logged; None::<u8>.log_error_with(logged, move || none), None);
    Ok(())
}

#[test]
fn failures_are_told_to_the_log(rt: HostRuntime) -> Result<(), Fail> {
    let alloc = rt.alloc();
    let sink = Memory::new(alloc);
    let logged = Logged::new(rt, Level::Error, &sink);
    tell_errors(&logged, alloc)?;
    tell_absent(&logged, alloc)?;
    let expected = [
        "[ERROR tinymist_std::logging] t: m",
        "[ERROR tinymist_std::logging] late: m",
        "[ERROR tinymist_std::logging] absent",
        "[ERROR tinymist_std::logging] none",
    ];
    expect_lines(&rt, sink.into_lines(), &expected);
    Ok(())
}

fn tell_values<L: Log + Abort>(logged: &L, alloc: Global) -> Result<(), AllocError> {
    let unused = text(alloc, "unused")?;
    let also_unused = text(alloc, "unused")?;
    assert_eq!(logged; found().log_error(logged, "t"), Some(7));
    assert_eq!(logged; found().log_error_with(logged, move || unused), Some(7));
    assert_eq!(logged; Some(7).log_error(logged, "t"), Some(7));
    assert_eq!(logged;
        Some(7).log_error_with(logged, move || also_unused),
        Some(7)
    );
    Ok(())
}

#[test]
fn values_are_not_told_to_the_log(rt: HostRuntime) -> Result<(), Fail> {
    let alloc = rt.alloc();
    let sink = Memory::new(alloc);
    let logged = Logged::new(rt, Level::Error, &sink);
    tell_values(&logged, alloc)?;
    expect_lines(&rt, sink.into_lines(), &[]);
    Ok(())
}
