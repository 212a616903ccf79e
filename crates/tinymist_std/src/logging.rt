//! Failures that are told to a log and otherwise passed over.
ghost use Rattle.std.specs.Prelude.{◌≡◌, Option};
ghost use Rattle.std.specs.Option.{ForNone};
ghost use Rattle.std.specs.Result.{result_ok};

use log::{Log, error};
use std::fmt::Display;

/// Gives a value up to a log: a failure is told there, as a record of level error.
pub trait IgnoreLogging<T>: Sized {
    // The value, where it is no failure.
    ghost value_of: { Self → Option T };

    /// The value. A failure is told as the text, and an error as the text, `: ` and what it prints.
    fn log_error<L: Log>(self, rt: &L, msg: &str) -> Option<T>
        ensures { result ≡ value_of self };

    /// The same with a text that the closure gives. It is called only for a failure.
    fn log_error_with<L: Log, G: FnOnce() -> String + Drop>(self, rt: &L, f: G) -> Option<T>
        requires { ForNone (value_of self) (G.pre f) }
        ensures { result ≡ value_of self };
}

impl<T: Drop, E: Display + Drop> IgnoreLogging<T> for Result<T, E> {
    ghost value_of = { result_ok };

    fn log_error<L: Log>(self, rt: &L, msg: &str) -> Option<T> {
        match self {
            Ok(value) => Some(value),
            Err(error) => {
                error!(rt; "{msg}: {error}");
                None
            }
        }
    }

    fn log_error_with<L: Log, G: FnOnce() -> String + Drop>(self, rt: &L, f: G) -> Option<T> {
        match self {
            Ok(value) => Some(value),
            Err(error) => {
                let msg = f();
                error!(rt; "{msg}: {error}");
                None
            }
        }
    }
}

impl<T: Drop> IgnoreLogging<T> for Option<T> {
    ghost value_of = { λ o. o };

    fn log_error<L: Log>(self, rt: &L, msg: &str) -> Option<T> {
        if self.is_none() {
            error!(rt; "{msg}");
        }
        self
    }

    fn log_error_with<L: Log, G: FnOnce() -> String + Drop>(self, rt: &L, f: G) -> Option<T> {
        if self.is_none() {
            let msg = f();
            error!(rt; "{msg}");
        }
        self
    }
}
