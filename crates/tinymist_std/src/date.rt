//! Dates: instants from seconds, and days as text.
ghost use Rattle.std.specs.Prelude.{◌≡◌, ◌↔◌, ℤ, pos, ◌*ℤ◌, IsSome, IfSome, IfOk, string_bytes};
ghost use Rattle.jiff.specs.Words.{IsTimestampNanos};
ghost use Rattle.tinymist_std.specs.Date.{date_text};

use jiff::Timestamp;
use jiff::civil::Date;
use std::alloc::Global;
use ty_path::OutOfMemory;

/// What tells an instant.
pub trait ToUtcDateTime {
    // The nanoseconds from the beginning of 1970 in UTC to the instant.
    ghost nanosecond_of: { Self → ℤ };

    /// The instant; `None` exactly where it lies outside the years that `jiff` has.
    fn to_utc_datetime(self) -> Option<Timestamp>
        ensures succeeds { IsSome result ↔ IsTimestampNanos (nanosecond_of self) }
        ensures value { IfSome result (λ t. t.nanosecond ≡ nanosecond_of self) };
}

/// Seconds from the beginning of 1970 in UTC.
impl ToUtcDateTime for i64 {
    ghost nanosecond_of = { λ second. second *ℤ pos 1_000_000_000 };

    fn to_utc_datetime(self) -> Option<Timestamp> {
        Timestamp::from_second(self).ok()
    }
}

/// The day as `YYYY-MM-DD`, with a further `-` before a year below 0.
#[tactic(auto, using(crate::proofs::PaddedNumbers::padded_is_zero_padded))]
pub fn yyyy_mm_dd(alloc: Global, date: Date) -> Result<String, OutOfMemory>
    ensures { IfOk result (λ text. string_bytes text ≡ date_text date.year date.month date.day) }
{
    let sign = if date.year() < 0 { "-" } else { "" };
    let year = date.year().unsigned_abs();
    let month = date.month().unsigned_abs();
    let day = date.day().unsigned_abs();
    match format!(in alloc; "{sign}{year:04}-{month:02}-{day:02}") {
        Ok(text) => Ok(text),
        Err(_) => Err(OutOfMemory),
    }
}
