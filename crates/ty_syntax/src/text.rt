//! The text of bytes.
ghost use Rattle.std.specs.Prelude.{◌≡◌, ◌≤◌, Some, None, MatchResult, IsTrue, IfOk};
ghost use Rattle.std.specs.Str.{IsCharBoundary};
ghost use Rattle.std.specs.String.{string_bytes};
ghost use Rattle.ty_syntax.specs.Text.{text_of, without_mark, is_place, is_span, spliced, begins, units_of, characters, units};
ghost use Rattle.ty_syntax.specs.declared.error.FileFault.TheVariants.{File};
ghost use Rattle.ty_syntax.specs.declared.error.FileError.TheVariants.{InvalidUtf8};

use crate::error::{FileError, FileFault, FileResult};
use std::alloc::Global;
use ty_path::OutOfMemory;

/// The byte order mark of UTF-8.
static MARK: [u8; 3] = [0xEF, 0xBB, 0xBF];

/// The text of bytes: what follows at most one byte order mark.
///
/// # Errors
///
/// `InvalidUtf8` exactly where that is not UTF-8.
pub fn text_of(bytes: &[u8]) -> FileResult<&str>
    ensures { MatchResult result (λ text. text_of bytes.now ≡ Some text.now) (λ fault. (fault ≡ File InvalidUtf8) × (text_of bytes.now ≡ None)) }
{
    match str::from_utf8(without_mark(bytes)) {
        Ok(text) => Ok(text),
        Err(_) => Err(FileFault::File(FileError::InvalidUtf8)),
    }
}

fn without_mark(bytes: &[u8]) -> &[u8]
    ensures { result.now ≡ without_mark bytes.now }
{
    match bytes.strip_prefix(&MARK) {
        Some(rest) => rest,
        None => bytes,
    }
}

/// Whether the text has this offset, and not inside a character.
pub(crate) fn is_place(text: &str, offset: usize) -> bool
    ensures value { result ≡ is_place text.now offset }
    ensures boundary { IsTrue result → IsCharBoundary text.now offset }
{
    text.is_char_boundary(offset)
}

/// Whether these offsets are a span of the text.
pub(crate) fn is_span(text: &str, from: usize, to: usize) -> bool
    ensures value { result ≡ is_span text.now from to }
    ensures start { IsTrue result → IsCharBoundary text.now from }
    ensures end { IsTrue result → IsCharBoundary text.now to }
{
    from <= to && is_place(text, from) && is_place(text, to)
}

/// The text with another one from one offset to another.
pub(crate) fn spliced(
    alloc: Global,
    text: &str,
    from: usize,
    to: usize,
    other: &str,
) -> Result<String, OutOfMemory>
    requires start { IsCharBoundary text.now from }
    requires end { IsCharBoundary text.now to }
    ensures { IfOk result (λ whole. string_bytes whole ≡ spliced text.now from to other.now) }
{
    let front = &text[..from];
    let rest = &text[to..];
    let room = (front.len() + rest.len()).saturating_add(other.len());
    let mut whole = String::with_capacity(alloc, room)?;
    whole.push_str(front)?;
    whole.push_str(other)?;
    whole.push_str(rest)?;
    Ok(whole)
}

fn begins(byte: u8) -> bool
    ensures { result ≡ begins byte }
{
    !(0x80..0xC0).contains(&byte)
}

/// The UTF-16 code units of the character that begins with this byte.
pub(crate) fn units_of(byte: u8) -> usize
    ensures value { result ≡ units_of byte }
    ensures few { result ≤ 2 }
{
    match byte {
        0x80..=0xBF => 0,
        0xF0.. => 2,
        _ => 1,
    }
}

/// How many characters begin in these bytes.
pub(crate) fn characters(bytes: &[u8]) -> usize
    ensures { result ≡ characters bytes.now }
{
    bytes.iter().filter(|byte| begins(**byte)).count()
}

/// How many UTF-16 code units these bytes have.
pub(crate) fn units(bytes: &[u8]) -> usize
    ensures { result ≡ units bytes.now }
{
    let mut units = 0;
    for byte in bytes {
        units += units_of(*byte);
    }
    units
}
