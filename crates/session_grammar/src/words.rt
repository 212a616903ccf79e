//! The text of a line, and what stands in one field: numbers, paths and virtual paths.
ghost use Rattle.std.specs.Prelude.{◌≡◌, ◌<◌, ◌∷◌, IfOk, IfSome, IfNone, IsErrOf, Some, None, true, false};
ghost use Rattle.std.specs.Option.{option_map, option_and_then};
ghost use Rattle.std.specs.List.{list_all};
ghost use Rattle.session_grammar.specs.Grammar as grammar;

use crate::read_error::ReadError;
use std::alloc::Global;
use ty_path::{CleanPath, is_absolute, is_clean};
use ty_syntax::{PathFault, VirtualPath};

/// The line as text, where it is UTF-8 without control bytes but tabs.
pub(crate) fn text_of(line: &[u8]) -> Option<&str>
    ensures some { IfSome result (λ text. (text.now ≡ line.now) × (grammar.is_text line.now ≡ true)) }
    ensures none { IfNone result (grammar.is_text line.now ≡ false) }
{
    match std::str::from_utf8(line) {
        Ok(text) => { if is_plain(line) { Some(text) } else { None } }
        Err(_) => None,
    }
}

/// Whether no byte is a control byte but a tab, in one pass without branches.
fn is_plain(line: &[u8]) -> bool
    ensures { result ≡ list_all grammar.is_plain line.now }
{
    let mut plain = true;
    for byte in line {
        plain = plain & is_plain_byte(*byte);
    }
    plain
}

fn is_plain_byte(byte: u8) -> bool
    ensures { result ≡ grammar.is_plain byte }
{
    ((byte >= 32) & (byte != 127)) | (byte == b'\t')
}

/// A number in decimal without leading zeros.
pub fn number(word: &str) -> Option<u64>
    ensures { result ≡ grammar.number_of word.now }
{
    let digits = word.as_bytes();
    if digits.is_empty() {
        return None;
    }
    if digits.len() > 1 && digits[0] == b'0' {
        return None;
    }
    digits_from(0, digits)
}

/// The number that the digits write after those of `start`, below 2 ^ 64.
fn digits_from(start: u64, digits: &[u8]) -> Option<u64>
    ensures { result ≡ option_and_then grammar.fits_64 (grammar.decimal_from start digits.now) }
{
    let mut n = start;
    for d in digits {
        if *d < b'0' || *d > b'9' {
            return None;
        }
        let Some(tens) = n.checked_mul(10) else {
            return None;
        };
        let Some(next) = tens.checked_add(u64::from(*d - b'0')) else {
            return None;
        };
        n = next;
    }
    Some(n)
}

/// An absolute path that is its cleaned form.
pub(crate) fn path(alloc: Global, word: &str) -> Result<CleanPath, ReadError>
    ensures reads { IfOk result (λ r. grammar.path_of word.now ≡ Some r) }
    ensures none { IsErrOf result ReadError.NoCommand → grammar.path_of word.now ≡ None }
{
    if !is_absolute(word) {
        return Err(ReadError::NoCommand);
    }
    CleanPath::if_clean(alloc, word)?.ok_or(ReadError::NoCommand)
}

/// What stands after an ASCII sign.
pub(crate) fn after_sign(sign: char, word: &str) -> Option<&str>
    requires { sign < 128 }
    ensures some { IfSome result (λ rest. word.now ≡ sign ∷ rest.now) }
    ensures none { IfNone result (grammar.after_sign sign word.now ≡ None) }
{
    word.strip_prefix(sign)
}

/// A virtual path: an absolute path that is its cleaned form.
pub(crate) fn virtual_path(alloc: Global, word: &str) -> Result<VirtualPath, ReadError>
    ensures reads { IfOk result (λ r. grammar.vpath_of word.now ≡ Some r) }
    ensures none { IsErrOf result ReadError.NoCommand → grammar.vpath_of word.now ≡ None }
{
    if !is_absolute(word) || !is_clean(word) {
        return Err(ReadError::NoCommand);
    }
    match VirtualPath::new(alloc, word) {
        Ok(vpath) => Ok(vpath),
        Err(PathFault::OutOfMemory) => Err(ReadError::OutOfMemory),
        Err(_) => Err(ReadError::NoCommand),
    }
}
