//! A path below another.
ghost use Rattle.std.specs.Prelude.{◌≡◌, IfOk, string_bytes};
ghost use Rattle.ty_model.specs.Paths as plain;

use crate::cleaned::clean;
use crate::memory::OutOfMemory;
use crate::parts::is_absolute;
use crate::pass::{has_clean_parts, is_clean};
use std::alloc::Global;

/// `other` below `base`, with a slash between the two where `base` doesn't end with one.
///
/// An absolute `other` stands alone, and an empty side gives the other side.
pub fn join(alloc: Global, base: &str, other: &str) -> Result<String, OutOfMemory>
    ensures { IfOk result (λ text. string_bytes text ≡ plain.join base.now other.now) }
{
    if base.is_empty() || is_absolute(other) {
        return Ok(String::from_str(alloc, other)?);
    }
    if other.is_empty() {
        return Ok(String::from_str(alloc, base)?);
    }
    let mut text = String::with_capacity(alloc, base.len() + 1 + other.len())?;
    text.push_str(base)?;
    if !ends_in_slash(base) {
        text.push('/')?;
    }
    text.push_str(other)?;
    Ok(text)
}

/// The cleaned form of `other` below `base`. Where `base` is clean and `other` is made of names alone, this
/// takes one text and cleans nothing.
pub fn clean_join(alloc: Global, base: &str, other: &str) -> Result<String, OutOfMemory>
    ensures value { IfOk result
        (λ text. string_bytes text ≡ plain.clean (plain.join base.now other.now)) }
    ensures stays { IfOk result (λ text. plain.clean (string_bytes text) ≡ string_bytes text) }
{
    if !is_clean(base) || !has_clean_parts(other.as_bytes(), false) {
        return clean(alloc, join(alloc, base, other)?.as_str());
    }
    if base == "." {
        return Ok(String::from_str(alloc, other)?);
    }
    join(alloc, base, other)
}

/// Whether the path's last byte is a slash.
fn ends_in_slash(path: &str) -> bool
    ensures { result ≡ plain.ends_in_slash path.now }
{
    path.ends_with('/')
}
