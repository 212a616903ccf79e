//! One path from another: what is left after a front, and the way between two.
ghost use Rattle.std.specs.Prelude.{◌≡◌, ◌++◌, IfOk, IsTrue, not, map, option_map, string_bytes};
ghost use Rattle.std.specs.List.{list_any};
ghost use Rattle.std.specs.Bool.{OnTrue};
ghost use Rattle.std.specs.Cow.{cow_str_bytes};
ghost use Rattle.ty_model.specs.Paths as plain;
ghost use Rattle.ty_path.specs.Parts.{plain_component};

use crate::cleaned::clean;
use crate::memory::OutOfMemory;
use crate::parts::is_absolute;
use crate::written::{close, push_components, push_part, text_of};
use std::alloc::Global;
use std::borrow::CowStr;
use std::path::{Component, Path};

/// The rest of the path after all components of `base`, where it begins with them. Where nothing
/// is left this is the empty text.
pub fn strip_prefix(alloc: Global, path: &str, base: &str) -> Result<Option<String>, OutOfMemory>
    ensures { IfOk result
        (λ rest. option_map string_bytes rest ≡ plain.strip_prefix path.now base.now) }
{
    match Path::new(path).strip_prefix(base) {
        Ok(rest) => Ok(Some(text_of(alloc, rest.components())?)),
        Err(_) => Ok(None),
    }
}

/// The way from `base` to the path, both cleaned: a `..` for each component of `base` that the
/// path doesn't begin with, and then the rest of the path. Where nothing is left this is the empty
/// text.
///
/// From a relative `base` to an absolute path this is the path itself, cleaned where it has `.` or
/// `..`. There is no way from an absolute `base` to a relative path, nor where a `..` is left of
/// `base`.
pub fn diff(alloc: Global, path: &str, base: &str) -> Result<Option<String>, OutOfMemory>
    ensures { IfOk result (λ way. option_map string_bytes way ≡ plain.diff path.now base.now) }
{
    if is_absolute(path) && !is_absolute(base) {
        return Ok(Some(without_dots(alloc, path)?.into_owned(alloc)?));
    }
    if is_absolute(base) && !is_absolute(path) {
        return Ok(None);
    }
    let path = cleaned_parts(alloc, path)?;
    let base = cleaned_parts(alloc, base)?;
    let (down, up) = apart(path.as_str(), base.as_str());
    way(alloc, down, up)
}

/// The path, cleaned where it has `.` or `..`.
fn without_dots(alloc: Global, path: &str) -> Result<CowStr<'_, Global>, OutOfMemory>
    ensures { IfOk result (λ text. cow_str_bytes text ≡ plain.without_dots path.now) }
{
    if has_dots(path) {
        Ok(CowStr::Owned(clean(alloc, path)?))
    } else {
        Ok(CowStr::Borrowed(path))
    }
}

/// Whether some part of the path is `.` or `..`.
fn has_dots(path: &str) -> bool
    ensures { result ≡ plain.has_dots path.now }
{
    path.split('/').any(|part| part == "." || part == "..")
}

/// A text with the components of the cleaned path, where `.` alone is none.
fn cleaned_parts(alloc: Global, path: &str) -> Result<CowStr<'_, Global>, OutOfMemory>
    ensures { let cleaned = plain.cleaned (plain.components path.now) in
        IfOk result (λ text. plain.components (cow_str_bytes text) ≡ cleaned) }
{
    let text = without_dots(alloc, path)?;
    if text.as_str() == "." {
        return Ok(CowStr::Borrowed(""));
    }
    Ok(text)
}

/// Both paths without the components that they begin with in common.
fn apart<'a, 'b>(path: &'a str, base: &'b str) -> (&'a str, &'b str)
    ensures { (plain.components result.0.now, plain.components result.1.now)
        ≡ plain.apart (plain.components path.now) (plain.components base.now) }
{
    let mut down = path;
    let mut up = base;
    loop {
        let mut after_down = Path::new(down).components();
        let mut after_up = Path::new(up).components();
        let Some(next) = after_down.next() else {
            return (down, up);
        };
        let Some(other) = after_up.next() else {
            return (down, up);
        };
        if !is_same(next, other) {
            return (down, up);
        }
        down = after_down.as_path().as_str();
        up = after_up.as_path().as_str();
    }
}

/// Whether two components are the same.
fn is_same(one: Component<'_>, other: Component<'_>) -> bool
    ensures { result
        ≡ plain.same_component (plain_component one.entry) (plain_component other.entry) }
{
    one == other
}

/// Up once for each component of `up`, and then down to `down`. There is no way up from a `..`.
fn way(alloc: Global, down: &str, up: &str) -> Result<Option<String>, OutOfMemory>
    requires { plain.AllMayFollow (plain.components down.now) }
    ensures { let all_ups = plain.components up.now in IfOk result
        (λ text. option_map string_bytes text ≡ plain.way (plain.components down.now) all_ups) }
{
    let mut text = String::with_capacity(alloc, up.len() + 1 + down.len())?;
    if !push_ups(&mut text, up)? {
        return Ok(None);
    }
    push_components(&mut text, Path::new(down).components())?;
    close(&mut text);
    Ok(Some(text))
}

/// Adds `..` for each component, unless one of them is `..` itself; says whether none was.
fn push_ups(text: &mut String, up: &str) -> Result<bool, OutOfMemory>
    ensures none { IfOk result
        (λ done. done ≡ not (list_any plain.is_up (plain.components up.now))) }
    ensures ups { let ups = map (λ c. plain.ParentDir) (plain.components up.now) in IfOk result
        (λ done. OnTrue done (string_bytes text.new ≡ string_bytes text.old ++ plain.slashes ups)) }
{
    for component in Path::new(up).components() {
        match component {
            Component::ParentDir => return Ok(false),
            _ => push_part(text, "..")?,
        }
    }
    Ok(true)
}
