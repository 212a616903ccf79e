//! The parts of a path: whether it begins at the root, its parent and its last name.
ghost use Rattle.std.specs.Prelude.{◌≡◌, IfOk, IfSome, IfNone, None, true, option_map, string_bytes};
ghost use Rattle.std.specs.Option.{option_copied};
ghost use Rattle.ty_model.specs.Paths as plain;
ghost use Rattle.ty_path.specs.Parts.{IsCut};

use crate::memory::OutOfMemory;
use crate::pass::is_clean;
use crate::written::text_of;
use std::alloc::Global;
use std::path::{Component, Path};

/// Whether the path begins with a slash.
pub fn is_absolute(path: &str) -> bool
    ensures { result ≡ plain.is_absolute path.now }
{
    path.starts_with('/')
}

/// The last component, where it is a name.
pub fn file_name(alloc: Global, path: &str) -> Result<Option<String>, OutOfMemory>
    ensures { IfOk result (λ name. option_map string_bytes name ≡ plain.file_name path.now) }
{
    let Some(last) = Path::new(path).components().next_back() else {
        return Ok(None);
    };
    let Component::Normal(name) = last else {
        return Ok(None);
    };
    Ok(Some(String::from_str(alloc, name)?))
}

/// The path without its last component, where it has one that isn't the root. Where no other
/// component is left this is the empty text. A clean path is cut at its last slash.
pub fn parent(alloc: Global, path: &str) -> Result<Option<String>, OutOfMemory>
    ensures { IfOk result (λ front. option_map string_bytes front ≡ plain.parent path.now) }
{
    if !is_clean(path) {
        return parent_anew(alloc, path);
    }
    match before_last(path) {
        Some(front) => Ok(Some(String::from_str(alloc, front)?)),
        None => Ok(None),
    }
}

/// What stands before the last component of a clean path, cut at the last slash.
pub(crate) fn before_last(path: &str) -> Option<&str>
    requires { plain.clean path.now ≡ path.now }
    ensures value { option_copied result ≡ plain.parent path.now }
    ensures cleaned { IfSome result (λ front. plain.clean front.now ≡ plain.or_dot front.now) }
{
    let Some((front, name)) = path.rsplit_once('/') else {
        return Some("");
    };
    if !front.is_empty() {
        Some(front)
    } else if !name.is_empty() {
        Some("/")
    } else {
        None
    }
}

/// An absolute clean path as its folder, which is clean too, and its last name. The root has neither.
pub fn folder_and_name(path: &str) -> Option<(&str, &str)>
    requires clean { plain.clean path.now ≡ path.now }
    requires absolute { plain.is_absolute path.now ≡ true }
    ensures some { IfSome result (λ cut. IsCut path.now cut.0.now cut.1.now) }
    ensures none { IfNone result (plain.parent path.now ≡ None) }
{
    let Some((front, name)) = path.rsplit_once('/') else {
        return None;
    };
    if !front.is_empty() {
        Some((front, name))
    } else if !name.is_empty() {
        Some(("/", name))
    } else {
        None
    }
}

/// The parent of any path, put together from its components.
fn parent_anew(alloc: Global, path: &str) -> Result<Option<String>, OutOfMemory>
    ensures { IfOk result (λ front. option_map string_bytes front ≡ plain.parent path.now) }
{
    let mut components = Path::new(path).components();
    let Some(last) = components.next_back() else {
        return Ok(None);
    };
    match last {
        Component::RootDir => Ok(None),
        _ => Ok(Some(text_of(alloc, components)?)),
    }
}
