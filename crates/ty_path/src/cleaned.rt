//! Plainer forms of a path.
ghost use Rattle.std.specs.Prelude.{◌≡◌, ◌++◌, ◌∷◌, [], reverse, IfOk, OnOk, string_bytes};
ghost use Rattle.ty_model.specs.Paths as plain;
ghost use Rattle.ty_path.specs.Parts.{plain_component, name_first, without_name, IsOpen};

use crate::memory::OutOfMemory;
use crate::pass::is_clean;
use crate::written::{close, component_text, or_dot, push_part};
use std::alloc::Global;
use std::path::{Component, Path};

/// The cleaned form of a path: no `.`, no empty part and no `..` that can be taken back. `..` at
/// the root is dropped, and where nothing is left this is `.`. A clean path is copied as it is.
pub fn clean(alloc: Global, path: &str) -> Result<String, OutOfMemory>
    ensures value { IfOk result (λ text. string_bytes text ≡ plain.clean path.now) }
    ensures stays { IfOk result (λ text. plain.clean (string_bytes text) ≡ string_bytes text) }
{
    if is_clean(path) {
        return Ok(String::from_str(alloc, path)?);
    }
    clean_anew(alloc, path)
}

/// The cleaned form, put together from the components.
fn clean_anew(alloc: Global, path: &str) -> Result<String, OutOfMemory>
    ensures value { IfOk result (λ text. string_bytes text ≡ plain.clean path.now) }
    ensures stays { IfOk result (λ text. plain.clean (string_bytes text) ≡ string_bytes text) }
{
    let mut text = String::with_capacity(alloc, path.len() + 1)?;
    for component in Path::new(path).components() {
        keep(&mut text, component)?;
    }
    close(&mut text);
    or_dot(text)
}

/// The cleaned form of a path without each `..` that has nothing to take back, so the empty text
/// where nothing is left.
pub fn normalize_path(alloc: Global, path: &str) -> Result<String, OutOfMemory>
    ensures { IfOk result (λ text. string_bytes text ≡ plain.normalize_path path.now) }
{
    let mut text = String::with_capacity(alloc, path.len() + 1)?;
    for component in Path::new(path).components() {
        match component {
            Component::ParentDir => {
                take_back(&mut text);
            }
            _ => keep(&mut text, component)?,
        }
    }
    close(&mut text);
    Ok(text)
}

/// The components but `.` with a slash between each two, and `.` where nothing is left.
pub fn unix_slash(alloc: Global, path: &str) -> Result<String, OutOfMemory>
    ensures { IfOk result (λ text. string_bytes text ≡ plain.unix_slash path.now) }
{
    let mut text = String::with_capacity(alloc, path.len() + 1)?;
    for component in Path::new(path).components() {
        match component {
            Component::CurDir => {}
            _ => push_part(&mut text, component_text(component))?,
        }
    }
    close(&mut text);
    or_dot(text)
}

/// Takes one more component to those that are kept.
fn keep(text: &mut String, component: Component<'_>) -> Result<(), OutOfMemory>
    requires { IsOpen (string_bytes text.old) }
    ensures { let kept = plain.components (string_bytes text.old) in
        let more = kept ++ plain_component component.entry ∷ [] in
        OnOk result (string_bytes text.new ≡ plain.slashes (plain.cleaned more)) }
{
    match component {
        Component::RootDir => push_part(text, ""),
        Component::CurDir => Ok(()),
        Component::ParentDir => go_up(text),
        Component::Normal(name) => push_part(text, name),
    }
}

/// Takes the last name back, or adds `..` where there is none and the text isn't the root.
fn go_up(text: &mut String) -> Result<(), OutOfMemory>
    requires { IsOpen (string_bytes text.old) }
    ensures { let more = plain.components (string_bytes text.old) ++ plain.ParentDir ∷ [] in
        OnOk result (string_bytes text.new ≡ plain.slashes (plain.cleaned more)) }
{
    if take_back(text) || text.as_str() == "/" {
        return Ok(());
    }
    push_part(text, "..")
}

/// Takes the last component back where it is a name, and says whether it was.
fn take_back(text: &mut String) -> bool
    requires { IsOpen (string_bytes text.old) }
    ensures taken { result ≡ name_first (reverse (plain.components (string_bytes text.old))) }
    ensures front { let kept = reverse (plain.components (string_bytes text.old)) in
        string_bytes text.new ≡ plain.slashes (reverse (without_name kept)) }
{
    let Some(last) = Path::new(text.as_str()).components().next_back() else {
        return false;
    };
    let Component::Normal(name) = last else {
        return false;
    };
    let front = text.len() - (name.len() + 1);
    text.truncate(front);
    true
}
