//! Virtual paths: texts below some root, which never leave it.
ghost use Rattle.std.specs.Prelude.{◌≡◌, IsTrue, ◌+◌, ◌^◌, ◌<◌, ◌≤◌, ◌∷◌, ◌++◌, true, length, List, ℕ, [], IfOk, IfSome, IfNone};
ghost use Rattle.std.specs.Option.{option_map_or};
ghost use Rattle.std.specs.String.{string_bytes};
ghost use Rattle.std.specs.List.{list_any};
ghost use Rattle.ty_path.specs.Shared.{path_text};
ghost use Rattle.ty_model.specs.Paths as plain;
ghost use Rattle.ty_syntax.specs.VirtualPath.{IsVirtualPath};
ghost use Rattle.ty_syntax.specs.Below.{leads_down, virtualized, joined_path, IsBelow, is_virtual};
ghost use Rattle.ty_path.specs.Parts.{plain_component};

use std::alloc::Global;
use std::marker::Model;
use std::path::{Component, Path};
use std::sync::Arc;
use thiserror::Error;
use ty_path::{ImmutStr, OutOfMemory, Share, are_names, clean, clean_join, diff};

/// Why a text is no virtual path.
#[derive(Clone, Copy, Debug, PartialEq, Eq, Error)]
pub enum PathFault {
    /// A `..` goes above the root.
    #[error("the path leaves its root")]
    Escapes,
    /// The text holds a NUL byte.
    #[error("the path holds a NUL byte")]
    BadByte,
    /// No memory was left.
    #[error("out of memory")]
    OutOfMemory,
}

impl From<OutOfMemory> for PathFault {
    ghost use Rattle.ty_syntax.specs.declared.vpath.PathFault.TheVariants.{OutOfMemory as no_memory};

    ghost from_gives = { λ _ fault. fault ≡ no_memory };

    fn from(_: OutOfMemory) -> Self {
        PathFault::OutOfMemory
    }
}

/// A path below some root, which begins with a slash and is clean. Contracts see its text.
#[derive(Debug, Drop)]
pub struct VirtualPath {
    text: ImmutStr,
}

impl Model for VirtualPath {
    ghost use Rattle.std.specs.Prelude.{List, ℕ};
    ghost use Rattle.std.specs.Prelude.{IsTrue};
    ghost use Rattle.ty_path.specs.Shared.{path_text};
    ghost use Rattle.ty_syntax.specs.Below.{is_virtual};

    ghost Value = { List ℕ };

    ghost view = { λ p. path_text p.text };

    ghost invariant = { λ p. IsTrue (is_virtual (path_text p.text)) };
}

impl VirtualPath {
    /// The text below the root, cleaned. A slash at its front changes nothing. A text that is made of names alone
    /// behind its slash is copied as it is.
    ///
    /// # Errors
    ///
    /// `BadByte` exactly where the text holds a NUL byte, and else `Escapes` exactly where a `..` of it
    /// goes above the root.
    pub fn new(alloc: Global, text: &str) -> Result<VirtualPath, PathFault>
        ensures { IsVirtualPath (plain.virtual_path text.now) result }
    {
        if has_nul(text) {
            return Err(PathFault::BadByte);
        }
        let names = without_slash(text);
        if are_names(names) {
            return Ok(VirtualPath::of_text(alloc, after(alloc, "", names)?)?);
        }
        if escapes(text) {
            return Err(PathFault::Escapes);
        }
        let rooted = after(alloc, "", text)?;
        let text = clean(alloc, rooted.as_str())?;
        Ok(VirtualPath::of_text(alloc, text)?)
    }

    pub(crate) fn of_text(alloc: Global, text: String) -> Result<VirtualPath, OutOfMemory>
        requires { IsTrue (is_virtual (string_bytes text)) }
        ensures { IfOk result (λ vpath. vpath ≡ string_bytes text) }
    {
        Ok(VirtualPath {
            text: Arc::new(alloc, text)?,
        })
    }

    /// The virtual path of a path below a root. Both are cleaned, and a path without a root is not
    /// below one that has it, nor the other way round.
    ///
    /// # Errors
    ///
    /// `BadByte` exactly where the path holds a NUL byte, and else `Escapes` exactly where it doesn't
    /// stand below the root.
    pub fn virtualize(alloc: Global, root: &str, path: &str) -> Result<VirtualPath, PathFault>
        ensures vpath { IsVirtualPath (virtualized root.now path.now) result }
        ensures realized { IfOk result (λ vpath. plain.realize root.now vpath ≡ plain.clean path.now) }
    {
        if has_nul(path) {
            return Err(PathFault::BadByte);
        }
        let Some(way) = diff(alloc, path, root)? else {
            return Err(PathFault::Escapes);
        };
        if !leads_down(way.as_str()) {
            return Err(PathFault::Escapes);
        }
        let text = after(alloc, "", way.as_str())?;
        Ok(VirtualPath::of_text(alloc, text)?)
    }

    /// The virtual path of a text behind this path, with a slash between. It may lead up from the
    /// path, but not above the root.
    ///
    /// # Errors
    ///
    /// As those of `new` for the whole text.
    pub fn join(&self, alloc: Global, text: &str) -> Result<VirtualPath, PathFault>
        ensures { IsVirtualPath (joined_path self.now text.now) result }
    {
        let text = after(alloc, self.text.as_str(), text)?;
        VirtualPath::new(alloc, text.as_str())
    }

    /// The path below a root, cleaned. Below a clean root this takes one text, and cleans nothing.
    pub fn realize(&self, alloc: Global, root: &str) -> Result<String, OutOfMemory>
        ensures path { IfOk result (λ path. string_bytes path ≡ plain.realize root.now self.now) }
        ensures below { IfOk result (λ path. IsBelow root.now (string_bytes path)) }
    {
        // Reading the field tells the proof its invariant: the text is a virtual path.
        let _text = &self.text;
        clean_join(alloc, root, self.get_without_slash())
    }

    /// The text, which begins with a slash.
    pub fn get_with_slash(&self) -> &str
        ensures { result.now ≡ self.now }
    {
        self.text.as_str()
    }

    /// The text after its first slash.
    pub fn get_without_slash(&self) -> &str
        ensures { result.now ≡ plain.without_slash self.now }
    {
        without_slash(self.text.as_str())
    }
}

impl Share for VirtualPath {
    ghost Seen = { List ℕ };

    ghost seen = { λ p. p };

    fn share(&self, alloc: Global) -> Result<VirtualPath, OutOfMemory> {
        Ok(VirtualPath {
            text: self.text.share(alloc)?,
        })
    }
}

fn has_nul(text: &str) -> bool
    ensures { result ≡ plain.has_nul text.now }
{
    text.as_bytes().contains(&0)
}

/// The text after its first slash, where it begins with one.
fn without_slash(text: &str) -> &str
    ensures { result.now ≡ plain.without_slash text.now }
{
    match text.strip_prefix('/') {
        Some(rest) => rest,
        None => text,
    }
}

/// Whether some front of the text goes up more often than down.
fn escapes(text: &str) -> bool
    ensures { result ≡ plain.escapes text.now }
{
    let mut depth = 0;
    let mut rest = text;
    while let Some((part, after)) = first_part(rest) {
        let Some(deeper) = depth_after(depth, part) else {
            return true;
        };
        depth = deeper;
        rest = after;
    }
    depth_after(depth, rest).is_none()
}

/// The text before its first slash, and the text after it.
fn first_part(text: &str) -> Option<(&str, &str)>
    ensures some { IfSome result (λ cut. plain.parts_at 47 text.now ≡ cut.0.now ∷ plain.parts_at 47 cut.1.now) }
    ensures none { IfNone result (plain.parts_at 47 text.now ≡ text.now ∷ []) }
    ensures size { IfSome result (λ cut. length cut.0.now + length cut.1.now < length text.now) }
{
    text.split_once('/')
}

/// The depth after one more part, or none above the root.
fn depth_after(depth: usize, part: &str) -> Option<usize>
    requires { depth + length part.now < 2 ^ 64 }
    ensures climbs { (parts : List (List ℕ)) → plain.climbs_from depth (plain.counted (part.now ∷ parts)) ≡ option_map_or (λ d. plain.climbs_from d (plain.counted parts)) result true }
    ensures deeper { IfSome result (λ d. d ≤ depth + length part.now) }
{
    match part {
        "" | "." => Some(depth),
        ".." => depth.checked_sub(1),
        _ => Some(depth + 1),
    }
}

/// Whether a path has no component, or a name as its first one.
fn leads_down(path: &str) -> bool
    ensures { result ≡ leads_down (plain.components path.now) }
{
    match Path::new(path).components().next() {
        None => true,
        Some(first) => is_name(first),
    }
}

fn is_name(component: Component<'_>) -> bool
    ensures { result ≡ leads_down (plain_component component.entry ∷ []) }
{
    matches!(component, Component::Normal(_))
}

/// A text behind a path, with a slash between.
fn after(alloc: Global, path: &str, text: &str) -> Result<String, OutOfMemory>
    ensures { IfOk result (λ whole. string_bytes whole ≡ path.now ++ 47 ∷ text.now) }
{
    let mut whole = String::with_capacity(alloc, path.len() + 1 + text.len())?;
    whole.push_str(path)?;
    whole.push('/')?;
    whole.push_str(text)?;
    Ok(whole)
}
