//! Paths that are clean, as shared texts: keys that nobody cleans again.
ghost use Rattle.std.specs.Prelude.{◌≡◌, ℕ, List, Some, IfOk, refl, string_bytes};
ghost use Rattle.std.specs.Cmp.Lexicographic.{slice_cmp, pointwise, nat_list_eq_equiv, nat_list_cmp_total, texts_po, texts_ties};
ghost use Rattle.std.specs.Ordering.{nat_cmp};
ghost use Rattle.std.specs.Bool.{nat_eq};
ghost use Rattle.std.specs.Option.{option_map};
ghost use Rattle.std.specs.Hash as fed;
ghost use Rattle.ty_model.specs.Paths as plain;
ghost use Rattle.ty_path.specs.Clean.{if_clean};
ghost use Rattle.ty_path.specs.Shared.{path_text};

use crate::cleaned::clean;
use crate::joined::clean_join;
use crate::memory::{ImmutPath, OutOfMemory};
use crate::parts;
use crate::pass::is_clean;
use crate::share::Share;
use crate::written::or_dot;
use std::alloc::Global;
use std::cmp::Ordering;
use std::fmt;
use std::hash::{Hash, Hasher};
use std::marker::Model;
use std::sync::Arc;

/// A path that is its own cleaned form, as a shared text. It is compared, ordered and hashed as that text, and
/// contracts see the text.
#[derive(Drop)]
pub struct CleanPath {
    text: ImmutPath,
}

impl Model for CleanPath {
    ghost use Rattle.std.specs.Prelude.{◌≡◌, List, ℕ};
    ghost use Rattle.ty_model.specs.Paths as plain;
    ghost use Rattle.ty_path.specs.Shared.{path_text};

    ghost Value = { List ℕ };

    ghost view = { λ p. path_text p.text };

    ghost invariant = { λ p. plain.clean (path_text p.text) ≡ path_text p.text };
}

impl CleanPath {
    /// The cleaned form of a path. A clean one is copied.
    pub fn new(alloc: Global, path: &str) -> Result<CleanPath, OutOfMemory>
        ensures { IfOk result (λ cleaned. cleaned ≡ plain.clean path.now) }
    {
        Ok(CleanPath {
            text: Arc::new(alloc, clean(alloc, path)?)?,
        })
    }

    /// The cleaned form of a shared path. A clean one is shared.
    pub fn from_shared(alloc: Global, path: &ImmutPath) -> Result<CleanPath, OutOfMemory>
        ensures { IfOk result (λ cleaned. cleaned ≡ plain.clean (path_text path.now)) }
    {
        if !is_clean(path.as_str()) {
            return CleanPath::new(alloc, path.as_str());
        }
        Ok(CleanPath {
            text: path.share(alloc)?,
        })
    }

    /// The path, where it is its own cleaned form. It is told in one pass, and copied once.
    pub fn if_clean(alloc: Global, path: &str) -> Result<Option<CleanPath>, OutOfMemory>
        ensures { IfOk result (λ found. found ≡ if_clean path.now) }
    {
        if !is_clean(path) {
            return Ok(None);
        }
        Ok(Some(CleanPath {
            text: Arc::new(alloc, String::from_str(alloc, path)?)?,
        }))
    }

    /// The path as a text.
    pub fn as_str(&self) -> &str
        ensures text { result.now ≡ self.now }
        ensures clean { plain.clean result.now ≡ result.now }
    {
        self.text.as_str()
    }

    /// A share of the text.
    pub fn to_shared(&self, alloc: Global) -> Result<ImmutPath, OutOfMemory>
        ensures { IfOk result (λ path. path_text path ≡ self.now) }
    {
        self.text.share(alloc)
    }

    /// The text itself.
    pub fn into_shared(self) -> ImmutPath
        ensures text { path_text result ≡ self }
        ensures clean { plain.clean self ≡ self }
    {
        self.text
    }

    /// The cleaned form of `other` below this path. Where `other` is made of names alone, nothing is cleaned.
    pub fn join(&self, alloc: Global, other: &str) -> Result<CleanPath, OutOfMemory>
        ensures { IfOk result (λ path. path ≡ plain.clean (plain.join self.now other.now)) }
    {
        Ok(CleanPath {
            text: Arc::new(alloc, clean_join(alloc, self.as_str(), other)?)?,
        })
    }

    /// The path without its last component, where it has one that isn't the root; `.` where nothing else is left.
    /// It is cut at the last slash, and nothing is cleaned.
    pub fn parent(&self, alloc: Global) -> Result<Option<CleanPath>, OutOfMemory>
        ensures { IfOk result (λ path. path ≡ option_map plain.clean (plain.parent self.now)) }
    {
        match parts::before_last(self.text.as_str()) {
            Some(front) => Ok(Some(CleanPath {
                text: Arc::new(alloc, or_dot(String::from_str(alloc, front)?)?)?,
            })),
            None => Ok(None),
        }
    }

    /// The last component, where it is a name.
    pub fn file_name(&self, alloc: Global) -> Result<Option<String>, OutOfMemory>
        ensures { IfOk result (λ name. option_map string_bytes name ≡ plain.file_name self.now) }
    {
        parts::file_name(alloc, self.as_str())
    }
}

impl Share for CleanPath {
    ghost Seen = { List ℕ };

    ghost seen = { λ p. p };

    fn share(&self, alloc: Global) -> Result<CleanPath, OutOfMemory> {
        Ok(CleanPath {
            text: self.text.share(alloc)?,
        })
    }
}

impl PartialEq for CleanPath {
    ghost use Rattle.std.specs.Cmp as laws;

    ghost eq = { pointwise nat_eq };

    ghost laws = { laws.partial_equiv_from_equiv nat_list_eq_equiv };

    fn eq(&self, other: &CleanPath) -> bool {
        self.as_str() == other.as_str()
    }
}

impl Eq for CleanPath {
    ghost laws = { nat_list_eq_equiv };
}

impl PartialOrd for CleanPath {
    ghost partial_cmp = { λ x y. Some (slice_cmp nat_cmp x y) };

    ghost laws = { texts_po };

    fn partial_cmp(&self, other: &CleanPath) -> Option<Ordering> {
        Some(self.cmp(other))
    }
}

impl Ord for CleanPath {
    ghost cmp = { slice_cmp nat_cmp };

    ghost total = { nat_list_cmp_total };

    ghost matches_partial_cmp = { λ x y. refl };

    ghost matches_eq = { texts_ties };

    fn cmp(&self, other: &CleanPath) -> Ordering {
        self.as_str().as_bytes().cmp(other.as_str().as_bytes())
    }
}

impl Hash for CleanPath {
    ghost use Rattle.std.specs.Cmp.Rules.{hashing};
    ghost use borrow.Author.Rules.{rules};

    ghost hash_input = { λ p. fed.str p };

    ghost respects_eq = { Prim.search (hashing, rules) };

    fn hash<H: Hasher>(&self, state: &mut H) {
        self.as_str().hash(state);
    }
}

/// The path as it is.
impl fmt::Display for CleanPath {
    ghost output = { λ p. Some p };

    fn fmt<W: fmt::Write>(&self, f: &mut fmt::Formatter<W>) -> fmt::Result {
        f.pad(self.as_str())
    }
}

/// The path in quotes.
impl fmt::Debug for CleanPath {
    fn fmt<W: fmt::Write>(&self, f: &mut fmt::Formatter<W>) -> fmt::Result {
        fmt::Debug::fmt(self.as_str(), f)
    }
}
