//! Keys that are ordered as the texts that they hold, so that a text alone finds them.
ghost use Rattle.std.specs.Prelude.{◌≡◌, ℕ, List};
ghost use Rattle.std.specs.Ordering.{nat_cmp};
ghost use Rattle.std.specs.Cmp.Lexicographic.{slice_cmp};
ghost use Rattle.ty_path.specs.Shared.{path_text};

use std::cmp::Ordering;
use ty_path::{CleanPath, ImmutPath};

/// A key that is ordered as its text.
pub(crate) trait TextKey: Ord {
    ghost text_of: { Self → List ℕ };

    /// How a text compares with the key's.
    fn compare_with(&self, text: &str) -> Ordering
        ensures { result ≡ slice_cmp nat_cmp text.now (text_of self.now) };

    ghost reads: { (a b : Self) → Self.cmp a b ≡ slice_cmp nat_cmp (text_of a) (text_of b) };
}

impl TextKey for ImmutPath {
    ghost text_of = { path_text };

    ghost use Rattle.std.specs.Prelude.{refl};

    ghost reads = { λ a b. refl };

    fn compare_with(&self, text: &str) -> Ordering {
        text.as_bytes().cmp(self.as_bytes())
    }
}

impl TextKey for CleanPath {
    ghost text_of = { λ p. p };

    ghost use Rattle.std.specs.Prelude.{refl};

    ghost reads = { λ a b. refl };

    fn compare_with(&self, text: &str) -> Ordering {
        text.as_bytes().cmp(self.as_str().as_bytes())
    }
}
