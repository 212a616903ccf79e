//! When a path was dropped: the space that did it, and the revision.
ghost use Rattle.std.specs.Prelude.{◌≡◌};
ghost use Rattle.ty_model.specs.Version as model;

use std::marker::Model;

/// The number of a space, and the revision of a commit in it.
#[derive(Clone, Copy)]
pub(crate) struct Stamp {
    pub(crate) space: u64,
    pub(crate) revision: u64,
}

impl Model for Stamp {
    ghost use Rattle.ty_model.specs.Version as model;
    ghost use Rattle.ty_model.specs.Codes.{stamp_code};

    ghost Value = { model.Stamp };

    ghost coded = { stamp_code };

    ghost view = { λ s. record { space = s.space; revision = s.revision } };

    ghost inverse = { λ s. record { space = s.space; revision = s.revision } };
}

impl Stamp {
    /// The stamp of a commit.
    pub(crate) fn new(space: u64, revision: u64) -> Stamp
        ensures { result ≡ record { space = space; revision = revision } }
    {
        Stamp { space, revision }
    }

    /// Whether both are of one commit.
    pub(crate) fn same_as(&self, other: &Stamp) -> bool
        ensures { result ≡ model.same_stamp self.now other.now }
    {
        self.space == other.space && self.revision == other.revision
    }
}
