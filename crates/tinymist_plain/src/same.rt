//! Whether two lists have the same at one path or id.
ghost use Rattle.std.specs.Prelude.{◌≡◌};
ghost use Rattle.std.specs.Option.{option_copied};
ghost use Rattle.ty_model.specs.Values as model;
ghost use Rattle.ty_model.specs.Version as stamps;
ghost use Rattle.ty_model.specs.Standing.{same_option};

use crate::stamp::Stamp;
use ty_cells::FileSnapshot;

/// Whether both are the same answer, or neither is one.
pub(crate) fn same_answer(first: Option<&FileSnapshot>, second: Option<&FileSnapshot>) -> bool
    ensures { result ≡ same_option model.same_answer (option_copied first.entry) (option_copied second.entry) }
{
    match (first, second) {
        (Some(first), Some(second)) => first.same_as(second),
        (None, None) => true,
        _ => false,
    }
}

/// Whether both are the same stamp, or neither is one.
pub(crate) fn same_stamp(first: Option<&Stamp>, second: Option<&Stamp>) -> bool
    ensures { result ≡ same_option stamps.same_stamp (option_copied first.entry) (option_copied second.entry) }
{
    match (first, second) {
        (Some(first), Some(second)) => first.same_as(second),
        (None, None) => true,
        _ => false,
    }
}
