//! Steps are counted, and bounded by what is asked.
ghost use Rattle.std.specs.Prelude.{◌≡◌, ◌+◌, ◌*◌, ◌≤◌, IfOk, length};
ghost use Rattle.ty_model.specs.Held.{version_of};

use crate::views::UseFault;
use std::sync::ledger::Ledger;
use tinymist_vfs::{RootResolver, Vfs};
use ty_persist::Steps;
use ty_syntax::{FileId, Tags};

/// Takes a view, and asks whether ids are clean since a revision. However many files there are, it takes at
/// most eight steps of the maps, and four for each id.
pub fn view_and_ask<R: RootResolver, L: Ledger>(
    live: &Vfs<R>,
    tags: &mut Tags,
    steps: &mut Steps<L>,
    revision: u64,
    ids: &[FileId],
) -> Result<(Vfs<R>, bool), UseFault>
    ensures view { IfOk result (λ r. version_of R.known r.0 ≡ version_of R.known live.now) }
    ensures cost { steps.new ≤ steps.old + 8 + 4 * length ids.now }
{
    let view = live.snapshot(tags, steps)?;
    let clean = view.is_clean_compile(revision, ids, steps)?;
    Ok((view, clean))
}
