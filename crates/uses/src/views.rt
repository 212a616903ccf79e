//! A compile reads through a view while the live state moves on.
ghost use Rattle.std.specs.Prelude.{◌≡◌, ◌∷◌, [], Some, IfOk, OnOk};
ghost use Rattle.std.specs.FinMap as map;
ghost use Rattle.ty_model.specs.Held.{version_of};
ghost use Rattle.ty_model.specs.LookUp.{Says, decision};
ghost use Rattle.ty_model.specs.Paths.{clean};
ghost use Rattle.ty_model.specs.Values.{Answer, Content};
ghost use Rattle.tinymist_vfs.specs.Reading.{source_of};

use crate::edits::edit;
use std::sync::ledger::Ledger;
use thiserror::Error;
use tinymist_vfs::{ReviseFault, RootResolver, Vfs};
use ty_cells::{OwnCells, PathAccessModel};
use ty_persist::Steps;
use ty_syntax::{Bytes, FileFault, FileId, Source, TagFault, Tags};

/// Why a use came to nothing.
#[derive(Debug, Drop, Error)]
pub enum UseFault {
    /// No view was made.
    #[error(transparent)]
    View(#[from] TagFault),
    /// The edit was refused.
    #[error(transparent)]
    Edit(#[from] ReviseFault),
    /// The file has no source.
    #[error(transparent)]
    File(#[from] FileFault),
}

/// Takes a view, edits the live state, and gives the source of an id through the view: it is of what the live
/// state had before the edit.
pub fn source_of_view<R: RootResolver, M: PathAccessModel, L: Ledger>(
    live: &mut Vfs<R>,
    tags: &mut Tags,
    steps: &mut Steps<L>,
    cells: &mut OwnCells<'_, M>,
    id: &FileId,
    path: &str,
    bytes: Bytes,
) -> Result<Source, UseFault>
    ensures old { (answer : Answer) → decision (version_of R.known live.old) id.now ≡ Says answer → IfOk result (λ source. source_of answer ≡ Content source.text) }
    ensures moved { OnOk result (map.get live.new.held.layers.by_path (clean path.now) ≡ Some (Content bytes)) }
{
    let view = live.snapshot(tags, steps)?;
    let _revision = edit(live, path, bytes)?;
    Ok(view.source(cells, id)?)
}
