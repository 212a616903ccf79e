//! A live state takes edits.
ghost use Rattle.std.specs.Prelude.{◌≡◌, ◌-◌, ◌^◌, ◌∷◌, [], Some, OnErr, IfOk, OnOk, IsErrOf};
ghost use Rattle.std.specs.FinMap as map;
ghost use Rattle.ty_model.specs.Batch as change;
ghost use Rattle.ty_model.specs.Paths.{clean};
ghost use Rattle.ty_model.specs.Values.{Content};
ghost use Rattle.tinymist_vfs.specs.Commits.{committed};

use tinymist_vfs::{ReviseFault, Vfs};
use ty_cells::FileSnapshot;
use ty_syntax::Bytes;

/// The file at a path has these bytes from now on, whatever the disk has. The answer is the revision, which
/// rises where the file had something else.
pub fn edit<R>(live: &mut Vfs<R>, path: &str, bytes: Bytes) -> Result<u64, ReviseFault>
    ensures edited { IfOk result (λ n. (live.new ≡ committed live.old (change.MapPath (clean path.now) (Content bytes) ∷ [])) × (n ≡ live.new.held.revision)) }
    ensures has { OnOk result (map.get live.new.held.layers.by_path (clean path.now) ≡ Some (Content bytes)) }
    ensures err { OnErr result (live.new ≡ live.old) }
    ensures full { IsErrOf result ReviseFault.Full → live.old.held.revision ≡ 2 ^ 64 - 1 }
{
    map_file(live, path, bytes)
}

/// Commits these bytes as the shadow of a path.
fn map_file<R>(live: &mut Vfs<R>, path: &str, bytes: Bytes) -> Result<u64, ReviseFault>
    ensures edited { IfOk result (λ n. (live.new ≡ committed live.old (change.MapPath (clean path.now) (Content bytes) ∷ [])) × (n ≡ live.new.held.revision)) }
    ensures err { OnErr result (live.new ≡ live.old) }
    ensures full { IsErrOf result ReviseFault.Full → live.old.held.revision ≡ 2 ^ 64 - 1 }
{
    let mut batch = live.revise()?;
    batch.map_shadow(path, FileSnapshot::from_bytes(bytes))?;
    batch.finish()
}
