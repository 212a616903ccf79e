//! What a watcher saw is told to the live state.
ghost use Rattle.std.specs.Prelude.{◌≡◌, ◌∷◌, [], OnErr, IfOk, OnOk, map};
ghost use Rattle.ty_model.specs.Batch as change;
ghost use Rattle.tinymist_vfs.specs.ChangeSet.{set_of};
ghost use Rattle.tinymist_vfs.specs.Commits.{committed};
ghost use Rattle.tinymist_vfs.specs.Items.{clean_file, clean_text};

use tinymist_vfs::{FilesystemEvent, ReviseFault, Vfs};

/// Takes what a watcher saw: files that are gone, and files with what they hold now. What an editor holds of a
/// file stays before it.
#[tactic(auto, using(crate::proofs::Edited::keeps_paths, crate::proofs::Edited::keeps_ids))]
pub fn take_event<R>(live: &mut Vfs<R>, event: FilesystemEvent) -> Result<u64, ReviseFault>
    ensures told { IfOk result (λ n. (live.new ≡ committed live.old (change.ChangeSet (map clean_text (set_of event).removes.items) (map clean_file (set_of event).inserts.items) ∷ [])) × (n ≡ live.new.held.revision)) }
    ensures paths { OnOk result (live.new.held.layers.by_path ≡ live.old.held.layers.by_path) }
    ensures ids { OnOk result (live.new.held.layers.by_id ≡ live.old.held.layers.by_id) }
    ensures err { OnErr result (live.new ≡ live.old) }
{
    let mut batch = live.revise()?;
    batch.notify_fs_event(event)?;
    batch.finish()
}
