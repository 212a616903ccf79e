//! Maps under paths and ids, as finite maps.
ghost use Rattle.std.specs.Prelude.{◌≡◌, OnOk, OnErr};
ghost use Rattle.std.specs.Option.{option_copied};
ghost use Rattle.std.specs.FinMap as map;
ghost use Rattle.ty_path.specs.Shared.{path_text};
ghost use Rattle.tinymist_vfs.specs.Maps.{path_map, id_map};

use std::sync::ledger::Ledger;
use ty_path::{ImmutPath, OutOfMemory, Share};
use ty_persist::{Map, Steps};
use ty_syntax::FileId;

pub(crate) fn at_path<'m, X: Share>(files: &'m Map<ImmutPath, X>, path: &ImmutPath) -> Option<&'m X>
    ensures { option_copied result ≡ map.get (path_map files.now.entries) (path_text path.now) }
{
    files.get(path)
}

/// What is kept under the path with this text.
pub(crate) fn at_text<'m, X: Share>(files: &'m Map<ImmutPath, X>, path: &str) -> Option<&'m X>
    ensures { option_copied result ≡ map.get (path_map files.now.entries) path.now }
{
    files.get_text(path)
}

pub(crate) fn put_path<X: Share, L: Ledger>(
    files: &mut Map<ImmutPath, X>,
    path: ImmutPath,
    value: X,
    steps: &mut Steps<L>,
) -> Result<(), OutOfMemory>
    ensures ok { OnOk result (path_map files.new.entries ≡ map.insert (path_map files.old.entries) (path_text path) value) }
    ensures err { OnErr result (files.new ≡ files.old) }
{
    files.put(path, value, steps)?;
    Ok(())
}

pub(crate) fn take_path<X: Share, L: Ledger>(
    files: &mut Map<ImmutPath, X>,
    path: &ImmutPath,
    steps: &mut Steps<L>,
) -> Result<(), OutOfMemory>
    ensures { OnOk result (path_map files.new.entries ≡ map.remove (path_map files.old.entries) (path_text path.now)) }
{
    let _before = files.remove(path, steps)?;
    Ok(())
}

pub(crate) fn at_id<'m, X: Share>(files: &'m Map<FileId, X>, id: &FileId) -> Option<&'m X>
    ensures { option_copied result ≡ map.get (id_map files.now.entries) id.now }
{
    files.get(id)
}

pub(crate) fn put_id<X: Share, L: Ledger>(
    files: &mut Map<FileId, X>,
    id: FileId,
    value: X,
    steps: &mut Steps<L>,
) -> Result<(), OutOfMemory>
    ensures { OnOk result (id_map files.new.entries ≡ map.insert (id_map files.old.entries) id value) }
{
    files.put(id, value, steps)?;
    Ok(())
}

pub(crate) fn take_id<X: Share, L: Ledger>(
    files: &mut Map<FileId, X>,
    id: &FileId,
    steps: &mut Steps<L>,
) -> Result<(), OutOfMemory>
    ensures { OnOk result (id_map files.new.entries ≡ map.remove (id_map files.old.entries) id.now) }
{
    let _before = files.remove(id, steps)?;
    Ok(())
}
