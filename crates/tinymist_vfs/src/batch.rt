//! The items of a batch, in their order.
ghost use Rattle.std.specs.Prelude.{◌≡◌, [], ◌∷◌, ◌++◌, List, OnOk, OnErr, IfSome};
ghost use Rattle.std.specs.List.{list_any};
ghost use Rattle.ty_model.specs.Batch as change;
ghost use Rattle.tinymist_vfs.specs.Items.{item_of, items_of};
ghost use Rattle.tinymist_vfs.specs.ChangeSet.{removed_paths, inserted_files};

mod change_set;
pub(crate) mod item;
pub(crate) mod revise;

use crate::batch::item::{FileChangeSet, Item};
use std::alloc::Global;
use std::marker::Model;
use ty_cells::FileSnapshot;
use ty_path::{CleanPath, OutOfMemory};

/// The items of a batch, in their order. A `RevisingVfs` gathers them, and what holds the layers commits them.
#[derive(Drop)]
pub struct Batch {
    items: Vec<Item>,
}

impl Model for Batch {
    ghost use Rattle.std.specs.Prelude.{List};
    ghost use Rattle.ty_model.specs.Batch as change;
    ghost use Rattle.ty_model.specs.BatchCodes.{batch_code};
    ghost use Rattle.tinymist_vfs.specs.Items.{items_of};

    ghost Value = { List change.Item };

    ghost coded = { batch_code };

    ghost view = { λ b. items_of b.items.items };
}

impl Batch {
    pub(crate) fn new(alloc: Global) -> Batch
        ensures { result ≡ [] }
    {
        Batch {
            items: Vec::new(alloc),
        }
    }

    pub(crate) fn push(&mut self, item: Item) -> Result<(), OutOfMemory>
        ensures ok { OnOk result (self.new ≡ self.old ++ item_of item ∷ []) }
        ensures err { OnErr result (self.new ≡ self.old) }
    {
        self.items.push(item)?;
        Ok(())
    }

    pub(crate) fn items(&self) -> &[Item]
        ensures { items_of result.now ≡ self.now }
    {
        self.items.as_slice()
    }
}

pub(crate) fn changes_view(batch: &[Item]) -> bool
    ensures { result ≡ list_any (λ item. change.is_view (item_of item)) batch.now }
{
    batch.iter().any(|item| item.is_view())
}

/// The path and its shadow, where one path is mapped and nothing else is in the batch.
pub(crate) fn only_shadow(batch: &[Item]) -> Option<(&CleanPath, &FileSnapshot)>
    ensures { IfSome result (λ s. items_of batch.now ≡ change.MapPath s.0.now s.1.now ∷ []) }
{
    match batch {
        [Item::MapPath(path, shadow)] => Some((path, shadow)),
        _ => None,
    }
}

/// The change set, where nothing else is in the batch.
pub(crate) fn only_set(batch: &[Item]) -> Option<&FileChangeSet>
    ensures { IfSome result (λ s. items_of batch.now ≡ change.ChangeSet (removed_paths s.now) (inserted_files s.now) ∷ []) }
{
    match batch {
        [Item::ChangeSet(set)] => Some(set),
        _ => None,
    }
}
