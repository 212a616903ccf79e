//! The list of what stands at ids: the ids ascend, and each stands once.
ghost use Rattle.std.specs.Prelude.{◌≡◌, IfOk, OnOk};
ghost use Rattle.std.specs.Option.{option_copied};
ghost use Rattle.std.specs.FinMap as finmap;
ghost use Rattle.ty_model.specs.Values.{id_cmp, same_answer};
ghost use Rattle.ty_model.specs.Version.{same_id};
ghost use Rattle.ty_model.specs.Batch.{same_entries};
ghost use Rattle.tinymist_plain.specs.Lists.{id_pairs, without_id, IsIdPlace};

use std::alloc::Global;
use std::cmp::Ordering;
use ty_cells::FileSnapshot;
use ty_path::{OutOfMemory, Share};
use ty_syntax::FileId;

/// An id, and what it is mapped to.
#[derive(Drop)]
pub(crate) struct IdEntry {
    pub(crate) id: FileId,
    pub(crate) answer: FileSnapshot,
}

/// Where an id stands, or else where it is to be put.
fn place(entries: &[IdEntry], id: &FileId) -> Result<usize, usize>
    ensures { IsIdPlace id.now entries.now result }
{
    let mut i = 0;
    while i < entries.len() {
        match id.cmp(&entries[i].id) {
            Ordering::Less => return Err(i),
            Ordering::Equal => return Ok(i),
            Ordering::Greater => i += 1,
        }
    }
    Err(i)
}

/// Puts an answer at an id, in place of the one there.
pub(crate) fn put_id(
    entries: &mut Vec<IdEntry>,
    id: FileId,
    answer: FileSnapshot,
) -> Result<(), OutOfMemory>
    ensures { OnOk result (id_pairs entries.new.items ≡ finmap.put id_cmp id answer (id_pairs entries.old.items)) }
{
    match place(entries, &id) {
        Ok(i) => entries[i] = IdEntry { id, answer },
        Err(i) => entries.insert(i, IdEntry { id, answer })?,
    }
    Ok(())
}

/// Takes away what stands at an id.
pub(crate) fn remove_id(entries: &mut Vec<IdEntry>, id: &FileId)
    ensures { id_pairs entries.new.items ≡ without_id id.now (id_pairs entries.old.items) }
{
    entries.retain(|entry| *id != entry.id);
}

/// What stands at an id.
pub(crate) fn find_id<'e>(entries: &'e [IdEntry], id: &FileId) -> Option<&'e FileSnapshot>
    ensures { option_copied result ≡ finmap.find id_cmp id.now (id_pairs entries.now) }
{
    for entry in entries {
        if *id == entry.id {
            return Some(&entry.answer);
        }
    }
    None
}

/// A copy of what answers stand at ids.
pub(crate) fn copy_ids(alloc: Global, entries: &[IdEntry]) -> Result<Vec<IdEntry>, OutOfMemory>
    ensures { IfOk result (λ copy. id_pairs copy.items ≡ id_pairs entries.now) }
{
    let mut copy = Vec::new(alloc);
    for entry in entries {
        let id = entry.id.share(alloc)?;
        let answer = entry.answer.share(alloc)?;
        copy.push(IdEntry { id, answer })?;
    }
    Ok(copy)
}

/// Whether the same answers stand at the same ids.
pub(crate) fn same_ids(first: &[IdEntry], second: &[IdEntry]) -> bool
    ensures { result ≡ same_entries same_id same_answer (id_pairs first.now) (id_pairs second.now) }
{
    if first.len() != second.len() {
        return false;
    }
    for i in 0..first.len() {
        let (x, y) = (&first[i], &second[i]);
        if !(x.id == y.id && x.answer.same_as(&y.answer)) {
            return false;
        }
    }
    true
}
