//! Lists of what stands at paths: the paths ascend, and each stands once.
ghost use Rattle.std.specs.Prelude.{◌≡◌, IfOk, OnOk};
ghost use Rattle.std.specs.Option.{option_copied};
ghost use Rattle.std.specs.String.{string_bytes};
ghost use Rattle.std.specs.FinMap as finmap;
ghost use Rattle.std.specs.Str.{bytes_eq};
ghost use Rattle.ty_model.specs.Values.{text_cmp, same_answer};
ghost use Rattle.ty_model.specs.Version.{same_stamp};
ghost use Rattle.ty_model.specs.Batch.{same_entries};
ghost use Rattle.tinymist_plain.specs.Lists.{pairs, without, IsPlace};

use crate::stamp::Stamp;
use std::alloc::Global;
use std::cmp::Ordering;
use ty_cells::FileSnapshot;
use ty_path::{OutOfMemory, Share};

/// A path, and what stands there.
#[derive(Drop)]
pub(crate) struct Entry<A> {
    pub(crate) path: String,
    pub(crate) value: A,
}

/// Where a path stands, or else where it is to be put.
fn place<A>(entries: &[Entry<A>], path: &str) -> Result<usize, usize>
    ensures { IsPlace path.now entries.now result }
{
    let mut i = 0;
    while i < entries.len() {
        match path.as_bytes().cmp(entries[i].path.as_bytes()) {
            Ordering::Less => return Err(i),
            Ordering::Equal => return Ok(i),
            Ordering::Greater => i += 1,
        }
    }
    Err(i)
}

/// Puts a value at a path, in place of the one there.
pub(crate) fn put<A: Drop>(
    entries: &mut Vec<Entry<A>>,
    path: String,
    value: A,
) -> Result<(), OutOfMemory>
    ensures { OnOk result (pairs entries.new.items ≡ finmap.put text_cmp (string_bytes path) value (pairs entries.old.items)) }
{
    match place(entries, path.as_str()) {
        Ok(i) => entries[i] = Entry { path, value },
        Err(i) => entries.insert(i, Entry { path, value })?,
    }
    Ok(())
}

/// Takes away what stands at a path.
pub(crate) fn remove<A: Drop>(entries: &mut Vec<Entry<A>>, path: &str)
    ensures { pairs entries.new.items ≡ without path.now (pairs entries.old.items) }
{
    entries.retain(|entry| path != entry.path.as_str());
}

/// What stands at a path.
pub(crate) fn find<'e, A>(entries: &'e [Entry<A>], path: &str) -> Option<&'e A>
    ensures { option_copied result ≡ finmap.find text_cmp path.now (pairs entries.now) }
{
    for entry in entries {
        if path == entry.path.as_str() {
            return Some(&entry.value);
        }
    }
    None
}

/// A copy of what answers stand at paths.
pub(crate) fn copy_answers(
    alloc: Global,
    entries: &[Entry<FileSnapshot>],
) -> Result<Vec<Entry<FileSnapshot>>, OutOfMemory>
    ensures { IfOk result (λ copy. pairs copy.items ≡ pairs entries.now) }
{
    let mut copy = Vec::new(alloc);
    for entry in entries {
        let path = entry.path.clone()?;
        let value = entry.value.share(alloc)?;
        copy.push(Entry { path, value })?;
    }
    Ok(copy)
}

/// A copy of what stamps stand at paths.
pub(crate) fn copy_stamps(
    alloc: Global,
    entries: &[Entry<Stamp>],
) -> Result<Vec<Entry<Stamp>>, OutOfMemory>
    ensures { IfOk result (λ copy. pairs copy.items ≡ pairs entries.now) }
{
    let mut copy = Vec::new(alloc);
    for entry in entries {
        let path = entry.path.clone()?;
        let value = entry.value;
        copy.push(Entry { path, value })?;
    }
    Ok(copy)
}

/// Whether the same answers stand at the same paths.
pub(crate) fn same_answers(first: &[Entry<FileSnapshot>], second: &[Entry<FileSnapshot>]) -> bool
    ensures { result ≡ same_entries bytes_eq same_answer (pairs first.now) (pairs second.now) }
{
    if first.len() != second.len() {
        return false;
    }
    for i in 0..first.len() {
        let (x, y) = (&first[i], &second[i]);
        if !(x.path.as_str() == y.path.as_str() && x.value.same_as(&y.value)) {
            return false;
        }
    }
    true
}

/// Whether the same stamps stand at the same paths.
pub(crate) fn same_stamps(first: &[Entry<Stamp>], second: &[Entry<Stamp>]) -> bool
    ensures { result ≡ same_entries bytes_eq same_stamp (pairs first.now) (pairs second.now) }
{
    if first.len() != second.len() {
        return false;
    }
    for i in 0..first.len() {
        let (x, y) = (&first[i], &second[i]);
        if !(x.path.as_str() == y.path.as_str() && x.value.same_as(&y.value)) {
            return false;
        }
    }
    true
}
