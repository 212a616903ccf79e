//! One space: its edits, its snapshots, and what is asked of it.
ghost use Rattle.std.specs.Prelude.{◌≡◌, ◌+◌, ◌-◌, ◌^◌, ◌<◌, ◌∷◌, [], List, IfOk, OnOk, OnErr, Some, Err, string_bytes};
ghost use Rattle.ty_model.specs.Disk.{Told, IsFixed};
ghost use Rattle.ty_model.specs.LookUp.{look};
ghost use Rattle.ty_model.specs.Places.{place_of, detached_entry};
ghost use Rattle.ty_model.specs.Held.{Standing};
ghost use Rattle.ty_model.specs.Space as model;
ghost use Rattle.ty_model.specs.Space.{Space};
ghost use Rattle.ty_model.specs.Values.{Content};
ghost use Rattle.ty_model.specs.Standing.{are_clean};
ghost use Rattle.ty_model.specs.Version.{Version, same_id};
ghost use Rattle.ty_syntax.specs.Lines.{place};
ghost use Rattle.tinymist_vfs.specs.Commits.{committed};
ghost use Rattle.tinymist_vfs.specs.Items.{clean_item};
ghost use Rattle.tinymist_vfs.specs.Reading.{source_of};
ghost use Rattle.tinymist_session.specs.Machine.{source_at, clean_reply};
ghost use Rattle.session_grammar.specs.Reply.{reply_to, text_reply, line_reply, place_reply, at_reply};
ghost use Rattle.session_grammar.specs.Plain.{plain_reply};
ghost use Rattle.tinymist_session.specs.Shown.{GivesText, Shows, shown, known};

use session_grammar::Reply;
use std::alloc::Global;
use std::marker::Brand;
use std::sync::ledger::{Blank, Ledger};
use tinymist_vfs::{Item, MockRootResolver, PathResolution, ReviseFault, Vfs};
use ty_cells::{OwnCells, PathAccessModel};
use ty_path::{OutOfMemory, Share};
use ty_persist::Steps;
use ty_syntax::{
    Bytes, FileFault, FileId, FileResult, Lines, Source, TagFault, Tags, detached_entry, text_of,
};

/// Edits a space below the last revision, by one item.
pub(crate) fn edit_space(vfs: &mut Vfs<MockRootResolver>, item: Item) -> Result<u64, OutOfMemory>
    requires { vfs.old.held.revision < 2 ^ 64 - 1 }
    ensures ok { IfOk result (λ n. (vfs.new ≡ committed vfs.old (clean_item item ∷ [])) × (n ≡ vfs.new.held.revision)) }
    ensures err { OnErr result (vfs.new ≡ vfs.old) }
{
    match commit(vfs, item) {
        Ok(revision) => Ok(revision),
        Err(ReviseFault::Full) => unreachable!(),
        Err(ReviseFault::OutOfMemory) => Err(OutOfMemory),
    }
}

/// Commits an item in a batch of its own.
fn commit(vfs: &mut Vfs<MockRootResolver>, item: Item) -> Result<u64, ReviseFault>
    ensures ok { IfOk result (λ n. (vfs.new ≡ committed vfs.old (clean_item item ∷ [])) × (n ≡ vfs.new.held.revision)) }
    ensures err { OnErr result (vfs.new ≡ vfs.old) }
    ensures full { result ≡ Err ReviseFault.Full → vfs.old.held.revision ≡ 2 ^ 64 - 1 }
{
    let mut batch = vfs.revise()?;
    batch.push(item)?;
    batch.finish()
}

/// A copy under a fresh space number.
pub(crate) fn snapshot_of(
    live: &Vfs<MockRootResolver>,
    tags: &mut Tags,
) -> Result<Vfs<MockRootResolver>, TagFault>
    ensures revision { IfOk result (λ v. v.held.revision ≡ live.now.held.revision) }
    ensures shows { (space : Space) → Shows live.now space → IfOk result (λ v. Shows v (model.snapshot_of tags.old.next_space space)) }
    ensures tags { OnOk result (tags.new ≡ record tags.old { next_space = tags.old.next_space + 1 }) }
    ensures err { OnErr result (tags.new ≡ tags.old) }
    ensures full { result ≡ Err TagFault.Full → tags.old.next_space ≡ 2 ^ 64 - 1 }
{
    snapshot_counted::<Brand>(live, tags, Blank::new(1))
}

/// The same, with a count of steps that nobody reads.
fn snapshot_counted<L: Ledger>(
    live: &Vfs<MockRootResolver>,
    tags: &mut Tags,
    blank: Blank,
) -> Result<Vfs<MockRootResolver>, TagFault>
    requires name { blank.name ≡ L.name }
    requires parts { blank.parts ≡ L.parts }
    requires some { 0 < L.parts }
    ensures revision { IfOk result (λ v. v.held.revision ≡ live.now.held.revision) }
    ensures shows { (space : Space) → Shows live.now space → IfOk result (λ v. Shows v (model.snapshot_of tags.old.next_space space)) }
    ensures tags { OnOk result (tags.new ≡ record tags.old { next_space = tags.old.next_space + 1 }) }
    ensures err { OnErr result (tags.new ≡ tags.old) }
    ensures full { result ≡ Err TagFault.Full → tags.old.next_space ≡ 2 ^ 64 - 1 }
{
    let mut steps: Steps<L> = Steps::new(blank);
    live.snapshot(tags, &mut steps)
}

/// Reads an id in a version, over the disk.
#[tactic(auto, using(crate::proofs::Fixed::reads_fixed))]
pub(crate) fn read_of<M: PathAccessModel>(
    vfs: &Vfs<MockRootResolver>,
    disk: &mut M,
    id: &FileId,
) -> Result<Reply, OutOfMemory>
    ensures reply { (told : Told) → M.told disk.old ≡ Some told → IfOk result (λ r. plain_reply r ≡ reply_to (look (shown vfs.now).1 told id.now)) }
    ensures left { (told : Told) → M.told disk.old ≡ Some told → IsFixed told → M.told disk.new ≡ Some told }
{
    let mut cells = OwnCells::new(disk);
    match vfs.read(&mut cells, id) {
        Ok(bytes) => Ok(Reply::Contents(bytes)),
        Err(FileFault::File(error)) => Ok(Reply::Fails(error)),
        Err(FileFault::OutOfMemory) => Err(OutOfMemory),
    }
}

/// The reply with the source of an id in a version, over the disk.
pub(crate) fn source_of<M: PathAccessModel>(
    alloc: Global,
    vfs: &Vfs<MockRootResolver>,
    disk: &mut M,
    id: &FileId,
) -> Result<Reply, OutOfMemory>
    ensures reply { (told : Told) → M.told disk.old ≡ Some told → IfOk result (λ r. plain_reply r ≡ text_reply (source_at (shown vfs.now).1 told id.now)) }
    ensures left { (told : Told) → M.told disk.old ≡ Some told → IsFixed told → M.told disk.new ≡ Some told }
{
    match text_at(alloc, vfs, disk, id) {
        Ok(text) => Ok(Reply::Text(text)),
        Err(FileFault::File(error)) => Ok(Reply::Fails(error)),
        Err(FileFault::OutOfMemory) => Err(OutOfMemory),
    }
}

/// The reply with the place of an offset in the source of an id in a version, over the disk.
pub(crate) fn line_of<M: PathAccessModel>(
    alloc: Global,
    vfs: &Vfs<MockRootResolver>,
    disk: &mut M,
    id: &FileId,
    offset: u64,
) -> Result<Reply, OutOfMemory>
    ensures reply { (told : Told) → M.told disk.old ≡ Some told → IfOk result (λ r. plain_reply r ≡ line_reply offset (source_at (shown vfs.now).1 told id.now)) }
    ensures left { (told : Told) → M.told disk.old ≡ Some told → IsFixed told → M.told disk.new ≡ Some told }
{
    match text_at(alloc, vfs, disk, id) {
        Ok(text) => {
            let source = Source::new(alloc, id.share(alloc)?, text)?;
            Ok(place_in(source.lines(), offset))
        }
        Err(FileFault::File(error)) => Ok(Reply::Fails(error)),
        Err(FileFault::OutOfMemory) => Err(OutOfMemory),
    }
}

/// The text of the source of an id. That of the detached entry is empty, and asks for nothing.
#[tactic(auto, using(crate::proofs::Fixed::reads_fixed))]
fn text_at<M: PathAccessModel>(
    alloc: Global,
    vfs: &Vfs<MockRootResolver>,
    disk: &mut M,
    id: &FileId,
) -> FileResult<String>
    ensures answer { (told : Told) → M.told disk.old ≡ Some told → GivesText (source_at (shown vfs.now).1 told id.now) result }
    ensures left { (told : Told) → M.told disk.old ≡ Some told → IsFixed told → M.told disk.new ≡ Some told }
{
    if is_detached(alloc, id)? {
        return Ok(String::new(alloc));
    }
    let mut cells = OwnCells::new(disk);
    let bytes = vfs.read(&mut cells, id)?;
    text_in(alloc, &bytes)
}

/// The text of bytes, after at most one byte order mark.
fn text_in(alloc: Global, bytes: &Bytes) -> FileResult<String>
    ensures { GivesText (source_of (Content bytes.now)) result }
{
    let text = text_of(bytes.as_slice())?;
    Ok(copied(alloc, text)?)
}

fn copied(alloc: Global, text: &str) -> Result<String, OutOfMemory>
    ensures { IfOk result (λ copy. string_bytes copy ≡ text.now) }
{
    Ok(String::from_str(alloc, text)?)
}

/// Whether an id is the detached entry, which alone has its tag.
#[tactic(auto, using(crate::proofs::Detached::other_tag))]
fn is_detached(alloc: Global, id: &FileId) -> Result<bool, OutOfMemory>
    ensures { IfOk result (λ b. b ≡ same_id id.now detached_entry) }
{
    if id.tag() != 1 {
        return Ok(false);
    }
    Ok(*id == detached_entry(alloc)?)
}

/// The place of an offset.
fn place_in(lines: &Lines, offset: u64) -> Reply
    ensures { plain_reply result ≡ at_reply (place lines.now offset) }
{
    match lines.byte_to_place(offset as usize) {
        Some(place) => Reply::AtPlace(place),
        None => Reply::BadOffset,
    }
}

/// Where an id stands.
pub(crate) fn place_of(vfs: &Vfs<MockRootResolver>, id: &FileId) -> Result<Reply, OutOfMemory>
    ensures { IfOk result (λ r. plain_reply r ≡ place_reply id.now (place_of (shown vfs.now).1.resolver id.now)) }
{
    match vfs.file_path(id) {
        Ok(PathResolution::Resolved(path)) => Ok(Reply::AtPath(path)),
        Ok(PathResolution::Rootless(vpath)) => Ok(Reply::RootlessAt(vpath)),
        Err(FileFault::File(error)) => Ok(Reply::Fails(error)),
        Err(FileFault::OutOfMemory) => Err(OutOfMemory),
    }
}

/// Whether ids are clean since a revision that the space had.
pub(crate) fn clean_since(
    vfs: &Vfs<MockRootResolver>,
    revision: u64,
    ids: &[FileId],
) -> Result<Reply, OutOfMemory>
    ensures { (space : Space) → Shows vfs.now space → IfOk result (λ r. plain_reply r ≡ clean_reply space revision ids.now) }
{
    if revision < 2 || revision > vfs.revision() {
        return Ok(Reply::BadRevision);
    }
    match are_clean(vfs, revision, ids) {
        Ok(clean) => Ok(Reply::IsClean(clean)),
        Err(_) => Err(OutOfMemory),
    }
}

/// Whether ids are clean since a revision.
fn are_clean(vfs: &Vfs<MockRootResolver>, revision: u64, ids: &[FileId]) -> FileResult<bool>
    ensures { (past : List Version) → Standing known vfs.now past → IfOk result (λ b. b ≡ are_clean ((shown vfs.now).1 ∷ past) revision ids.now) }
{
    are_clean_counted::<Brand>(vfs, revision, ids, Blank::new(1))
}

/// The same, with a count of look-ups that nobody reads.
fn are_clean_counted<L: Ledger>(
    vfs: &Vfs<MockRootResolver>,
    revision: u64,
    ids: &[FileId],
    blank: Blank,
) -> FileResult<bool>
    requires name { blank.name ≡ L.name }
    requires parts { blank.parts ≡ L.parts }
    requires some { 0 < L.parts }
    ensures { (past : List Version) → Standing known vfs.now past → IfOk result (λ b. b ≡ are_clean ((shown vfs.now).1 ∷ past) revision ids.now) }
{
    let mut steps: Steps<L> = Steps::new(blank);
    vfs.is_clean_compile(revision, ids, &mut steps)
}
