//! The text of an id by a fresh look-up, and the place of an offset in one.
ghost use Rattle.std.specs.Prelude.{◌≡◌, IfOk, string_bytes};
ghost use Rattle.ty_model.specs.Disk.{Told, IsFixed};
ghost use Rattle.ty_model.specs.Version as model;
ghost use Rattle.ty_syntax.specs.Lines.{place};
ghost use Rattle.tinymist_vfs.specs.Reading.{source_of};
ghost use Rattle.tinymist_session.specs.Machine.{source_at};
ghost use Rattle.session_grammar.specs.Reply.{at_reply};
ghost use Rattle.session_grammar.specs.Plain.{plain_reply};
ghost use Rattle.tinymist_session.specs.Shown.{GivesText};
ghost use Rattle.tinymist_plain.specs.Kept.{version_of, listed};

use crate::version::Version;
use std::alloc::Global;
use tinymist_session::Reply;
use ty_cells::{FileSnapshot, PathAccessModel};
use ty_path::{OutOfMemory, Share};
use ty_syntax::{FileId, FileResult, Source, detached_entry, text_of};

/// The text of the source of an id. That of the detached entry is empty, and asks for nothing.
pub(crate) fn text_for<M: PathAccessModel>(
    alloc: Global,
    version: &Version,
    disk: &mut M,
    id: &FileId,
) -> FileResult<String>
    ensures answer { (told : Told) (v : model.Version) → M.told disk.old ≡ Some told → version_of version.now ≡ listed v → GivesText (source_at v told id.now) result }
    ensures left { (told : Told) → M.told disk.old ≡ Some told → IsFixed told → M.told disk.new ≡ Some told }
{
    if *id == detached_entry(alloc)? {
        return Ok(String::new(alloc));
    }
    let answer = version.look(alloc, disk, id)?;
    text_in(alloc, answer)
}

/// The text of an answer.
fn text_in(alloc: Global, answer: FileSnapshot) -> FileResult<String>
    ensures { GivesText (source_of answer) result }
{
    let bytes = answer.into_content(alloc)?;
    let text = text_of(bytes.as_slice())?;
    Ok(copied(alloc, text)?)
}

fn copied(alloc: Global, text: &str) -> Result<String, OutOfMemory>
    ensures { IfOk result (λ copy. string_bytes copy ≡ text.now) }
{
    Ok(String::from_str(alloc, text)?)
}

/// The reply with the place of an offset in the text of an id, if there is one.
pub(crate) fn place_reply(
    alloc: Global,
    id: &FileId,
    text: String,
    offset: u64,
) -> Result<Reply, OutOfMemory>
    ensures { IfOk result (λ r. plain_reply r ≡ at_reply (place (string_bytes text) offset)) }
{
    let source = Source::new(alloc, id.share(alloc)?, text)?;
    match source.lines().byte_to_place(offset as usize) {
        Some(place) => Ok(Reply::AtPlace(place)),
        None => Ok(Reply::BadOffset),
    }
}
