//! Replies and their lines.
ghost use Rattle.std.specs.Prelude.{◌≡◌, ◌∷◌, ◌++◌, [], IfOk, OnOk, map};
ghost use Rattle.std.specs.Fmt.{decimal};
ghost use Rattle.std.specs.String.{string_bytes};
ghost use Rattle.hex.specs.Hex.{encode_lower};
ghost use Rattle.ty_path.specs.Shared.{path_text};
ghost use Rattle.session_grammar.specs.Reply.{reply_line, fail_word, id_word, AtPlace, PathList, IdList};
ghost use Rattle.ty_syntax.specs.Error.{refusal_of};
ghost use Rattle.session_grammar.specs.Plain.{plain_reply};

use crate::digits::encode;
use itoa::Buffer;
use std::alloc::{AllocError, Global};
use tinymist_vfs::WorkspaceResolver;
use ty_path::ImmutPath;
use ty_syntax::{Bytes, FileError, FileId, Place, Root, VirtualPath};

/// What a step replies.
#[derive(Drop)]
pub enum Reply {
    /// The revision after an edit.
    AtRevision(u64),
    /// The number of a new view.
    ViewNumber(usize),
    /// The bytes of a file.
    Contents(Bytes),
    /// The text of a source.
    Text(String),
    /// The place of an offset.
    AtPlace(Place),
    /// What is wrong with a file.
    Fails(FileError),
    /// The paths of an overlay, ascending.
    PathList(Vec<ImmutPath>),
    /// The ids of an overlay, ascending.
    IdList(Vec<FileId>),
    /// The tag of a new id.
    IdTag(u64),
    /// The path of an id.
    AtPath(String),
    /// The virtual path of an id that has no path.
    RootlessAt(VirtualPath),
    /// Whether all ids are clean.
    IsClean(bool),
    /// There is no view of that number.
    BadView,
    /// The field names no id.
    BadId,
    /// The space had no such revision.
    BadRevision,
    /// The offset lies past the source's end or inside a character.
    BadOffset,
}

/// The name of an error.
fn fail_text(error: &FileError) -> &'static str
    ensures { result.now ≡ fail_word (refusal_of error.now) }
{
    match error {
        FileError::NotFound(_) => "not-found",
        FileError::AccessDenied => "access-denied",
        FileError::IsDirectory => "is-directory",
        FileError::NotSource => "not-source",
        FileError::InvalidUtf8 => "invalid-utf8",
        FileError::Package(_) => "package",
        FileError::Other(_) => "other",
    }
}

/// The line of a reply: its fields parted by tabs, and ended by LF.
pub fn line_of(alloc: Global, reply: Reply) -> Result<Vec<u8>, AllocError>
    ensures { IfOk result (λ line. line.items ≡ reply_line (plain_reply reply)) }
{
    let mut line = Vec::new(alloc);
    put_line(alloc, &mut line, reply)?;
    Ok(line)
}

/// Puts the line of a reply into a buffer, in place of what that holds.
pub fn put_line(alloc: Global, line: &mut Vec<u8>, reply: Reply) -> Result<(), AllocError>
    ensures { OnOk result (line.new.items ≡ reply_line (plain_reply reply)) }
{
    match reply {
        Reply::AtRevision(revision) => put_number(line, b"ok\t", revision),
        Reply::ViewNumber(number) => put_number(line, b"view\t", number as u64),
        Reply::Contents(bytes) => put_digits(line, b"bytes\t", bytes.as_slice()),
        Reply::Text(text) => put_digits(line, b"text\t", text.as_bytes()),
        Reply::AtPlace(place) => put_place(alloc, line, place),
        Reply::Fails(error) => put_text(line, b"fail\t", fail_text(&error)),
        Reply::PathList(paths) => put_paths(line, &paths),
        Reply::IdList(ids) => put_ids(alloc, line, &ids),
        Reply::IdTag(tag) => put_number(line, b"id\t#", tag),
        Reply::AtPath(path) => put_text(line, b"path\t", path.as_str()),
        Reply::RootlessAt(vpath) => put_text(line, b"rootless\t", vpath.get_with_slash()),
        Reply::IsClean(true) => put_text(line, b"", "clean"),
        Reply::IsClean(false) => put_text(line, b"", "dirty"),
        Reply::BadView => put_text(line, b"err\t", "view"),
        Reply::BadId => put_text(line, b"err\t", "id"),
        Reply::BadRevision => put_text(line, b"err\t", "revision"),
        Reply::BadOffset => put_text(line, b"err\t", "offset"),
    }
}

/// A prefix and a text.
fn put_text(line: &mut Vec<u8>, front: &[u8], text: &str) -> Result<(), AllocError>
    ensures { OnOk result (line.new.items ≡ front.now ++ text.now ++ 10 ∷ []) }
{
    line.clear();
    line.extend_from_slice(front)?;
    line.extend_from_slice(text.as_bytes())?;
    line.push(b'\n')?;
    Ok(())
}

/// A prefix and a number.
fn put_number(line: &mut Vec<u8>, front: &[u8], number: u64) -> Result<(), AllocError>
    ensures { OnOk result (line.new.items ≡ front.now ++ decimal number ++ 10 ∷ []) }
{
    let mut digits = Buffer::new();
    put_text(line, front, digits.format(number))
}

/// The line of a place.
fn put_place(alloc: Global, line: &mut Vec<u8>, place: Place) -> Result<(), AllocError>
    ensures { OnOk result (line.new.items ≡ reply_line (AtPlace place)) }
{
    let Place {
        line: row,
        column,
        utf16,
    } = place;
    let text = format!(in alloc; "{row}\t{column}\t{utf16}")?;
    put_text(line, b"at\t", text.as_str())
}

/// The line of a list of paths.
fn put_paths(line: &mut Vec<u8>, paths: &[ImmutPath]) -> Result<(), AllocError>
    ensures { OnOk result (line.new.items ≡ reply_line (PathList (map path_text paths.now))) }
{
    line.clear();
    line.extend_from_slice(b"paths")?;
    for path in paths {
        line.push(b'\t')?;
        line.extend_from_slice(path.as_bytes())?;
    }
    line.push(b'\n')?;
    Ok(())
}

/// The line of a list of ids.
fn put_ids(alloc: Global, line: &mut Vec<u8>, ids: &[FileId]) -> Result<(), AllocError>
    ensures { OnOk result (line.new.items ≡ reply_line (IdList ids.now)) }
{
    line.clear();
    line.extend_from_slice(b"ids")?;
    for id in ids {
        line.push(b'\t')?;
        let word = id_word(alloc, id)?;
        line.extend_from_slice(word.as_bytes())?;
    }
    line.push(b'\n')?;
    Ok(())
}

/// An id as it is written: its path below a workspace, its package and the path in it, or its tag.
fn id_word(alloc: Global, id: &FileId) -> Result<String, AllocError>
    ensures { IfOk result (λ word. string_bytes word ≡ id_word id.now) }
{
    match id.root() {
        Root::Project | Root::UntitledRooted(_) => {
            let tag = id.tag();
            format!(in alloc; "#{tag}")
        }
        Root::Workspace(_) | Root::Package(_) => {
            let shown = WorkspaceResolver::display(alloc, Some(id));
            format!(in alloc; "{shown}")
        }
    }
}

/// A prefix and the digits of bytes. The line takes its memory once, and the digits are put where they stand in it.
fn put_digits(line: &mut Vec<u8>, front: &[u8], bytes: &[u8]) -> Result<(), AllocError>
    ensures { OnOk result (line.new.items ≡ front.now ++ encode_lower bytes.now ++ 10 ∷ []) }
{
    let Some(size) = bytes
        .len()
        .checked_mul(2)
        .and_then(|digits| digits.checked_add(front.len() + 1))
    else {
        return Err(AllocError);
    };
    line.clear();
    line.reserve(size)?;
    line.extend_from_slice(front)?;
    line.resize(size - 1, b'0')?;
    encode(bytes, &mut line[front.len()..]);
    line.push(b'\n')?;
    Ok(())
}
