//! Contents and ids as lines write them.
ghost use Rattle.std.specs.Prelude.{◌≡◌, map, IfOk, IsErrOf, Some, None};
ghost use Rattle.session_grammar.specs.Grammar as grammar;
ghost use Rattle.session_grammar.specs.Plain.{plain_content, plain_id, fields_of};

use crate::digits::decode;
use crate::fields::first_field;
use crate::read_error::ReadError;
use crate::words::{after_sign, number, path};
use std::alloc::Global;
use ty_cells::FileSnapshot;
use ty_path::{CleanPath, OutOfMemory};
use ty_syntax::{Bytes, FileError};

/// A content as it is written in a line.
#[derive(Drop)]
pub enum ContentWord {
    /// The bytes of a file.
    Bytes(Vec<u8>),
    /// No file, wherever it is said of.
    Missing,
    /// An error that carries no path.
    Refused(FileError),
}

/// An id as it is written in a line.
#[derive(Drop)]
pub enum IdWord {
    /// The file of a path in the workspace of its parent.
    Path(CleanPath),
    /// The id of a tag.
    Tag(u64),
}

impl ContentWord {
    /// What it says of a path: a missing file is missing there.
    pub fn answer_at(self, alloc: Global, path: &str) -> Result<FileSnapshot, OutOfMemory>
        ensures { IfOk result (λ answer. answer ≡ grammar.answer_at path.now (plain_content self)) }
    {
        match self {
            ContentWord::Bytes(bytes) => Ok(FileSnapshot::from_bytes(Bytes::new(alloc, bytes)?)),
            ContentWord::Missing => {
                let missing = String::from_str(alloc, path)?;
                FileSnapshot::from_error(alloc, FileError::NotFound(missing))
            }
            ContentWord::Refused(error) => FileSnapshot::from_error(alloc, error),
        }
    }
}

/// A content: `=` and hexadecimal digits, two for each byte, or `!` and the name of an error.
pub(crate) fn content(alloc: Global, word: &str) -> Result<ContentWord, ReadError>
    ensures reads { IfOk result (λ r. grammar.content_of word.now ≡ Some (plain_content r)) }
    ensures none { IsErrOf result ReadError.NoCommand → grammar.content_of word.now ≡ None }
{
    match word {
        "!not-found" => Ok(ContentWord::Missing),
        "!access-denied" => Ok(ContentWord::Refused(FileError::AccessDenied)),
        "!is-directory" => Ok(ContentWord::Refused(FileError::IsDirectory)),
        "!not-source" => Ok(ContentWord::Refused(FileError::NotSource)),
        "!invalid-utf8" => Ok(ContentWord::Refused(FileError::InvalidUtf8)),
        "!other" => Ok(ContentWord::Refused(FileError::Other(None))),
        _ => match after_sign('=', word) {
            Some(digits) => bytes(alloc, digits),
            None => Err(ReadError::NoCommand),
        },
    }
}

/// The bytes of hexadecimal digits.
fn bytes(alloc: Global, digits: &str) -> Result<ContentWord, ReadError>
    ensures reads { IfOk result (λ r. grammar.bytes_of digits.now ≡ Some (plain_content r)) }
    ensures none { IsErrOf result ReadError.NoCommand → grammar.bytes_of digits.now ≡ None }
{
    let bytes = decode(alloc, digits.as_bytes())?.ok_or(ReadError::NoCommand)?;
    Ok(ContentWord::Bytes(bytes))
}

/// An id: `#` and a tag, or a path.
pub(crate) fn id(alloc: Global, word: &str) -> Result<IdWord, ReadError>
    ensures reads { IfOk result (λ r. grammar.id_of word.now ≡ Some (plain_id r)) }
    ensures none { IsErrOf result ReadError.NoCommand → grammar.id_of word.now ≡ None }
{
    if let Some(digits) = after_sign('#', word) {
        let tag = number(digits).ok_or(ReadError::NoCommand)?;
        return Ok(IdWord::Tag(tag));
    }
    let path = path(alloc, word)?;
    Ok(IdWord::Path(path))
}

/// The ids that all fields write.
pub(crate) fn ids(alloc: Global, fields: Option<&str>) -> Result<Vec<IdWord>, ReadError>
    ensures reads { IfOk result (λ r. grammar.ids_of (fields_of fields.entry) ≡ Some (map plain_id r.items)) }
    ensures none { IsErrOf result ReadError.NoCommand → grammar.ids_of (fields_of fields.entry) ≡ None }
{
    let mut all = Vec::new(alloc);
    let mut left = fields;
    while let Some(text) = left {
        let (word, rest) = first_field(text);
        let id = id(alloc, word)?;
        all.push(id)?;
        left = rest;
    }
    Ok(all)
}
