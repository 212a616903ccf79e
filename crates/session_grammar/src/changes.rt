//! The changes that the fields of a line write.
ghost use Rattle.std.specs.Prelude.{◌≡◌, IfOk, OnOk, IsErrOf, Some, None};
ghost use Rattle.ty_model.specs.Paths.{parts_at};
ghost use Rattle.session_grammar.specs.Grammar.{changes_of, with_changes, told_of, path_of, content_of};
ghost use Rattle.session_grammar.specs.Plain.{plain_changes};
ghost use Rattle.session_grammar.specs.Plain.{plain_change, fields_of, ReadsChange};

use crate::contents::content;
use crate::fields::first_field;
use crate::read_error::ReadError;
use crate::words::{after_sign, path};
use std::alloc::Global;
use tinymist_vfs::FileChangeSet;
use ty_cells::FileSnapshot;
use ty_path::{CleanPath, OutOfMemory};

/// One change of a change set.
#[derive(Drop)]
enum Change {
    /// The path is no longer told.
    Remove(CleanPath),
    /// The path is told to be this.
    Tell(CleanPath, FileSnapshot),
}

impl Change {
    /// Puts it after the changes of a set.
    fn add_to(self, set: &mut FileChangeSet) -> Result<(), OutOfMemory>
        ensures { OnOk result (plain_changes set.new ≡ with_changes (plain_changes set.old) (plain_change self)) }
    {
        match self {
            Change::Remove(path) => set.removes.push(path.into_shared())?,
            Change::Tell(path, answer) => set.inserts.push((path.into_shared(), answer))?,
        }
        Ok(())
    }
}

/// The changes that all fields write.
pub(crate) fn changes(alloc: Global, fields: Option<&str>) -> Result<FileChangeSet, ReadError>
    ensures reads { IfOk result (λ r. changes_of (fields_of fields.entry) ≡ Some (plain_changes r)) }
    ensures none { IsErrOf result ReadError.NoCommand → changes_of (fields_of fields.entry) ≡ None }
{
    let mut all = FileChangeSet {
        removes: Vec::new(alloc),
        inserts: Vec::new(alloc),
    };
    let mut left = fields;
    while let Some(text) = left {
        let (change, rest) = first_change(alloc, text)?;
        change.add_to(&mut all)?;
        left = rest;
    }
    Ok(all)
}

/// The change that the first fields write, and the fields after it.
fn first_change(alloc: Global, fields: &str) -> Result<(Change, Option<&str>), ReadError>
    ensures reads { IfOk result (ReadsChange fields.now) }
    ensures none { IsErrOf result ReadError.NoCommand → changes_of (parts_at 9 fields.now) ≡ None }
{
    let (word, rest) = first_field(fields);
    if let Some(removed) = after_sign('-', word) {
        let path = path(alloc, removed)?;
        return Ok((Change::Remove(path), rest));
    }
    let told = after_sign('+', word).ok_or(ReadError::NoCommand)?;
    let (says, rest) = first_field(rest.ok_or(ReadError::NoCommand)?);
    let file = told_file(alloc, told, says)?;
    Ok((file, rest))
}

/// A path that is told, and its content.
fn told_file(alloc: Global, word: &str, says: &str) -> Result<Change, ReadError>
    ensures reads { IfOk result (λ r. told_of (path_of word.now) (content_of says.now) ≡ Some (plain_change r)) }
    ensures none { IsErrOf result ReadError.NoCommand → told_of (path_of word.now) (content_of says.now) ≡ None }
{
    let path = path(alloc, word)?;
    let answer = content(alloc, says)?.answer_at(alloc, path.as_str())?;
    Ok(Change::Tell(path, answer))
}
