//! The command that a line reads as.
ghost use Rattle.std.specs.Prelude.{◌≡◌, ◌∷◌, IfOk, IsErrOf, Some, None};
ghost use Rattle.std.specs.Option.{option_map, option_and_then};
ghost use Rattle.ty_model.specs.Batch.{Clear};
ghost use Rattle.session_grammar.specs.Command as plain;
ghost use Rattle.session_grammar.specs.Grammar as grammar;
ghost use Rattle.session_grammar.specs.Plain.{plain_command, plain_target, plain_id, fields_of};

use crate::changes::changes;
use crate::contents::{ContentWord, IdWord, content, id, ids};
use crate::fields::{cut, one_field, three_fields, two_fields, two_or_more_fields};
use crate::read_error::ReadError;
use crate::words::{number, path, text_of, virtual_path};
use std::alloc::Global;
use tinymist_vfs::Item;
use ty_path::OutOfMemory;
use ty_syntax::VirtualPath;

/// What a line edits, or asks about: the live state, or a view.
#[derive(Clone, Copy)]
pub enum Target {
    /// The live state.
    Live,
    /// The view of this number, which counts from 1.
    View(u64),
}

/// What a line asks for. Views are named by their numbers.
#[derive(Drop)]
pub enum Command {
    /// Edits a target.
    Edit(Target, Item),
    /// Maps an id of a target.
    MapId(Target, IdWord, ContentWord),
    /// Takes an id out of a target's overlay.
    UnmapId(Target, IdWord),
    /// Makes an id of no workspace.
    Rootless(VirtualPath),
    /// Takes a snapshot of the live state.
    Snapshot,
    /// Reads an id in a view.
    Read(u64, IdWord),
    /// Reads the source of an id in a view.
    Source(u64, IdWord),
    /// Finds the place of an offset in the source of an id in a view.
    Line(u64, IdWord, u64),
    /// Lists the paths of a target's overlay.
    Paths(Target),
    /// Lists the ids of a target's overlay.
    Ids(Target),
    /// Finds where an id stands in a target.
    Path(Target, IdWord),
    /// Asks whether ids of a target are clean since a revision.
    Clean(Target, u64, Vec<IdWord>),
}

/// The command, where the line reads as one.
pub fn read_command(alloc: Global, line: &[u8]) -> Result<Option<Command>, OutOfMemory>
    ensures { IfOk result (λ said. option_map plain_command said ≡ grammar.command_of line.now) }
{
    match read(alloc, line) {
        Ok(command) => Ok(Some(command)),
        Err(ReadError::NoCommand) => Ok(None),
        Err(ReadError::OutOfMemory) => Err(OutOfMemory),
    }
}

/// The command of a line.
fn read(alloc: Global, line: &[u8]) -> Result<Command, ReadError>
    ensures reads { IfOk result (λ r. grammar.command_of line.now ≡ Some (plain_command r)) }
    ensures none { IsErrOf result ReadError.NoCommand → grammar.command_of line.now ≡ None }
{
    let text = text_of(line).ok_or(ReadError::NoCommand)?;
    match cut(text) {
        Some((word, rest)) => sentence(alloc, word, Some(rest)),
        None => sentence(alloc, text, None),
    }
}

/// The command that its first field names, with the fields after that.
fn sentence(alloc: Global, word: &str, fields: Option<&str>) -> Result<Command, ReadError>
    ensures reads { IfOk result (λ r. grammar.sentence_of (word.now ∷ fields_of fields.entry) ≡ Some (plain_command r)) }
    ensures none { IsErrOf result ReadError.NoCommand → grammar.sentence_of (word.now ∷ fields_of fields.entry) ≡ None }
{
    match word {
        "map" => map_sentence(alloc, fields),
        "snapshot" => snapshot_sentence(fields),
        "read" => read_sentence(alloc, fields),
        "unmap" => unmap_sentence(alloc, fields),
        "clear" => clear_sentence(fields),
        "notify" => notify_sentence(alloc, fields),
        "paths" => paths_sentence(fields),
        "map-id" => map_id_sentence(alloc, fields),
        "unmap-id" => unmap_id_sentence(alloc, fields),
        "rootless" => rootless_sentence(alloc, fields),
        "ids" => ids_sentence(fields),
        "path" => path_sentence(alloc, fields),
        "source" => source_sentence(alloc, fields),
        "line" => line_sentence(alloc, fields),
        "clean" => clean_sentence(alloc, fields),
        _ => Err(ReadError::NoCommand),
    }
}

fn snapshot_sentence(fields: Option<&str>) -> Result<Command, ReadError>
    ensures reads { IfOk result (λ r. grammar.snapshot_sentence (fields_of fields.entry) ≡ Some (plain_command r)) }
    ensures none { IsErrOf result ReadError.NoCommand → grammar.snapshot_sentence (fields_of fields.entry) ≡ None }
{
    match fields {
        None => Ok(Command::Snapshot),
        Some(_) => Err(ReadError::NoCommand),
    }
}

fn read_sentence(alloc: Global, fields: Option<&str>) -> Result<Command, ReadError>
    ensures reads { IfOk result (λ r. grammar.view_id_sentence plain.Read (fields_of fields.entry) ≡ Some (plain_command r)) }
    ensures none { IsErrOf result ReadError.NoCommand → grammar.view_id_sentence plain.Read (fields_of fields.entry) ≡ None }
{
    let (view, id) = view_and_id(alloc, fields)?;
    Ok(Command::Read(view, id))
}

fn source_sentence(alloc: Global, fields: Option<&str>) -> Result<Command, ReadError>
    ensures reads { IfOk result (λ r. grammar.view_id_sentence plain.Source (fields_of fields.entry) ≡ Some (plain_command r)) }
    ensures none { IsErrOf result ReadError.NoCommand → grammar.view_id_sentence plain.Source (fields_of fields.entry) ≡ None }
{
    let (view, id) = view_and_id(alloc, fields)?;
    Ok(Command::Source(view, id))
}

fn path_sentence(alloc: Global, fields: Option<&str>) -> Result<Command, ReadError>
    ensures reads { IfOk result (λ r. grammar.target_id_sentence plain.Path (fields_of fields.entry) ≡ Some (plain_command r)) }
    ensures none { IsErrOf result ReadError.NoCommand → grammar.target_id_sentence plain.Path (fields_of fields.entry) ≡ None }
{
    let (target, id) = target_and_id(alloc, fields)?;
    Ok(Command::Path(target, id))
}

fn unmap_id_sentence(alloc: Global, fields: Option<&str>) -> Result<Command, ReadError>
    ensures reads { IfOk result (λ r. grammar.target_id_sentence plain.UnmapId (fields_of fields.entry) ≡ Some (plain_command r)) }
    ensures none { IsErrOf result ReadError.NoCommand → grammar.target_id_sentence plain.UnmapId (fields_of fields.entry) ≡ None }
{
    let (target, id) = target_and_id(alloc, fields)?;
    Ok(Command::UnmapId(target, id))
}

fn line_sentence(alloc: Global, fields: Option<&str>) -> Result<Command, ReadError>
    ensures reads { IfOk result (λ r. grammar.line_sentence (fields_of fields.entry) ≡ Some (plain_command r)) }
    ensures none { IsErrOf result ReadError.NoCommand → grammar.line_sentence (fields_of fields.entry) ≡ None }
{
    let (view, word, offset) = three_fields(fields).ok_or(ReadError::NoCommand)?;
    let view = number(view).ok_or(ReadError::NoCommand)?;
    let id = id(alloc, word)?;
    let offset = number(offset).ok_or(ReadError::NoCommand)?;
    Ok(Command::Line(view, id, offset))
}

fn map_id_sentence(alloc: Global, fields: Option<&str>) -> Result<Command, ReadError>
    ensures reads { IfOk result (λ r. grammar.map_id_sentence (fields_of fields.entry) ≡ Some (plain_command r)) }
    ensures none { IsErrOf result ReadError.NoCommand → grammar.map_id_sentence (fields_of fields.entry) ≡ None }
{
    let (first, word, says) = three_fields(fields).ok_or(ReadError::NoCommand)?;
    let target = target_of(first).ok_or(ReadError::NoCommand)?;
    let id = id(alloc, word)?;
    let content = content(alloc, says)?;
    Ok(Command::MapId(target, id, content))
}

fn map_sentence(alloc: Global, fields: Option<&str>) -> Result<Command, ReadError>
    ensures reads { IfOk result (λ r. grammar.map_sentence (fields_of fields.entry) ≡ Some (plain_command r)) }
    ensures none { IsErrOf result ReadError.NoCommand → grammar.map_sentence (fields_of fields.entry) ≡ None }
{
    let (first, word, says) = three_fields(fields).ok_or(ReadError::NoCommand)?;
    let target = target_of(first).ok_or(ReadError::NoCommand)?;
    let path = path(alloc, word)?;
    let answer = content(alloc, says)?.answer_at(alloc, path.as_str())?;
    Ok(Command::Edit(target, Item::MapPath(path, answer)))
}

fn unmap_sentence(alloc: Global, fields: Option<&str>) -> Result<Command, ReadError>
    ensures reads { IfOk result (λ r. grammar.unmap_sentence (fields_of fields.entry) ≡ Some (plain_command r)) }
    ensures none { IsErrOf result ReadError.NoCommand → grammar.unmap_sentence (fields_of fields.entry) ≡ None }
{
    let (first, word) = two_fields(fields).ok_or(ReadError::NoCommand)?;
    let target = target_of(first).ok_or(ReadError::NoCommand)?;
    let path = path(alloc, word)?;
    Ok(Command::Edit(target, Item::UnmapPath(path)))
}

fn clear_sentence(fields: Option<&str>) -> Result<Command, ReadError>
    ensures reads { IfOk result (λ r. grammar.target_sentence (λ target. plain.Edit target Clear) (fields_of fields.entry) ≡ Some (plain_command r)) }
    ensures none { IsErrOf result ReadError.NoCommand → grammar.target_sentence (λ target. plain.Edit target Clear) (fields_of fields.entry) ≡ None }
{
    let target = only_target(fields).ok_or(ReadError::NoCommand)?;
    Ok(Command::Edit(target, Item::Clear))
}

fn paths_sentence(fields: Option<&str>) -> Result<Command, ReadError>
    ensures reads { IfOk result (λ r. grammar.target_sentence plain.Paths (fields_of fields.entry) ≡ Some (plain_command r)) }
    ensures none { IsErrOf result ReadError.NoCommand → grammar.target_sentence plain.Paths (fields_of fields.entry) ≡ None }
{
    let target = only_target(fields).ok_or(ReadError::NoCommand)?;
    Ok(Command::Paths(target))
}

fn ids_sentence(fields: Option<&str>) -> Result<Command, ReadError>
    ensures reads { IfOk result (λ r. grammar.target_sentence plain.Ids (fields_of fields.entry) ≡ Some (plain_command r)) }
    ensures none { IsErrOf result ReadError.NoCommand → grammar.target_sentence plain.Ids (fields_of fields.entry) ≡ None }
{
    let target = only_target(fields).ok_or(ReadError::NoCommand)?;
    Ok(Command::Ids(target))
}

fn rootless_sentence(alloc: Global, fields: Option<&str>) -> Result<Command, ReadError>
    ensures reads { IfOk result (λ r. grammar.rootless_sentence (fields_of fields.entry) ≡ Some (plain_command r)) }
    ensures none { IsErrOf result ReadError.NoCommand → grammar.rootless_sentence (fields_of fields.entry) ≡ None }
{
    let word = one_field(fields).ok_or(ReadError::NoCommand)?;
    let vpath = virtual_path(alloc, word)?;
    Ok(Command::Rootless(vpath))
}

fn clean_sentence(alloc: Global, fields: Option<&str>) -> Result<Command, ReadError>
    ensures reads { IfOk result (λ r. grammar.clean_sentence (fields_of fields.entry) ≡ Some (plain_command r)) }
    ensures none { IsErrOf result ReadError.NoCommand → grammar.clean_sentence (fields_of fields.entry) ≡ None }
{
    let (first, revision, words) = two_or_more_fields(fields).ok_or(ReadError::NoCommand)?;
    let target = target_of(first).ok_or(ReadError::NoCommand)?;
    let revision = number(revision).ok_or(ReadError::NoCommand)?;
    let ids = ids(alloc, words)?;
    Ok(Command::Clean(target, revision, ids))
}

fn notify_sentence(alloc: Global, fields: Option<&str>) -> Result<Command, ReadError>
    ensures reads { IfOk result (λ r. grammar.notify_sentence (fields_of fields.entry) ≡ Some (plain_command r)) }
    ensures none { IsErrOf result ReadError.NoCommand → grammar.notify_sentence (fields_of fields.entry) ≡ None }
{
    let changes = changes(alloc, fields)?;
    Ok(Command::Edit(Target::Live, Item::ChangeSet(changes)))
}

/// The number of a view and the id that two fields write.
fn view_and_id(alloc: Global, fields: Option<&str>) -> Result<(u64, IdWord), ReadError>
    ensures reads { IfOk result (λ r. grammar.view_and_id (fields_of fields.entry) ≡ Some (r.0, plain_id r.1)) }
    ensures none { IsErrOf result ReadError.NoCommand → grammar.view_and_id (fields_of fields.entry) ≡ None }
{
    let (first, word) = two_fields(fields).ok_or(ReadError::NoCommand)?;
    let view = number(first).ok_or(ReadError::NoCommand)?;
    let id = id(alloc, word)?;
    Ok((view, id))
}

/// The target and the id that two fields write.
fn target_and_id(alloc: Global, fields: Option<&str>) -> Result<(Target, IdWord), ReadError>
    ensures reads { IfOk result (λ r. grammar.target_and_id (fields_of fields.entry) ≡ Some (plain_target r.0, plain_id r.1)) }
    ensures none { IsErrOf result ReadError.NoCommand → grammar.target_and_id (fields_of fields.entry) ≡ None }
{
    let (first, word) = two_fields(fields).ok_or(ReadError::NoCommand)?;
    let target = target_of(first).ok_or(ReadError::NoCommand)?;
    let id = id(alloc, word)?;
    Ok((target, id))
}

/// The target that the only field writes.
fn only_target(fields: Option<&str>) -> Option<Target>
    ensures { option_map plain_target result ≡ option_and_then grammar.target_of (grammar.one_of (fields_of fields.entry)) }
{
    target_of(one_field(fields)?)
}

/// A target: 0 for the live state, and else the number of a view.
fn target_of(word: &str) -> Option<Target>
    ensures { option_map plain_target result ≡ grammar.target_of word.now }
{
    match number(word)? {
        0 => Some(Target::Live),
        view => Some(Target::View(view)),
    }
}
