//! A result is used again while what it was made of stays as it was.
ghost use Rattle.std.specs.Prelude.{◌≡◌, ◌∷◌, List, IfOk, IfSome, IsSome, is_some};
ghost use Rattle.ty_model.specs.Disk.{Told};
ghost use Rattle.ty_model.specs.Held.{version_of, Standing};
ghost use Rattle.ty_model.specs.Standing.{are_clean};
ghost use Rattle.ty_model.specs.Version.{Version};
ghost use Rattle.tinymist_vfs.specs.Reuse.{SameAnswers};

use std::sync::ledger::Ledger;
use tinymist_vfs::{RootResolver, Vfs};
use ty_persist::Steps;
use ty_syntax::{FileId, FileResult};

/// What is kept of a compile.
#[derive(Drop)]
pub struct Kept<T> {
    /// What it made.
    pub result: T,
    /// The ids that it read.
    pub ids: Vec<FileId>,
    /// The revision at which it read them.
    pub revision: u64,
}

/// The kept result, where each id that it was made of is clean since; else none. Over a disk that stays the
/// same, what these ids read as is then the same in all versions since.
pub fn reuse<T: Drop, R: RootResolver, L: Ledger>(
    live: &Vfs<R>,
    steps: &mut Steps<L>,
    kept: Kept<T>,
) -> FileResult<Option<T>>
    ensures value { IfOk result (λ again. IfSome again (λ value. value ≡ kept.result)) }
    ensures exact { (past : List Version) → Standing R.known live.now past → IfOk result (λ again. is_some again ≡ are_clean (version_of R.known live.now ∷ past) kept.revision kept.ids.items) }
    ensures reusable { (past : List Version) (disk : Told) → Standing R.known live.now past → IfOk result (λ again. IsSome again → SameAnswers (version_of R.known live.now ∷ past) kept.revision disk kept.ids.items) }
{
    let Kept {
        result,
        ids,
        revision,
    } = kept;
    if live.is_clean_compile(revision, &ids, steps)? {
        return Ok(Some(result));
    }
    Ok(None)
}
