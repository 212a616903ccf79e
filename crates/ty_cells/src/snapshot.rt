//! What is said of a file: its bytes or an error.
ghost use Rattle.std.specs.Prelude.{◌≡◌, ◌↔◌, ℕ, List, IsTrue, IsOk, IfOk};
ghost use Rattle.ty_model.specs.Values.{Answer, Content, Refused, NotFound, AccessDenied, same_answer};
ghost use Rattle.ty_syntax.specs.Error.{refusal_of};
ghost use Rattle.ty_cells.specs.Same.{answer_equiv, answer_part};

use std::alloc::Global;
use std::marker::Model;
use std::sync::Arc;
use ty_path::{OutOfMemory, Share};
use ty_syntax::{Bytes, FileError, FileFault, FileResult};

/// The bytes of a file, or what is wrong with it. Contracts see the answer.
#[derive(Drop)]
pub struct FileSnapshot(pub Result<Bytes, Arc<FileError>>);

impl Model for FileSnapshot {
    ghost use Rattle.ty_model.specs.Values.{Answer};
    ghost use Rattle.ty_model.specs.Codes.{answer_code};
    ghost use Rattle.ty_cells.specs.Snapshot.{answer_by};

    ghost Value = { Answer };

    ghost coded = { answer_code };

    ghost view = { λ s. answer_by s.0 };
}

impl FileSnapshot {
    ghost use Rattle.ty_cells.specs.Snapshot.{AnswersAs, AnswersAsLent, SaysFile};

    /// A file with these bytes.
    pub fn from_bytes(bytes: Bytes) -> FileSnapshot
        ensures { result ≡ Content bytes }
    {
        FileSnapshot(Ok(bytes))
    }

    /// A file with this error.
    pub fn from_error(alloc: Global, error: FileError) -> Result<FileSnapshot, OutOfMemory>
        ensures { IfOk result (λ s. s ≡ Refused (refusal_of error)) }
    {
        Ok(FileSnapshot(Err(Arc::new(alloc, error)?)))
    }

    /// The bytes, which take no memory.
    ///
    /// # Errors
    ///
    /// A copy of the error, exactly where there is one.
    pub fn into_content(self, alloc: Global) -> FileResult<Bytes>
        ensures answer { AnswersAs self result }
        ensures free { (bytes : List ℕ) → self ≡ Content bytes → IsOk result }
    {
        match self.0 {
            Ok(bytes) => Ok(bytes),
            Err(error) => Err(FileFault::File(error.share(alloc)?)),
        }
    }

    /// The bytes, which take no memory.
    ///
    /// # Errors
    ///
    /// A copy of the error, exactly where there is one.
    pub fn content(&self, alloc: Global) -> FileResult<&Bytes>
        ensures answer { AnswersAsLent self.now result }
        ensures free { (bytes : List ℕ) → self.now ≡ Content bytes → IsOk result }
    {
        match &self.0 {
            Ok(held) => Ok(held),
            Err(error) => Err(FileFault::File(error.share(alloc)?)),
        }
    }

    /// True of bytes, which take no memory.
    ///
    /// # Errors
    ///
    /// A copy of the error, exactly where there is one.
    pub fn is_file(&self, alloc: Global) -> FileResult<bool>
        ensures answer { SaysFile self.now result }
        ensures free { (bytes : List ℕ) → self.now ≡ Content bytes → IsOk result }
    {
        self.content(alloc).map(|_bytes| true)
    }

    /// Whether both say the same, by their bytes or errors.
    pub fn same_as(&self, other: &FileSnapshot) -> bool
        ensures { result ≡ same_answer self.now other.now }
    {
        self.says_same(other)
    }

    pub(crate) fn says_same(&self, other: &FileSnapshot) -> bool
        ensures { IsTrue result ↔ (self.now ≡ other.now) }
    {
        match (&self.0, &other.0) {
            (Ok(a), Ok(b)) => a.as_slice() == b.as_slice(),
            (Err(a), Err(b)) => same_error(a, b),
            _ => false,
        }
    }
}

impl FileSnapshot {
    /// Whether it says that the path is not found.
    pub(crate) fn is_missing(&self, path: &str) -> bool
        ensures { IsTrue result ↔ (self.now ≡ Refused (NotFound path.now)) }
    {
        match &self.0 {
            Ok(_) => false,
            Err(error) => is_not_found(error, path),
        }
    }

    /// Whether it says that access is denied.
    pub(crate) fn is_denied(&self) -> bool
        ensures { IsTrue result ↔ (self.now ≡ Refused AccessDenied) }
    {
        match &self.0 {
            Ok(_) => false,
            Err(error) => is_access_denied(error),
        }
    }
}

fn is_not_found(error: &FileError, path: &str) -> bool
    ensures { IsTrue result ↔ (refusal_of error.now ≡ NotFound path.now) }
{
    match error {
        FileError::NotFound(missing) => missing.as_str() == path,
        _ => false,
    }
}

fn is_access_denied(error: &FileError) -> bool
    ensures { IsTrue result ↔ (refusal_of error.now ≡ AccessDenied) }
{
    match error {
        FileError::AccessDenied => true,
        _ => false,
    }
}

fn same_error(a: &FileError, b: &FileError) -> bool
    ensures { IsTrue result ↔ (refusal_of a.now ≡ refusal_of b.now) }
{
    a == b
}

impl PartialEq for FileSnapshot {
    ghost eq = { same_answer };

    ghost laws = { answer_part };

    fn eq(&self, other: &FileSnapshot) -> bool {
        self.same_as(other)
    }
}

impl Eq for FileSnapshot {
    ghost laws = { answer_equiv };
}

impl Share for FileSnapshot {
    ghost Seen = { Answer };

    ghost seen = { λ s. s };

    fn share(&self, alloc: Global) -> Result<FileSnapshot, OutOfMemory> {
        match &self.0 {
            Ok(bytes) => Ok(FileSnapshot(Ok(bytes.share(alloc)?))),
            Err(error) => Ok(FileSnapshot(Err(Arc::try_clone(error)?))),
        }
    }
}
