//! What a line's content says of a path.
ghost use Rattle.std.specs.Prelude.{◌≡◌, IfOk};
ghost use Rattle.session_grammar.specs.Grammar as grammar;
ghost use Rattle.session_grammar.specs.Plain.{plain_content};

use std::alloc::Global;
use tinymist_session::ContentWord;
use ty_cells::FileSnapshot;
use ty_path::{OutOfMemory, Share};
use ty_syntax::{Bytes, FileError};

/// The answer of a content: a missing file is missing at the path.
pub(crate) fn answer_at(
    alloc: Global,
    path: &str,
    content: &ContentWord,
) -> Result<FileSnapshot, OutOfMemory>
    ensures { IfOk result (λ answer. answer ≡ grammar.answer_at path.now (plain_content content.now)) }
{
    match content {
        ContentWord::Bytes(bytes) => {
            let bytes = Bytes::new(alloc, bytes.clone()?)?;
            Ok(FileSnapshot::from_bytes(bytes))
        }
        ContentWord::Missing => {
            let missing = String::from_str(alloc, path)?;
            FileSnapshot::from_error(alloc, FileError::NotFound(missing))
        }
        ContentWord::Refused(error) => FileSnapshot::from_error(alloc, error.share(alloc)?),
    }
}
