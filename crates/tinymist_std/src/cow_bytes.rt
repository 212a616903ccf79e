//! Bytes as text, in padded standard base64.
ghost use Rattle.std.specs.Prelude.{◌≡◌, Some, IfOk, IfErr, codes, string_bytes};
ghost use Rattle.base64.specs.Engines.{standard};
ghost use Rattle.base64.specs.GeneralPurpose.{encode_of};
ghost use Rattle.tinymist_std.specs.Context.{IsRefusal, reason_alone};
ghost use Rattle.tinymist_std.specs.CowBytes.{IsTextOfBytes};

use crate::error::{ErrKind, Error};
use crate::error_args::ErrorArgs;
use base64::DecodeAllocError;
use base64::engine::general_purpose::STANDARD;
use std::alloc::Global;
use ty_path::OutOfMemory;

/// Bytes that are written as text.
#[derive(Clone, Copy, Debug, PartialEq, Eq)]
pub struct AsCowBytes;

impl AsCowBytes {
    /// The text of the bytes.
    pub fn to_text(alloc: Global, bytes: &[u8]) -> Result<String, OutOfMemory>
        ensures { IfOk result (λ text. string_bytes text ≡ encode_of standard bytes.now) }
    {
        Ok(STANDARD.encode(alloc, bytes)?)
    }

    /// The bytes of the text. The error comes where the text is of no bytes, which it says, and else
    /// only where memory runs out.
    pub fn from_text(alloc: Global, text: &str) -> Result<Vec<u8>, Error>
        ensures ok { IfOk result (λ bytes. text.now ≡ encode_of standard bytes.items) }
        ensures refused { IfErr result
            (IsRefusal (codes "from_text") (Some (reason_alone (codes "the text is not base64")))
            (¬ (IsTextOfBytes text.now))) }
    {
        match STANDARD.decode(alloc, text.as_bytes()) {
            Ok(bytes) => Ok(bytes),
            Err(DecodeAllocError::OutOfMemory) => {
                Err(Error::new("from_text", ErrKind::OutOfMemory, None))
            }
            Err(DecodeAllocError::DecodeError(_)) => Err(
                ErrorArgs::new(alloc)
                    .with(alloc, "error", &"the text is not base64")
                    .error("from_text"),
            ),
        }
    }
}
