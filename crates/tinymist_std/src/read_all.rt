//! Readers that are read to their end.
ghost use Rattle.std.specs.Prelude.{◌≡◌, ◌≢◌, ◌+◌, ℕ, List, ◌++◌, Option, OnOk, IfOk, IfErr, IfSome, vec_len};
ghost use Rattle.std.specs.Io.{StartsWith, appended_bytes};
ghost use Rattle.std.specs.IoError.{error_kind};

use std::io;
use std::io::{ErrorKind, Read};

/// A reader that is given up to be read to its end.
pub trait ReadAllOnce {
    // The bytes that are left, where the reader tells them.
    ghost bytes_left: { Self → Option (List ℕ) };

    /// Appends the bytes that are left, and answers their number. What stood in `buf` stays in any
    /// case, and after an error the bytes that were read until then stand behind it. A read that is
    /// interrupted is tried again.
    fn read_all(self, buf: &mut Vec<u8>) -> io::Result<usize>
        ensures bytes { OnOk result (IfSome (bytes_left self)
            (λ bytes. buf.new.items ≡ buf.old.items ++ bytes)) }
        ensures count { IfOk result (λ n. vec_len buf.new ≡ vec_len buf.old + n) }
        ensures appends { StartsWith buf.new.items buf.old.items }
        ensures so_far { IfSome (bytes_left self)
            (λ bytes. StartsWith bytes (appended_bytes buf.old.items buf.new.items)) }
        ensures retried { IfErr result (λ e. error_kind e ≢ ErrorKind.Interrupted) };
}

impl<R: Read + Drop> ReadAllOnce for R {
    ghost bytes_left = { R.remaining };

    #[tactic(auto, using(crate::proofs::Reading::consumed_front))]
    fn read_all(mut self, buf: &mut Vec<u8>) -> io::Result<usize> {
        self.read_to_end(buf)
    }
}
