//! Sources of bytes: where the lines of a session come from.
ghost use Rattle.session_lines.specs.LineSource.{SourceSeen, Reads, IsFailedRead, HasCause};

/// What one read gives.
#[derive(Clone, Copy, Debug, PartialEq, Eq)]
pub enum ReadStep {
    /// So many bytes at the start of the buffer. None in a buffer that isn't empty are the end.
    Got(usize),
    /// The end of the input.
    End,
    /// Nothing was taken, and the count of faults rose.
    Failed,
}

/// A source of bytes, with a count of its faults.
pub trait LineSource {
    /// The bytes that are left, where the source tells them, and how often it has failed.
    ghost seen: { Self → SourceSeen };

    /// Puts the next bytes at the start of the buffer, and leaves the rest of it as it was.
    fn read(&mut self, buf: &mut [u8]) -> ReadStep
        ensures bytes { Reads (seen self.old).left (seen self.new).left result buf.old buf.new }
        ensures cause { HasCause (IsFailedRead result) (seen self.old).faults (seen self.new).faults };
}
