//! Sinks for bytes: where the replies of a session go.
ghost use Rattle.std.specs.Prelude.{◌≡◌, ◌≤◌, true, false};
ghost use Rattle.std.specs.Io.KnownBytes.{append_known};
ghost use Rattle.session_lines.specs.LineSource.{HasCause};
ghost use Rattle.session_lines.specs.ByteSink.{SinkSeen, HasRefused, TakesFront, Writes, IsFailedWrite, IsDry, flushed_by_write, flushed_by, IsFailedFlush};

/// What one write does.
#[derive(Clone, Copy, Debug, PartialEq, Eq)]
pub enum WriteStep {
    /// The sink took so many bytes from the start of the piece. None of a piece that isn't empty are a dry take.
    Took(usize),
    /// Nothing was taken, and the count of faults rose.
    Failed,
}

/// What one flush does.
#[derive(Clone, Copy, Debug, PartialEq, Eq)]
pub enum FlushStep {
    /// All that was taken has gone on.
    Done,
    /// The count of faults rose.
    Failed,
}

/// A sink for bytes, with its counts of faults and of dry takes.
pub trait ByteSink {
    /// The bytes that were taken, where the sink tells them, how often it has failed, how often it has taken nothing
    /// of a piece that isn't empty, and whether all that was taken has gone on.
    ghost seen: { Self → SinkSeen };

    /// Offers a piece.
    fn write(&mut self, piece: &[u8]) -> WriteStep
        ensures bytes { Writes (seen self.old).taken (seen self.new).taken result piece.now }
        ensures cause { HasCause (IsFailedWrite result) (seen self.old).faults (seen self.new).faults }
        ensures thirst { HasCause (IsDry result piece.now) (seen self.old).dry (seen self.new).dry }
        ensures flushed { (seen self.new).flushed ≡ flushed_by_write (seen self.old).flushed result };

    /// Lets all that was taken go on.
    fn flush(&mut self) -> FlushStep
        ensures bytes { (seen self.new).taken ≡ (seen self.old).taken }
        ensures cause { HasCause (IsFailedFlush result) (seen self.old).faults (seen self.new).faults }
        ensures thirst { (seen self.old).dry ≤ (seen self.new).dry }
        ensures flushed { (seen self.new).flushed ≡ flushed_by (seen self.old).flushed result };
}

/// Offers a piece until the sink has taken all of it, failed, or took nothing.
pub fn write_all<W: ByteSink>(sink: &mut W, piece: &[u8]) -> bool
    ensures whole { result ≡ true → (W.seen sink.new).taken ≡ append_known (W.seen sink.old).taken piece.now }
    ensures front { TakesFront (W.seen sink.old).taken (W.seen sink.new).taken piece.now }
    ensures faults { (W.seen sink.old).faults ≤ (W.seen sink.new).faults }
    ensures dry { (W.seen sink.old).dry ≤ (W.seen sink.new).dry }
    ensures cause { result ≡ false → HasRefused (W.seen sink.old) (W.seen sink.new) }
{
    let mut at = 0;
    while at < piece.len() {
        match sink.write(&piece[at..]) {
            WriteStep::Took(0) => return false,
            WriteStep::Took(n) => at += n,
            WriteStep::Failed => return false,
        }
    }
    true
}
