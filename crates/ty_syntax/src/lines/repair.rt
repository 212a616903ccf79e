//! The table of an edited text, made of the table before the edit: only what the edit touches is read.
ghost use Rattle.std.specs.Prelude.{◌≡◌, ◌↔◌, ◌+◌, ◌-◌, ◌*◌, ◌^◌, ◌<◌, ◌≤◌, ◌++◌, length, map, drop, IfOk, IsErrOf, IsFalse, IsTrue, OnErr};
ghost use Rattle.std.specs.String.{string_bytes};
ghost use Rattle.ty_syntax.specs.LineTable.{entry, moved, table};
ghost use Rattle.ty_syntax.specs.Lines.{start_at, starts_to};
ghost use Rattle.ty_syntax.specs.Text.{is_span, spliced};

use super::{LineStart, Lines, scan};
use crate::edit::EditFault;
use crate::text::{is_span, spliced, units};
use std::alloc::Global;
use std::sync::ledger::Ledger;
use ty_path::{OutOfMemory, Steps};

impl Lines {
    /// Puts a text in place of the one from one offset to another. A refusal changes nothing. A step is one byte that
    /// is looked at: at most those from the start of the first offset's line to the second, those of the text that is
    /// put in, and four beside them.
    ///
    /// # Errors
    ///
    /// `Range` exactly where the first offset is past the second, the second is past the text's end, or one of them
    /// lies inside a character.
    pub fn repair<L: Ledger>(
        &mut self,
        alloc: Global,
        from: usize,
        to: usize,
        with: &str,
        steps: &mut Steps<L>,
    ) -> Result<(), EditFault>
        ensures ok { IfOk result (λ _. self.new ≡ spliced self.old from to with.now) }
        ensures err { OnErr result (self.new ≡ self.old) }
        ensures range { IsErrOf result EditFault.Range ↔ IsFalse (is_span self.old from to) }
        ensures steps { steps.new ≤ steps.old + (to - start_at self.old from) + length with.now + 4 }
    {
        if !is_span(self.text(), from, to) {
            return Err(EditFault::Range);
        }
        steps.add(to - self.start_at(from).byte);
        steps.add(with.len());
        steps.add(4);
        *self = self.repaired(alloc, from, to, with)?;
        Ok(())
    }

    /// The lines of the text with another one from one offset to another.
    pub(crate) fn repaired(
        &self,
        alloc: Global,
        from: usize,
        to: usize,
        with: &str,
    ) -> Result<Lines, OutOfMemory>
        requires { IsTrue (is_span self.now from to) }
        ensures { IfOk result (λ lines. lines ≡ spliced self.now from to with.now) }
    {
        let text = spliced(alloc, self.text(), from, to, with)?;
        let starts = self.repaired_starts(alloc, text.as_str(), from, to, with)?;
        Ok(Lines { text, starts })
    }

    /// The starts of the lines of the text that this one was edited to.
    fn repaired_starts(
        &self,
        alloc: Global,
        text: &str,
        from: usize,
        to: usize,
        with: &str,
    ) -> Result<Vec<LineStart>, OutOfMemory>
        requires span { IsTrue (is_span self.now from to) }
        requires text { text.now ≡ spliced self.now from to with.now }
        ensures { IfOk result (λ starts. starts.items ≡ table text.now) }
    {
        let old = self.text.as_bytes();
        let end = from + with.len();
        let start = self.start_at(from);
        let before = start.utf16 + units(&old[start.byte..from]);
        let replaced = units(&old[from..to]);
        // A line that ended before the edit may go on now, and the other way round: CR, and LF after it.
        let first = from.saturating_sub(1);
        // Most edits add few lines.
        let room = self.starts.len().saturating_add(16);
        let mut starts = Vec::with_capacity(alloc, room)?;
        starts.extend_from_slice(&self.starts[..=self.line_at(first)])?;
        let after = scan(
            &mut starts,
            text,
            first,
            end,
            before - units(&old[first..from]),
        )?;
        let was = LineStart {
            byte: to,
            utf16: before + replaced,
        };
        let now = LineStart {
            byte: end,
            utf16: after,
        };
        self.push_moved(&mut starts, was, now)?;
        Ok(starts)
    }

    /// Adds the starts of the lines after an offset, as they stand where what follows it has moved.
    fn push_moved(
        &self,
        starts: &mut Vec<LineStart>,
        was: LineStart,
        now: LineStart,
    ) -> Result<(), OutOfMemory>
        requires was { was ≡ entry self.now was.byte }
        requires within { was.byte ≤ length self.now }
        requires bytes { now.byte + (length self.now - was.byte) < 2 ^ 63 }
        requires units { now.utf16 ≤ 2 * now.byte }
        ensures { IfOk result (λ _. starts.new.items ≡ starts.old.items ++ map (moved was now) (drop (length (starts_to self.now was.byte)) (table self.now))) }
    {
        for start in &self.starts[self.line_at(was.byte) + 1..] {
            starts.push(LineStart {
                byte: start.byte - was.byte + now.byte,
                utf16: start.utf16 - was.utf16 + now.utf16,
            })?;
        }
        Ok(())
    }
}
