//! The lines of a text, found by a table of their starts.
ghost use Rattle.std.specs.Prelude.{◌≡◌, ◌<◌, ◌≤◌, length, map, take, IfOk, slice_get};
ghost use Rattle.std.specs.Option.{option_map};
ghost use Rattle.ty_syntax.specs.LineTable.{entry, table};
ghost use Rattle.ty_syntax.specs.Lines.{ends_line, starts_to, line_starts, line_at, line_of, line_range, place, units_before, units_by_line, start_at};
ghost use Rattle.ty_syntax.specs.Text.{units};

mod repair;

use crate::place::Place;
use crate::text::{characters, is_place, units, units_of};
use std::alloc::Global;
use std::marker::Model;
use ty_path::OutOfMemory;

/// Where a line starts.
#[derive(Clone, Copy, Debug, PartialEq, Eq)]
struct LineStart {
    byte: usize,
    /// The UTF-16 code units before it.
    utf16: usize,
}

/// The lines of a text. A look-up searches the table of their starts, and reads one line at most. Contracts see the
/// text.
#[derive(Debug, Drop)]
pub struct Lines {
    text: String,
    starts: Vec<LineStart>,
}

impl Model for Lines {
    ghost use Rattle.std.specs.Prelude.{◌≡◌, List, ℕ};
    ghost use Rattle.std.specs.String.{string_bytes};

    ghost Value = { List ℕ };

    ghost use Rattle.ty_syntax.specs.LineTable.{table};

    ghost view = { λ l. string_bytes l.text };

    ghost invariant = { λ l. l.starts.items ≡ table (string_bytes l.text) };
}

impl Lines {
    ghost use Rattle.std.specs.String.{string_bytes};

    /// The lines of this text.
    pub fn new(alloc: Global, text: String) -> Result<Lines, OutOfMemory>
        ensures { IfOk result (λ lines. lines ≡ string_bytes text) }
    {
        let starts = line_starts(alloc, text.as_str())?;
        Ok(Lines { text, starts })
    }

    /// The text.
    pub fn text(&self) -> &str
        ensures { result.now ≡ self.now }
    {
        self.text.as_str()
    }

    /// The line of a byte: `None` exactly past the text's end.
    pub fn byte_to_line(&self, byte: usize) -> Option<usize>
        ensures { result ≡ line_of self.now byte }
    {
        if byte > self.len_bytes() {
            return None;
        }
        Some(self.line_at(byte))
    }

    /// The characters from the line's start: `None` exactly past the text's end and inside a character.
    pub fn byte_to_column(&self, byte: usize) -> Option<usize>
        ensures { result ≡ option_map (λ at. at.column) (place self.now byte) }
    {
        if !is_place(self.text.as_str(), byte) {
            return None;
        }
        let start = self.start_at(byte);
        Some(characters(&self.text.as_bytes()[start.byte..byte]))
    }

    /// The UTF-16 code units from the text's start: `None` exactly past the text's end and inside a character.
    pub fn byte_to_utf16(&self, byte: usize) -> Option<usize>
        ensures value { result ≡ units_before self.now byte }
        ensures line { result ≡ units_by_line self.now byte }
    {
        if !is_place(self.text.as_str(), byte) {
            return None;
        }
        let start = self.start_at(byte);
        Some(start.utf16 + units(&self.text.as_bytes()[start.byte..byte]))
    }

    /// The place of a byte: `None` exactly past the text's end and inside a character.
    pub fn byte_to_place(&self, byte: usize) -> Option<Place>
        ensures { result ≡ place self.now byte }
    {
        if !is_place(self.text.as_str(), byte) {
            return None;
        }
        let (line, start) = self.line_and_start(byte);
        let since = &self.text.as_bytes()[start.byte..byte];
        Some(Place {
            line,
            column: characters(since),
            utf16: units(since),
        })
    }

    /// Where a line starts: `None` exactly where there is no such line.
    pub fn line_to_byte(&self, line: usize) -> Option<usize>
        ensures { result ≡ slice_get (line_starts self.now) line }
    {
        let start = self.starts.get(line)?;
        Some(start.byte)
    }

    /// From where a line starts to where the next one does, or to the text's end: `None` exactly where there is no
    /// such line.
    pub fn line_to_range(&self, line: usize) -> Option<(usize, usize)>
        ensures { result ≡ line_range self.now line }
    {
        let start = self.starts.get(line)?;
        let end = match self.starts.get(line + 1) {
            Some(next) => next.byte,
            None => self.len_bytes(),
        };
        Some((start.byte, end))
    }

    /// How many lines there are, the one after the last line end too.
    pub fn len_lines(&self) -> usize
        ensures { result ≡ length (line_starts self.now) }
    {
        self.starts.len()
    }

    /// How many bytes the text has.
    pub fn len_bytes(&self) -> usize
        ensures { result ≡ length self.now }
    {
        self.text.len()
    }

    fn line_at(&self, byte: usize) -> usize
        requires { byte ≤ length self.now }
        ensures value { result ≡ line_at self.now byte }
        ensures within { result < length (line_starts self.now) }
    {
        self.starts.partition_point(|start| start.byte <= byte) - 1
    }

    /// The line of a byte, and where it starts.
    fn line_and_start(&self, byte: usize) -> (usize, LineStart)
        requires { byte ≤ length self.now }
        ensures line { result.0 ≡ line_at self.now byte }
        ensures start { result.1 ≡ entry self.now (start_at self.now byte) }
        ensures before { result.1.byte ≤ byte }
    {
        let line = self.line_at(byte);
        (line, self.starts[line])
    }

    fn start_at(&self, byte: usize) -> LineStart
        requires { byte ≤ length self.now }
        ensures start { result ≡ entry self.now (start_at self.now byte) }
        ensures before { result.byte ≤ byte }
    {
        self.line_and_start(byte).1
    }
}

/// The starts of the lines of a text, in order.
fn line_starts(alloc: Global, text: &str) -> Result<Vec<LineStart>, OutOfMemory>
    ensures { IfOk result (λ starts. starts.items ≡ table text.now) }
{
    let mut starts = Vec::new(alloc);
    starts.push(LineStart { byte: 0, utf16: 0 })?;
    scan(&mut starts, text, 0, text.len(), 0)?;
    Ok(starts)
}

/// Goes on with the starts of a text's lines from one offset to another. Of the first it is told, and of the second it
/// tells, how many UTF-16 code units stand before it.
fn scan(
    starts: &mut Vec<LineStart>,
    text: &str,
    from: usize,
    to: usize,
    before: usize,
) -> Result<usize, OutOfMemory>
    requires order { from ≤ to }
    requires within { to ≤ length text.now }
    requires before { before ≡ units (take from text.now) }
    requires starts { starts.old.items ≡ map (entry text.now) (starts_to text.now from) }
    ensures starts { IfOk result (λ _. starts.new.items ≡ map (entry text.now) (starts_to text.now to)) }
    ensures before { IfOk result (λ utf16. utf16 ≡ units (take to text.now)) }
{
    let bytes = text.as_bytes();
    let mut utf16 = before;
    for at in from..to {
        utf16 += units_of(bytes[at]);
        if ends_line(bytes, at) {
            starts.push(LineStart {
                byte: at + 1,
                utf16,
            })?;
        }
    }
    Ok(utf16)
}

/// Whether a line ends with the byte at this place.
fn ends_line(text: &[u8], at: usize) -> bool
    requires { at < length text.now }
    ensures { result ≡ ends_line text.now at }
{
    match text[at] {
        b'\n' | 0x0B | 0x0C => true,
        b'\r' => at + 1 == text.len() || text[at + 1] != b'\n',
        0x85 => at >= 1 && text[at - 1] == 0xC2,
        0xA8 | 0xA9 => at >= 2 && text[at - 1] == 0x80 && text[at - 2] == 0xE2,
        _ => false,
    }
}
