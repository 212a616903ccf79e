//! Sources: a file's id with its text and the lines of it.
ghost use Rattle.std.specs.Prelude.{◌≡◌, ◌↔◌, IfOk, OnErr, IsErrOf, IsFalse};
ghost use Rattle.std.specs.String.{string_bytes};
ghost use Rattle.std.specs.Arc.{arc_value};
ghost use Rattle.ty_syntax.specs.Text.{is_span, spliced};

use crate::common::{common_back, common_front};
use crate::edit::EditFault;
use crate::id::FileId;
use crate::lines::Lines;
use crate::text::is_span;
use std::alloc::Global;
use std::marker::Model;
use std::sync::Arc;
use ty_path::{OutOfMemory, Share};

/// A file's id and text. Shares of a source have one text and one table of lines. Contracts see the id and the text.
#[derive(Debug, Drop)]
pub struct Source {
    id: FileId,
    lines: Arc<Lines>,
}

impl Model for Source {
    ghost use Rattle.std.specs.Arc.{arc_value};
    ghost use Rattle.ty_syntax.specs.Source as plain;

    ghost Value = { plain.Source };

    ghost view = { λ s. record { id = s.id; text = arc_value s.lines } };
}

impl Source {
    /// The source of this id and text.
    pub fn new(alloc: Global, id: FileId, text: String) -> Result<Source, OutOfMemory>
        ensures { IfOk result (λ source. source ≡ record { id = id; text = string_bytes text }) }
    {
        Ok(Source {
            id,
            lines: lines_of(alloc, text)?,
        })
    }

    /// The id of the file.
    pub fn id(&self) -> &FileId
        ensures { result.now ≡ self.now.id }
    {
        &self.id
    }

    /// The text.
    pub fn text(&self) -> &str
        ensures { result.now ≡ self.now.text }
    {
        self.lines.text()
    }

    /// The lines of the text.
    pub fn lines(&self) -> &Lines
        ensures { result.now ≡ self.now.text }
    {
        &self.lines
    }

    /// Puts another text in place of this one: what both begin and end with alike stays. A refusal changes nothing.
    pub fn replace(&mut self, alloc: Global, text: &str) -> Result<(), OutOfMemory>
        ensures ok { IfOk result (λ _. self.new ≡ record self.old { text = text.now }) }
        ensures err { OnErr result (self.new ≡ self.old) }
    {
        let old = self.lines.text();
        let front = common_front(old, text);
        let back = common_back(old, text, front);
        let changed = &text[front..text.len() - back];
        let lines = self
            .lines
            .repaired(alloc, front, old.len() - back, changed)?;
        self.lines = shared(alloc, lines)?;
        Ok(())
    }

    /// Puts a text in place of the one from one offset to another. A refusal changes nothing.
    ///
    /// # Errors
    ///
    /// `Range` exactly where the first offset is past the second, the second is past the text's end, or one of them
    /// lies inside a character.
    pub fn edit(
        &mut self,
        alloc: Global,
        from: usize,
        to: usize,
        with: &str,
    ) -> Result<(), EditFault>
        ensures ok { IfOk result (λ _. self.new ≡ record self.old { text = spliced self.old.text from to with.now }) }
        ensures err { OnErr result (self.new ≡ self.old) }
        ensures range { IsErrOf result EditFault.Range ↔ IsFalse (is_span self.old.text from to) }
    {
        if !is_span(self.lines.text(), from, to) {
            return Err(EditFault::Range);
        }
        self.lines = shared(alloc, self.lines.repaired(alloc, from, to, with)?)?;
        Ok(())
    }
}

impl Share for Source {
    ghost use Rattle.ty_syntax.specs.Source as plain;

    ghost Seen = { plain.Source };

    ghost seen = { λ s. s };

    fn share(&self, alloc: Global) -> Result<Source, OutOfMemory> {
        Ok(Source {
            id: self.id.share(alloc)?,
            lines: Arc::try_clone(&self.lines)?,
        })
    }
}

fn lines_of(alloc: Global, text: String) -> Result<Arc<Lines>, OutOfMemory>
    ensures { IfOk result (λ lines. arc_value lines ≡ string_bytes text) }
{
    shared(alloc, Lines::new(alloc, text)?)
}

fn shared(alloc: Global, lines: Lines) -> Result<Arc<Lines>, OutOfMemory>
    ensures { IfOk result (λ share. arc_value share ≡ lines) }
{
    Ok(Arc::new(alloc, lines)?)
}
