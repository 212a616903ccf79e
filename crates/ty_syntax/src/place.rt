//! Where an offset stands in the lines of a text.
use std::marker::Model;

/// A line, and how far an offset lies from its start, in characters and in UTF-16 code units. All count from 0.
#[derive(Clone, Copy, Debug, PartialEq, Eq)]
pub struct Place {
    /// The line.
    pub line: usize,
    /// The characters between the line's start and the offset.
    pub column: usize,
    /// The UTF-16 code units between them.
    pub utf16: usize,
}

impl Model for Place {
    ghost use Rattle.ty_syntax.specs.Lines as plain;

    ghost Value = { plain.Place };

    ghost view = { λ p. record { line = p.line; column = p.column; unit = p.utf16 } };

    ghost inverse = { λ p. record { line = p.line; column = p.column; utf16 = p.unit } };
}
