//! Plain data that messages about a source carry: severities, positions and ranges.
ghost use Rattle.std.specs.Prelude.{Some};
ghost use Rattle.tinymist_std.specs.Diagnostic.{severity_text};

use std::alloc::Global;
use std::fmt;
use ty_path::{OutOfMemory, Share};

/// The number of a definition.
#[derive(Clone, Copy, Debug, PartialEq, Eq, PartialOrd, Ord, Hash)]
pub struct DefId(pub u64);

/// How grave a message is. The numbers are those of the language server protocol.
#[derive(Clone, Copy, Debug, PartialEq, Eq, PartialOrd, Ord, Hash)]
pub enum DiagSeverity {
    /// Something is wrong.
    Error = 1,
    /// Something may be wrong.
    Warning = 2,
    /// Something is worth knowing.
    Information = 3,
    /// Something could be better.
    Hint = 4,
}

impl fmt::Display for DiagSeverity {
    ghost output = { λ s. Some (severity_text s) };

    fn fmt<W: fmt::Write>(&self, f: &mut fmt::Formatter<W>) -> fmt::Result {
        f.write_str(match self {
            DiagSeverity::Error => "error",
            DiagSeverity::Warning => "warning",
            DiagSeverity::Information => "information",
            DiagSeverity::Hint => "hint",
        })
    }
}

/// A place in a text: a line, and a character within it, each counted from 0.
#[derive(Clone, Copy, Debug, PartialEq, Eq, PartialOrd, Ord, Hash)]
pub struct LspPosition {
    /// The line of the text.
    pub line: u32,
    /// The character within the line.
    pub character: u32,
}

/// A range of a text, from `start` up to `end`.
#[derive(Clone, Copy, Debug, PartialEq, Eq, PartialOrd, Ord, Hash)]
pub struct LspRange {
    /// The first place of the range.
    pub start: LspPosition,
    /// The first place past it.
    pub end: LspPosition,
}

/// A message about a file of a package.
#[derive(Debug, Drop)]
pub struct DiagMessage {
    /// The specifier of the package.
    pub package: String,
    /// The path of the file in the package.
    pub path: String,
    /// The text of the message.
    pub message: String,
    /// How grave it is.
    pub severity: DiagSeverity,
    /// The part of the file that it tells of, if it is known.
    pub range: Option<LspRange>,
}

impl Share for DiagMessage {
    ghost use Rattle.tinymist_std.specs.Diagnostic.{Report, report_of};

    ghost Seen = { Report };

    ghost seen = { report_of };

    fn share(&self, alloc: Global) -> Result<DiagMessage, OutOfMemory> {
        Ok(DiagMessage {
            package: String::from_str(alloc, self.package.as_str())?,
            path: String::from_str(alloc, self.path.as_str())?,
            message: String::from_str(alloc, self.message.as_str())?,
            severity: self.severity,
            range: self.range,
        })
    }
}
