//! Worked texts, lines and sources: each call against a table, and against a plain scan.

use std::alloc::Global;
use std::test::Fail;
use ty_path::Share;
use ty_syntax::{EditFault, FileError, FileFault, Lines, Place, Source, detached_entry, text_of};

/// Bytes, and their text if they have one.
static TEXTS_OF: [(&[u8], Option<&str>); 9] = [
    (b"", Some("")),
    (b"a", Some("a")),
    (b"\xEF\xBB\xBF", Some("")),
    (b"\xEF\xBB\xBFa", Some("a")),
    (b"\xEF\xBB\xBF\xEF\xBB\xBFa", Some("\u{FEFF}a")),
    (b"a\xEF\xBB\xBF", Some("a\u{FEFF}")),
    (b"\xEF\xBB", None),
    (b"\xFF", None),
    (b"\xEF\xBB\xBF\xFF", None),
];

#[test]
fn texts_of_bytes(rt: HostRuntime) {
    for (bytes, text) in &TEXTS_OF {
        match (text_of(bytes), text) {
            (Ok(found), Some(text)) => assert_eq!(rt; found, *text, "of {bytes:?}"),
            (Err(fault), None) => {
                assert!(rt;
                    fault == FileFault::File(FileError::InvalidUtf8),
                    "of {bytes:?}"
                );
            }
            _ => assert!(rt; false, "of {bytes:?}"),
        }
    }
}

/// A text with three line ends, of which one has two bytes and one has three.
static WORKED: &str = "a\r\nb\u{2028}é\u{1D11E}";

/// The line of each offset of the worked text, and where it is one, its column and the units before it.
static WORKED_PLACES: [(Option<usize>, Option<usize>, Option<usize>); 15] = [
    (Some(0), Some(0), Some(0)),
    (Some(0), Some(1), Some(1)),
    (Some(0), Some(2), Some(2)),
    (Some(1), Some(0), Some(3)),
    (Some(1), Some(1), Some(4)),
    (Some(1), None, None),
    (Some(1), None, None),
    (Some(2), Some(0), Some(5)),
    (Some(2), None, None),
    (Some(2), Some(1), Some(6)),
    (Some(2), None, None),
    (Some(2), None, None),
    (Some(2), None, None),
    (Some(2), Some(2), Some(8)),
    (None, None, None),
];

/// The source of the detached entry with this text.
fn source_of(alloc: Global, text: &str) -> Result<Source, Fail> {
    let id = detached_entry(alloc)?;
    Ok(Source::new(alloc, id, String::from_str(alloc, text)?)?)
}

#[test]
fn worked_places(rt: HostRuntime) -> Result<(), Fail> {
    let source = source_of(rt.alloc(), WORKED)?;
    let lines = source.lines();
    for (byte, (line, column, utf16)) in WORKED_PLACES.iter().enumerate() {
        assert_eq!(rt; lines.byte_to_line(byte), *line, "of {byte}");
        assert_eq!(rt; lines.byte_to_column(byte), *column, "of {byte}");
        assert_eq!(rt; lines.byte_to_utf16(byte), *utf16, "of {byte}");
    }
    Ok(())
}

/// The range of each line of the worked text.
static WORKED_LINES: [Option<(usize, usize)>; 4] = [
    Some((0, 3)),
    Some((3, 7)),
    Some((7, 13)),
    None,
];

#[test]
fn worked_lines(rt: HostRuntime) -> Result<(), Fail> {
    let source = source_of(rt.alloc(), WORKED)?;
    let lines = source.lines();
    for (line, range) in WORKED_LINES.iter().enumerate() {
        assert_eq!(rt; lines.line_to_range(line), *range, "of {line}");
    }
    assert_eq!(rt; lines.line_to_byte(1), Some(3));
    Ok(())
}

#[test]
fn worked_lengths(rt: HostRuntime) -> Result<(), Fail> {
    let source = source_of(rt.alloc(), WORKED)?;
    assert_eq!(rt; source.lines().len_bytes(), 13);
    assert_eq!(rt; source.lines().len_lines(), 3);
    Ok(())
}

/// Texts with each line end, alone, last and side by side, with characters of each length, and with marks.
static TEXTS: [&str; 22] = [
    "",
    "a",
    "\n",
    "\r",
    "\r\n",
    "\n\r",
    "\r\r\n\n",
    "a\nb\n",
    "a\x0Bb\x0Cc",
    "\u{85}",
    "é\u{85}\u{85}é",
    "\u{2028}\u{2029}",
    "\u{2027}\u{202A}\u{84}\u{86}",
    "ab\u{2028}cd\u{2029}",
    "é\n日本\r\n\u{1D11E}x",
    "\u{1D11E}\u{1D11E}",
    "\u{FEFF}",
    "\u{FEFF}\u{FEFF}a\n\u{FEFF}",
    "\u{FFFF}\u{10000}\u{10FFFF}",
    "\x1C\x1D\x1E\x1F\t ",
    "a\r\u{85}\n\u{2029}\r",
    "\u{7F}\u{80}\u{7FF}\u{800}",
];

/// Whether a line ends with the character, before this byte.
fn is_end(character: char, next: Option<u8>) -> bool {
    match character {
        '\n' | '\x0B' | '\x0C' | '\u{85}' | '\u{2028}' | '\u{2029}' => true,
        '\r' => next != Some(b'\n'),
        _ => false,
    }
}

/// Where a scan from the start ends up: its line, where that starts, the characters and the units since then, and all
/// units.
#[derive(Clone, Copy)]
struct Scanned {
    line: usize,
    start: usize,
    column: usize,
    unit: usize,
    utf16: usize,
}

/// A scan over all characters that end at most at an offset.
fn scan(text: &str, offset: usize) -> Scanned {
    let mut at = Scanned {
        line: 0,
        start: 0,
        column: 0,
        unit: 0,
        utf16: 0,
    };
    for (byte, character) in text.char_indices() {
        let end = byte.saturating_add(character.len_utf8());
        if end > offset {
            return at;
        }
        at.utf16 = at.utf16.saturating_add(character.len_utf16());
        at.unit = at.unit.saturating_add(character.len_utf16());
        at.column = at.column.saturating_add(1);
        if is_end(character, text.as_bytes().get(end).copied()) {
            at.line = at.line.saturating_add(1);
            at.start = end;
            at.column = 0;
            at.unit = 0;
        }
    }
    at
}

/// Whether each call on an offset answers as a scan does.
fn answers_as_scanned(lines: &Lines, text: &str, offset: usize) -> bool {
    let at = scan(text, offset);
    let line = (offset <= text.len()).then_some(at.line);
    let is_place = text.is_char_boundary(offset);
    let place = Place {
        line: at.line,
        column: at.column,
        utf16: at.unit,
    };
    lines.byte_to_line(offset) == line
        && lines.byte_to_column(offset) == is_place.then_some(at.column)
        && lines.byte_to_utf16(offset) == is_place.then_some(at.utf16)
        && lines.byte_to_place(offset) == is_place.then_some(place)
        && lines.line_to_byte(at.line) == Some(at.start)
}

/// Whether each offset of the text, and the one past its end, is answered as a scan does.
fn offsets_answer_as_scanned(lines: &Lines, text: &str) -> bool {
    (0..text.len().saturating_add(2)).all(|offset| answers_as_scanned(lines, text, offset))
}

/// Whether the number of lines, the last line and the one after it are those of a scan.
fn ends_as_scanned(lines: &Lines, text: &str) -> bool {
    let end = scan(text, text.len());
    lines.len_bytes() == text.len()
        && lines.len_lines() == end.line.saturating_add(1)
        && lines.line_to_range(end.line) == Some((end.start, text.len()))
        && lines.line_to_byte(lines.len_lines()).is_none()
}

#[test]
fn tables_answer_as_scans(rt: HostRuntime) -> Result<(), Fail> {
    for text in &TEXTS {
        let source = source_of(rt.alloc(), text)?;
        assert!(rt;
            offsets_answer_as_scanned(source.lines(), text),
            "offsets of {text:?}"
        );
        assert!(rt; ends_as_scanned(source.lines(), text), "end of {text:?}");
    }
    Ok(())
}

/// A text, a span of it, another text, and what an edit makes or why it is refused.
static EDITS: [(&str, usize, usize, &str, Result<&str, EditFault>); 11] = [
    ("", 0, 0, "a", Ok("a")),
    ("abc", 1, 2, "xy", Ok("axyc")),
    ("abc", 1, 1, "é", Ok("aébc")),
    ("abc", 0, 3, "", Ok("")),
    ("abc", 3, 3, "d", Ok("abcd")),
    ("aéb", 1, 3, "\u{1D11E}", Ok("a\u{1D11E}b")),
    ("é", 1, 1, "x", Err(EditFault::Range)),
    ("é", 0, 1, "x", Err(EditFault::Range)),
    ("é", 1, 2, "x", Err(EditFault::Range)),
    ("abc", 2, 1, "x", Err(EditFault::Range)),
    ("abc", 1, 4, "x", Err(EditFault::Range)),
];

/// Whether an edit of a text answers as the row says, and leaves the text that it says.
fn edits_as_told(
    alloc: Global,
    text: &str,
    span: (usize, usize),
    with: &str,
    made: Result<&str, EditFault>,
) -> Result<bool, Fail> {
    let mut source = source_of(alloc, text)?;
    let answer = source.edit(alloc, span.0, span.1, with);
    let now = made.unwrap_or(text);
    Ok(
        answer.err() == made.err()
            && source.text() == now
            && source.lines().len_bytes() == now.len(),
    )
}

#[test]
fn edits(rt: HostRuntime) -> Result<(), Fail> {
    for (text, from, to, with, made) in &EDITS {
        assert!(rt;
            edits_as_told(rt.alloc(), text, (*from, *to), with, *made)?,
            "of {text:?} at {from}..{to}"
        );
    }
    Ok(())
}

#[test]
fn edits_move_line_starts(rt: HostRuntime) -> Result<(), Fail> {
    let mut source = source_of(rt.alloc(), "a\rb")?;
    assert!(rt; source.edit(rt.alloc(), 2, 3, "\n").is_ok());
    assert_eq!(rt; source.text(), "a\r\n");
    assert_eq!(rt; source.lines().line_to_byte(1), Some(3));
    assert!(rt; source.edit(rt.alloc(), 1, 2, "").is_ok());
    assert_eq!(rt; source.lines().line_to_byte(1), Some(2));
    assert!(rt; source.edit(rt.alloc(), 1, 1, "\r").is_ok());
    assert_eq!(rt; source.lines().line_to_byte(1), Some(3));
    assert_eq!(rt; source.lines().len_lines(), 2);
    Ok(())
}

#[test]
fn a_replaced_text_has_lines_of_its_own(rt: HostRuntime) -> Result<(), Fail> {
    let mut source = source_of(rt.alloc(), "a\n")?;
    source.replace(rt.alloc(), "x\ny\n")?;
    assert_eq!(rt; source.text(), "x\ny\n");
    assert_eq!(rt; source.lines().len_lines(), 3);
    Ok(())
}

#[test]
fn edits_keep_other_shares(rt: HostRuntime) -> Result<(), Fail> {
    let mut source = source_of(rt.alloc(), "a\rb")?;
    let kept = source.share(rt.alloc())?;
    assert!(rt; source.edit(rt.alloc(), 1, 2, "").is_ok());
    source.replace(rt.alloc(), "x\ny\n")?;
    assert_eq!(rt; kept.text(), "a\rb");
    assert_eq!(rt; kept.lines().line_to_range(1), Some((2, 3)));
    assert!(rt; *source.id() == *kept.id());
    Ok(())
}
