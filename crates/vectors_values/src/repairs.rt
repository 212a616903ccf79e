//! Thousands of edits of mixed line ends and wide characters, each table beside one that is made anew.
ghost use Rattle.std.specs.Prelude.{◌≡◌, ◌<◌};

use std::alloc::Global;
use std::marker::Brand;
use std::sync::ledger::{Blank, Ledger};
use std::test::Fail;
use ty_path::Steps;
use ty_syntax::{EditFault, Lines, Source, detached_entry};

/// What texts are put together from.
static PIECES: [&str; 12] = [
    "\r",
    "\n",
    "\r\n",
    "\x0B",
    "\u{85}",
    "\u{2028}",
    "\u{2029}",
    "a",
    "bc",
    "é",
    "日",
    "\u{1D11E}",
];

/// The next number of a sequence.
fn next(x: u64) -> u64 {
    x.wrapping_mul(6364136223846793005)
        .wrapping_add(1442695040888963407)
}

/// Up to seven pieces that a number names.
fn pieces(alloc: Global, x: u64) -> Result<String, Fail> {
    let mut text = String::new(alloc);
    let mut rest = x >> 20;
    for _ in 0..(x >> 60) % 8 {
        text.push_str(PIECES[(rest % 12) as usize])?;
        rest /= 12;
    }
    Ok(text)
}

/// Whether two tables have the same lines, which start at the same bytes.
fn same_starts(one: &Lines, other: &Lines) -> bool {
    for line in 0..one.len_lines() {
        if one.line_to_range(line) != other.line_to_range(line) {
            return false;
        }
    }
    one.len_lines() == other.len_lines()
}

/// Whether two tables tell the same units before each offset.
fn same_units(one: &Lines, other: &Lines) -> bool {
    for byte in 0..one.len_bytes() {
        if one.byte_to_utf16(byte) != other.byte_to_utf16(byte) {
            return false;
        }
    }
    one.byte_to_utf16(one.len_bytes()) == other.byte_to_utf16(one.len_bytes())
}

/// Whether lines are those of a table that is made anew of their text.
fn is_as_made_anew(alloc: Global, lines: &Lines) -> Result<bool, Fail> {
    let anew = Lines::new(alloc, String::from_str(alloc, lines.text())?)?;
    Ok(same_starts(lines, &anew) && same_units(lines, &anew))
}

/// One edit that a number names. Answers whether it was refused for its span.
fn repair<L: Ledger>(
    alloc: Global,
    lines: &mut Lines,
    x: u64,
    steps: &mut Steps<L>,
) -> Result<bool, Fail> {
    let offsets = lines.text().len() as u64 + 1;
    let one = (x >> 33) % offsets;
    let other = (x >> 12) % offsets;
    let (from, to) = (one.min(other) as usize, one.max(other) as usize);
    let with = pieces(alloc, next(x))?;
    match lines.repair(alloc, from, to, with.as_str(), steps) {
        Err(EditFault::Range) => Ok(true),
        answer => {
            answer?;
            Ok(false)
        }
    }
}

/// Makes so many edits, and answers how many weren't refused: none where a table wasn't as one that is made anew.
fn made<L: Ledger>(alloc: Global, seed: u64, edits: u32, blank: Blank) -> Result<Option<u32>, Fail>
    requires name { blank.name ≡ L.name }
    requires parts { blank.parts ≡ L.parts }
    requires some { 0 < L.parts }
{
    let mut steps: Steps<L> = Steps::new(blank);
    let mut lines = Lines::new(alloc, String::new(alloc))?;
    let mut x = seed;
    let mut made: u32 = 0;
    for _ in 0..edits {
        x = next(x);
        if !repair(alloc, &mut lines, x, &mut steps)? {
            made = made.saturating_add(1);
        }
        if !is_as_made_anew(alloc, &lines)? {
            return Ok(None);
        }
    }
    Ok(Some(made))
}

#[test]
fn ten_thousand_edits_beside_tables_made_anew(rt: HostRuntime) -> Result<(), Fail> {
    let made = made::<Brand>(rt.alloc(), 1, 40000, Blank::new(1))?;
    assert!(rt; made.is_some_and(|made| made >= 10000), "{made:?} edits");
    Ok(())
}

/// Texts, and others that take their place: what both share ends in a character, in a line end, nowhere or at the end.
static REPLACED: [(&str, &str); 10] = [
    ("", "a\n"),
    ("a\n", ""),
    ("a\nb", "a\nb"),
    ("é", "è"),
    ("a\u{2028}b", "a\u{2029}b"),
    ("日\n", "日\u{1D11E}日\n"),
    ("é\u{A9}", "é\u{A9}\u{A9}"),
    ("a\r", "a\r\n"),
    ("a\r\nb", "a\nb"),
    ("a\nb\n", "a\nc\nb\n"),
];

/// Whether a source of one text has the other once that is put in its place, with lines as a table that is made anew.
fn replaces(alloc: Global, text: &str, other: &str) -> Result<bool, Fail> {
    let text = String::from_str(alloc, text)?;
    let mut source = Source::new(alloc, detached_entry(alloc)?, text)?;
    source.replace(alloc, other)?;
    Ok(source.text() == other && is_as_made_anew(alloc, source.lines())?)
}

#[test]
fn replaced_texts(rt: HostRuntime) -> Result<(), Fail> {
    for (text, other) in &REPLACED {
        assert!(rt;
            replaces(rt.alloc(), text, other)?,
            "{other:?} for {text:?}"
        );
    }
    Ok(())
}
