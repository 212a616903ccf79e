//! The limits of a session, and the arguments that state them.
ghost use Rattle.std.specs.Prelude.{◌≡◌, ◌<◌, length, map, Some, None, drop, []};
ghost use Rattle.std.specs.Option.{option_map, option_and_then};
ghost use Rattle.std.specs.String.{string_bytes};
ghost use Rattle.tinymist_session.specs.Arguments as plain;
ghost use Rattle.tinymist_session.specs.Arguments.{plain_limits, plain_options};

use session_grammar::number;

/// The limits of a session.
#[derive(Clone, Copy, Debug, PartialEq, Eq)]
pub struct Limits {
    /// The most bytes of a line, without its LF.
    pub max_line: u32,
    /// The most lines.
    pub max_lines: u32,
}

/// The limits of a session whose arguments don't state any.
pub const DEFAULT_LIMITS: Limits = Limits {
    max_line: 16_777_216,
    max_lines: 1_000_000,
};

/// The options that were given, each at most once.
#[derive(Clone, Copy)]
pub(crate) struct Options {
    max_line: Option<u32>,
    max_lines: Option<u32>,
}

impl Options {
    /// Both options, where one is of each name.
    fn both(self, other: Options) -> Option<Options>
        ensures { option_map plain_options result ≡ plain.both_of (plain_options self) (plain_options other) }
    {
        let given = (
            self.max_line,
            self.max_lines,
            other.max_line,
            other.max_lines,
        );
        match given {
            (Some(max_line), None, None, Some(max_lines))
            | (None, Some(max_lines), Some(max_line), None) => Some(Options {
                max_line: Some(max_line),
                max_lines: Some(max_lines),
            }),
            _ => None,
        }
    }

    /// The limits with these options.
    fn limits(self) -> Limits
        ensures { plain_limits result ≡ plain.limits_with (plain_options self) }
    {
        Limits {
            max_line: self.max_line.unwrap_or(DEFAULT_LIMITS.max_line),
            max_lines: self.max_lines.unwrap_or(DEFAULT_LIMITS.max_lines),
        }
    }
}

/// A limit in decimal.
fn limit(word: &str) -> Option<u32>
    ensures { result ≡ plain.limit_of word.now }
{
    u32::try_from(number(word)?).ok()
}

/// The option of this name with its number.
fn option_of(name: &str, number: &str) -> Option<Options>
    ensures { option_map plain_options result ≡ plain.option_of name.now number.now }
{
    match name {
        "--max-line" => Some(Options {
            max_line: Some(limit(number)?),
            max_lines: None,
        }),
        "--max-lines" => Some(Options {
            max_line: None,
            max_lines: Some(limit(number)?),
        }),
        _ => None,
    }
}

/// The options in these arguments, in any order and each at most once.
fn options_in(words: &[String]) -> Option<Options>
    ensures { option_map plain_options result ≡ plain.options_of (map string_bytes words.now) }
{
    match words {
        [] => Some(Options {
            max_line: None,
            max_lines: None,
        }),
        [name, number] => option_of(name.as_str(), number.as_str()),
        [name, number, other, its] => option_of(name.as_str(), number.as_str())?.both(option_of(
            other.as_str(),
            its.as_str(),
        )?),
        _ => None,
    }
}

/// The limits that the arguments of a session state, if they are such arguments: none, or `session` and then
/// `--max-line N` and `--max-lines N` in any order, each at most once.
pub(crate) fn limits_of(words: &[String]) -> Option<Limits>
    ensures { option_map plain_limits result ≡ plain.limits_of (map string_bytes words.now) }
{
    if words.is_empty() {
        return Some(DEFAULT_LIMITS);
    }
    if words[0].as_str() != "session" {
        return None;
    }
    Some(options_in(&words[1..])?.limits())
}
