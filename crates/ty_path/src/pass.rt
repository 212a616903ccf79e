//! Whether a path is clean, in one pass over its bytes.
ghost use Rattle.std.specs.Prelude.{◌≡◌, ◌↔◌, ◌++◌, ◌∷◌, [], ℕ, List, IsTrue, false};
ghost use Rattle.std.specs.Option.{option_map_or};
ghost use Rattle.ty_model.specs.Paths as plain;
ghost use Rattle.ty_path.specs.Clean.{are_clean, are_plain, part_of};

/// The part of a path that a pass stands in, as far as it was read.
#[derive(Clone, Copy)]
enum Part {
    /// Nothing was read of it.
    Empty,
    /// `.`
    Dot,
    /// `..`
    DotDot,
    /// Anything else.
    Name,
}

impl Part {
    /// The part with one more byte.
    fn with(self, byte: u8) -> Part
        ensures { (read : List ℕ) → part_of read ≡ self → part_of (read ++ byte ∷ []) ≡ result }
    {
        if byte != b'.' {
            return Part::Name;
        }
        match self {
            Part::Empty => Part::Dot,
            Part::Dot => Part::DotDot,
            Part::DotDot => Part::Name,
            Part::Name => Part::Name,
        }
    }

    /// Whether `..` may be the next part, where this one may stand in a clean path; `ups` says whether this one may
    /// be `..`.
    fn end(self, ups: bool) -> Option<bool>
        ensures { (read : List ℕ) (rest : List (List ℕ)) → part_of read ≡ self
            → are_clean ups (read ∷ rest) ≡ option_map_or (λ next. are_clean next rest) result false }
    {
        match self {
            Part::Empty => None,
            Part::Dot => None,
            Part::DotDot => ups.then_some(true),
            Part::Name => Some(false),
        }
    }
}

/// Whether the path is its own cleaned form. It takes no memory.
pub fn is_clean(path: &str) -> bool
    ensures { IsTrue result ↔ (plain.clean path.now ≡ path.now) }
{
    if path == "." || path == "/" {
        return true;
    }
    match path.strip_prefix('/') {
        Some(rest) => has_clean_parts(rest.as_bytes(), false),
        None => has_clean_parts(path.as_bytes(), true),
    }
}

/// Whether the text is made of names alone, with one slash between two of them.
pub fn are_names(text: &str) -> bool
    ensures { result ≡ are_clean false (plain.parts_at 47 text.now) }
{
    has_clean_parts(text.as_bytes(), false)
}

/// Whether the parts of a text can end a clean path; `ups` says whether the first may be `..`. Only where a part is
/// empty or begins with a dot are they looked at one by one.
pub(crate) fn has_clean_parts(text: &[u8], ups: bool) -> bool
    ensures { result ≡ are_clean ups (plain.parts_at 47 text.now) }
{
    if has_plain_parts(text) {
        return true;
    }
    reads_clean(text, ups)
}

/// Whether no part is empty or begins with a dot, in one pass without branches.
fn has_plain_parts(text: &[u8]) -> bool
    ensures { result ≡ are_plain text.now }
{
    let mut plain = true;
    let mut begins = true;
    for byte in text {
        let slash = *byte == b'/';
        plain = plain & !(begins & (slash | (*byte == b'.')));
        begins = slash;
    }
    plain & !begins
}

/// The same as `has_clean_parts`, part by part.
fn reads_clean(text: &[u8], ups: bool) -> bool
    ensures { result ≡ are_clean ups (plain.parts_at 47 text.now) }
{
    let mut part = Part::Empty;
    let mut may_be_up = ups;
    for byte in text {
        if *byte == b'/' {
            let Some(next) = part.end(may_be_up) else {
                return false;
            };
            may_be_up = next;
            part = Part::Empty;
        } else {
            part = part.with(*byte);
        }
    }
    part.end(may_be_up).is_some()
}
