//! The fields of a line, parted by tabs: the first of them, or as many as a command has.
ghost use Rattle.std.specs.Prelude.{◌≡◌, ◌∷◌, [], IfSome, IfNone, None};
ghost use Rattle.std.specs.Option.{option_copied};
ghost use Rattle.ty_model.specs.Paths.{parts_at};
ghost use Rattle.session_grammar.specs.Grammar.{one_of, two_of, three_of, clean_sentence};
ghost use Rattle.session_grammar.specs.Plain.{fields_of};

use memchr::memchr;

/// The first field, and the rest of the line after its tab.
pub(crate) fn cut(text: &str) -> Option<(&str, &str)>
    ensures some { IfSome result (λ parts. parts_at 9 text.now ≡ parts.0.now ∷ parts_at 9 parts.1.now) }
    ensures none { IfNone result (parts_at 9 text.now ≡ text.now ∷ []) }
{
    match memchr(b'\t', text.as_bytes()) {
        Some(at) => Some((&text[..at], &text[at + 1..])),
        None => None,
    }
}

/// The first field, and the fields after it.
pub(crate) fn first_field(fields: &str) -> (&str, Option<&str>)
    ensures { parts_at 9 fields.now ≡ result.0.now ∷ fields_of result.1 }
{
    match cut(fields) {
        Some((first, rest)) => (first, Some(rest)),
        None => (fields, None),
    }
}

/// The field, where there is one.
pub(crate) fn one_field(fields: Option<&str>) -> Option<&str>
    ensures { option_copied result ≡ one_of (fields_of fields.entry) }
{
    let field = fields?;
    match cut(field) {
        None => Some(field),
        Some(_) => None,
    }
}

/// Both fields, where there are two.
pub(crate) fn two_fields(fields: Option<&str>) -> Option<(&str, &str)>
    ensures some { IfSome result (λ f. fields_of fields.entry ≡ f.0.now ∷ f.1.now ∷ []) }
    ensures none { IfNone result (two_of (fields_of fields.entry) ≡ None) }
{
    let (first, rest) = cut(fields?)?;
    match cut(rest) {
        None => Some((first, rest)),
        Some(_) => None,
    }
}

/// The three fields, where there are three.
pub(crate) fn three_fields(fields: Option<&str>) -> Option<(&str, &str, &str)>
    ensures some { IfSome result (λ f. fields_of fields.entry ≡ f.0.now ∷ f.1.now ∷ f.2.now ∷ []) }
    ensures none { IfNone result (three_of (fields_of fields.entry) ≡ None) }
{
    let (first, rest) = cut(fields?)?;
    let (second, third) = cut(rest)?;
    match cut(third) {
        None => Some((first, second, third)),
        Some(_) => None,
    }
}

/// The first two fields, and the fields after them.
pub(crate) fn two_or_more_fields(fields: Option<&str>) -> Option<(&str, &str, Option<&str>)>
    ensures some { IfSome result (λ f. fields_of fields.entry ≡ f.0.now ∷ f.1.now ∷ fields_of f.2) }
    ensures none { IfNone result (clean_sentence (fields_of fields.entry) ≡ None) }
{
    let (first, rest) = cut(fields?)?;
    let (second, rest) = first_field(rest);
    Some((first, second, rest))
}
