//! Components written as a text.
ghost use Rattle.std.specs.Prelude.{◌≡◌, List, IfOk, OnOk, string_bytes, ◌++◌, ◌∷◌, []};
ghost use Rattle.ty_model.specs.Paths as plain;
ghost use Rattle.ty_path.specs.Parts.{plain_component, components_left};

use crate::memory::OutOfMemory;
use std::alloc::Global;
use std::path::{Component, Components};

/// Adds a part and a slash behind it.
pub(crate) fn push_part(text: &mut String, part: &str) -> Result<(), OutOfMemory>
    ensures { OnOk result (string_bytes text.new ≡ string_bytes text.old ++ (part.now ++ 47 ∷ [])) }
{
    text.push_str(part)?;
    text.push('/')?;
    Ok(())
}

/// The text of the components that are still to come.
pub(crate) fn text_of(alloc: Global, components: Components<'_>) -> Result<String, OutOfMemory>
    requires { plain.ArePath (components_left components) }
    ensures { IfOk result
        (λ text. string_bytes text ≡ plain.text_of (components_left components.entry)) }
{
    let room = components.as_path().as_str().len() + 1;
    let mut text = String::with_capacity(alloc, room)?;
    push_components(&mut text, components)?;
    close(&mut text);
    Ok(text)
}

/// Adds the components that are still to come, each with a slash behind it.
pub(crate) fn push_components(
    text: &mut String,
    components: Components<'_>,
) -> Result<(), OutOfMemory>
    ensures { let more = plain.slashes (components_left components.entry) in
        OnOk result (string_bytes text.new ≡ string_bytes text.old ++ more) }
{
    for component in components {
        push_part(text, component_text(component))?;
    }
    Ok(())
}

/// A component's text between slashes, which of the root is empty.
pub(crate) fn component_text(component: Component<'_>) -> &str
    ensures { result.now ≡ plain.component_text (plain_component component.entry) }
{
    match component {
        Component::RootDir => "",
        Component::CurDir => ".",
        Component::ParentDir => "..",
        Component::Normal(name) => name,
    }
}

/// Takes off the slash at the end, unless the text is the root alone.
pub(crate) fn close(text: &mut String)
    ensures { (cs : List plain.Component) → plain.ArePath cs
        → string_bytes text.old ≡ plain.slashes cs → string_bytes text.new ≡ plain.text_of cs }
{
    if text.len() > 1 {
        text.pop();
    }
}

/// `.` in place of the empty text.
pub(crate) fn or_dot(mut text: String) -> Result<String, OutOfMemory>
    ensures { IfOk result (λ dotted. string_bytes dotted ≡ plain.or_dot (string_bytes text)) }
{
    if text.is_empty() {
        text.push('.')?;
    }
    Ok(text)
}
