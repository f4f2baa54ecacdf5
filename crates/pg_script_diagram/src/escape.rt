//! Text that XML reads as just this text.

ghost use Rattle.std.specs.Prelude.{◌≡◌, OnOk, string_bytes};
ghost use Rattle.std.specs.Str.{chars};
ghost use Rattle.pg_script_diagram.specs.Escaping.{GrowsBy, allowed, escaped, escaped_char};

use crate::adding::{add_char, add_text};
use std::alloc::AllocError;

/// Appends a text so that XML reads it as this text, in an element and in a quoted attribute. A character that XML
/// has not is written as U+FFFD.
pub(crate) fn add_escaped(out: &mut String, text: &str) -> Result<(), AllocError>
    ensures { OnOk result (GrowsBy (escaped (chars text.now)) (string_bytes out.old) (string_bytes out.new)) }
{
    for character in text.chars() {
        add_escaped_char(out, character)?;
    }
    Ok(())
}

/// Appends one character.
pub(crate) fn add_escaped_char(out: &mut String, character: char) -> Result<(), AllocError>
    ensures { OnOk result (GrowsBy (escaped_char character) (string_bytes out.old) (string_bytes out.new)) }
{
    match character {
        '&' => add_text(out, "&amp;"),
        '<' => add_text(out, "&lt;"),
        '>' => add_text(out, "&gt;"),
        '"' => add_text(out, "&quot;"),
        '\'' => add_text(out, "&#39;"),
        other => add_char(out, allowed(other)),
    }
}

/// The character, or U+FFFD for one that XML has not.
fn allowed(character: char) -> char
    ensures { result ≡ allowed character }
{
    if character < ' ' || character == '\u{fffe}' || character == '\u{ffff}' {
        '\u{fffd}'
    } else {
        character
    }
}
