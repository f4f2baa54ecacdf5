//! Text at the end of a text.

ghost use Rattle.std.specs.Prelude.{◌≡◌, ◌∷◌, [], OnOk, string_bytes};
ghost use Rattle.std.specs.Str.{chars};
ghost use Rattle.pg_script_diagram.specs.Escaping.{GrowsBy};

use std::alloc::AllocError;

/// Appends a character.
pub(crate) fn add_char(out: &mut String, character: char) -> Result<(), AllocError>
    ensures { OnOk result (GrowsBy (character ∷ []) (string_bytes out.old) (string_bytes out.new)) }
{
    out.push(character)
}

/// Appends a text.
pub(crate) fn add_text(out: &mut String, text: &str) -> Result<(), AllocError>
    ensures { OnOk result (GrowsBy (chars text.now) (string_bytes out.old) (string_bytes out.new)) }
{
    out.push_str(text)
}
