//! Text at the end of a text.

ghost use Rattle.std.specs.Prelude.{◌≡◌, ◌∷◌, [], OnOk, string_bytes, decimal};
ghost use Rattle.std.specs.Str.{chars};
ghost use Rattle.pg_text.specs.Writing.{GrowsBy};

use std::alloc::AllocError;

/// Appends a character.
///
/// Errors: `AllocError`, which changes nothing.
///
/// Cost: memory where `out` has no room for it.
pub fn add_char(out: &mut String, character: char) -> Result<(), AllocError>
    ensures { OnOk result (GrowsBy (character ∷ []) (string_bytes out.old) (string_bytes out.new)) }
{
    out.push(character)
}

/// Appends a text.
///
/// Errors: `AllocError`, which changes nothing.
///
/// Cost: memory where `out` has no room for it.
pub fn add_text(out: &mut String, text: &str) -> Result<(), AllocError>
    ensures { OnOk result (GrowsBy (chars text.now) (string_bytes out.old) (string_bytes out.new)) }
{
    out.push_str(text)
}

/// Appends a number in decimal.
///
/// Errors: `AllocError`, which changes nothing.
///
/// Cost: memory where `out` has no room for it.
pub fn add_number(out: &mut String, number: u64) -> Result<(), AllocError>
    ensures { OnOk result (GrowsBy (decimal number) (string_bytes out.old) (string_bytes out.new)) }
{
    write!(out, "{number}")
}
