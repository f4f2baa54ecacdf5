//! What a text begins with.

ghost use Rattle.std.specs.Prelude.{◌≡◌, ◌<◌, ◌∷◌, ◌++◌, ◌==◌, [], true, false, length, drop, IfOk, IfErr, IfSome, None};
ghost use Rattle.std.specs.Char.{encode_utf8};
ghost use Rattle.std.specs.Str.{chars};
ghost use Rattle.pg_text.specs.Reading.{begins};
ghost use Rattle.pg_text.specs.declared.fault.TextFault.TheVariants.{BadText};

use crate::fault::TextFault;

// The first character, and what follows it.
pub fn first_of(text: &str) -> Option<(char, &str)>
    ensures bytes { IfSome result (λ read. text.now ≡ encode_utf8 read.0 ++ read.1.now) }
    ensures some { IfSome result (λ read. chars text.now ≡ read.0 ∷ chars read.1.now) }
    ensures none { result ≡ None → chars text.now ≡ [] }
{
    let mut characters = text.chars();
    match characters.next() {
        Some(first) => Some((first, characters.as_str())),
        None => None,
    }
}

// Whether no character is left.
pub fn is_over(text: &str) -> bool
    ensures { result ≡ (length (chars text.now) == 0) }
{
    text.is_empty()
}

// What follows this character, where it comes first.
pub fn after(text: &str, first: char) -> Option<&str>
    ensures some { IfSome result (λ rest. (begins first (chars text.now) ≡ true) × (chars rest.now ≡ drop 1 (chars text.now))) }
    ensures none { result ≡ None → begins first (chars text.now) ≡ false }
    ensures shorter { IfSome result (λ rest. length (chars rest.now) < length (chars text.now)) }
{
    match first_of(text) {
        Some((character, rest)) if character == first => Some(rest),
        _ => None,
    }
}

// What follows this character, which has to come first.
pub fn behind(text: &str, first: char) -> Result<&str, TextFault>
    ensures ok { IfOk result (λ rest. (begins first (chars text.now) ≡ true) × (chars rest.now ≡ drop 1 (chars text.now))) }
    ensures err { IfErr result (λ fault. (fault ≡ BadText) × (begins first (chars text.now) ≡ false)) }
    ensures shorter { IfOk result (λ rest. length (chars rest.now) < length (chars text.now)) }
{
    match after(text, first) {
        Some(rest) => Ok(rest),
        None => Err(TextFault::BadText),
    }
}
