//! The characters of an atom within quotes, one after another.

ghost use Rattle.std.specs.Prelude.{◌≡◌};
ghost use Rattle.pg_text.specs.Reading.{plain_step, escape_step, opening_step, is_hex};
ghost use Rattle.pg_text.specs.Reading.{escaped_step, digit_step, digits_step, quoted_step};

/// The digits of an escape that were read: their value, and whether there were any.
#[derive(Clone, Copy)]
pub struct Hex {
    pub value: u32,
    pub begun: bool,
}

/// Where within quotes a text is: at a character, after a backslash, after `\x`, or within the braces of an escape.
#[derive(Clone, Copy)]
pub enum Place {
    Plain,
    Escape,
    Opening,
    Digits(Hex),
}

/// What a character within quotes comes to.
#[derive(Clone, Copy)]
pub enum Quoted {
    Close,
    Character(char),
    Within(Place),
    Bad,
}

/// What the next character comes to.
pub fn read_quoted(place: Place, character: char) -> Quoted
    ensures { result ≡ quoted_step place character }
{
    match place {
        Place::Plain => plain(character),
        Place::Escape => escape(character),
        Place::Opening => opening(character),
        Place::Digits(hex) => digits(hex, character),
    }
}

fn plain(character: char) -> Quoted
    ensures { result ≡ plain_step character }
{
    if character == '\'' {
        Quoted::Close
    } else if character == '\\' {
        Quoted::Within(Place::Escape)
    } else if character.is_ascii_control() {
        Quoted::Bad
    } else {
        Quoted::Character(character)
    }
}

fn escape(character: char) -> Quoted
    ensures { result ≡ escape_step character }
{
    if character == '\'' || character == '\\' {
        Quoted::Character(character)
    } else if character == 'x' {
        Quoted::Within(Place::Opening)
    } else {
        Quoted::Bad
    }
}

fn opening(character: char) -> Quoted
    ensures { result ≡ opening_step character }
{
    if character == '{' {
        Quoted::Within(Place::Digits(Hex {
            value: 0,
            begun: false,
        }))
    } else {
        Quoted::Bad
    }
}

fn digits(hex: Hex, character: char) -> Quoted
    ensures { result ≡ digits_step hex character }
{
    if character == '}' && hex.begun {
        escaped(hex.value)
    } else {
        digit(hex, character)
    }
}

// The character of this number, where there is one.
fn escaped(code: u32) -> Quoted
    ensures { result ≡ escaped_step code }
{
    match char::from_u32(code) {
        Some(character) => Quoted::Character(character),
        None => Quoted::Bad,
    }
}

// A digit from 0 to 9 or from a to f.
fn is_hex_digit(character: char) -> bool
    ensures { result ≡ is_hex character }
{
    character.is_ascii_digit() || ('a' <= character && character <= 'f')
}

// One digit more.
fn digit(hex: Hex, character: char) -> Quoted
    ensures { result ≡ digit_step hex character }
{
    if !is_hex_digit(character) || hex.begun && hex.value == 0 || hex.value >= 0x11_0000 {
        return Quoted::Bad;
    }
    match character.to_digit(16) {
        Some(value) => Quoted::Within(Place::Digits(Hex {
            value: hex.value * 16 + value,
            begun: true,
        })),
        None => Quoted::Bad,
    }
}
