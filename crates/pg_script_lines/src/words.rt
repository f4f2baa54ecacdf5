//! The words of a line.

ghost use Rattle.std.specs.Prelude.{◌≡◌, ◌↔◌, ◌≤◌, ◌<◌, ◌∷◌, [], IsTrue, length, option_map, slice_index};
ghost use Rattle.pg_script_lines.specs.declared.words.Stand.TheVariants.{Bare, Quoted};
ghost use Rattle.pg_script_lines.specs.Words.{stand_after, ends_word, word_len, quoted_words, words_left, words_of_rest, TakesWord};

/// Where a walk over a line is.
#[derive(Clone, Copy)]
pub(crate) enum Stand {
    /// Outside of single quotes.
    Bare,
    /// Within single quotes.
    Quoted,
    /// Within single quotes, after a backslash.
    Escaped,
}

/// Where a walk is after one more byte.
fn after(stand: Stand, byte: u8) -> Stand
    ensures { result ≡ stand_after stand byte }
{
    match stand {
        Stand::Bare => {
            if byte == b'\'' {
                Stand::Quoted
            } else {
                Stand::Bare
            }
        }
        Stand::Quoted => after_quoted(byte),
        Stand::Escaped => Stand::Quoted,
    }
}

fn after_quoted(byte: u8) -> Stand
    ensures { result ≡ stand_after Quoted byte }
{
    if byte == b'\'' {
        Stand::Bare
    } else if byte == b'\\' {
        Stand::Escaped
    } else {
        Stand::Quoted
    }
}

/// Whether a byte ends a word.
fn ends_word(stand: Stand, byte: u8) -> bool
    ensures { result ≡ ends_word stand byte }
{
    match stand {
        Stand::Bare => byte == b' ',
        Stand::Quoted | Stand::Escaped => false,
    }
}

/// How many bytes the first word of a line has: up to the first space outside of single quotes, or all.
fn word_len(line: &[u8]) -> usize
    ensures value { result ≡ word_len Bare line.now }
    ensures within { result ≤ length line.now }
    ensures space { result < length line.now → slice_index line.now result ≡ 32 }
{
    let mut stand = Stand::Bare;
    for (place, byte) in line.iter().enumerate() {
        if ends_word(stand, *byte) {
            return place;
        }
        stand = after(stand, *byte);
    }
    line.len()
}

/// The first word of a text, and what follows the space after it, where there is one.
fn first_word(text: &str) -> (&str, Option<&str>)
    ensures { quoted_words Bare text.now ≡ result.0.now ∷ words_of_rest (option_map (λ rest. rest.now) result.1) }
{
    let len = word_len(text.as_bytes());
    if len == text.len() {
        return (text, None);
    }
    (&text[..len], Some(&text[len + 1..]))
}

/// What is left of a line: words that single spaces part; a space within single quotes belongs to its word.
#[derive(Drop)]
pub(crate) struct Words<'a> {
    // Nothing after the last word; else what follows, which may be an empty word.
    rest: Option<&'a str>,
}

impl<'a> Words<'a> {
    /// All words of a line.
    pub(crate) fn new(line: &'a str) -> Words<'a>
        ensures { words_left result ≡ quoted_words Bare line.now }
    {
        Words { rest: Some(line) }
    }

    /// Takes the next word, if there is one. A word is empty between two spaces, and at the begin and the end of a
    /// line where there is a space.
    pub(crate) fn next(&mut self) -> Option<&'a str>
        ensures { TakesWord (words_left self.old) (option_map (λ word. word.now) result) (words_left self.new) }
    {
        let (word, rest) = first_word(self.rest?);
        self.rest = rest;
        Some(word)
    }

    /// Whether all words were taken.
    pub(crate) fn is_over(&self) -> bool
        ensures { IsTrue result ↔ (words_left self.now ≡ []) }
    {
        self.rest.is_none()
    }
}
