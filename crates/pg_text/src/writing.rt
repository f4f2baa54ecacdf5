//! Values as text.

ghost use Rattle.std.specs.Prelude.{◌≡◌, ◌<◌, OnOk, IsTrue, ◌∷◌, [], string_bytes, decimal, map};
ghost use Rattle.std.specs.Char.{digit_char};
ghost use Rattle.std.specs.Fmt.{signed_decimal};
ghost use Rattle.std.specs.List.{flat_map};
ghost use Rattle.std.specs.Str.{chars};
ghost use Rattle.pg_text.specs.Again.{ReadsBack, ReadBack};
ghost use Rattle.pg_text.specs.Writing.{GrowsBy, is_word_byte as counts_as_word, needs_no_quotes as stands_bare};
ghost use Rattle.pg_text.specs.Writing.{begins_lower, atom_text, pid_text, part_text, reference_text};
ghost use Rattle.pg_text.specs.Writing.{binary_text, term_text, terms_text, change_text, membership_text};
ghost use Rattle.pg_text.specs.Writing.{update_text, escape_text, quoted_text, hex_text, creation_text};
ghost use Rattle.pg_text.specs.Writing.{between_text, more_text, with_commas, comma_text};

use crate::again::{atom_again, binary_again, integer_again, pid_again, reference_again};
use itoa::Buffer;
use pg_group::Update;
use pg_term::{Atom, Pid, Reference, Term};
use std::alloc::AllocError;

// A character.
fn put(character: char, out: &mut String) -> Result<(), AllocError>
    ensures { OnOk result (GrowsBy (character ∷ []) (string_bytes out.old) (string_bytes out.new)) }
{
    out.push(character)
}

// A text as it is.
#[tactic(auto, using(crate::proofs::Adding::adds_chars))]
fn put_text(text: &str, out: &mut String) -> Result<(), AllocError>
    ensures { OnOk result (GrowsBy (chars text.now) (string_bytes out.old) (string_bytes out.new)) }
{
    out.push_str(text)
}

// An integer in decimal, with a minus where it is below 0.
#[tactic(auto, using(crate::proofs::Adding::adds_signed))]
fn write_integer(number: i64, out: &mut String) -> Result<(), AllocError>
    ensures { OnOk result (GrowsBy (signed_decimal number) (string_bytes out.old) (string_bytes out.new)) }
{
    out.push_str(Buffer::new().format(number))
}

#[tactic(auto, using(crate::proofs::Adding::adds_decimal))]
fn write_number(number: u32, out: &mut String) -> Result<(), AllocError>
    ensures { OnOk result (GrowsBy (decimal number) (string_bytes out.old) (string_bytes out.new)) }
{
    out.push_str(Buffer::new().format(number))
}

// A character of a bare atom.
pub(crate) fn is_word(character: char) -> bool
    ensures { result ≡ counts_as_word character }
{
    character.is_ascii_alphanumeric() || character == '_' || character == '@'
}

// Whether an atom is written bare: it begins with a letter from a to z, after which there are letters, digits, `_`
// and `@`.
pub(crate) fn is_bare(text: &str) -> bool
    ensures { result ≡ stands_bare (chars text.now) }
{
    begins_small(text) && text.chars().all(|character| is_word(character))
}

// Whether a letter from a to z comes first.
pub(crate) fn begins_small(text: &str) -> bool
    ensures { result ≡ begins_lower (chars text.now) }
{
    match text.chars().next() {
        Some(first) => first.is_ascii_lowercase(),
        None => false,
    }
}

fn hex_digit(digit: u32) -> char
    requires { digit < 16 }
    ensures { result ≡ digit_char digit }
{
    if digit < 10 {
        (b'0' + digit as u8) as char
    } else {
        (b'a' + (digit as u8 - 10)) as char
    }
}

// The hexadecimal digits of a number below 256.
fn write_hex(code: u32, out: &mut String) -> Result<(), AllocError>
    requires { code < 256 }
    ensures { OnOk result (GrowsBy (hex_text code) (string_bytes out.old) (string_bytes out.new)) }
{
    if code >= 16 {
        put(hex_digit(code / 16), out)?;
    }
    put(hex_digit(code % 16), out)
}

// `\x{H}`, of a character below 256.
fn write_escape(character: char, out: &mut String) -> Result<(), AllocError>
    requires { character < 256 }
    ensures { OnOk result (GrowsBy (escape_text character) (string_bytes out.old) (string_bytes out.new)) }
{
    put('\\', out)?;
    put('x', out)?;
    put('{', out)?;
    write_hex(character as u32, out)?;
    put('}', out)
}

fn write_quoted(character: char, out: &mut String) -> Result<(), AllocError>
    ensures { OnOk result (GrowsBy (quoted_text character) (string_bytes out.old) (string_bytes out.new)) }
{
    if character == '\'' || character == '\\' {
        put('\\', out)?;
        put(character, out)
    } else if character < ' ' || character == '\x7f' {
        write_escape(character, out)
    } else {
        put(character, out)
    }
}

// The characters of an atom within its quotes.
#[tactic(auto, using(crate::proofs::Adding::adds_each))]
fn write_all_quoted(text: &str, out: &mut String) -> Result<(), AllocError>
    ensures { OnOk result (GrowsBy (flat_map quoted_text (chars text.now)) (string_bytes out.old) (string_bytes out.new)) }
{
    for character in text.chars() {
        write_quoted(character, out)?;
    }
    Ok(())
}

/// Appends the text of an atom: bare where it can be written so, else in single quotes.
///
/// Errors: `AllocError`; some of the text may have been appended.
///
/// Cost: memory where `out` has no room for the text.
#[tactic(auto, unfolding(crate::specs::Writing::atom_text))]
pub fn write_atom(atom: &Atom, out: &mut String) -> Result<(), AllocError>
    ensures { OnOk result (GrowsBy (atom_text atom.now) (string_bytes out.old) (string_bytes out.new)) }
{
    let text = atom.as_str();
    if is_bare(text) {
        return put_text(text, out);
    }
    put('\'', out)?;
    write_all_quoted(text, out)?;
    put('\'', out)
}

// A number, and what is before it.
fn write_part(before: char, number: u32, out: &mut String) -> Result<(), AllocError>
    ensures { OnOk result (GrowsBy (part_text before number) (string_bytes out.old) (string_bytes out.new)) }
{
    put(before, out)?;
    write_number(number, out)
}

// The creation of a pid is written where it is not 1.
fn write_creation(creation: u32, out: &mut String) -> Result<(), AllocError>
    ensures { OnOk result (GrowsBy (creation_text creation) (string_bytes out.old) (string_bytes out.new)) }
{
    if creation == 1 {
        return Ok(());
    }
    write_part('/', creation, out)
}

/// Appends the text of a pid: `<NODE.ID.SERIAL>`, with `/CREATION` where that is not 1.
///
/// Errors: `AllocError`; some of the text may have been appended.
///
/// Cost: memory where `out` has no room for the text.
pub fn write_pid(pid: &Pid, out: &mut String) -> Result<(), AllocError>
    ensures { OnOk result (GrowsBy (pid_text pid.now) (string_bytes out.old) (string_bytes out.new)) }
{
    put('<', out)?;
    write_atom(&pid.node, out)?;
    write_part('.', pid.id, out)?;
    write_part('.', pid.serial, out)?;
    write_creation(pid.creation, out)?;
    put('>', out)
}

// The words of a reference, each after a dot.
#[tactic(auto, using(crate::proofs::Adding::adds_each))]
fn write_words(words: &[u32], out: &mut String) -> Result<(), AllocError>
    ensures { OnOk result (GrowsBy (flat_map (part_text 46) words.now) (string_bytes out.old) (string_bytes out.new)) }
{
    for word in words {
        write_part('.', *word, out)?;
    }
    Ok(())
}

// `#<NODE/CREATION.W..>`
fn write_reference(reference: &Reference, out: &mut String) -> Result<(), AllocError>
    ensures { OnOk result (GrowsBy (reference_text reference.now) (string_bytes out.old) (string_bytes out.new)) }
{
    put('#', out)?;
    put('<', out)?;
    write_atom(reference.node(), out)?;
    write_part('/', reference.creation(), out)?;
    write_words(reference.words(), out)?;
    put('>', out)
}

// Bytes, each after a comma.
#[tactic(auto, using(crate::proofs::Adding::adds_each))]
fn write_more_bytes(bytes: &[u8], out: &mut String) -> Result<(), AllocError>
    ensures { OnOk result (GrowsBy (more_text decimal bytes.now) (string_bytes out.old) (string_bytes out.new)) }
{
    for byte in bytes {
        write_part(',', *byte as u32, out)?;
    }
    Ok(())
}

// Bytes with commas between them.
fn write_bytes(bytes: &[u8], out: &mut String) -> Result<(), AllocError>
    ensures { OnOk result (GrowsBy (with_commas decimal bytes.now) (string_bytes out.old) (string_bytes out.new)) }
{
    if let [first, more @ ..] = bytes {
        write_number(*first as u32, out)?;
        write_more_bytes(more, out)?;
    }
    Ok(())
}

// `<<1,2>>`
fn write_binary(content: &[u8], out: &mut String) -> Result<(), AllocError>
    ensures { OnOk result (GrowsBy (binary_text content.now) (string_bytes out.old) (string_bytes out.new)) }
{
    put('<', out)?;
    put('<', out)?;
    write_bytes(content, out)?;
    put('>', out)?;
    put('>', out)
}

/// Appends the text of a term. What was written is read as the term, where it nests at most 64 levels deep.
///
/// Errors: `AllocError`; some of the text may have been appended.
///
/// Cost: memory where `out` has no room for the text; one walk over the term.
#[cycle(write)]
pub fn write_term(term: &Term, out: &mut String) -> Result<(), AllocError>
    ensures text { OnOk result (GrowsBy (term_text term.now) (string_bytes out.old) (string_bytes out.new)) }
    ensures again { OnOk result (ReadsBack term.now) }
{
    match term {
        Term::Int(number) => {
            integer_again(*number);
            write_integer(*number, out)
        }
        Term::Atom(atom) => {
            atom_again(atom);
            write_atom(atom, out)
        }
        Term::Ref(reference) => {
            reference_again(reference.get());
            write_reference(reference.get(), out)
        }
        Term::Pid(pid) => {
            pid_again(pid);
            write_pid(pid, out)
        }
        Term::Tuple(elements) => write_between('{', elements.as_slice(), '}', out),
        Term::List(elements) => write_between('[', elements.as_slice(), ']', out),
        Term::Binary(content) => {
            binary_again(content.as_slice());
            write_binary(content.as_slice(), out)
        }
    }
}

// Elements between brackets.
#[cycle(write)]
fn write_between(
    first: char,
    terms: &[Term],
    last: char,
    out: &mut String,
) -> Result<(), AllocError>
    ensures text { OnOk result (GrowsBy (between_text first (terms_text terms.now) last) (string_bytes out.old) (string_bytes out.new)) }
    ensures again { OnOk result (ReadBack terms.now) }
{
    put(first, out)?;
    write_all(terms, out)?;
    put(last, out)
}

// Terms with commas between them.
#[cycle(write)]
fn write_all(terms: &[Term], out: &mut String) -> Result<(), AllocError>
    ensures text { OnOk result (GrowsBy (terms_text terms.now) (string_bytes out.old) (string_bytes out.new)) }
    ensures again { OnOk result (ReadBack terms.now) }
{
    for (at, term) in terms.iter().enumerate() {
        write_comma(at, out)?;
        write_term(term, out)?;
    }
    Ok(())
}

// What is before the element at a place.
fn write_comma(at: usize, out: &mut String) -> Result<(), AllocError>
    ensures { OnOk result (GrowsBy (comma_text at) (string_bytes out.old) (string_bytes out.new)) }
{
    if at == 0 {
        return Ok(());
    }
    put(',', out)
}

/// Appends the text of an update, that of its tuple: `{create,g}`, `{join,g,<a.1.0>}`.
///
/// Errors: `AllocError`; some of the text may have been appended.
///
/// Cost: memory where `out` has no room for the text.
pub fn write_update(update: &Update, out: &mut String) -> Result<(), AllocError>
    ensures { OnOk result (GrowsBy (update_text update.now) (string_bytes out.old) (string_bytes out.new)) }
{
    match update {
        Update::Create(name) => write_change("{create,", name, out),
        Update::Delete(name) => write_change("{delete,", name, out),
        Update::Join(name, pid) => write_membership("{join,", name, pid, out),
        Update::Leave(name, pid) => write_membership("{leave,", name, pid, out),
    }
}

fn write_change(head: &str, name: &Term, out: &mut String) -> Result<(), AllocError>
    ensures { OnOk result (GrowsBy (change_text (chars head.now) name.now) (string_bytes out.old) (string_bytes out.new)) }
{
    put_text(head, out)?;
    write_term(name, out)?;
    put('}', out)
}

fn write_membership(head: &str, name: &Term, pid: &Pid, out: &mut String) -> Result<(), AllocError>
    ensures { OnOk result (GrowsBy (membership_text (chars head.now) name.now pid.now) (string_bytes out.old) (string_bytes out.new)) }
{
    put_text(head, out)?;
    write_term(name, out)?;
    put(',', out)?;
    write_pid(pid, out)?;
    put('}', out)
}
