//! Pids, references and binaries, and what these and terms have in common.

ghost use Rattle.std.specs.Prelude.{◌≡◌, ◌<◌, ◌≤◌, true, false, length, drop, Some, None, IfOk, IfErr, IfSome, vec_len};
ghost use Rattle.std.specs.Str.{chars};
ghost use Rattle.pg_text.specs.Reading.{numbers_at as numbers_read, part_at as part_read};
ghost use Rattle.pg_text.specs.Reading.{creation_at as creation_read, pid_at as pid_read, words_at as words_read};
ghost use Rattle.pg_text.specs.Reading.{reference_at as reference_read, some_words, elements_at as elements_read};
ghost use Rattle.pg_text.specs.Reading.{bytes_at as bytes_read, numeral_at as numeral_read};
ghost use Rattle.pg_text.specs.declared.fault.TextFault.TheVariants.{BadText};

use crate::fault::TextFault;
use crate::reading::Read;
use crate::reading::atoms::atom_at;
use crate::reading::fronts::{after, behind};
use crate::reading::numerals::{number_at, numeral_at};
use pg_term::{Atom, Pid, Reference, TermFault};
use std::alloc::Global;

// A number, after this character.
pub fn part_at(text: &str, before: char) -> Read<'_, u32>
    ensures ok { IfOk result (λ read. part_read before (chars text.now) ≡ Some (read.0, chars read.1.now)) }
    ensures err { IfErr result (λ fault. (fault ≡ BadText) × (part_read before (chars text.now) ≡ None)) }
    ensures shorter { IfOk result (λ read. length (chars read.1.now) < length (chars text.now)) }
{
    number_at(behind(text, before)?)
}

// The creation of a pid, which is written only where it is not 1.
#[tactic(auto, unfolding(crate::specs::Reading::creation_at))]
fn creation_at(text: &str) -> Read<'_, u32>
    ensures ok { IfOk result (λ read. creation_read (chars text.now) ≡ Some (read.0, chars read.1.now)) }
    ensures err { IfErr result (λ fault. (fault ≡ BadText) × (creation_read (chars text.now) ≡ None)) }
    ensures shorter { IfOk result (λ read. length (chars read.1.now) ≤ length (chars text.now)) }
{
    match after(text, '/') {
        Some(digits) => {
            let (creation, rest) = number_at(digits)?;
            if creation == 1 {
                return Err(TextFault::BadText);
            }
            Ok((creation, rest))
        }
        None => Ok((1, text)),
    }
}

// The numbers of a pid, after its node: id, serial and creation, and what follows them.
pub fn numbers_at(text: &str) -> Result<(u32, u32, u32, &str), TextFault>
    ensures ok { IfOk result (λ read. numbers_read (chars text.now) ≡ Some ((read.0, read.1, read.2), chars read.3.now)) }
    ensures err { IfErr result (λ fault. (fault ≡ BadText) × (numbers_read (chars text.now) ≡ None)) }
    ensures shorter { IfOk result (λ read. length (chars read.3.now) ≤ length (chars text.now)) }
{
    let (id, rest) = part_at(text, '.')?;
    let (serial, rest) = part_at(rest, '.')?;
    let (creation, rest) = creation_at(rest)?;
    Ok((id, serial, creation, behind(rest, '>')?))
}

// `<NODE.ID.SERIAL>` or `<NODE.ID.SERIAL/CREATION>`.
#[tactic(auto, unfolding(crate::specs::Reading::pid_at))]
pub fn pid_at(alloc: Global, text: &str) -> Read<'_, Pid>
    ensures ok { IfOk result (λ read. pid_read (chars text.now) ≡ Some (read.0, chars read.1.now)) }
    ensures err { IfErr result (λ fault. fault ≡ BadText → pid_read (chars text.now) ≡ None) }
    ensures shorter { IfOk result (λ read. length (chars read.1.now) < length (chars text.now)) }
{
    let (node, rest) = atom_at(alloc, behind(text, '<')?)?;
    let (id, serial, creation, rest) = numbers_at(rest)?;
    let pid = Pid {
        node,
        serial,
        id,
        creation,
    };
    Ok((pid, rest))
}

// The words of a reference, up to its end.
fn words_at(alloc: Global, text: &str) -> Read<'_, Vec<u32>>
    ensures ok { IfOk result (λ read. words_read 3 (chars text.now) ≡ Some (read.0.items, chars read.1.now)) }
    ensures few { IfOk result (λ read. vec_len read.0 ≤ 3) }
    ensures err { IfErr result (λ fault. fault ≡ BadText → words_read 3 (chars text.now) ≡ None) }
    ensures shorter { IfOk result (λ read. length (chars read.1.now) ≤ length (chars text.now)) }
{
    let mut words = Vec::new(alloc);
    let mut rest = text;
    for _ in 0..3_u32 {
        if let Some(digits) = after(rest, '.') {
            let (word, follows) = number_at(digits)?;
            words.push(word)?;
            rest = follows;
        }
    }
    Ok((words, behind(rest, '>')?))
}

// The reference of these parts, and what follows it.
fn reference_of<'a>(node: Atom, creation: u32, words: &[u32], rest: &'a str) -> Read<'a, Reference>
    requires { length words.now ≤ 3 }
    ensures ok { IfOk result (λ read. some_words node creation words.now (chars rest.now) ≡ Some (read.0, chars read.1.now)) }
    ensures err { IfErr result (λ fault. (fault ≡ BadText) × (some_words node creation words.now (chars rest.now) ≡ None)) }
    ensures rest { IfOk result (λ read. chars read.1.now ≡ chars rest.now) }
{
    match Reference::new(node, creation, words) {
        Ok(reference) => Ok((reference, rest)),
        Err(_) => Err(TextFault::BadText),
    }
}

// `#<NODE/CREATION.W..>`, after the `#`.
#[tactic(auto, unfolding(crate::specs::Reading::reference_at))]
pub fn reference_at(alloc: Global, text: &str) -> Read<'_, Reference>
    ensures ok { IfOk result (λ read. reference_read (chars text.now) ≡ Some (read.0, chars read.1.now)) }
    ensures err { IfErr result (λ fault. fault ≡ BadText → reference_read (chars text.now) ≡ None) }
    ensures shorter { IfOk result (λ read. length (chars read.1.now) < length (chars text.now)) }
{
    let (node, rest) = atom_at(alloc, behind(text, '<')?)?;
    let (creation, rest) = part_at(rest, '/')?;
    let (words, rest) = words_at(alloc, rest)?;
    reference_of(node, creation, words.as_slice(), rest)
}

// Bytes with commas between them, up to a `>`, and what follows it.
fn byte_list_at(alloc: Global, text: &str) -> Read<'_, Vec<u8>>
    ensures ok { IfOk result (λ read. elements_read (numeral_read 255) 62 (chars text.now) ≡ Some (read.0.items, chars read.1.now)) }
    ensures err { IfErr result (λ fault. fault ≡ BadText → elements_read (numeral_read 255) 62 (chars text.now) ≡ None) }
    ensures shorter { IfOk result (λ read. length (chars read.1.now) < length (chars text.now)) }
{
    let mut bytes = Vec::new(alloc);
    if let Some(rest) = after(text, '>') {
        return Ok((bytes, rest));
    }
    let mut rest = text;
    loop {
        let (byte, follows) = numeral_at(rest, 255)?;
        bytes.push(byte as u8)?;
        match after(follows, ',') {
            Some(more) => rest = more,
            None => return Ok((bytes, behind(follows, '>')?)),
        }
    }
}

// The bytes of a binary, after the `<<`, and what follows its `>>`.
#[tactic(auto, unfolding(crate::specs::Reading::bytes_at))]
pub fn bytes_at(alloc: Global, text: &str) -> Read<'_, Vec<u8>>
    ensures ok { IfOk result (λ read. bytes_read (chars text.now) ≡ Some (read.0.items, chars read.1.now)) }
    ensures err { IfErr result (λ fault. fault ≡ BadText → bytes_read (chars text.now) ≡ None) }
    ensures shorter { IfOk result (λ read. length (chars read.1.now) < length (chars text.now)) }
{
    let (bytes, rest) = byte_list_at(alloc, text)?;
    Ok((bytes, behind(rest, '>')?))
}
