//! Questions about the program itself: `fault [N]`, `help [WORD]` and `version`.

ghost use Rattle.std.specs.Prelude.{IfOk, codes, map, string_bytes};
ghost use Rattle.pg_program_faults.specs.Asides.{IsAside, IsAskedBy, IsAskedIn};

use crate::faults::{FAULTS, line_of_fault};
use std::alloc::{AllocError, Global};

/// What words ask of the program itself.
#[derive(Drop)]
pub enum Aside {
    /// A text for standard output.
    Says(String),
    /// What these words print on standard error goes to standard output.
    Shows(Vec<String>),
    /// No fault has that number.
    NoFault,
}

/// What the words ask of the program itself; nothing where they ask for something else.
///
/// Errors: `AllocError`.
///
/// Cost: memory for what is said.
pub fn aside_of(alloc: Global, words: &[String]) -> Result<Option<Aside>, AllocError>
    ensures { IfOk result (IsAside (map string_bytes words.now)) }
{
    match words.split_first() {
        Some((first, rest)) => aside_in(alloc, first.as_str(), rest),
        None => Ok(None),
    }
}

/// The same of words of which this is the first.
fn aside_in(alloc: Global, first: &str, rest: &[String]) -> Result<Option<Aside>, AllocError>
    ensures { IfOk result (IsAskedIn first.now) }
{
    match (first, rest) {
        ("version", []) => Ok(Some(Aside::Shows(words_of(alloc, &["--version"])?))),
        ("help", []) | ("help", [_]) if is_own(rest) => {
            Ok(Some(Aside::Shows(words_of(alloc, &["--help"])?)))
        }
        ("help", [word]) if is_command(word.as_str()) => Ok(Some(Aside::Shows(words_of(
            alloc,
            &[word.as_str(), "--help"],
        )?))),
        ("fault", []) => Ok(Some(Aside::Says(all_faults(alloc)?))),
        ("fault", [number]) => Ok(Some(fault_of(alloc, number.as_str()))),
        _ => Ok(None),
    }
}

/// Whether help is asked for of the whole program, or of a question.
fn is_own(words: &[String]) -> bool {
    match words.first() {
        Some(word) => matches!(word.as_str(), "fault" | "help" | "version"),
        None => true,
    }
}

/// Whether the program has a command of this name.
fn is_command(word: &str) -> bool {
    matches!(
        word,
        "bytes" | "script" | "threads" | "serve" | "explore" | "node"
    )
}

fn words_of(alloc: Global, given: &[&str]) -> Result<Vec<String>, AllocError> {
    let mut words = Vec::new(alloc);
    for word in given {
        words.push(String::from_str(alloc, word)?)?;
    }
    Ok(words)
}

/// The line of the fault of this number.
fn fault_of(alloc: Global, number: &str) -> Aside
    ensures { IsAskedBy (codes "fault") result }
{
    let line = match number.parse::<u8>() {
        Ok(number) => line_of_fault(alloc, number),
        Err(_) => None,
    };
    match line {
        Some(line) => Aside::Says(line),
        None => Aside::NoFault,
    }
}

/// The lines of all faults.
fn all_faults(alloc: Global) -> Result<String, AllocError> {
    let mut text = String::new(alloc);
    for row in FAULTS {
        if let Some(line) = line_of_fault(alloc, row.number) {
            text.push_str(line.as_str())?;
        }
    }
    Ok(text)
}
