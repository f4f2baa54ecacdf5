//! Texts of what is seen.

ghost use Rattle.std.specs.Prelude.{◌≡◌, IfOk, string_bytes};
ghost use Rattle.std.specs.Str.{encode_utf8_all};
ghost use Rattle.pg_text.specs.Writing.{atom_text};

use pg_term::{Atom, Boxed, Reference, Term};
use pg_text::{write_atom, write_pid, write_term};
use pg_world::Command;
use std::alloc::{AllocError, Global};

/// The text of an atom.
pub(crate) fn atom_text(alloc: Global, atom: &Atom) -> Result<String, AllocError>
    ensures { IfOk result (λ text. string_bytes text ≡ encode_utf8_all (atom_text atom.now)) }
{
    let mut text = String::new(alloc);
    write_atom(atom, &mut text)?;
    Ok(text)
}

/// The text of a term.
pub(crate) fn term_text(alloc: Global, term: &Term) -> Result<String, AllocError> {
    let mut text = String::new(alloc);
    write_term(term, &mut text)?;
    Ok(text)
}

/// The text of a reference.
pub(crate) fn reference_text(alloc: Global, reference: &Reference) -> Result<String, AllocError> {
    let term = Term::Ref(Boxed::new(alloc, reference.copy()?)?);
    term_text(alloc, &term)
}

/// The text of a command, as a line of a script has it, without its node.
pub(crate) fn command_text(alloc: Global, command: &Command) -> Result<String, AllocError> {
    let mut text = String::new(alloc);
    text.push_str(verb_of(command))?;
    write_parts(command, &mut text)?;
    Ok(text)
}

/// The word that a line of a command begins with.
fn verb_of(command: &Command) -> &'static str {
    match command {
        Command::Create(_) => "create",
        Command::Delete(_) => "delete",
        Command::Join(_, _) => "join",
        Command::Leave(_, _) => "leave",
        Command::Make => "make",
        Command::Finish(_) => "end",
        Command::Members(_) => "members",
        Command::LocalMembers(_) => "local",
        Command::WhichGroups => "groups",
        Command::Closest(_, _) => "closest",
    }
}

/// What a command names, each after a space.
fn write_parts(command: &Command, out: &mut String) -> Result<(), AllocError> {
    match command {
        Command::Create(name)
        | Command::Delete(name)
        | Command::Members(name)
        | Command::LocalMembers(name) => write_name(name, out),
        Command::Join(name, pid) | Command::Leave(name, pid) => {
            write_name(name, out)?;
            out.push(' ')?;
            write_pid(pid, out)
        }
        Command::Finish(pid) => {
            out.push(' ')?;
            write_pid(pid, out)
        }
        Command::Closest(name, number) => {
            write_name(name, out)?;
            write!(out, " {number}")
        }
        Command::Make | Command::WhichGroups => Ok(()),
    }
}

/// A name after a space.
fn write_name(name: &Term, out: &mut String) -> Result<(), AllocError> {
    out.push(' ')?;
    write_term(name, out)
}

/// The group that a command changes.
pub(crate) fn changed_by(command: &Command) -> Option<&Term> {
    match command {
        Command::Create(name)
        | Command::Delete(name)
        | Command::Join(name, _)
        | Command::Leave(name, _) => Some(name),
        _ => None,
    }
}
