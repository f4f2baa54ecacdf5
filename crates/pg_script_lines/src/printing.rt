//! The lines that a run prints.

ghost use Rattle.std.specs.Prelude.{◌≡◌, OnOk, map, string_bytes};
ghost use Rattle.std.specs.List.{flat_map};
ghost use Rattle.std.specs.Str.{chars};
ghost use Rattle.pg_text.specs.Writing.{GrowsBy, more_text, pid_text, term_text, terms_text};
ghost use Rattle.pg_script_lines.specs.Printing.{answer_line, reply_text, error_text, pids_text, names_text};
ghost use Rattle.pg_script_lines.specs.Printing.{lock_line, outbox_line, refused_line, refused_text, listed_pids};
ghost use Rattle.pg_script_lines.specs.Printing.{listed_names, more_pids, more_names, state_text as lock_state};

use crate::adding::{add_char, add_number, add_text};
use pg_step::{Answer, Reply};
use pg_term::{Atom, Pid, Term};
use pg_text::{write_atom, write_pid, write_term};
use std::alloc::AllocError;

/// Appends `NODE NUMBER ANSWER`, and a line feed.
///
/// Errors: `AllocError`; some of it may have been appended.
///
/// Cost: memory where `out` has no room for it.
pub fn print_answer(out: &mut String, node: &Atom, answer: &Answer) -> Result<(), AllocError>
    ensures { OnOk result (GrowsBy (answer_line node.now answer.now) (string_bytes out.old) (string_bytes out.new)) }
{
    write_atom(node, out)?;
    add_char(out, ' ')?;
    add_number(out, u64::from(answer.number))?;
    add_char(out, ' ')?;
    print_reply(out, &answer.reply)?;
    add_char(out, '\n')?;
    Ok(())
}

/// Appends the text of a reply.
///
/// Errors: `AllocError`; some of it may have been appended.
///
/// Cost: memory where `out` has no room for it.
pub fn print_reply(out: &mut String, reply: &Reply) -> Result<(), AllocError>
    ensures { OnOk result (GrowsBy (reply_text reply.now) (string_bytes out.old) (string_bytes out.new)) }
{
    match reply {
        Reply::Ok => add_text(out, "ok"),
        Reply::Made(pid) => write_pid(pid, out),
        Reply::Closest(pid) => write_pid(pid, out),
        Reply::Pids(pids) => print_pids(out, pids.as_slice()),
        Reply::Groups(names) => print_names(out, names.as_slice()),
        Reply::NoSuchGroup(name) => print_error(out, "{error,{no_such_group,", name),
        Reply::NoProcess(name) => print_error(out, "{error,{no_process,", name),
        Reply::Refused(number) => print_number(out, *number),
    }
}

/// `refused N`
fn print_number(out: &mut String, number: u8) -> Result<(), AllocError>
    ensures { OnOk result (GrowsBy (refused_text number) (string_bytes out.old) (string_bytes out.new)) }
{
    add_text(out, "refused ")?;
    add_number(out, u64::from(number))?;
    Ok(())
}

/// The tuple of an error about a group.
fn print_error(out: &mut String, head: &str, name: &Term) -> Result<(), AllocError>
    ensures { OnOk result (GrowsBy (error_text (chars head.now) name.now) (string_bytes out.old) (string_bytes out.new)) }
{
    add_text(out, head)?;
    write_term(name, out)?;
    add_text(out, "}}")?;
    Ok(())
}

/// `[PID,..]`
fn print_pids(out: &mut String, pids: &[Pid]) -> Result<(), AllocError>
    ensures { OnOk result (GrowsBy (pids_text pids.now) (string_bytes out.old) (string_bytes out.new)) }
{
    add_char(out, '[')?;
    print_listed_pids(out, pids)?;
    add_char(out, ']')?;
    Ok(())
}

/// With commas between them.
fn print_listed_pids(out: &mut String, pids: &[Pid]) -> Result<(), AllocError>
    ensures { OnOk result (GrowsBy (listed_pids pids.now) (string_bytes out.old) (string_bytes out.new)) }
{
    if let [first, rest @ ..] = pids {
        write_pid(first, out)?;
        return print_more_pids(out, rest);
    }
    Ok(())
}

/// Each of them after a comma.
fn print_more_pids(out: &mut String, pids: &[Pid]) -> Result<(), AllocError>
    ensures { OnOk result (GrowsBy (more_pids pids.now) (string_bytes out.old) (string_bytes out.new)) }
{
    for pid in pids {
        add_char(out, ',')?;
        write_pid(pid, out)?;
    }
    Ok(())
}

/// `[TERM,..]`
fn print_names(out: &mut String, names: &[Term]) -> Result<(), AllocError>
    ensures { OnOk result (GrowsBy (names_text names.now) (string_bytes out.old) (string_bytes out.new)) }
{
    add_char(out, '[')?;
    print_listed_names(out, names)?;
    add_char(out, ']')?;
    Ok(())
}

/// With commas between them.
fn print_listed_names(out: &mut String, names: &[Term]) -> Result<(), AllocError>
    ensures { OnOk result (GrowsBy (listed_names names.now) (string_bytes out.old) (string_bytes out.new)) }
{
    if let [first, rest @ ..] = names {
        write_term(first, out)?;
        return print_more_names(out, rest);
    }
    Ok(())
}

/// Each of them after a comma.
fn print_more_names(out: &mut String, names: &[Term]) -> Result<(), AllocError>
    ensures { OnOk result (GrowsBy (more_names names.now) (string_bytes out.old) (string_bytes out.new)) }
{
    for name in names {
        add_char(out, ',')?;
        write_term(name, out)?;
    }
    Ok(())
}

/// Appends `lock NODE GROUP free` or `lock NODE GROUP held`, and a line feed.
///
/// Errors: `AllocError`; some of it may have been appended.
///
/// Cost: memory where `out` has no room for it.
pub fn print_lock(
    out: &mut String,
    node: &Atom,
    group: &Term,
    is_free: bool,
) -> Result<(), AllocError>
    ensures { OnOk result (GrowsBy (lock_line node.now group.now is_free) (string_bytes out.old) (string_bytes out.new)) }
{
    add_text(out, "lock ")?;
    write_atom(node, out)?;
    add_char(out, ' ')?;
    write_term(group, out)?;
    add_text(out, state_text(is_free))?;
    Ok(())
}

/// The end of a line about a lock.
fn state_text(is_free: bool) -> &'static str
    ensures { chars result.now ≡ lock_state is_free }
{
    if is_free { " free\n" } else { " held\n" }
}

/// Appends `outbox NODE NODE N`, and a line feed.
///
/// Errors: `AllocError`; some of it may have been appended.
///
/// Cost: memory where `out` has no room for it.
pub fn print_outbox(out: &mut String, from: &Atom, to: &Atom, len: usize) -> Result<(), AllocError>
    ensures { OnOk result (GrowsBy (outbox_line from.now to.now len) (string_bytes out.old) (string_bytes out.new)) }
{
    add_text(out, "outbox ")?;
    write_atom(from, out)?;
    add_char(out, ' ')?;
    write_atom(to, out)?;
    add_char(out, ' ')?;
    add_number(out, len as u64)?;
    add_char(out, '\n')?;
    Ok(())
}

/// Appends `line L refused N`, and a line feed.
///
/// Errors: `AllocError`; some of it may have been appended.
///
/// Cost: memory where `out` has no room for it.
pub fn print_refused(out: &mut String, line: usize, number: u8) -> Result<(), AllocError>
    ensures { OnOk result (GrowsBy (refused_line line number) (string_bytes out.old) (string_bytes out.new)) }
{
    add_text(out, "line ")?;
    add_number(out, line as u64)?;
    add_char(out, ' ')?;
    print_number(out, number)?;
    add_char(out, '\n')?;
    Ok(())
}
