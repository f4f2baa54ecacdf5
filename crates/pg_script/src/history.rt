//! The line that a history prints.

ghost use Rattle.std.specs.Prelude.{◌≡◌, OnOk, map, string_bytes};
ghost use Rattle.std.specs.Option.{option_copied};
ghost use Rattle.pg_script_trace.specs.PgText.Writing.{GrowsBy};
ghost use Rattle.pg_script.specs.Histories.{history_line, listed_entries, more_entries, last_entry};

use pg_script_trace::{Entry, add_char, add_text, write_update};
use std::alloc::AllocError;

/// `history [UPDATE,..]`, and a line feed. The last update may come after the others. On an error some of it may have
/// been appended.
pub(crate) fn print_history(
    out: &mut String,
    entries: &[Entry],
    last: Option<&Entry>,
) -> Result<(), AllocError>
    ensures { OnOk result (GrowsBy (history_line entries.now (option_copied last.entry)) (string_bytes out.old) (string_bytes out.new)) }
{
    add_text(out, "history [")?;
    print_listed(out, entries)?;
    print_last(out, entries.is_empty(), last)?;
    add_text(out, "]\n")?;
    Ok(())
}

/// With commas between them.
fn print_listed(out: &mut String, entries: &[Entry]) -> Result<(), AllocError>
    ensures { OnOk result (GrowsBy (listed_entries entries.now) (string_bytes out.old) (string_bytes out.new)) }
{
    if let [first, rest @ ..] = entries {
        write_update(&first.update, out)?;
        return print_more(out, rest);
    }
    Ok(())
}

/// Each of them after a comma.
fn print_more(out: &mut String, entries: &[Entry]) -> Result<(), AllocError>
    ensures { OnOk result (GrowsBy (more_entries entries.now) (string_bytes out.old) (string_bytes out.new)) }
{
    for entry in entries {
        add_char(out, ',')?;
        write_update(&entry.update, out)?;
    }
    Ok(())
}

/// The last of them, if there is one, after a comma where it is not the first.
fn print_last(out: &mut String, is_first: bool, last: Option<&Entry>) -> Result<(), AllocError>
    ensures { OnOk result (GrowsBy (last_entry is_first (option_copied last.entry)) (string_bytes out.old) (string_bytes out.new)) }
{
    let Some(entry) = last else {
        return Ok(());
    };
    if !is_first {
        add_char(out, ',')?;
    }
    write_update(&entry.update, out)
}
