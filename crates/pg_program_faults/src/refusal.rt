//! The second line of a refusal.

use crate::faults::row_of;
use crate::given::{times_of, value_of};
use crate::line::{Refused, say_alone, say_config, say_line};
use crate::saying::Saying;
use std::alloc::Global;
use std::str;

/// What is known of a run that was refused.
#[derive(Clone, Copy)]
pub struct Told<'a> {
    /// The words that the program was given, behind its name.
    pub words: &'a [String],
    /// What was read of standard input by `script` and `explore`.
    pub input: &'a [u8],
    /// The last line of standard error, without its line feed.
    pub line: &'a str,
    /// Why a file that the words name could not be read or written, where one could not.
    pub missed: Option<&'a str>,
}

/// What a line of standard error says: the number of a fault, and the line of a script.
#[derive(Clone, Copy)]
struct Fault {
    line: Option<usize>,
    number: u8,
}

/// What a line of standard error says of a fault, if it does: `refused N` or `line L refused N`.
fn fault_in(line: &str) -> Option<Fault> {
    match line.split_once("refused ") {
        Some(("", number)) => fault_of(None, number),
        Some((place, number)) => match place.strip_prefix("line ") {
            Some(line) => fault_of(number_in(line.trim()), number),
            None => None,
        },
        None => None,
    }
}

fn fault_of(line: Option<usize>, number: &str) -> Option<Fault> {
    match number.parse::<u8>() {
        Ok(number) => Some(Fault { line, number }),
        Err(_) => None,
    }
}

fn number_in(text: &str) -> Option<usize> {
    match text.parse::<usize>() {
        Ok(number) => Some(number),
        Err(_) => None,
    }
}

/// The line that says a refusal in words, with its place, the number and the name of its fault, and a line feed; nothing where the last line
/// of standard error is no refusal. Where memory is short it is cut.
///
/// Cost: a walk over the script; memory for its declarations and the line.
pub fn explain(alloc: Global, told: Told<'_>) -> String {
    let mut saying = Saying::new(alloc);
    if let Some(fault) = fault_in(told.line) {
        say(alloc, told, fault, &mut saying);
        say_name(fault.number, &mut saying);
    }
    saying.said()
}

/// ` (N NAME)`, and a line feed.
fn say_name(number: u8, saying: &mut Saying) {
    saying.text(" (");
    saying.number(u64::from(number));
    if let Some(row) = row_of(number) {
        saying.text(" ");
        saying.text(row.name);
    }
    saying.text(")\n");
}

/// Says a fault.
fn say(alloc: Global, told: Told<'_>, fault: Fault, saying: &mut Saying) {
    let command = match told.words.first() {
        Some(word) => word.as_str(),
        None => "",
    };
    match (command, fault.number) {
        ("script", 31) | ("explore", 31) => saying.text("standard input: a read failed"),
        ("script", 11) => saying.text("the script has more than 16777216 bytes"),
        ("script", 32) => say_file(told, "--diagram", saying),
        ("explore", 32) => say_file(told, "--graph", saying),
        ("explore", 16) => say_value(told.words, "--show", ": there is no such end", saying),
        ("explore", 11) => say_graph(told, saying),
        ("script", _) | ("explore", _) => say_script(alloc, told, command, fault, saying),
        ("serve", _) => say_service(told, fault.number, saying),
        ("node", _) => say_node(told, fault.number, saying),
        ("bytes", 6) => saying.text("a name of --node or --peer has more than 255 characters"),
        ("bytes", 15) => saying.text("--node and --peer: two names are wanted, and one is given"),
        _ => say_alone(fault.number, saying),
    }
}

/// Says an option, its value, and what of it.
fn say_value(words: &[String], option: &str, what: &str, saying: &mut Saying) {
    saying.text(option);
    if let Some(value) = value_of(words, option) {
        saying.text(" ");
        saying.text(value);
    }
    saying.text(what);
}

/// Says why a file that an option names could not be had, or that standard output failed.
fn say_file(told: Told<'_>, option: &str, saying: &mut Saying) {
    match told.missed {
        Some(why) => {
            say_value(told.words, option, ": ", saying);
            saying.text(why);
        }
        None => saying.text("standard output: a write failed or took nothing"),
    }
}

/// Says what is too long.
fn say_graph(told: Told<'_>, saying: &mut Saying) {
    if told.input.len() > 16_777_216 || value_of(told.words, "--graph").is_none() {
        saying.text("the script has more than 16777216 bytes");
    } else {
        saying.text("--graph: more than 60 worlds, and at most 60 are drawn");
    }
}

/// Says what is wrong with a script.
fn say_script(alloc: Global, told: Told<'_>, command: &str, fault: Fault, saying: &mut Saying) {
    let Ok(script) = str::from_utf8(told.input) else {
        saying.text("the script is no UTF-8");
        return;
    };
    let said = match fault.line {
        Some(line) => {
            let refused = Refused {
                script,
                line,
                number: fault.number,
                is_explored: command == "explore",
            };
            say_line(alloc, refused, saying)
        }
        None => say_config(alloc, script, fault.number, saying),
    };
    if said.is_err() {
        saying.text(": there is no memory to look at the script again");
    }
}

/// Says what is wrong with the words of a service or its file.
fn say_service(told: Told<'_>, number: u8, saying: &mut Saying) {
    let names = times_of(told.words, "--name");
    match (number, value_of(told.words, "--members")) {
        (31, Some(_)) if told.missed.is_some() => say_file(told, "--members", saying),
        (40, Some(_)) => {
            say_value(
                told.words,
                "--members",
                ": its text gives no members",
                saying,
            );
        }
        (15, _) if names > 0 && names != nodes_of(told.words) => {
            saying.number(names as u64);
            saying.text(" of --name for ");
            saying.number(nodes_of(told.words) as u64);
            saying.text(" of --nodes: as many are wanted");
        }
        (6, _) => saying.text("a name of --name has more than 255 characters"),
        _ => say_alone(number, saying),
    }
}

/// Says what is wrong with the words of a node, its log or its input.
fn say_node(told: Told<'_>, number: u8, saying: &mut Saying) {
    match number {
        6 => saying.text("a name of --own or --peers has more than 255 characters"),
        15 => saying.text(
            "a name comes twice, there are more than 15 of --peers, --ports is not 1 to 64, --made is above 268435455, or --label has more than 255 bytes; or the first body brings no groups that the node can have",
        ),
        32 if told.missed.is_some() => say_file(told, "--log", saying),
        32 => saying.text("--log: a write failed"),
        _ => say_alone(number, saying),
    }
}

/// How many nodes a service has.
fn nodes_of(words: &[String]) -> usize {
    match value_of(words, "--nodes") {
        Some(value) => match number_in(value) {
            Some(number) => number,
            None => 3,
        },
        None => 3,
    }
}
