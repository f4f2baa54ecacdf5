//! Commands and packets by their texts, and answers as texts. None where memory was refused.

use crate::nodes::State;
use pg_node::{Command, Packet, encode, read_packet};
use pg_script_lines::{Line, NodeForm, print_answer, read_line};
use pg_text::read_term;
use std::alloc::{AllocError, Global};

/// The command of a line of a script.
pub fn command_of(alloc: Global, line: &str) -> Option<Command> {
    match read_line(alloc, line) {
        Ok(Line::At { node, form }) => {
            drop(node);
            match form {
                NodeForm::Command(command) => Some(command),
                other => {
                    drop(other);
                    None
                }
            }
        }
        other => {
            drop(other);
            None
        }
    }
}

// The body of the packet `{Stamp, Message}` of this text.
fn body_of(alloc: Global, text: &str) -> Option<Vec<u8>> {
    with!(read_term(alloc, text), Ok term => encode(alloc, &term).ok(), else None)
}

/// The packet of a text.
pub fn packet_of(alloc: Global, text: &str) -> Option<Packet> {
    with!(body_of(alloc, text), Some body => read_packet(alloc, body.as_slice()).ok(), else None)
}

/// The last answer of a node at its port, as a line; an empty text where there is none.
fn print_last(out: &mut String, node: &State) -> Result<(), AllocError> {
    if node.port_count() == 1 {
        if let Some(answer) = node.answers(0).last() {
            return print_answer(out, node.own(), answer);
        }
    }
    Ok(())
}

/// Whether the last answer at the port is this line. It is asked a second time where memory was refused.
pub fn has_answered(alloc: Global, node: &State, line: &str) -> bool {
    let mut out = String::new(alloc);
    if print_last(&mut out, node).is_err() {
        out.clear();
        if print_last(&mut out, node).is_err() {
            out.clear();
        }
    }
    let has_answered = out.as_str().strip_suffix('\n') == Some(line);
    drop(out);
    has_answered
}
