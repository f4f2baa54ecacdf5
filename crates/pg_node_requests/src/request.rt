//! What the bodies of the input ask for.

ghost use Rattle.std.specs.Prelude.{◌≡◌, ◌∷◌, [], length, Some, None};
ghost use Rattle.std.specs.Option.{option_map, option_and_then};
ghost use Rattle.pg_step.specs.PgMessageTypes.Parts.{atom_of, pid_of};
ghost use Rattle.pg_step.specs.declared.command.Command.TheVariants.{Join, Leave, Closest};
ghost use Rattle.pg_node_requests.specs.Layouts.{client_at};
ghost use Rattle.pg_node_requests.specs.Requests.{number_of, input_of, input_in, loss_in, request_in, command_of};
ghost use Rattle.pg_node_requests.specs.Requests.{command_in, lone_command, command_on, command_with};

use crate::input::Input;
use crate::layout::Layout;
use crate::parts::{atom, elements, is_word, number, pid, small_number, three, two};
use pg_step::Command;
use pg_term::Term;

/// What a term asks for: `{Node, Port, Command}` of a port, or `{lose, Node}`.
///
/// Cost: no memory.
pub fn read_request(term: Term, layout: &Layout) -> Input
    ensures { result ≡ input_of layout.now.nodes.items term }
{
    match elements(term) {
        Ok(parts) => request_of(parts, layout),
        Err(other) => {
            drop(other);
            Input::Bad
        }
    }
}

/// What a tuple of these parts asks for.
fn request_of(parts: Vec<Term>, layout: &Layout) -> Input
    ensures { result ≡ input_in layout.now.nodes.items (Some parts.items) }
{
    match parts.len() {
        2 => {
            let (word, node) = two(parts);
            let input = loss_of(&word, &node, layout);
            drop(word);
            drop(node);
            input
        }
        3 => {
            let (node, port, command) = three(parts);
            let input = ask_of(&node, &port, command, layout);
            drop(node);
            drop(port);
            input
        }
        _ => {
            drop(parts);
            Input::Bad
        }
    }
}

/// `{lose, Node}`.
fn loss_of(word: &Term, node: &Term, layout: &Layout) -> Input
    ensures { result ≡ loss_in layout.now.nodes.items word.now node.now }
{
    if !is_word(word, "lose") {
        return Input::Bad;
    }
    match atom(node) {
        Some(name) => match layout.node_at(name) {
            Some(node) => Input::Lose { node },
            None => Input::Bad,
        },
        None => Input::Bad,
    }
}

/// `{Node, Port, Command}`.
fn ask_of(node: &Term, port: &Term, command: Term, layout: &Layout) -> Input
    ensures { result ≡ request_in layout.now.nodes.items node.now port.now command }
{
    let client = client_of(node, port, layout);
    match (client, command_of(command)) {
        (Some(client), Some(command)) => Input::Ask { client, command },
        (_, other) => {
            drop(other);
            Input::Bad
        }
    }
}

/// The client at a port of a node.
fn client_of(node: &Term, port: &Term, layout: &Layout) -> Option<usize>
    ensures { result ≡ option_and_then (λ name. option_and_then (client_at layout.now.nodes.items name) (number_of 16 port.now)) (atom_of node.now) }
{
    let name = atom(node)?;
    let port = small_number(port)?;
    layout.client_at(name, port)
}

/// The command that a term is, if it is one.
fn command_of(term: Term) -> Option<Command>
    ensures { result ≡ command_of term }
{
    match elements(term) {
        Ok(parts) => command_in(parts),
        Err(word) => {
            let command = lone_command(&word);
            drop(word);
            command
        }
    }
}

/// The command that a tuple of these parts is.
fn command_in(parts: Vec<Term>) -> Option<Command>
    ensures { result ≡ command_in parts.items }
{
    match parts.len() {
        2 => {
            let (word, argument) = two(parts);
            let command = command_on(&word, argument);
            drop(word);
            command
        }
        3 => {
            let (word, name, argument) = three(parts);
            let command = command_with(&word, name, argument);
            drop(word);
            command
        }
        _ => {
            drop(parts);
            None
        }
    }
}

/// `make`, `which_groups`.
fn lone_command(word: &Term) -> Option<Command>
    ensures { result ≡ lone_command word.now }
{
    if is_word(word, "make") {
        Some(Command::Make)
    } else if is_word(word, "which_groups") {
        Some(Command::WhichGroups)
    } else {
        None
    }
}

/// `{create, Name}`, `{delete, Name}`, `{members, Name}`, `{local_members, Name}`, `{finish, Pid}`.
fn command_on(word: &Term, argument: Term) -> Option<Command>
    ensures { result ≡ command_on word.now argument }
{
    if is_word(word, "create") {
        Some(Command::Create(argument))
    } else if is_word(word, "delete") {
        Some(Command::Delete(argument))
    } else if is_word(word, "members") {
        Some(Command::Members(argument))
    } else if is_word(word, "local_members") {
        Some(Command::LocalMembers(argument))
    } else if is_word(word, "finish") {
        Some(Command::Finish(pid(argument)?))
    } else {
        drop(argument);
        None
    }
}

/// `{join, Name, Pid}`, `{leave, Name, Pid}`, `{closest, Name, Word}`.
fn command_with(word: &Term, name: Term, argument: Term) -> Option<Command>
    ensures { result ≡ command_with word.now name argument }
{
    if is_word(word, "join") {
        join(name, argument)
    } else if is_word(word, "leave") {
        leave(name, argument)
    } else if is_word(word, "closest") {
        closest(name, argument)
    } else {
        drop(name);
        drop(argument);
        None
    }
}

fn join(name: Term, member: Term) -> Option<Command>
    ensures { result ≡ option_map (Join name) (pid_of member) }
{
    match pid(member) {
        Some(pid) => Some(Command::Join(name, pid)),
        None => {
            drop(name);
            None
        }
    }
}

fn leave(name: Term, member: Term) -> Option<Command>
    ensures { result ≡ option_map (Leave name) (pid_of member) }
{
    match pid(member) {
        Some(pid) => Some(Command::Leave(name, pid)),
        None => {
            drop(name);
            None
        }
    }
}

fn closest(name: Term, word: Term) -> Option<Command>
    ensures { result ≡ option_map (Closest name) (number_of 32 word) }
{
    let number = number(&word);
    drop(word);
    match number {
        Some(number) => Some(Command::Closest(name, number)),
        None => {
            drop(name);
            None
        }
    }
}
