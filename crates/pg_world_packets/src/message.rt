//! Whether two messages are one.

ghost use Rattle.std.specs.Prelude.{◌≡◌};
ghost use Rattle.pg_world_packets.specs.Sameness.{same_said, same_request, same_message};

use pg_node_state::{Message, Request, Said};
use pg_world_account::same_update;

/// Whether both say the same.
///
/// Cost: no memory.
pub(crate) fn same_message(message: &Message, other: &Message) -> bool
    ensures { result ≡ same_message message.now other.now }
{
    match (message, other) {
        (Message::Call(call, request), Message::Call(other, asked)) => {
            call == other && same_request(request, asked)
        }
        (Message::Reply(call, said), Message::Reply(other, told)) => {
            call == other && same_said(*said, *told)
        }
        (Message::DelLock(name, holder), Message::DelLock(other, held)) => {
            name == other && holder == held
        }
        (Message::Exchange(node, groups), Message::Exchange(other, told)) => {
            node == other && groups == told
        }
        (Message::Down(pid), Message::Down(other)) => pid == other,
        _ => false,
    }
}

/// Whether both ask for the same.
fn same_request(request: &Request, other: &Request) -> bool
    ensures { result ≡ same_request request.now other.now }
{
    match (request, other) {
        (Request::SetLock(name), Request::SetLock(other)) => name == other,
        (Request::Change(update), Request::Change(other)) => same_update(update, other),
        _ => false,
    }
}

/// Whether both replies say the same.
fn same_said(said: Said, other: Said) -> bool
    ensures { result ≡ same_said said other }
{
    match (said, other) {
        (Said::Granted, Said::Granted)
        | (Said::Denied, Said::Denied)
        | (Said::Applied, Said::Applied) => true,
        _ => false,
    }
}
