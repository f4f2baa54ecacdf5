//! Both ends of a port in one hand.

ghost use Rattle.std.specs.Prelude.{IfOk};
ghost use Rattle.pg_node_run.specs.Ports.{ArePort, AreNew, ClientRests, PortRests, Meets};

use crate::port::{Client, PORT_PLACES, Port};
use pg_node::{slot_pair, slots_together};
use std::alloc::{AllocError, Global};

/// The two ends of a new port.
///
/// Errors: `AllocError`.
///
/// Cost: memory for 64 commands and 64 answers.
pub fn port_pair(alloc: Global) -> Result<(Client, Port), AllocError>
    ensures { IfOk result (λ pair. ArePort pair.0 pair.1 × AreNew pair.0 pair.1) }
{
    let Ok((to_node, from_client)) = slot_pair(alloc, PORT_PLACES) else {
        return Err(AllocError);
    };
    let Ok((to_client, from_node)) = slot_pair(alloc, PORT_PLACES) else {
        return Err(AllocError);
    };
    let client = Client {
        commands: to_node,
        answers: from_node,
        polled: 0,
    };
    let port = Port {
        commands: from_client,
        answers: to_client,
        kept: None,
        handed: 0,
    };
    Ok((client, port))
}

/// Looks at both ends of a port at once: what came at the node is the first of what was submitted, and what was
/// polled is the first of what was handed over. It moves nothing.
///
/// Cost: no memory; O(1).
pub fn ports_together(client: &mut Client, port: &mut Port)
    requires { ArePort client.old port.old }
    ensures client { ClientRests client.old client.new }
    ensures port { PortRests port.old port.new }
    ensures meets { Meets client.old port.old }
{
    slots_together(&mut client.commands, &mut port.commands);
    slots_together(&mut port.answers, &mut client.answers);
}
