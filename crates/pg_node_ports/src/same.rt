//! Whether ports are the same.

ghost use Rattle.std.specs.Prelude.{◌≡◌, ◌↔◌, IsTrue, length};
ghost use Rattle.pg_node_ports.specs.Ports.{port_commands, answers_in, forgotten_in};
ghost use Rattle.pg_node_ports.specs.Same.{AreSamePorts};

use crate::port::Port;
use pg_node_opens::equal_answers;

/// Whether there are as many ports, where as many commands came in and the same answers were given.
pub fn same_ports(ports: &[Port], others: &[Port]) -> bool
    ensures { IsTrue result ↔ AreSamePorts ports.now others.now }
{
    ports.len() == others.len() && agree_on_ports(ports, others)
}

/// Whether as many commands came in at each of as many ports, and the same answers were given.
fn agree_on_ports(ports: &[Port], others: &[Port]) -> bool
    requires { length ports.now ≡ length others.now }
    ensures { IsTrue result ↔ (port_commands ports.now ≡ port_commands others.now) × (answers_in ports.now ≡ answers_in others.now) }
{
    for place in 0..ports.len() {
        if !same_port(&ports[place], &others[place]) {
            return false;
        }
    }
    true
}

/// Whether as many commands came in at both, and the same answers were given.
fn same_port(port: &Port, other: &Port) -> bool
    ensures { IsTrue result ↔ (port.now.count ≡ other.now.count) × (port.now.answers.items ≡ other.now.answers.items) }
{
    equal_answers();
    port.count == other.count && port.answers == other.answers
}

/// Whether there are as many ports, and as many answers were forgotten at each.
///
/// Cost: no memory.
pub fn same_forgotten(ports: &[Port], others: &[Port]) -> bool
    ensures { IsTrue result ↔ (length ports.now ≡ length others.now) × (forgotten_in ports.now ≡ forgotten_in others.now) }
{
    ports.len() == others.len() && have_forgotten_as_many(ports, others)
}

/// Whether as many answers were forgotten at each of as many ports.
fn have_forgotten_as_many(ports: &[Port], others: &[Port]) -> bool
    requires { length ports.now ≡ length others.now }
    ensures { IsTrue result ↔ forgotten_in ports.now ≡ forgotten_in others.now }
{
    for place in 0..ports.len() {
        if ports[place].forgotten != others[place].forgotten {
            return false;
        }
    }
    true
}
