//! What the bodies of the input ask for.

ghost use Rattle.std.specs.Prelude.{◌≡◌, ◌∷◌, []};
ghost use Rattle.pg_node_process.specs.Whom.{first_name, ports_of};

use pg_node_requests::{Input, Layout, NodePorts, read_request};
use pg_step::{Command, decode};
use pg_term::{Atom, TermFault};
use std::alloc::{AllocError, Global};
use std::marker::Model;

/// The first byte of a term.
const TERM: u8 = 131;

/// The first byte of a body that tells of time.
const TICK: u8 = 16;

/// The first byte of a body that asks for the clock.
const CLOCK: u8 = 17;

/// The first byte of a body that tells of a denied lock.
const DENIED: u8 = 19;

/// The first byte of a body that has the node's own groups.
const GROUPS: u8 = 20;

/// What a body of the input asks for.
#[derive(Debug, Drop)]
pub enum Body {
    /// The node's own groups, whose term is behind the first byte.
    Groups,
    /// Bytes of the peer at this place, which are behind the first byte.
    Bytes(usize),
    /// A request at the port of this place.
    Ask { port: usize, command: Command },
    /// Time has passed.
    Tick,
    /// The clock is asked for.
    Clock,
    /// Another node was denied the lock of a group whose changes come in at the port of this place.
    Denied(usize),
    /// It asks for nothing.
    Bad,
}

/// Whom bodies are of: the peers of a node, and the clients at its ports.
#[derive(Debug, Drop)]
pub struct Parties {
    peers: usize,
    ports: u16,
    layout: Layout,
    ghost own: { layout.nodes.items ≡ ports_of (first_name layout.nodes.items) ports ∷ [] },
}

impl Model for Parties {
    ghost use Rattle.pg_node_process.specs.Whom.{Whom, whom_code, first_name};

    ghost Value = { Whom };

    ghost coded = { whom_code };

    ghost view = { λ p. record { name = first_name p.layout.nodes.items; ports = p.ports; peers = p.peers } };
}

impl Parties {
    ghost use Rattle.std.specs.Prelude.{◌≡◌, IfOk, OnErr, Some};
    ghost use Rattle.pg_node_process.specs.Bodies.{IsTerm, IsWithin, body_of, bytes_of, denied_in, request_by, request_in};
    ghost use Rattle.pg_step.specs.PgTermIo.Reading.{term_of};

    /// Those of a node of this name, with so many ports and peers.
    ///
    /// Errors: `AllocError`.
    ///
    /// Cost: memory for one node.
    pub fn new(alloc: Global, name: Atom, ports: u16, peers: usize) -> Result<Parties, AllocError>
        ensures name { IfOk result (λ parties. parties.name ≡ name) }
        ensures ports { IfOk result (λ parties. parties.ports ≡ ports) }
        ensures peers { IfOk result (λ parties. parties.peers ≡ peers) }
    {
        let Ok(mut nodes) = Vec::with_capacity(alloc, 1) else {
            drop(name);
            return Err(AllocError);
        };
        nodes.push_reserved(NodePorts {
            name,
            ports,
            first: 0,
        });
        Ok(Parties {
            peers,
            ports,
            layout: Layout { nodes },
        })
    }

    /// What a body asks for.
    ///
    /// Errors: `AllocError`, which comes only of a body that spells a term.
    ///
    /// Cost: that of reading the term; else no memory, O(1).
    pub fn read(&self, alloc: Global, body: &[u8]) -> Result<Body, AllocError>
        ensures ok { IfOk result (λ read. read ≡ body_of self.now body.now) }
        ensures within { IfOk result (IsWithin self.now) }
        ensures err { OnErr result (IsTerm body.now) }
    {
        let [first, rest @ ..] = body else {
            return Ok(Body::Bad);
        };
        match *first {
            TERM => self.request(alloc, body),
            TICK => Ok(alone(Body::Tick, rest)),
            CLOCK => Ok(alone(Body::Clock, rest)),
            DENIED => Ok(self.denied(rest)),
            GROUPS => Ok(Body::Groups),
            place => Ok(self.bytes(usize::from(place))),
        }
    }

    /// What a term asks for.
    fn request(&self, alloc: Global, body: &[u8]) -> Result<Body, AllocError>
        ensures ok { IfOk result (λ read. read ≡ request_by self.now (term_of body.now)) }
        ensures within { IfOk result (IsWithin self.now) }
        ensures err { OnErr result (IsTerm body.now) }
    {
        match decode(alloc, body) {
            Ok(term) => Ok(request_of(read_request(term, &self.layout))),
            Err(TermFault::OutOfMemory) => Err(AllocError),
            Err(_) => Ok(Body::Bad),
        }
    }

    /// What tells of a denied lock, by the bytes behind the first.
    fn denied(&self, rest: &[u8]) -> Body
        ensures read { result ≡ denied_in self.now.ports rest.now }
        ensures within { IsWithin self.now result }
    {
        match rest {
            [number] => {
                let number = usize::from(*number);
                if 1 <= number && number <= usize::from(self.ports) {
                    Body::Denied(number - 1)
                } else {
                    Body::Bad
                }
            }
            _ => Body::Bad,
        }
    }

    /// What bytes of a place are.
    fn bytes(&self, place: usize) -> Body
        ensures read { result ≡ bytes_of self.now place }
        ensures within { IsWithin self.now result }
    {
        if place < self.peers {
            Body::Bytes(place)
        } else {
            Body::Bad
        }
    }
}

ghost use Rattle.pg_node_process.specs.Bodies.{alone as alone_by, request_in as request_by_input};

/// What a byte says that stands alone.
fn alone(body: Body, rest: &[u8]) -> Body
    ensures { result ≡ alone_by body rest.now }
{
    if rest.is_empty() {
        body
    } else {
        drop(body);
        Body::Bad
    }
}

/// What a term asks for, as a body. A process loses no node.
fn request_of(input: Input) -> Body
    ensures { result ≡ request_by_input input }
{
    match input {
        Input::Ask { client, command } => Body::Ask {
            port: client,
            command,
        },
        _ => Body::Bad,
    }
}
