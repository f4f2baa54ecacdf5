//! The requests of one port.

use pg_cluster::Command;
use pg_term::Atom;
use std::alloc::{AllocError, Global};
use std::collections::VecDeque;

/// The requests of one port, of which one at a time is with its node.
#[derive(Drop)]
pub(crate) struct Desk {
    // The name of the node and its place, and the port's number, from 1.
    name: Atom,
    node: usize,
    port: u16,
    // The requests that wait for their turn.
    waiting: VecDeque<Command>,
    // A request is with the node.
    is_asked: bool,
    // How many requests were replied to.
    replied: u64,
}

impl Desk {
    ghost use Rattle.std.specs.Prelude.{◌≡◌, ◌+◌, ◌-◌, ◌^◌, ◌∷◌, ◌++◌, [], min, true, false};
    ghost use Rattle.std.specs.Prelude.{not, ◌&&◌, length, IfSome, IfNone, OnOk, OnErr};
    ghost use Rattle.pg_talk.specs.Desks.{is_idle, waiting_at, SameDesk};

    /// One to which nothing came. It takes no memory.
    pub(crate) fn new(alloc: Global, name: Atom, node: usize, port: u16) -> Desk
        ensures name { result.name ≡ name }
        ensures node { result.node ≡ node }
        ensures port { result.port ≡ port }
        ensures waiting { waiting_at result ≡ [] }
        ensures asked { result.is_asked ≡ false }
        ensures replied { result.replied ≡ 0 }
    {
        Desk {
            name,
            node,
            port,
            waiting: VecDeque::new(alloc),
            is_asked: false,
            replied: 0,
        }
    }

    /// The name of the node. It takes no memory.
    pub(crate) fn name(&self) -> &Atom
        ensures { result.now ≡ self.now.name }
    {
        &self.name
    }

    /// The place of the node. It takes no memory.
    pub(crate) fn node(&self) -> usize
        ensures { result ≡ self.now.node }
    {
        self.node
    }

    /// The number of the port, from 1. It takes no memory.
    pub(crate) fn port(&self) -> u16
        ensures { result ≡ self.now.port }
    {
        self.port
    }

    /// Whether a request is with the node. It takes no memory.
    pub(crate) fn is_asked(&self) -> bool
        ensures { result ≡ self.now.is_asked }
    {
        self.is_asked
    }

    /// How many requests wait. It takes no memory.
    pub(crate) fn waiting_count(&self) -> usize
        ensures { result ≡ length (waiting_at self.now) }
    {
        self.waiting.len()
    }

    /// A further request waits.
    ///
    /// Error: `AllocError`, which changes nothing.
    pub(crate) fn wait(&mut self, command: Command) -> Result<(), AllocError>
        ensures ok { OnOk result (waiting_at self.new ≡ waiting_at self.old ++ command ∷ []) }
        ensures err { OnErr result (waiting_at self.new ≡ waiting_at self.old) }
        ensures same { SameDesk self.old self.new }
    {
        match self.waiting.push_back(command) {
            Ok(()) => Ok(()),
            Err(failed) => {
                drop(failed);
                Err(AllocError)
            }
        }
    }

    /// The request that waits for longest. It takes no memory.
    pub(crate) fn next(&mut self) -> Option<Command>
        ensures some { IfSome result (λ command. waiting_at self.old ≡ command ∷ waiting_at self.new) }
        ensures none { IfNone result ((waiting_at self.old ≡ []) × (waiting_at self.new ≡ [])) }
        ensures same { SameDesk self.old self.new }
    {
        self.waiting.pop_front()
    }

    /// Puts back the request that `next` gave.
    ///
    /// Error: `AllocError`.
    pub(crate) fn put_back(&mut self, command: Command) -> Result<(), AllocError>
        ensures ok { OnOk result (waiting_at self.new ≡ command ∷ waiting_at self.old) }
        ensures same { SameDesk self.old self.new }
    {
        match self.waiting.push_front(command) {
            Ok(()) => Ok(()),
            Err(failed) => {
                drop(failed);
                Err(AllocError)
            }
        }
    }

    /// The request that `next` gave is with the node. It takes no memory.
    pub(crate) fn ask(&mut self)
        ensures { self.new ≡ record self.old { is_asked = true } }
    {
        self.is_asked = true;
    }

    /// One more request is replied to, and none is with the node: its number, from 1. It takes no memory.
    pub(crate) fn reply(&mut self) -> u64
        ensures number { result ≡ min (self.old.replied + 1) (2 ^ 64 - 1) }
        ensures rest { self.new ≡ record self.old { is_asked = false; replied = result } }
    {
        self.is_asked = false;
        self.replied = self.replied.saturating_add(1);
        self.replied
    }

    /// Whether each request that came was replied to. It takes no memory.
    pub(crate) fn is_idle(&self) -> bool
        ensures { result ≡ is_idle self.now }
    {
        !self.is_asked && self.waiting.is_empty()
    }
}
