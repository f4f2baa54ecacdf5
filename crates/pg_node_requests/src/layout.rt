//! Which clients the ports of nodes have.

use pg_step::Start;
use pg_term::Atom;
use std::alloc::{AllocError, Global};

/// A node by its name, with the places of its clients: those from `first` on.
#[derive(Debug, Drop)]
pub struct NodePorts {
    /// The name of the node.
    pub name: Atom,
    /// How many ports it has.
    pub ports: u16,
    /// The place of the client of its first port.
    pub first: usize,
}

/// The nodes of a cluster with their ports.
#[derive(Debug, Drop)]
pub struct Layout {
    /// The nodes, by their places.
    pub nodes: Vec<NodePorts>,
}

impl NodePorts {
    ghost use Rattle.std.specs.Prelude.{◌≡◌};
    ghost use Rattle.pg_node_requests.specs.Layouts.{client_of};

    /// The place of the client at a port, by its number from 1.
    fn client_of(&self, port: u16) -> Option<usize>
        ensures { result ≡ client_of self.now port }
    {
        if 1 <= port && port <= self.ports {
            Some(self.first.saturating_add(usize::from(port - 1)))
        } else {
            None
        }
    }
}

impl Layout {
    ghost use Rattle.std.specs.Prelude.{◌≡◌, IfOk};
    ghost use Rattle.pg_node_requests.specs.Layouts.{client_at, place_of, layout_of};

    /// That of nodes as they start: the clients of the first node come first.
    ///
    /// Errors: `AllocError`.
    ///
    /// Cost: memory for each node, with a copy of its name.
    pub fn of(alloc: Global, starts: &[Start]) -> Result<Layout, AllocError>
        ensures { IfOk result (λ layout. layout.nodes.items ≡ layout_of 0 starts.now) }
    {
        let mut nodes = Vec::with_capacity(alloc, starts.len())?;
        let mut first: usize = 0;
        for start in starts {
            let name = start.name.copy()?;
            nodes.push(NodePorts {
                name,
                ports: start.ports,
                first,
            })?;
            first = first.saturating_add(usize::from(start.ports));
        }
        Ok(Layout { nodes })
    }

    /// The place of the node of this name.
    ///
    /// Cost: no memory; O(nodes).
    pub fn node_at(&self, name: &Atom) -> Option<usize>
        ensures { result ≡ place_of name.now self.now.nodes.items }
    {
        for place in 0..self.nodes.len() {
            if *name == self.nodes[place].name {
                return Some(place);
            }
        }
        None
    }

    /// The place of the client at a port of a node, by its number from 1.
    ///
    /// Cost: no memory; O(nodes).
    pub fn client_at(&self, name: &Atom, port: u16) -> Option<usize>
        ensures { result ≡ client_at self.now.nodes.items name.now port }
    {
        for place in 0..self.nodes.len() {
            if *name == self.nodes[place].name {
                return self.nodes[place].client_of(port);
            }
        }
        None
    }
}
