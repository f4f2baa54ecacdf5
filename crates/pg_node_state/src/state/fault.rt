use pg_frame::TooLong;
use pg_node_ports::{MessageFault, Refusal};
use pg_term::TermFault;
use pg_term::faults::{DAMAGED, OUT_OF_MEMORY, TOO_LONG};
use std::alloc::AllocError;
use thiserror::Error;

/// Why an event of a node does not happen.
#[derive(Clone, Copy, Debug, PartialEq, Eq, Error)]
pub enum NodeFault {
    /// The node's step refuses it.
    #[error("the event is refused")]
    Refused(Refusal),
    /// A body is no term or no message.
    #[error(transparent)]
    Message(MessageFault),
    /// A frame is longer than 16,777,216 bytes.
    #[error("the frame is too long")]
    TooLong,
    /// The link had a fault before.
    #[error("the link is damaged")]
    Damaged,
    #[error("out of memory")]
    OutOfMemory,
}

impl NodeFault {
    ghost use Rattle.std.specs.Prelude.{◌≡◌};
    ghost use Rattle.pg_node_state.specs.NodeFault.{node_number_of};

    /// The number of the fault in this project's one list of faults.
    ///
    /// Cost: no memory.
    pub fn number(self) -> u8
        ensures { result ≡ node_number_of self }
    {
        match self {
            NodeFault::Refused(refusal) => refusal.number(),
            NodeFault::Message(fault) => fault.number(),
            NodeFault::OutOfMemory => OUT_OF_MEMORY,
            NodeFault::TooLong => TOO_LONG,
            NodeFault::Damaged => DAMAGED,
        }
    }
}

impl From<AllocError> for NodeFault {
    ghost use Rattle.std.specs.Prelude.{◌≡◌};
    ghost use Rattle.pg_node_state.specs.declared.state.fault.NodeFault.TheVariants.{OutOfMemory};

    ghost from_gives = { λ _ e. e ≡ OutOfMemory };

    fn from(_e: AllocError) -> NodeFault {
        NodeFault::OutOfMemory
    }
}

impl From<MessageFault> for NodeFault {
    ghost use Rattle.std.specs.Prelude.{◌≡◌};
    ghost use Rattle.pg_node_state.specs.NodeFault.{from_message};

    ghost from_gives = { λ fault e. e ≡ from_message fault };

    fn from(fault: MessageFault) -> NodeFault {
        match fault {
            MessageFault::Term(TermFault::OutOfMemory) => NodeFault::OutOfMemory,
            _ => NodeFault::Message(fault),
        }
    }
}

impl From<TooLong> for NodeFault {
    ghost use Rattle.std.specs.Prelude.{◌≡◌};
    ghost use Rattle.pg_node_state.specs.declared.state.fault.NodeFault.TheVariants as faults;

    ghost from_gives = { λ _ e. e ≡ faults.TooLong };

    fn from(_e: TooLong) -> NodeFault {
        NodeFault::TooLong
    }
}
