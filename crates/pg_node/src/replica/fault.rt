use pg_node_state::MessageFault;
use pg_term::TermFault;
use pg_term::faults::{CLOCK_FULL, READ_FAULT, TOO_LONG, WRITE_FAULT};
use std::alloc::AllocError;
use thiserror::Error;

/// Why a replica stopped.
#[derive(Clone, Copy, Debug, PartialEq, Eq, Error)]
pub enum ServeFault {
    /// A packet's body is no term or no message, an exchange is refused (`NotAMessage`), the input ends within a frame
    /// (`Truncated`), or memory ran out (`OutOfMemory`).
    #[error(transparent)]
    Message(MessageFault),
    /// A frame is longer than 16,777,216 bytes.
    #[error("the frame is too long")]
    FrameTooLong,
    /// The node's clock would pass 1,073,741,824.
    #[error("the clock is full")]
    ClockFull,
    /// A read failed, or there were 2^40 reads.
    #[error("the input can't be read")]
    ReadFault,
    /// A write failed.
    #[error("the output can't be written")]
    WriteFault,
}

impl ServeFault {
    ghost use Rattle.std.specs.Prelude.{◌≡◌};
    ghost use Rattle.pg_node.specs.Replicas.Fault.{number_of};

    /// The number of the fault in this project's one list of faults.
    ///
    /// Cost: no memory.
    pub fn number(self) -> u8
        ensures { result ≡ number_of self }
    {
        match self {
            ServeFault::Message(fault) => fault.number(),
            ServeFault::FrameTooLong => TOO_LONG,
            ServeFault::ClockFull => CLOCK_FULL,
            ServeFault::ReadFault => READ_FAULT,
            ServeFault::WriteFault => WRITE_FAULT,
        }
    }
}

impl From<MessageFault> for ServeFault {
    ghost use Rattle.std.specs.Prelude.{◌≡◌};
    ghost use Rattle.pg_node.specs.declared.replica.fault.ServeFault.TheVariants.{Message};

    ghost from_gives = { λ fault e. e ≡ Message fault };

    fn from(fault: MessageFault) -> ServeFault {
        ServeFault::Message(fault)
    }
}

impl From<TermFault> for ServeFault {
    ghost use Rattle.std.specs.Prelude.{◌≡◌};
    ghost use Rattle.pg_node.specs.declared.replica.fault.ServeFault.TheVariants.{Message};
    ghost use Rattle.pg_node_state.specs.PgMessageTypes.declared.fault.MessageFault.TheVariants.{Term};

    ghost from_gives = { λ fault e. e ≡ Message (Term fault) };

    fn from(fault: TermFault) -> ServeFault {
        ServeFault::Message(MessageFault::Term(fault))
    }
}

impl From<AllocError> for ServeFault {
    ghost use Rattle.std.specs.Prelude.{◌≡◌};
    ghost use Rattle.pg_node.specs.Replicas.Fault.{out_of_memory};

    ghost from_gives = { λ _ e. e ≡ out_of_memory };

    fn from(_e: AllocError) -> ServeFault {
        ServeFault::Message(MessageFault::Term(TermFault::OutOfMemory))
    }
}
