use pg_term::TermFault;
use pg_term::faults::{NAME_TOO_LARGE, NOT_A_MESSAGE, STAMP_TOO_LARGE};
use std::alloc::{AllocError, AllocFailed};
use thiserror::Error;

/// Why a packet can't be read or written, or a term can't name a group.
#[derive(Clone, Copy, Debug, PartialEq, Eq, Error)]
pub enum MessageFault {
    /// The bytes are no term, the packet takes more than 16,777,216 bytes (`TooLong`), or memory ran out
    /// (`OutOfMemory`).
    #[error(transparent)]
    Term(TermFault),
    /// The term has not the shape of a packet, a name in it is too large, an exchange names a group twice, or its
    /// stamp is negative.
    #[error("the term is no message")]
    NotAMessage,
    /// The stamp is above 1,073,741,824.
    #[error("the stamp is too large")]
    StampTooLarge,
    /// The term nests more than 32 levels deep or takes more than 1,024 bytes.
    #[error("the name is too large")]
    NameTooLarge,
}

impl MessageFault {
    ghost use Rattle.std.specs.Prelude.{◌≡◌};
    ghost use Rattle.pg_message_types.specs.Fault.{message_number_of};

    /// The number of the fault in this project's one list of faults.
    ///
    /// Cost: no memory.
    pub fn number(self) -> u8
        ensures { result ≡ message_number_of self }
    {
        match self {
            MessageFault::Term(fault) => fault.number(),
            MessageFault::NotAMessage => NOT_A_MESSAGE,
            MessageFault::StampTooLarge => STAMP_TOO_LARGE,
            MessageFault::NameTooLarge => NAME_TOO_LARGE,
        }
    }
}

impl From<TermFault> for MessageFault {
    ghost use Rattle.std.specs.Prelude.{◌≡◌};
    ghost use Rattle.pg_message_types.specs.declared.fault.MessageFault.TheVariants.{Term};

    ghost from_gives = { λ fault e. e ≡ Term fault };

    fn from(fault: TermFault) -> MessageFault {
        MessageFault::Term(fault)
    }
}

impl From<AllocError> for MessageFault {
    ghost use Rattle.std.specs.Prelude.{◌≡◌};
    ghost use Rattle.pg_message_types.specs.Fault.{out_of_memory};

    ghost from_gives = { λ _ e. e ≡ out_of_memory };

    fn from(_e: AllocError) -> MessageFault {
        MessageFault::Term(TermFault::OutOfMemory)
    }
}

impl<T: Drop> From<AllocFailed<T>> for MessageFault {
    ghost use Rattle.std.specs.Prelude.{◌≡◌};
    ghost use Rattle.pg_message_types.specs.Fault.{out_of_memory};

    ghost from_gives = { λ _ e. e ≡ out_of_memory };

    fn from(_e: AllocFailed<T>) -> MessageFault {
        MessageFault::Term(TermFault::OutOfMemory)
    }
}
