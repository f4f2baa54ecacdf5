ghost use Rattle.std.specs.Prelude.{◌≡◌};

use pg_term::faults::{
    ALREADY_ENDED, BUSY, FOREIGN_PID, NAME_TOO_LARGE, NOT_FORMED, NOT_MADE, PROCESS_LIMIT,
};

/// Why a command is refused.
#[derive(Clone, Copy, Debug, PartialEq, Eq)]
pub enum CommandFault {
    /// As many commands are open at the node as can be.
    Busy,
    /// The name is too large to be sent.
    NameTooLarge,
    /// The process is of no node of the set; one that is to end is not of this node.
    ForeignPid,
    /// A process is to end at a node that is not formed.
    NotFormed,
    /// The process that is to end was not made.
    NotMade,
    /// The process that is to end has ended.
    AlreadyEnded,
    /// No number is left for a further process.
    ProcessLimit,
}

impl CommandFault {
    ghost use Rattle.pg_step.specs.Faults.{command_number_of};

    /// Its number in the one list of faults, which `Reply::Refused` carries.
    ///
    /// Cost: no memory.
    pub fn number(self) -> u8
        ensures { result ≡ command_number_of self }
    {
        match self {
            CommandFault::Busy => BUSY,
            CommandFault::NameTooLarge => NAME_TOO_LARGE,
            CommandFault::ForeignPid => FOREIGN_PID,
            CommandFault::NotFormed => NOT_FORMED,
            CommandFault::NotMade => NOT_MADE,
            CommandFault::AlreadyEnded => ALREADY_ENDED,
            CommandFault::ProcessLimit => PROCESS_LIMIT,
        }
    }
}
