ghost use Rattle.std.specs.Prelude.{◌≡◌};

use pg_term::faults::{
    CLOCK_FULL, NO_SUCH_PLACE, NODE_LOST, NOT_A_MESSAGE, NOT_DRAINED, NOT_LOST, NOT_WAITING,
};

/// Why an event of a node does not happen.
#[derive(Clone, Copy, Debug, PartialEq, Eq)]
pub enum Refusal {
    /// A reply of another kind than is gathered; an exchange of another node than its sender, or a second one.
    NotAMessage,
    /// A port, a node or a peer that is not there.
    NoSuchPlace,
    /// A retry of a command that does not wait.
    NotWaiting,
    /// A node that is lost, or a peer whose loss was seen.
    NodeLost,
    /// The loss of a peer of which a packet is still on the way.
    NotDrained,
    /// The clock would pass its limit.
    ClockFull,
    /// The loss of a peer that is not lost.
    NotLost,
}

impl Refusal {
    ghost use Rattle.pg_step.specs.Faults.{refusal_number_of};

    /// Its number in the one list of faults.
    ///
    /// Cost: no memory.
    pub fn number(self) -> u8
        ensures { result ≡ refusal_number_of self }
    {
        match self {
            Refusal::NotAMessage => NOT_A_MESSAGE,
            Refusal::NoSuchPlace => NO_SUCH_PLACE,
            Refusal::NotWaiting => NOT_WAITING,
            Refusal::NodeLost => NODE_LOST,
            Refusal::NotDrained => NOT_DRAINED,
            Refusal::ClockFull => CLOCK_FULL,
            Refusal::NotLost => NOT_LOST,
        }
    }
}
