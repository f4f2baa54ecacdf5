ghost use Rattle.std.specs.Prelude.{◌≡◌};
ghost use Rattle.pg_world_packets.specs.Effects.{effect_by, no_effect, op_of};

use pg_node_state::{Done, Held, Odd, OpId, Outgoing, Update};

/// What an event did beside its change of the node that made it.
#[derive(Clone, Copy, Debug, PartialEq, Eq)]
pub struct Effect {
    /// How many packets the node sent. They are the last ones on their ways, as `FrameWorld::on_way` shows them.
    pub sent: usize,
    /// The command whose update entered the history.
    pub began: Option<OpId>,
    /// A reply that completed nothing. In a world no reply is odd, by `OneHistory` and `LossesSurvived`.
    pub odd: Option<Odd>,
}

impl Effect {
    /// What was done, without the packets and without the update.
    ///
    /// Cost: no memory.
    pub fn of<S: Outgoing>(done: &Done<S>) -> Effect
        ensures { result ≡ effect_by done.now }
    {
        Effect {
            sent: done.sends.count(),
            began: op_of(&done.began),
            odd: done.odd,
        }
    }

    /// Nothing is sent or reported, as where a loss is seen.
    ///
    /// Cost: no memory.
    pub fn nothing() -> Effect
        ensures { result ≡ no_effect }
    {
        Effect {
            sent: 0,
            began: None,
            odd: None,
        }
    }
}

/// The command that began.
fn op_of(began: &Option<Held<(OpId, Update)>>) -> Option<OpId>
    ensures { result ≡ op_of began.now }
{
    match began {
        Some(begun) => Some(begun.get().0),
        None => None,
    }
}
