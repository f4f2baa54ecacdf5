//! What a whole chain of deeds comes to: each function does nothing, and its contract is the law.
ghost use Rattle.pg_process.specs.Accounts.{ChainsAccount};
ghost use Rattle.pg_process.specs.Delays.{NoPortKeepsForLong};
ghost use Rattle.pg_process.specs.Kept.{ChainsKeepMirrors};
ghost use Rattle.pg_process.specs.Replies.{ChainsReply};

/// The acts of a chain of deeds lead the node from its first state to its last, and see no loss. Of each peer, the bytes that come are the
/// frames that are taken, up to a fault that damages the link, and the frames that are sent are the bytes that go out. At each port, the
/// answers that are given are said, requests go in turn, and the changes that are handed over are what the node is issued.
#[tactic(auto, using(crate::proofs::Accounting::chains_account))]
pub fn chains_account()
    ensures { ChainsAccount }
{}

/// Who mirrors the table has the node's table behind each deed: the assignments that a chain of deeds says make of the table before it the table behind
/// it. Each act says its own, before all that follows from it.
#[tactic(auto, using(crate::proofs::Keeping::chains_keep_mirrors))]
pub fn chains_keep_mirrors()
    ensures { ChainsKeepMirrors }
{}

/// What a chain of deeds from the beginning replies at each port. The replies that are said name the requests that are replied to, and no others. An answer is said only while a change of the port is with the node. Each request that
/// came has its one reply, or is the change that is with the node, or waits. The answers that are said are those to the commands that the node was issued
/// there, in their order.
pub fn chains_reply()
    ensures { ChainsReply }
{}

/// A port that keeps a change, as it gives way to other nodes, hands one over by the second tick: of bodies that are heard in their turns, while it hands
/// over nothing, one at most is a tick.
pub fn no_port_keeps_for_long()
    ensures { NoPortKeepsForLong }
{}
