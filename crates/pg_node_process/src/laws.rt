//! Laws of what is said and of what comes in: the functions do nothing, and their contracts are the laws.
ghost use Rattle.std.specs.Prelude.{List};
ghost use Rattle.pg_node_process.specs.Desks.{ChangesInTurn, Happening};
ghost use Rattle.pg_node_process.specs.Logs.{HeadsFit, LogsAreRead};
ghost use Rattle.pg_node_process.specs.Outputs.{OutputsAreHeard};
ghost use Rattle.pg_node_process.specs.Retries.{NoPortWaitsForLong};

/// What a process says is heard as what it is, each body and all of them in their frames.
#[tactic(auto, using(crate::proofs::Heard::outputs_are_heard))]
pub fn outputs_are_heard()
    ensures { OutputsAreHeard }
{}

/// The changes of a port are handed over in the order in which they came, each once. Each request has the number of its place.
pub fn changes_go_in_turn()
    ensures { (happenings : List Happening) → ChangesInTurn happenings }
{}

/// What is logged behind a head is read as what it is.
#[tactic(auto, using(crate::proofs::Logged::logs_are_read))]
pub fn logs_are_read()
    ensures { LogsAreRead }
{}

/// A frame holds the head of each process that may begin, where its version has at most 255 bytes.
pub fn heads_fit()
    ensures { HeadsFit }
{}

/// A port that gives way to other nodes does so until the second tick at the latest.
#[tactic(auto, using(crate::proofs::Ways::no_port_waits_for_long))]
pub fn no_port_waits_for_long()
    ensures { NoPortWaitsForLong }
{}
