//! What a process does with a body.

use crate::fault::ProcessFault;
use crate::process::Process;
use pg_node::Command;
use pg_node_process::Body;

impl Process {
    ghost use Rattle.std.specs.Prelude.{◌≡◌, ◌≤◌, IfErr, IfOk, OnOk, [], length};
    ghost use Rattle.pg_frame.specs.Limits.{max_body};
    ghost use Rattle.pg_node_process.specs.Bodies.{body_of};
    ghost use Rattle.pg_process.specs.Chains.{Ends, Works, WorksUntil};
    ghost use Rattle.pg_process.specs.Hearing.{Hears, HearsUntil, Heeds, is_tick, whom_of};
    ghost use Rattle.pg_process.specs.Settled.{IsSettled};
    ghost use Rattle.pg_process.specs.Turns.{HearsInTurn};

    /// Hears a body: it is logged, what it asks for is done, and then what follows.
    ///
    /// Errors: `ClockFull`, where the node's step says so; `OutOfMemory`. What was done before is said and logged.
    ///
    /// Cost: that of what it asks for, and a look at each port and each peer.
    pub fn hear(&mut self, body: &[u8]) -> Result<(), ProcessFault>
        requires { length body.now ≤ max_body }
        ensures hears { OnOk result (Hears body.now self.old self.new) }
        ensures turns { OnOk result (HearsInTurn body.now self.old self.new) }
        ensures settled { OnOk result (IsSettled self.new) }
        ensures until { IfErr result (λ fault. HearsUntil body.now fault self.old self.new) }
    {
        match self.note(body) {
            Ok(()) => {}
            Err(fault) => return Err(fault),
        }
        match self.heed(body) {
            Ok(is_tick) => self.attend(is_tick),
            Err(fault) => Err(fault),
        }
    }

    /// Does what a body asks for; whether that is a tick.
    ///
    /// Errors: `OutOfMemory`, by which nothing is said.
    pub(crate) fn heed(&mut self, body: &[u8]) -> Result<bool, ProcessFault>
        ensures heeds { OnOk result (Heeds body.now self.old self.new) }
        ensures tick { IfOk result (λ told. told ≡ is_tick (body_of (whom_of self.old) body.now)) }
        ensures until { IfErr result (λ fault. Ends [] fault self.old self.new) }
    {
        match self.parties.read(self.alloc, body) {
            Ok(read) => self.heed_body(read, body),
            Err(_) => Err(ProcessFault::OutOfMemory),
        }
    }

    /// Does what was read in a body; whether that is a tick.
    #[tactic(auto, using(crate::proofs::Chained::heeds_one, crate::proofs::Chained::heeds_none, crate::proofs::Chained::itself, crate::proofs::Chained::fails_ends))]
    fn heed_body(&mut self, read: Body, body: &[u8]) -> Result<bool, ProcessFault>
        requires { read ≡ body_of (whom_of self.old) body.now }
        ensures heeds { OnOk result (Heeds body.now self.old self.new) }
        ensures tick { IfOk result (λ told. told ≡ is_tick read) }
        ensures until { IfErr result (λ fault. Ends [] fault self.old self.new) }
    {
        match read {
            Body::Tick => Ok(true),
            Body::Groups | Body::Bad => match self.blame() {
                Ok(()) => Ok(false),
                Err(fault) => Err(fault),
            },
            Body::Clock => match self.tell_clock() {
                Ok(()) => Ok(false),
                Err(fault) => Err(fault),
            },
            Body::Denied(port) => {
                self.share(port);
                Ok(false)
            }
            Body::Bytes(peer) => match self.feed(peer, &body[1..]) {
                Ok(()) => Ok(false),
                Err(fault) => Err(fault),
            },
            Body::Ask { port, command } => match self.ask_or_queue(port, command) {
                Ok(()) => Ok(false),
                Err(fault) => Err(fault),
            },
        }
    }
}
