//! What a process says that no peer and no port decides.

use crate::fault::ProcessFault;
use crate::process::Process;
use pg_node_process::Mark;
use pg_node_requests::{bad_request, many_ended, old_clock};
use pg_term::Term;

impl Process {
    ghost use Rattle.std.specs.Prelude.{◌≡◌, ◌≤◌, ◌<◌, Ok, true, false, IfErr, IfOk, OnOk, OnErr, length, [], ◌++◌};
    ghost use Rattle.std.specs.List.{AllByRecursion, flat_map};
    ghost use Rattle.pg_frame.specs.Limits.{max_body};
    ghost use Rattle.pg_node.specs.Nodes.{held_by};
    ghost use Rattle.pg_node.specs.PgNodeState.Issued.{ports_of};
    ghost use Rattle.pg_node_process.specs.Logs.{entry_bytes, entry_of};
    ghost use Rattle.pg_node_process.specs.Outputs.{Output, IsFramed, said as bytes_said};
    ghost use Rattle.pg_process.specs.declared.fault.ProcessFault.TheVariants.{OutOfMemory};
    ghost use Rattle.pg_process.specs.Chains.{Fails, Makes, Rests};
    ghost use Rattle.pg_process.specs.Hearing.{whom_of};
    ghost use Rattle.pg_process.specs.Locks.{IsDenied, is_formed};
    ghost use Rattle.pg_process.specs.Situations.{setting_of, situation_of};
    ghost use Rattle.pg_process.specs.Deeds.{Aged, Blamed, Crowded, Denied, Formed, MANY_ENDED, OLD_CLOCK, Read, Shared, Tells, Timed};
    ghost use Rattle.pg_node.specs.PgGroup.Ended.{IsEndedCount};

    /// A body came, which is logged.
    ///
    /// Errors: `OutOfMemory`.
    ///
    /// Cost: that of its bytes.
    pub fn note(&mut self, body: &[u8]) -> Result<(), ProcessFault>
        requires { length body.now ≤ max_body }
        ensures made { OnOk result (Makes (Read body.now) self.old self.new) }
        ensures whom { whom_of self.new ≡ whom_of self.old }
        ensures failed { IfErr result (λ fault. Fails (Read body.now) fault self.old self.new) }
    {
        self.journal.put_body(body)?;
        self.came = self.came.saturating_add(1);
        Ok(())
    }

    /// Tells that the last body asks for nothing.
    ///
    /// Errors: `OutOfMemory`.
    pub fn blame(&mut self) -> Result<(), ProcessFault>
        ensures made { OnOk result (Makes Blamed self.old self.new) }
        ensures failed { IfErr result (λ fault. Fails Blamed fault self.old self.new) }
    {
        let term = bad_request(self.alloc, self.came)?;
        let told = self.tell(&term);
        drop(term);
        told
    }

    /// Says the clock.
    ///
    /// Errors: `OutOfMemory`.
    pub fn tell_clock(&mut self) -> Result<(), ProcessFault>
        ensures made { OnOk result (Makes Timed self.old self.new) }
        ensures failed { IfErr result (λ fault. Fails Timed fault self.old self.new) }
    {
        let clock = self.node.state().clock();
        self.outlet.put_clock(clock)?;
        Ok(())
    }

    /// Another node was denied the lock of a group whose changes come in at a port.
    ///
    /// Cost: no memory.
    pub fn share(&mut self, port: usize)
        requires { port < ports_of (held_by self.old.node) }
        ensures { Makes (Shared port) self.old self.new }
    {
        self.courtesies[port].share();
    }

    /// A notice, where a frame holds it.
    ///
    /// Errors: `OutOfMemory`, which says nothing.
    pub(crate) fn tell(&mut self, term: &Term) -> Result<(), ProcessFault>
        ensures said { OnOk result ((outputs : _) × Tells term.now outputs × AllByRecursion IsFramed outputs
            × (self.new.outlet.gathered.items ≡ self.old.outlet.gathered.items ++ flat_map bytes_said outputs)) }
        ensures err { OnErr result (self.new.outlet.gathered.items ≡ self.old.outlet.gathered.items) }
        ensures memory { IfErr result (λ fault. fault ≡ OutOfMemory) }
        ensures rest { self.new ≡ record self.old { outlet = self.new.outlet } }
    {
        self.outlet.put_term(term)?;
        Ok(())
    }

    /// Logs a mark of an act that no body decides.
    ///
    /// Errors: `OutOfMemory`, which logs nothing.
    pub(crate) fn mark(&mut self, mark: Mark) -> Result<(), ProcessFault>
        ensures ok { OnOk result (self.new.journal.gathered.items ≡ self.old.journal.gathered.items ++ entry_bytes (entry_of mark)) }
        ensures err { OnErr result (self.new.journal.gathered.items ≡ self.old.journal.gathered.items) }
        ensures memory { IfErr result (λ fault. fault ≡ OutOfMemory) }
        ensures rest { self.new ≡ record self.old { journal = self.new.journal } }
    {
        self.journal.put_mark(mark)?;
        Ok(())
    }

    /// Tells that the change of a port was denied its lock, which it was, once for each trial; whether it did.
    ///
    /// Errors: `OutOfMemory`.
    pub fn tell_denied(&mut self, port: usize) -> Result<bool, ProcessFault>
        requires port { port < ports_of (held_by self.old.node) }
        requires denied { IsDenied (setting_of self.old) (situation_of self.old) port }
        ensures made { IfOk result (λ is_new. is_new ≡ true → Makes (Denied port) self.old self.new) }
        ensures none { result ≡ Ok false → Rests self.old self.new × ((situation_of self.old).courtesies port).is_told ≡ true }
        ensures node { self.new.node ≡ self.old.node }
        ensures failed { IfErr result (λ fault. Fails (Denied port) fault self.old self.new) }
    {
        if !self.courtesies[port].tell() {
            return Ok(false);
        }
        self.outlet.put_denied(port as u8 + 1)?;
        Ok(true)
    }

    /// Says that the node is formed, which was not said before.
    ///
    /// Errors: `OutOfMemory`.
    pub fn tell_formed(&mut self) -> Result<(), ProcessFault>
        requires formed { is_formed (setting_of self.old) (situation_of self.old) ≡ true }
        requires untold { self.old.told.formed ≡ false }
        ensures made { OnOk result (Makes Formed self.old self.new) }
        ensures failed { IfErr result (λ fault. Fails Formed fault self.old self.new) }
    {
        self.outlet.put_formed()?;
        self.told.formed = true;
        Ok(())
    }

    /// Tells that the clock is old, which was not told before.
    ///
    /// Errors: `OutOfMemory`.
    pub fn tell_old_clock(&mut self) -> Result<(), ProcessFault>
        requires old { OLD_CLOCK ≤ (situation_of self.old).node.state.clock }
        requires untold { self.old.told.old_clock ≡ false }
        ensures made { OnOk result (Makes Aged self.old self.new) }
        ensures failed { IfErr result (λ fault. Fails Aged fault self.old self.new) }
    {
        let term = old_clock(self.alloc, self.node.state().clock())?;
        let told = self.tell(&term);
        drop(term);
        told?;
        self.told.old_clock = true;
        Ok(())
    }

    /// Tells that many processes have ended, which was not told before.
    ///
    /// Errors: `OutOfMemory`.
    pub fn tell_many_ended(&mut self, count: u64) -> Result<(), ProcessFault>
        requires count { IsEndedCount (situation_of self.old).node.state.state.ended count }
        requires many { MANY_ENDED ≤ count }
        requires untold { self.old.told.many_ended ≡ false }
        ensures made { OnOk result (Makes (Crowded count) self.old self.new) }
        ensures failed { IfErr result (λ fault. Fails (Crowded count) fault self.old self.new) }
    {
        let term = many_ended(self.alloc, count)?;
        let told = self.tell(&term);
        drop(term);
        told?;
        self.told.many_ended = true;
        Ok(())
    }
}
