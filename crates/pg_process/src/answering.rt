//! What is said at the ports: replies to queries, and answers of the node.

use crate::fault::ProcessFault;
use crate::process::Process;
use pg_node::{Command, Reply};
use pg_node_ports::query_reply;
use pg_node_process::Address;
use pg_node_requests::{has_ended, reply_term};
use pg_term::Term;

impl Process {
    ghost use Rattle.std.specs.Prelude.{◌≡◌, ◌⊎◌, ◌≤◌, ◌<◌, ◌+◌, ◌++◌, true, false, List, ℕ, Ok, IfErr, IfOk, OnOk, OnErr, length, []};
    ghost use Rattle.std.specs.List.{AllByRecursion, flat_map};
    ghost use Rattle.pg_node.specs.Nodes.{held_by};
    ghost use Rattle.pg_node.specs.PgNodeState.Issued.{ports_of};
    ghost use Rattle.pg_node.specs.PgNodeState.States.{answers_of};
    ghost use Rattle.pg_node.specs.PgStep.StepLaws.{is_query};
    ghost use Rattle.pg_node.specs.PgStep.declared.answer.Answer.{Answer};
    ghost use Rattle.pg_node_process.specs.Outputs.{IsFramed, Output, said as bytes_said};
    ghost use Rattle.pg_process.specs.declared.fault.ProcessFault.TheVariants.{OutOfMemory};
    ghost use Rattle.pg_process.specs.Chains.{Fails, Makes, Rests};
    ghost use Rattle.pg_node.specs.PgNodeState.States.{kept_by};
    ghost use Rattle.pg_node_requests.specs.Replies.{has_ended_term};
    ghost use Rattle.pg_process.specs.Deeds.{Answered, Asked, IsReply, SaysBoth, Tells, join_of_ended, joins_ended};
    ghost use Rattle.pg_process.specs.Hearing.{asked};
    ghost use Rattle.pg_process.specs.Situations.{own_of, setting_of, situation_of};

    /// A request comes in at a port: a query is answered, and a change waits for its turn.
    ///
    /// Errors: `OutOfMemory`.
    pub(crate) fn ask_or_queue(&mut self, port: usize, command: Command) -> Result<(), ProcessFault>
        requires { port < ports_of (held_by self.old.node) }
        ensures made { OnOk result (Makes (asked port command) self.old self.new) }
        ensures failed { IfErr result (λ fault. Fails (asked port command) fault self.old self.new) }
    {
        if is_query(&command) {
            let asked = self.ask(port, &command);
            drop(command);
            asked
        } else {
            self.queue(port, command)
        }
    }

    /// Answers a query that comes in at a port, by the table as it is.
    ///
    /// Errors: `OutOfMemory`.
    ///
    /// Cost: that of `query_reply`, and of the reply's bytes.
    pub fn ask(&mut self, port: usize, query: &Command) -> Result<(), ProcessFault>
        requires port { port < ports_of (held_by self.old.node) }
        requires query { is_query query.now ≡ true }
        ensures made { OnOk result (Makes (Asked port query.now) self.old self.new) }
        ensures failed { IfErr result (λ fault. Fails (Asked port query.now) fault self.old self.new) }
    {
        let state = self.node.state();
        let reply = query_reply(self.alloc, state.table(), state.own(), query)?;
        let term = reply_term(self.alloc, reply)?;
        let number = self.desks[port].count();
        self.say(port, number, term)
    }

    /// Says the first answer at a port, and forgets it; whether there was one.
    ///
    /// Errors: `OutOfMemory`.
    ///
    /// Cost: that of the reply's bytes, with a copy of it.
    pub fn answer(&mut self, port: usize) -> Result<bool, ProcessFault>
        requires { port < ports_of (held_by self.old.node) }
        ensures said { IfOk result (λ said. said ≡ true → (answer : Answer) × Makes (Answered port answer) self.old self.new) }
        ensures none { result ≡ Ok false → Rests self.old self.new × (answers_of (held_by self.old.node) port ≡ []) }
        ensures failed { IfErr result (λ fault. (answer : Answer) × Fails (Answered port answer) fault self.old self.new) }
    {
        let reply = match self.node.state().answers(port as u16) {
            [first, ..] => first.reply.copy(self.alloc)?,
            [] => return Ok(false),
        };
        let is_ended = self.joins_ended(port, &reply);
        let number = self.desks[port].answered().unwrap_or(0);
        let term = reply_term(self.alloc, reply)?;
        self.say_answer(port, number, term, is_ended)?;
        self.node.forget_answers(port as u16, 1);
        self.courtesies[port].close();
        Ok(true)
    }

    /// Whether the answer is ok, to a join of a process that has ended.
    fn joins_ended(&self, port: usize, reply: &Reply) -> bool
        requires { port < ports_of (held_by self.now.node) }
        ensures { result ≡ joins_ended ((situation_of self.now).ports port).current reply.now (kept_by (held_by self.now.node)).ended }
    {
        match reply {
            Reply::Ok => match self.desks[port].current() {
                Some(change) => self.is_join_of_ended(&change.command),
                None => false,
            },
            _ => false,
        }
    }

    /// Whether a command is the join of a process that has ended.
    fn is_join_of_ended(&self, command: &Command) -> bool
        ensures { result ≡ join_of_ended command.now (kept_by (held_by self.now.node)).ended }
    {
        match command {
            Command::Join(_, pid) => self.node.state().ended(pid),
            _ => false,
        }
    }

    /// The answer to a change, behind a notice where it joins a process that has ended.
    fn say_answer(
        &mut self,
        port: usize,
        number: u64,
        reply: Term,
        is_ended: bool,
    ) -> Result<(), ProcessFault>
        requires { port < ports_of (held_by self.old.node) }
        ensures said { OnOk result ((outputs : List Output) × SaysBoth (setting_of self.old) port number is_ended reply outputs × AllByRecursion IsFramed outputs
            × (self.new.outlet.gathered.items ≡ self.old.outlet.gathered.items ++ flat_map bytes_said outputs)) }
        ensures err { OnErr result (self.new.outlet.gathered.items ≡ self.old.outlet.gathered.items) }
        ensures memory { IfErr result (λ fault. fault ≡ OutOfMemory) }
        ensures rest { self.new ≡ record self.old { outlet = self.new.outlet } }
    {
        if !is_ended {
            return self.say(port, number, reply);
        }
        let len = self.outlet.bytes().len();
        match self.tell_ended(port, number) {
            Ok(()) => {}
            Err(fault) => {
                drop(reply);
                return Err(fault);
            }
        }
        match self.say(port, number, reply) {
            Ok(()) => Ok(()),
            Err(fault) => {
                self.outlet.cut(len);
                Err(fault)
            }
        }
    }

    /// Tells that the process of a join has ended.
    fn tell_ended(&mut self, port: usize, number: u64) -> Result<(), ProcessFault>
        requires { port < ports_of (held_by self.old.node) }
        ensures said { OnOk result ((outputs : List Output) × Tells (has_ended_term (own_of (setting_of self.old)) (port + 1) number) outputs × AllByRecursion IsFramed outputs
            × (self.new.outlet.gathered.items ≡ self.old.outlet.gathered.items ++ flat_map bytes_said outputs)) }
        ensures err { OnErr result (self.new.outlet.gathered.items ≡ self.old.outlet.gathered.items) }
        ensures memory { IfErr result (λ fault. fault ≡ OutOfMemory) }
        ensures rest { self.new ≡ record self.old { outlet = self.new.outlet } }
    {
        let told = has_ended(self.alloc, self.node.state().own(), port as u16 + 1, number)?;
        let said = self.tell(&told);
        drop(told);
        said
    }

    /// The reply to a request.
    ///
    /// Errors: `OutOfMemory`, which says nothing.
    pub(crate) fn say(&mut self, port: usize, number: u64, reply: Term) -> Result<(), ProcessFault>
        requires { port < ports_of (held_by self.old.node) }
        ensures said { OnOk result ((outputs : List Output) × IsReply (setting_of self.old) port number reply outputs × AllByRecursion IsFramed outputs
            × (self.new.outlet.gathered.items ≡ self.old.outlet.gathered.items ++ flat_map bytes_said outputs)) }
        ensures err { OnErr result (self.new.outlet.gathered.items ≡ self.old.outlet.gathered.items) }
        ensures memory { IfErr result (λ fault. fault ≡ OutOfMemory) }
        ensures rest { self.new ≡ record self.old { outlet = self.new.outlet } }
    {
        let address = Address {
            name: self.node.state().own(),
            port: port as u16 + 1,
            number,
        };
        self.outlet.put_reply(address, reply)?;
        Ok(())
    }
}

ghost use Rattle.std.specs.Prelude.{◌≡◌};
ghost use Rattle.pg_node.specs.PgStep.StepLaws.{is_query as is_query_by};

/// Whether a command is a query.
fn is_query(command: &Command) -> bool
    ensures { result ≡ is_query_by command.now }
{
    match command {
        Command::Members(_)
        | Command::LocalMembers(_)
        | Command::WhichGroups
        | Command::Closest(_, _) => true,
        Command::Create(_)
        | Command::Delete(_)
        | Command::Join(_, _)
        | Command::Leave(_, _)
        | Command::Make
        | Command::Finish(_) => false,
    }
}
