//! A service that runs: what comes in goes to its port, and replies go out.

ghost use Rattle.std.specs.Prelude.{◌≡◌, ◌++◌, OnOk};
ghost use Rattle.std.specs.List.{All as AllOf, list_all};
ghost use Rattle.pg_talk.specs.Desks.{is_idle as is_idle_desk};
ghost use Rattle.pg_talk.specs.Servings.{IsNew as IsNewDesk, ports_of as ports_of_desks};
ghost use Rattle.pg_talk.specs.Written.{ports_from};

use crate::service::MAX_WAITING;
use crate::service::desk::Desk;
use crate::service::ending::Ending;
use crate::service::fault::ServiceFault;
use crate::service::limits::{Limits, Waiting};
use crate::service::outlet::{Address, Outlet};
use pg_cluster::{Command, Rest, Running, SlotIn, Start};
use pg_node_requests::{Input, bad_request, lost, reply_term};
use pg_streams::Sink;
use pg_term::faults::CLOCK_FULL;
use pg_term::{Atom, Term};
use std::alloc::{AllocError, Global};
use std::thread::Threads;
use std::time::Clock;

/// How many inputs are taken between two looks at the clients.
const INPUTS_AT_ONCE: usize = 64;

/// A node of a service.
#[derive(Drop)]
pub(crate) struct ServedNode {
    name: Atom,
    is_lost: bool,
}

/// The nodes of a service, and the requests of each port, in the order of the clients.
#[derive(Drop)]
pub(crate) struct Desks {
    nodes: Vec<ServedNode>,
    desks: Vec<Desk>,
}

impl Desks {
    ghost use Rattle.std.specs.Prelude.{◌≡◌, false, IfOk, map};
    ghost use Rattle.std.specs.List.{All};
    ghost use Rattle.pg_talk.specs.Servings.{IsNew, known_lost, names_of, ports_of};
    ghost use Rattle.pg_talk.specs.Written.{ports_in};

    /// Those of nodes as they start, to which nothing came.
    ///
    /// Error: `AllocError`.
    pub(crate) fn of(alloc: Global, starts: &[Start]) -> Result<Desks, AllocError>
        ensures ports { IfOk result (λ made. ports_of made.desks.items ≡ ports_in 0 starts.now) }
        ensures new { IfOk result (λ made. All IsNew made.desks.items) }
        ensures names { IfOk result (λ made. names_of made.nodes.items ≡ map (λ start. start.name) starts.now) }
        ensures there { IfOk result (λ made. known_lost made.nodes.items ≡ map (λ start. false) starts.now) }
    {
        let mut nodes = Vec::with_capacity(alloc, starts.len())?;
        let mut desks = Vec::new(alloc);
        for node in 0..starts.len() {
            let name = starts[node].name.copy()?;
            nodes.push(ServedNode {
                name,
                is_lost: false,
            })?;
            open_ports(alloc, &mut desks, &starts[node], node)?;
        }
        Ok(Desks { nodes, desks })
    }
}

/// A desk for each port of a node at a place.
fn open_ports(
    alloc: Global,
    desks: &mut Vec<Desk>,
    start: &Start,
    node: usize,
) -> Result<(), AllocError>
    ensures ports { OnOk result (ports_of_desks desks.new.items ≡ ports_of_desks desks.old.items ++ ports_from 1 node start.now.name start.now.ports) }
    ensures new { OnOk result (AllOf IsNewDesk desks.old.items → AllOf IsNewDesk desks.new.items) }
{
    for port in 0..start.ports {
        let name = start.name.copy()?;
        desks.push(Desk::new(alloc, name, node, port + 1))?;
    }
    Ok(())
}

/// Whether each request that came to desks was replied to.
fn are_idle(desks: &[Desk]) -> bool
    ensures { result ≡ list_all is_idle_desk desks.now }
{
    desks.iter().all(|desk| desk.is_idle())
}

/// How a service stopped serving.
#[derive(Clone, Copy, Debug, PartialEq, Eq)]
pub(crate) enum Stop {
    /// The input is over, and each request was replied to.
    Over,
    /// A clock is full.
    Full,
}

/// A service that runs.
#[derive(Drop)]
pub(crate) struct Serving {
    running: Running,
    nodes: Vec<ServedNode>,
    // One for each client.
    desks: Vec<Desk>,
    // An input that waits for room at its port.
    kept: Option<Input>,
    // How many bodies came.
    bodies: u64,
    // The input is over, and by which fault.
    end: Option<Option<u8>>,
    limits: Limits,
    outlet: Outlet,
    alloc: Global,
}

impl Serving {
    ghost use Rattle.std.specs.Prelude.{◌≡◌, ◌<◌, ◌∷◌, true, false, Option, ℕ, None, Some, IsTrue, IfOk, IfErr, IfNone, IfSome, OnOk, length};
    ghost use Rattle.std.specs.List.{list_all as all_of};
    ghost use Rattle.pg_node_requests.specs.declared.input.Input.TheVariants.{Ask, Lose};
    ghost use Rattle.pg_cluster.specs.Running.{clients_in};
    ghost use Rattle.pg_cluster.specs.PgNode.Replicas.Causes.{FailedAt};
    ghost use Rattle.pg_cluster.specs.PgRing.Slots.{SameSlotIn, taken};
    ghost use Rattle.pg_talk.specs.Desks.{is_idle as is_idle_one};
    ghost use Rattle.pg_talk.specs.Faults.{Interrupted};
    ghost use Rattle.pg_talk.specs.Outlets.{StaysPassedOn};
    ghost use Rattle.pg_talk.specs.Servings.{Advances, CameSince, EndsFull, IsDueAt, IsOver, LosesNode, RepliesEnding};
    ghost use Rattle.pg_talk.specs.Servings.{RepliesNext, ServesOne, ServingGoes, TellsBad, WritesNothing, asked_at, desks_of};
    ghost use Rattle.pg_talk.specs.Servings.{is_known_lost, kept_in, lost_at, nodes_of, running_of, view_of};
    ghost use Rattle.pg_talk.specs.Written.{IsDue, is_full_end, over_by};
    ghost use Rattle.pg_talk.specs.declared.service.ending.Ending.TheVariants.{Open};
    ghost use Rattle.pg_talk.specs.declared.service.fault.ServiceFault.TheVariants.{OutOfMemory};
    ghost use Rattle.pg_talk.specs.declared.service.serving.Stop.TheVariants.{Over as StopOver};

    /// One to which nothing came. It takes no memory.
    pub(crate) fn new(alloc: Global, running: Running, desks: Desks, limits: Limits) -> Serving
        ensures view { view_of result ≡ record { running = running; desks = desks.desks.items; nodes = desks.nodes.items; bodies = 0; over = None } }
        ensures kept { result.kept ≡ None }
    {
        Serving {
            running,
            nodes: desks.nodes,
            desks: desks.desks,
            kept: None,
            bodies: 0,
            end: None,
            limits,
            outlet: Outlet::new(alloc),
            alloc,
        }
    }

    /// The cluster. It takes no memory.
    pub(crate) fn into_running(self) -> Running
        ensures { result ≡ running_of self }
    {
        let Serving {
            running,
            nodes,
            desks,
            kept,
            limits,
            outlet,
            ..
        } = self;
        drop(nodes);
        drop(desks);
        drop(kept);
        drop(limits);
        drop(outlet);
        running
    }

    /// By which fault the input ended, if it was broken or could not be read. It takes no memory.
    pub(crate) fn fault(&self) -> Option<u8>
        ensures { (fault : Option ℕ) → self.now.end ≡ Some fault → result ≡ fault }
    {
        match self.end {
            Some(fault) => fault,
            None => None,
        }
    }

    /// Serves until the input is over and each request was replied to, or a clock is full. Where nothing comes it rests by the clock. It may
    /// wait for threads.
    ///
    /// Faults: `WriteFault`, where a write or a flush fails; `OutOfMemory`, also after 2^64 turns, which none makes.
    #[tactic(auto, using(crate::proofs::Turns::inlet_on, crate::proofs::Turns::inlet_itself))]
    pub(crate) fn run<R: Threads, C: Clock, W: Sink>(
        &mut self,
        rt: &R,
        clock: &C,
        inlet: &mut SlotIn<Input>,
        writer: &mut W,
    ) -> Result<Stop, ServiceFault>
        ensures same { SameSlotIn inlet.old inlet.new }
        ensures advances { OnOk result (Advances self.old self.new (taken inlet.old) (taken inlet.new) (W.contents writer.old) (W.contents writer.new)) }
        ensures over { IfOk result (λ stop. stop ≡ StopOver → IsOver self.new) }
        ensures passed { OnOk result (StaysPassedOn W.flushed self.old.outlet self.new.outlet writer.old writer.new) }
        ensures passed_on { IfOk result (λ stop. stop ≡ StopOver → self.new.outlet.is_waiting ≡ false) }
        ensures fault { IfErr result (Interrupted (FailedAt W.fails writer.new)) }
    {
        let mut rest = Rest::new();
        for _ in 0..u64::MAX {
            if self.limits.are_full() {
                return Ok(Stop::Full);
            }
            if self.turn(rt, clock, &mut rest, inlet, writer)? {
                return Ok(Stop::Over);
            }
        }
        Err(ServiceFault::OutOfMemory)
    }

    /// A clock is full: takes in what came, and no more, and replies to each request. It waits for what the nodes have not answered, but
    /// not longer than its limits say.
    ///
    /// Faults: those of `run`.
    #[tactic(auto, using(crate::proofs::Turns::inlet_on, crate::proofs::Turns::inlet_itself))]
    pub(crate) fn end_full<R: Threads, C: Clock, W: Sink>(
        &mut self,
        rt: &R,
        clock: &C,
        inlet: &mut SlotIn<Input>,
        writer: &mut W,
    ) -> Result<(), ServiceFault>
        ensures same { SameSlotIn inlet.old inlet.new }
        ensures full { OnOk result (EndsFull self.old self.new (taken inlet.old) (taken inlet.new) (W.contents writer.old) (W.contents writer.new)) }
        ensures over { OnOk result (is_full_end self.new.end ≡ true) }
        ensures idle { OnOk result (all_of is_idle_one (desks_of self.new) ≡ true) }
        ensures passed { OnOk result (StaysPassedOn W.flushed self.old.outlet self.new.outlet writer.old writer.new) }
        ensures passed_on { OnOk result (self.new.outlet.is_waiting ≡ false) }
        ensures fault { IfErr result (Interrupted (FailedAt W.fails writer.new)) }
    {
        self.take_rest(rt, inlet, writer)?;
        self.end_by(Some(CLOCK_FULL));
        self.close_desks(clock, writer)
    }

    /// Takes in all that came.
    #[tactic(auto, using(crate::proofs::Turns::inlet_on, crate::proofs::Turns::inlet_itself))]
    fn take_rest<R: Threads, W: Sink>(
        &mut self,
        rt: &R,
        inlet: &mut SlotIn<Input>,
        writer: &mut W,
    ) -> Result<(), ServiceFault>
        ensures same { SameSlotIn inlet.old inlet.new }
        ensures advances { OnOk result (Advances self.old self.new (taken inlet.old) (taken inlet.new) (W.contents writer.old) (W.contents writer.new)) }
        ensures kept { OnOk result (self.new.kept ≡ None) }
        ensures passed { OnOk result (StaysPassedOn W.flushed self.old.outlet self.new.outlet writer.old writer.new) }
        ensures fault { IfErr result (Interrupted (FailedAt W.fails writer.new)) }
    {
        for _ in 0..u64::MAX {
            let Some(input) = self.next_input(inlet) else {
                return Ok(());
            };
            self.take_input(rt, input, writer)?;
        }
        Err(ServiceFault::OutOfMemory)
    }

    /// The input is over, and by which fault. Once a clock was full it stays over for that reason.
    fn end_by(&mut self, fault: Option<u8>)
        ensures view { view_of self.new ≡ record (view_of self.old) { over = over_by self.old.end fault } }
        ensures kept { self.new.kept ≡ self.old.kept }
        ensures outlet { self.new.outlet ≡ self.old.outlet }
    {
        if !self.is_full() {
            self.end = Some(fault);
        }
    }

    /// Whether the input is over as a clock was full. It takes no memory.
    fn is_full(&self) -> bool
        ensures { result ≡ is_full_end self.now.end }
    {
        match self.end {
            Some(Some(fault)) => fault == CLOCK_FULL,
            _ => false,
        }
    }

    /// A clock was full: replies to each request, once its node answers or it was waited for long enough.
    fn close_desks<C: Clock, W: Sink>(
        &mut self,
        clock: &C,
        writer: &mut W,
    ) -> Result<(), ServiceFault>
        requires { is_full_end self.old.end ≡ true }
        ensures goes { OnOk result (ServingGoes self.old self.new (W.contents writer.old) (W.contents writer.new)) }
        ensures end { self.new.end ≡ self.old.end }
        ensures idle { OnOk result (all_of is_idle_one (desks_of self.new) ≡ true) }
        ensures passed { OnOk result (StaysPassedOn W.flushed self.old.outlet self.new.outlet writer.old writer.new) }
        ensures passed_on { OnOk result (self.new.outlet.is_waiting ≡ false) }
        ensures fault { IfErr result (Interrupted (FailedAt W.fails writer.new)) }
    {
        let waiting = self.limits.begin(clock);
        let mut rest = Rest::new();
        for _ in 0..u64::MAX {
            if self.close_some(clock, &waiting, &mut rest, writer)? {
                return Ok(());
            }
        }
        Err(ServiceFault::OutOfMemory)
    }

    /// Looks at each client once; whether each request was replied to.
    fn close_some<C: Clock, W: Sink>(
        &mut self,
        clock: &C,
        waiting: &Waiting,
        rest: &mut Rest,
        writer: &mut W,
    ) -> Result<bool, ServiceFault>
        requires { is_full_end self.old.end ≡ true }
        ensures goes { OnOk result (ServingGoes self.old self.new (W.contents writer.old) (W.contents writer.new)) }
        ensures end { self.new.end ≡ self.old.end }
        ensures idle { IfOk result (λ done. IsTrue done → all_of is_idle_one (desks_of self.new) ≡ true) }
        ensures passed { OnOk result (StaysPassedOn W.flushed self.old.outlet self.new.outlet writer.old writer.new) }
        ensures passed_on { IfOk result (λ done. IsTrue done → self.new.outlet.is_waiting ≡ false) }
        ensures fault { IfErr result (Interrupted (FailedAt W.fails writer.new)) }
    {
        if self.attend_all(writer)? {
            rest.found();
            return Ok(false);
        }
        self.outlet.flush(writer)?;
        if are_idle(self.desks.as_slice()) {
            return Ok(true);
        }
        if waiting.is_over(clock) {
            self.give_up_all(writer)?;
            return Ok(false);
        }
        rest.rest(clock);
        Ok(false)
    }

    /// Replies to each request that is with its node that nobody knows what became of it.
    fn give_up_all<W: Sink>(&mut self, writer: &mut W) -> Result<(), ServiceFault>
        requires { is_full_end self.old.end ≡ true }
        ensures goes { OnOk result (ServingGoes self.old self.new (W.contents writer.old) (W.contents writer.new)) }
        ensures end { self.new.end ≡ self.old.end }
        ensures passed { OnOk result (StaysPassedOn W.flushed self.old.outlet self.new.outlet writer.old writer.new) }
        ensures fault { IfErr result (Interrupted (FailedAt W.fails writer.new)) }
    {
        for client in 0..self.desks.len() {
            self.give_up(client, writer)?;
        }
        Ok(())
    }

    /// The same of one client.
    fn give_up<W: Sink>(&mut self, client: usize, writer: &mut W) -> Result<(), ServiceFault>
        requires { is_full_end self.old.end ≡ true }
        ensures goes { OnOk result (ServingGoes self.old self.new (W.contents writer.old) (W.contents writer.new)) }
        ensures end { self.new.end ≡ self.old.end }
        ensures passed { OnOk result (StaysPassedOn W.flushed self.old.outlet self.new.outlet writer.old writer.new) }
        ensures fault { IfErr result (Interrupted (FailedAt W.fails writer.new)) }
    {
        if client >= self.desks.len() {
            return Ok(());
        }
        if !self.desks[client].is_asked() {
            return Ok(());
        }
        self.reply_ending(client, Ending::Open, writer)?;
        Ok(())
    }

    /// Takes in what came, and looks at each client; whether the input is over and each request was replied to.
    #[tactic(auto, using(crate::proofs::Turns::inlet_on, crate::proofs::Turns::inlet_itself))]
    fn turn<R: Threads, C: Clock, W: Sink>(
        &mut self,
        rt: &R,
        clock: &C,
        rest: &mut Rest,
        inlet: &mut SlotIn<Input>,
        writer: &mut W,
    ) -> Result<bool, ServiceFault>
        ensures same { SameSlotIn inlet.old inlet.new }
        ensures advances { OnOk result (Advances self.old self.new (taken inlet.old) (taken inlet.new) (W.contents writer.old) (W.contents writer.new)) }
        ensures over { IfOk result (λ over. IsTrue over → IsOver self.new) }
        ensures passed { OnOk result (StaysPassedOn W.flushed self.old.outlet self.new.outlet writer.old writer.new) }
        ensures passed_on { IfOk result (λ over. IsTrue over → self.new.outlet.is_waiting ≡ false) }
        ensures fault { IfErr result (Interrupted (FailedAt W.fails writer.new)) }
    {
        let took = self.take_inputs(rt, inlet, writer)?;
        let attended = self.attend_all(writer)?;
        if took || attended {
            rest.found();
            return Ok(false);
        }
        self.outlet.flush(writer)?;
        if self.is_done() {
            return Ok(true);
        }
        rest.rest(clock);
        Ok(false)
    }

    /// Whether the input is over and each request was replied to.
    fn is_done(&self) -> bool
        ensures { IsTrue result → IsOver self.now }
    {
        self.end.is_some() && self.kept.is_none() && are_idle(self.desks.as_slice())
    }

    /// Takes in what came; whether something did.
    #[tactic(auto, using(crate::proofs::Turns::inlet_on, crate::proofs::Turns::inlet_itself))]
    fn take_inputs<R: Threads, W: Sink>(
        &mut self,
        rt: &R,
        inlet: &mut SlotIn<Input>,
        writer: &mut W,
    ) -> Result<bool, ServiceFault>
        ensures same { SameSlotIn inlet.old inlet.new }
        ensures advances { OnOk result (Advances self.old self.new (taken inlet.old) (taken inlet.new) (W.contents writer.old) (W.contents writer.new)) }
        ensures passed { OnOk result (StaysPassedOn W.flushed self.old.outlet self.new.outlet writer.old writer.new) }
        ensures fault { IfErr result (Interrupted (FailedAt W.fails writer.new)) }
    {
        for count in 0..INPUTS_AT_ONCE {
            let Some(input) = self.next_input(inlet) else {
                return Ok(count > 0);
            };
            if !self.has_room(&input) {
                self.keep(input);
                return Ok(count > 0);
            }
            self.take_input(rt, input, writer)?;
        }
        Ok(true)
    }

    /// The input that was kept, or else the next one, if it is there. None is kept then.
    #[tactic(auto, using(crate::proofs::Turns::inlet_on, crate::proofs::Turns::inlet_itself))]
    fn next_input(&mut self, inlet: &mut SlotIn<Input>) -> Option<Input>
        ensures view { view_of self.new ≡ view_of self.old }
        ensures kept { self.new.kept ≡ None }
        ensures same { SameSlotIn inlet.old inlet.new }
        ensures came { CameSince (taken inlet.old) (kept_in self.old.kept) (taken inlet.new) (kept_in result) }
        ensures outlet { self.new.outlet ≡ self.old.outlet }
    {
        match self.kept.take() {
            Some(input) => Some(input),
            None => inlet.take_one(),
        }
    }

    /// Whether an input can be taken: all but a request whose port has as many as may wait.
    fn has_room(&self, input: &Input) -> bool {
        match input {
            Input::Ask { client, .. } => match self.desks.get(*client) {
                Some(desk) => desk.waiting_count() < MAX_WAITING,
                None => true,
            },
            _ => true,
        }
    }

    /// Keeps an input until there is room. None is kept so far.
    fn keep(&mut self, input: Input)
        ensures view { view_of self.new ≡ view_of self.old }
        ensures kept { self.new.kept ≡ Some input }
        ensures outlet { self.new.outlet ≡ self.old.outlet }
    {
        drop(self.kept.replace(input));
    }

    /// Takes in an input.
    fn take_input<R: Threads, W: Sink>(
        &mut self,
        rt: &R,
        input: Input,
        writer: &mut W,
    ) -> Result<(), ServiceFault>
        ensures serves { OnOk result (ServesOne input self.old self.new (W.contents writer.old) (W.contents writer.new)) }
        ensures passed { OnOk result (StaysPassedOn W.flushed self.old.outlet self.new.outlet writer.old writer.new) }
        ensures fault { IfErr result (Interrupted (FailedAt W.fails writer.new)) }
    {
        match input {
            Input::Ask { client, command } => self.take_request(client, command, writer),
            Input::Lose { node } => self.lose(rt, node, writer),
            Input::Bad => self.tell_bad(writer),
            Input::End => {
                self.end_by(None);
                Ok(())
            }
            Input::Broken(number) => {
                self.end_by(Some(number));
                Ok(())
            }
        }
    }

    /// A request waits for its turn at its port; where there is no such port, it asks for nothing.
    fn take_request<W: Sink>(
        &mut self,
        client: usize,
        command: Command,
        writer: &mut W,
    ) -> Result<(), ServiceFault>
        ensures serves { OnOk result (ServesOne (Ask client command) self.old self.new (W.contents writer.old) (W.contents writer.new)) }
        ensures passed { OnOk result (StaysPassedOn W.flushed self.old.outlet self.new.outlet writer.old writer.new) }
        ensures fault { IfErr result (Interrupted (FailedAt W.fails writer.new)) }
    {
        if client >= self.desks.len() {
            drop(command);
            return self.tell_bad(writer);
        }
        self.bodies = self.bodies.saturating_add(1);
        match self.desks[client].wait(command) {
            Ok(()) => Ok(()),
            Err(AllocError) => Err(ServiceFault::OutOfMemory),
        }
    }

    /// A node is lost; where there is no such node, or it was lost before, the input asks for nothing.
    fn lose<R: Threads, W: Sink>(
        &mut self,
        rt: &R,
        node: usize,
        writer: &mut W,
    ) -> Result<(), ServiceFault>
        ensures serves { OnOk result (ServesOne (Lose node) self.old self.new (W.contents writer.old) (W.contents writer.new)) }
        ensures passed { OnOk result (StaysPassedOn W.flushed self.old.outlet self.new.outlet writer.old writer.new) }
        ensures fault { IfErr result (Interrupted (FailedAt W.fails writer.new)) }
    {
        match self.running.lose(rt, node) {
            Ok(()) => self.tell_lost(node, writer),
            Err(_) => self.tell_bad(writer),
        }
    }

    /// Tells that a node was lost.
    fn tell_lost<W: Sink>(&mut self, node: usize, writer: &mut W) -> Result<(), ServiceFault>
        ensures kept { self.new.kept ≡ self.old.kept }
        ensures loses { OnOk result (node < length (nodes_of self.old) → LosesNode node self.old self.new (W.contents writer.old) (W.contents writer.new)) }
        ensures passed { OnOk result (StaysPassedOn W.flushed self.old.outlet self.new.outlet writer.old writer.new) }
        ensures fault { IfErr result (Interrupted (FailedAt W.fails writer.new)) }
    {
        if node >= self.nodes.len() {
            return Ok(());
        }
        self.bodies = self.bodies.saturating_add(1);
        self.nodes[node].is_lost = true;
        let term = lost(self.alloc, &self.nodes[node].name)?;
        let told = self.outlet.put(writer, &term);
        drop(term);
        told
    }

    /// Tells that a body asks for nothing.
    fn tell_bad<W: Sink>(&mut self, writer: &mut W) -> Result<(), ServiceFault>
        ensures tells { OnOk result (TellsBad self.old self.new (W.contents writer.old) (W.contents writer.new)) }
        ensures passed { OnOk result (StaysPassedOn W.flushed self.old.outlet self.new.outlet writer.old writer.new) }
        ensures fault { IfErr result (Interrupted (FailedAt W.fails writer.new)) }
    {
        self.bodies = self.bodies.saturating_add(1);
        let term = bad_request(self.alloc, self.bodies)?;
        let told = self.outlet.put(writer, &term);
        drop(term);
        told
    }

    /// Looks at each client once; whether something moved.
    fn attend_all<W: Sink>(&mut self, writer: &mut W) -> Result<bool, ServiceFault>
        ensures goes { OnOk result (ServingGoes self.old self.new (W.contents writer.old) (W.contents writer.new)) }
        ensures end { self.new.end ≡ self.old.end }
        ensures passed { OnOk result (StaysPassedOn W.flushed self.old.outlet self.new.outlet writer.old writer.new) }
        ensures fault { IfErr result (Interrupted (FailedAt W.fails writer.new)) }
    {
        let mut moved = false;
        for client in 0..self.running.client_count() {
            if self.attend(client, writer)? {
                moved = true;
            }
        }
        Ok(moved)
    }

    /// Looks at a client: hears its answer, or hands over its next request, or replies why it is not; whether something moved.
    fn attend<W: Sink>(&mut self, client: usize, writer: &mut W) -> Result<bool, ServiceFault>
        ensures goes { OnOk result (ServingGoes self.old self.new (W.contents writer.old) (W.contents writer.new)) }
        ensures end { self.new.end ≡ self.old.end }
        ensures passed { OnOk result (StaysPassedOn W.flushed self.old.outlet self.new.outlet writer.old writer.new) }
        ensures fault { IfErr result (Interrupted (FailedAt W.fails writer.new)) }
    {
        if client >= self.desks.len() || client >= self.running.client_count() {
            return Ok(false);
        }
        let is_lost = self.is_lost(self.desks[client].node());
        if self.desks[client].is_asked() {
            return self.hear(client, is_lost, writer);
        }
        match self.refusal(is_lost) {
            Some(ending) => self.refuse_next(client, ending, writer),
            None => self.hand_over(client),
        }
    }

    /// Why no request is handed over to a node, if none is: it was lost, or a clock was full.
    fn refusal(&self, is_lost: bool) -> Option<Ending>
        ensures some { IfSome result (λ ending. IsDue (record { lost = is_lost; full = is_full_end self.now.end }) false ending) }
        ensures none { IfNone result ((is_lost ≡ false) × (is_full_end self.now.end ≡ false)) }
    {
        if is_lost {
            Some(Ending::Lost)
        } else if self.is_full() {
            Some(Ending::Unasked)
        } else {
            None
        }
    }

    /// Whether a node was lost.
    fn is_lost(&self, node: usize) -> bool
        ensures { result ≡ is_known_lost node (nodes_of self.now) }
    {
        match self.nodes.get(node) {
            Some(served) => served.is_lost,
            None => false,
        }
    }

    /// Writes the answer to the request of a client that is with its node, if it is there, or that the node was lost.
    fn hear<W: Sink>(
        &mut self,
        client: usize,
        is_lost: bool,
        writer: &mut W,
    ) -> Result<bool, ServiceFault>
        requires desk { client < length (desks_of self.old) }
        requires client { client < length (clients_in (running_of self.old)) }
        requires asked { asked_at client (desks_of self.old) ≡ true }
        requires lost { is_lost ≡ lost_at client self.old }
        ensures goes { OnOk result (ServingGoes self.old self.new (W.contents writer.old) (W.contents writer.new)) }
        ensures end { self.new.end ≡ self.old.end }
        ensures passed { OnOk result (StaysPassedOn W.flushed self.old.outlet self.new.outlet writer.old writer.new) }
        ensures fault { IfErr result (Interrupted (FailedAt W.fails writer.new)) }
    {
        match self.running.poll(client) {
            Some(answer) => {
                let reply = reply_term(self.alloc, answer.reply)?;
                self.reply(client, reply, writer)
            }
            None => {
                if is_lost {
                    self.reply_ending(client, Ending::Lost, writer)
                } else {
                    Ok(false)
                }
            }
        }
    }

    /// Replies to the next request of a client, if one waits, why it has no answer.
    fn refuse_next<W: Sink>(
        &mut self,
        client: usize,
        ending: Ending,
        writer: &mut W,
    ) -> Result<bool, ServiceFault>
        requires desk { client < length (desks_of self.old) }
        requires idle { asked_at client (desks_of self.old) ≡ false }
        requires due { IsDueAt (view_of self.old) client false ending }
        ensures goes { OnOk result (ServingGoes self.old self.new (W.contents writer.old) (W.contents writer.new)) }
        ensures end { self.new.end ≡ self.old.end }
        ensures passed { OnOk result (StaysPassedOn W.flushed self.old.outlet self.new.outlet writer.old writer.new) }
        ensures fault { IfErr result (Interrupted (FailedAt W.fails writer.new)) }
    {
        match self.desks[client].next() {
            Some(command) => {
                drop(command);
                self.reply_ending(client, ending, writer)
            }
            None => Ok(false),
        }
    }

    /// Hands over the next request of a client; whether one was there and was taken.
    fn hand_over(&mut self, client: usize) -> Result<bool, ServiceFault>
        requires desk { client < length (desks_of self.old) }
        requires client { client < length (clients_in (running_of self.old)) }
        requires idle { asked_at client (desks_of self.old) ≡ false }
        requires there { lost_at client self.old ≡ false }
        requires on_time { is_full_end self.old.end ≡ false }
        ensures goes { OnOk result (WritesNothing self.old self.new) }
        ensures end { self.new.end ≡ self.old.end }
        ensures outlet { self.new.outlet ≡ self.old.outlet }
        ensures fault { IfErr result (λ fault. fault ≡ OutOfMemory) }
    {
        let Some(command) = self.desks[client].next() else {
            return Ok(false);
        };
        match self.running.submit(client, command) {
            Ok(()) => {
                self.desks[client].ask();
                Ok(true)
            }
            Err(command) => match self.desks[client].put_back(command) {
                Ok(()) => Ok(false),
                Err(AllocError) => Err(ServiceFault::OutOfMemory),
            },
        }
    }

    /// Replies to the next request of a client why it has no answer.
    fn reply_ending<W: Sink>(
        &mut self,
        client: usize,
        ending: Ending,
        writer: &mut W,
    ) -> Result<bool, ServiceFault>
        requires { client < length (desks_of self.old) }
        ensures replies { OnOk result (RepliesEnding client ending self.old self.new (W.contents writer.old) (W.contents writer.new)) }
        ensures end { self.new.end ≡ self.old.end }
        ensures passed { OnOk result (StaysPassedOn W.flushed self.old.outlet self.new.outlet writer.old writer.new) }
        ensures fault { IfErr result (Interrupted (FailedAt W.fails writer.new)) }
    {
        let reply = ending.term(self.alloc, self.desks[client].name())?;
        self.reply(client, reply, writer)
    }

    /// Writes the reply to the next request of a client.
    fn reply<W: Sink>(
        &mut self,
        client: usize,
        reply: Term,
        writer: &mut W,
    ) -> Result<bool, ServiceFault>
        requires { client < length (desks_of self.old) }
        ensures replies { OnOk result (RepliesNext client reply self.old self.new (W.contents writer.old) (W.contents writer.new)) }
        ensures end { self.new.end ≡ self.old.end }
        ensures passed { OnOk result (StaysPassedOn W.flushed self.old.outlet self.new.outlet writer.old writer.new) }
        ensures fault { IfErr result (Interrupted (FailedAt W.fails writer.new)) }
    {
        let number = self.desks[client].reply();
        let desk = &self.desks[client];
        let address = Address {
            name: desk.name(),
            port: desk.port(),
            number,
        };
        self.outlet.put_reply(writer, address, reply)?;
        Ok(true)
    }
}
