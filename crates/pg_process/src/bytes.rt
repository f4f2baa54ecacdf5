//! Bytes of peers, on their way into the node and out of it.

use crate::fault::ProcessFault;
use crate::mirror::{ended_by, groups_left, tell_packet};
use crate::process::Process;
use pg_node::{Done, Framed, NodeFault, Packet, Refusal};
use pg_node_process::Portion;
use pg_node_requests::refused;
use pg_term::{Atom, Fields, Term};
use std::alloc::{AllocError, Global};

/// How many bytes go in or out at once.
const PIECE: usize = 65_536;

impl Process {
    ghost use Rattle.std.specs.Prelude.{◌≡◌, ◌≢◌, ◌<◌, ◌+◌, ◌++◌, true, false, List, ℕ, ◌^◌, Ok, Err, Some, None, IfOk, IfErr, OnOk, OnErr, length, [], take};
    ghost use Rattle.pg_node.specs.Bytes.{next_packet};
    ghost use Rattle.pg_node.specs.Nodes.{has_lost, held_by, links_of};
    ghost use Rattle.pg_node.specs.PgNodeState.declared.state.fault.NodeFault.{NodeFault};
    ghost use Rattle.pg_process.specs.Chains.{Fails, Makes, Rests};
    ghost use Rattle.pg_process.specs.Deeds.{Fed, Sent};
    ghost use Rattle.pg_process.specs.Situations.{situation_of};
    ghost use Rattle.std.specs.List.{flat_map};
    ghost use Rattle.pg_node.specs.PgMessageTypes.Members.{IsShort};
    ghost use Rattle.pg_node.specs.PgNodeSends.Sent.{stamped_of};
    ghost use Rattle.pg_node.specs.PgNodeState.States.{kept_by};
    ghost use Rattle.pg_node_process.specs.Outputs.{said as bytes_said};
    ghost use Rattle.pg_node_run.specs.Acts.{Took as TookPacket};
    ghost use Rattle.pg_process.specs.declared.fault.ProcessFault.TheVariants.{OutOfMemory};
    ghost use Rattle.pg_process.specs.Deeds.{formed_said, told_formed};
    ghost use Rattle.pg_process.specs.Locks.{is_formed};
    ghost use Rattle.pg_process.specs.Mirrors.{IfTaken};
    ghost use Rattle.pg_process.specs.Situations.{setting_of};
    ghost use Rattle.pg_process.specs.Takings.{TakesOne, TellsTaken, Stops, Untaken};

    /// Bytes of a peer go into the node. Those of a damaged link, and of a lost peer, do nothing.
    ///
    /// Errors: `OutOfMemory`.
    ///
    /// Cost: O(bytes), and memory for those that were not taken yet.
    pub fn feed(&mut self, peer: usize, bytes: &[u8]) -> Result<(), ProcessFault>
        requires { peer < length self.old.peers.items }
        ensures made { OnOk result (Makes (Fed peer bytes.now) self.old self.new) }
        ensures failed { IfErr result (λ fault. Fails (Fed peer bytes.now) fault self.old self.new) }
    {
        let mut portion = Portion { rest: bytes };
        while !portion.rest.is_empty() {
            match self.node.pull(peer, &mut portion, PIECE) {
                Ok(_) => {}
                Err(fault) => {
                    if tells_none(fault) {
                        return Ok(());
                    }
                    return Err(ProcessFault::OutOfMemory);
                }
            }
        }
        Ok(())
    }

    /// Takes the next packet of a peer, if its frame is whole, or tells what is wrong with it; whether it did one of them.
    ///
    /// Errors: `ClockFull`, where the step says so; `OutOfMemory`.
    ///
    /// Cost: that of `Node::take`.
    pub fn take_next(&mut self, peer: usize) -> Result<bool, ProcessFault>
        requires { peer < length self.old.peers.items }
        ensures made { IfOk result (λ taken. TakesOne peer taken self.old self.new) }
        ensures failed { IfErr result (λ fault. Stops peer fault self.old self.new) }
    {
        if self.told.mirrored {
            self.take_mirrored(peer)
        } else {
            self.take_untold(peer)
        }
    }

    /// The same, where the host does not mirror the table.
    fn take_untold(&mut self, peer: usize) -> Result<bool, ProcessFault>
        requires peer { peer < length self.old.peers.items }
        requires untold { self.old.told.mirrored ≡ false }
        ensures made { IfOk result (λ taken. TakesOne peer taken self.old self.new) }
        ensures failed { IfErr result (λ fault. Stops peer fault self.old self.new) }
    {
        match self.node.take(peer) {
            Ok(Some(done)) => {
                self.node.reuse(done);
                self.say_formed()?;
                Ok(true)
            }
            Ok(None) => Ok(false),
            Err(fault) => self.tell_untaken(peer, fault),
        }
    }

    /// The same, where it does: it is told what a packet makes of the table.
    fn take_mirrored(&mut self, peer: usize) -> Result<bool, ProcessFault>
        requires peer { peer < length self.old.peers.items }
        requires mirrored { self.old.told.mirrored ≡ true }
        ensures made { IfOk result (λ taken. TakesOne peer taken self.old self.new) }
        ensures failed { IfErr result (λ fault. Stops peer fault self.old self.new) }
    {
        match self.node.next(peer) {
            Ok(Some(packet)) => {
                let taken = self.take_packet(peer, &packet);
                drop(packet);
                taken
            }
            Ok(None) => Ok(false),
            Err(fault) => self.tell_untaken(peer, fault),
        }
    }

    /// Takes a packet that was read, and tells what it makes of the table.
    fn take_packet(&mut self, peer: usize, packet: &Packet) -> Result<bool, ProcessFault>
        requires peer { peer < length self.old.peers.items }
        requires mirrored { self.old.told.mirrored ≡ true }
        requires few { IsShort (2 ^ 32) packet.now.message }
        requires next { next_packet (links_of self.old.node peer) ≡ Ok (Some packet.now) }
        requires live { has_lost (held_by self.old.node) peer ≡ false }
        ensures made { IfOk result (λ taken. TakesOne peer taken self.old self.new) }
        ensures failed { IfErr result (λ fault. Stops peer fault self.old self.new) }
    {
        let left = groups_left(self.alloc, self.node.state(), ended_by(packet));
        let Ok(names) = left else {
            return Err(ProcessFault::OutOfMemory);
        };
        let taken = match self.node.take_read(peer, packet) {
            Ok(done) => {
                let told = self.tell_taken(packet, names.as_slice(), &done);
                self.node.reuse(done);
                told
            }
            Err(fault) => self.tell_untaken(peer, fault),
        };
        drop(names);
        taken
    }

    /// Tells what a packet that was taken made of the table, and that the node is formed, once it is.
    fn tell_taken(
        &mut self,
        packet: &Packet,
        names: &[Term],
        done: &Done<Framed>,
    ) -> Result<bool, ProcessFault>
        ensures ok { result ≢ Ok false }
        ensures said { OnOk result (IfTaken packet.now.message done.now.began names.now (kept_by (held_by self.old.node)) (λ before applied.
            (peer : ℕ) → TellsTaken (TookPacket peer (stamped_of packet.now)) applied before.table self.old self.new)) }
        ensures err { OnErr result (IfTaken packet.now.message done.now.began names.now (kept_by (held_by self.old.node)) (λ before applied.
            self.new.outlet.gathered.items ≡ self.old.outlet.gathered.items)) }
        ensures memory { IfErr result (λ fault. fault ≡ OutOfMemory) }
        ensures rest { self.new ≡ record self.old { outlet = self.new.outlet; told = self.new.told } }
    {
        let len = self.outlet.bytes().len();
        tell_packet(
            &mut self.outlet,
            self.alloc,
            self.node.state(),
            packet,
            names,
            done,
        )?;
        match self.say_formed() {
            Ok(()) => Ok(true),
            Err(fault) => {
                self.outlet.cut(len);
                Err(fault)
            }
        }
    }

    /// Says that the node is formed, where it is and that was not said.
    fn say_formed(&mut self) -> Result<(), ProcessFault>
        ensures said { OnOk result (self.new.outlet.gathered.items
            ≡ self.old.outlet.gathered.items ++ flat_map bytes_said (formed_said (is_formed (setting_of self.old) (situation_of self.old)) self.old.told.formed)) }
        ensures told { OnOk result (self.new.told ≡ told_formed (is_formed (setting_of self.old) (situation_of self.old)) self.old.told) }
        ensures err { OnErr result (self.new.outlet.gathered.items ≡ self.old.outlet.gathered.items) }
        ensures memory { IfErr result (λ fault. fault ≡ OutOfMemory) }
        ensures rest { self.new ≡ record self.old { outlet = self.new.outlet; told = self.new.told } }
    {
        if self.told.formed || !self.node.state().formed() {
            return Ok(());
        }
        self.outlet.put_formed()?;
        self.told.formed = true;
        Ok(())
    }

    /// Tells why nothing was taken of a peer, where that damages its link; whether it did.
    fn tell_untaken(&mut self, peer: usize, fault: NodeFault) -> Result<bool, ProcessFault>
        requires { peer < length self.old.peers.items }
        ensures made { (before : Process) → Untaken peer fault before self.old → IfOk result (λ told. TakesOne peer told before self.new) }
        ensures failed { (before : Process) → Untaken peer fault before self.old → IfErr result (λ stopped. Stops peer stopped before self.new) }
    {
        if tells_none(fault) {
            return Ok(false);
        }
        if tells_full(fault) {
            return Err(ProcessFault::ClockFull);
        }
        if !damages(fault) {
            // Of the faults of a take only `OutOfMemory` is left.
            return Err(ProcessFault::OutOfMemory);
        }
        let told = fault_term(self.alloc, fault, &self.peers[peer])?;
        let said = self.tell(&told);
        drop(told);
        match said {
            Ok(()) => Ok(true),
            Err(_) => Err(ProcessFault::OutOfMemory),
        }
    }

    /// Bytes that wait for a peer go out, 65,536 at most; whether there were some.
    ///
    /// Errors: `OutOfMemory`.
    ///
    /// Cost: O(bytes).
    pub fn send(&mut self, peer: usize) -> Result<bool, ProcessFault>
        requires { peer < length self.old.peers.items }
        ensures sent { IfOk result (λ sent. sent ≡ true → (bytes : List ℕ) × (bytes ≢ []) × Makes (Sent peer bytes) self.old self.new) }
        ensures none { result ≡ Ok false → Rests self.old self.new × ((links_of self.old.node peer).outbox ≡ []) }
        ensures failed { IfErr result (λ fault. (bytes : List ℕ) × Fails (Sent peer bytes) fault self.old self.new) }
    {
        if self.node.outbox(peer).is_empty() {
            return Ok(false);
        }
        self.parcel.clear();
        if self.node.put(peer, &mut self.parcel, PIECE) == 0 {
            return Err(ProcessFault::OutOfMemory);
        }
        self.outlet.put_bytes(peer as u8, self.parcel.bytes())?;
        Ok(true)
    }
}

ghost use Rattle.std.specs.Prelude.{◌≡◌, IfOk};
ghost use Rattle.pg_node.specs.Bytes.{damages as damages_link};
ghost use Rattle.pg_process.specs.Deeds.{fault_term as fault_term_of};
ghost use Rattle.pg_process.specs.Takings.{tells_full as is_full_told, tells_none as is_none_told};

/// Whether a fault tells that nothing of a peer is there to be taken, and that nothing can go in.
fn tells_none(fault: NodeFault) -> bool
    ensures { result ≡ is_none_told fault }
{
    matches!(
        fault,
        NodeFault::Damaged | NodeFault::Refused(Refusal::NodeLost)
    )
}

/// Whether a fault tells that the clock is full.
fn tells_full(fault: NodeFault) -> bool
    ensures { result ≡ is_full_told fault }
{
    matches!(fault, NodeFault::Refused(Refusal::ClockFull))
}

/// Whether a fault of what came in damages its link for good.
fn damages(fault: NodeFault) -> bool
    ensures { result ≡ damages_link fault }
{
    matches!(
        fault,
        NodeFault::Message(_) | NodeFault::TooLong | NodeFault::Refused(Refusal::NotAMessage)
    )
}

/// `{{refused, N}, Node}`.
fn fault_term(alloc: Global, fault: NodeFault, peer: &Atom) -> Result<Term, AllocError>
    ensures { IfOk result (λ term. term ≡ fault_term_of peer.now fault) }
{
    let name = peer.copy()?;
    let Ok(number) = refused(alloc, fault.number()) else {
        drop(name);
        return Err(AllocError);
    };
    let Ok(mut parts) = Vec::with_capacity(alloc, 2) else {
        drop(name);
        drop(number);
        return Err(AllocError);
    };
    parts.push_reserved(number);
    parts.push_reserved(Term::Atom(name));
    Ok(Term::Tuple(Fields::from_vec(parts)))
}
