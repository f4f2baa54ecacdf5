ghost use Rattle.std.specs.Prelude.{◌≡◌, ◌↔◌, IsTrue, ℕ, ◌<◌, ◌≤◌, ◌+◌, ◌^◌, true, false, not};
ghost use Rattle.std.specs.Prelude.{◌&&◌, length, IfOk, IfSome, OnOk, OnErr, vec_len};
ghost use Rattle.std.specs.List.{IsDistinct, IsDistinct-prop};
ghost use Rattle.std.specs.Option.{option_copied};
ghost use Rattle.pg_term.specs.Same.{same_atom};
ghost use Rattle.pg_node_opens.specs.Places.{ArePlaces, name_at};
ghost use Rattle.pg_node_opens.specs.declared.command.OpenCommand.{OpenCommand};
ghost use Rattle.pg_node_opens.specs.Commands.{AreKnown};

use crate::command::{Gathering, OpenCommand, Phase, Stage, place_of, place_of_op};
use crate::mark::Asked;
use crate::marks::Marks;
use crate::nodes::{greatest_place, place_of_atom};
use crate::outlook::Outlook;
use crate::twin::have_twins;
use pg_step::{OpId, Taken, Update};
use pg_term::Atom;
use std::alloc::{AllocError, Global};

/// The nodes of a set as one of them knows them, and the commands that are open there.
#[derive(Debug, Drop)]
pub struct Opens {
    // The own name first.
    names: Vec<Atom>,
    // Of each node, by its place, whether its loss was seen.
    lost: Vec<bool>,
    // How many references were made.
    references: u32,
    commands: Vec<OpenCommand>,
    // Where a change or `look_for` was last, if that command is still there: each call looks at that place first.
    recent: usize,
    ghost apart: { IsDistinct same_atom names.items } by { IsDistinct-prop same_atom names.items },
    ghost places: { ArePlaces names.items lost.items },
    ghost known: { AreKnown names.items references commands.items },
}

impl Opens {
    ghost use Rattle.pg_step.specs.PgMulticall.Gathered.{what_of};
    ghost use Rattle.pg_step.specs.PgGroup.Table.{Table};
    ghost use Rattle.std.specs.Prelude.{Bool, Some, slice_get};
    ghost use Rattle.pg_step.specs.PgGroup.Value.{name_of};
    ghost use Rattle.pg_step.specs.Nodes.{Node, greatest, is_node, is_peer};
    ghost use Rattle.std.specs.Option.{is_some};
    ghost use Rattle.pg_step.specs.State.{State, Status, new_state};
    ghost use Rattle.pg_step.specs.State.Use.{Locking, Updating};
    ghost use Rattle.pg_step.specs.State.Stage.{Closed, Waiting};
    ghost use Rattle.pg_step.specs.Peers.{would_grant};
    ghost use Rattle.pg_step.specs.Attempts.{gathered, is_complete, is_yes, waits, asks, new_attempt, ask};
    ghost use Rattle.pg_step.specs.Attempts.{own_verdict, count_answer, count_ok, give_up, begin, finish};
    ghost use Rattle.pg_step.specs.Turns.{becomes};
    ghost use Rattle.pg_step.specs.Commands.{open_command};
    ghost use Rattle.pg_step.specs.Losses.{see_loss};
    ghost use Rattle.pg_node_opens.specs.Opens.{names_of, whole_of, live_of, ops_of, AreListed};
    ghost use Rattle.pg_node_opens.specs.Opens.{AreSame, lost_of, references_of, uses_of, opened_of};
    ghost use Rattle.pg_node_opens.specs.Opens.{stages_of, Shows, Follows, has_room};
    ghost use Rattle.pg_node_opens.specs.Named.{whom, has_place};
    ghost use Rattle.pg_node_opens.specs.Readings.{gathering_of, stage_seen, is_locking};
    ghost use Rattle.pg_node_opens.specs.Readings.{is_updating, update_of, waiting_of, waits_by};
    ghost use Rattle.pg_node_opens.specs.Outlooks.{outlook_of};
    ghost use Rattle.pg_step.specs.State.Status.{Asked as AskedYet};
    ghost use Rattle.pg_node_opens.specs.TakenBack.{command_taken_back, ok_taken_back};
    ghost use Rattle.pg_node_opens.specs.Twins.{same_commands};

    /// No command is open, no reference was made and no loss was seen. `names`: at most 16.
    ///
    /// Errors: `AllocError`.
    ///
    /// Cost: two allocations.
    pub fn new(alloc: Global, names: Vec<Atom>) -> Result<Opens, AllocError>
        requires some { 0 < length names.items }
        requires few { length names.items ≤ 16 }
        requires apart { IsDistinct same_atom names.items }
        ensures names { IfOk result (λ opens. names_of opens ≡ names.items) }
        ensures none { IfOk result (λ opens. (table : Table) (made : ℕ) → Shows opens (new_state table made)) }
    {
        let lost = Vec::from_elem(alloc, false, names.len())?;
        Ok(Opens {
            names,
            lost,
            references: 0,
            commands: Vec::new(alloc),
            recent: 0,
        })
    }

    /// The same nodes, and the same open commands with the same gathered.
    ///
    /// Errors: `AllocError`.
    ///
    /// Cost: that of the copies.
    pub fn copy(&self) -> Result<Opens, AllocError>
        ensures { IfOk result (AreSame self.now) }
    {
        let names = copy_names(&self.names)?;
        let lost = self.lost.clone()?;
        let commands = copy_commands(&self.commands)?;
        Ok(Opens {
            names,
            lost,
            references: self.references,
            commands,
            recent: self.recent,
        })
    }

    /// How many commands are open.
    ///
    /// Cost: no memory.
    pub fn open_count(&self) -> usize
        ensures { result ≡ opened_of self.now }
    {
        self.commands.len()
    }

    /// How many references were made.
    ///
    /// Cost: no memory.
    pub fn references(&self) -> u32
        ensures { result ≡ references_of self.now }
    {
        self.references
    }

    /// What an open command gathers under the reference of this number.
    ///
    /// Cost: no memory; O(open commands).
    pub fn gathering(&self, number: u32) -> Gathering
        ensures { result ≡ gathering_of (uses_of self.now number) }
    {
        match place_of(&self.commands, self.recent, number) {
            None => Gathering::Nothing,
            Some(place) => {
                let command = &self.commands[place];
                command.gathering(number)
            }
        }
    }

    /// Whether a command asks for the lock under the reference of this number.
    ///
    /// Cost: no memory; O(open commands).
    pub fn is_locking(&self, number: u32) -> bool
        ensures { result ≡ is_locking (uses_of self.now number) }
    {
        self.gathering(number).is_lock()
    }

    /// Whether an update goes out under the reference of this number.
    ///
    /// Cost: no memory; O(open commands).
    pub fn is_updating(&self, number: u32) -> bool
        ensures { result ≡ is_updating (uses_of self.now number) }
    {
        self.gathering(number).is_update()
    }

    /// How many nodes have a name, the lost ones too.
    ///
    /// Cost: no memory.
    pub fn node_count(&self) -> usize
        ensures { result ≡ length (names_of self.now) }
    {
        self.names.len()
    }

    /// The name of the node at a place.
    ///
    /// Cost: no memory.
    pub fn name(&self, place: usize) -> &Atom
        requires { place < length (names_of self.now) }
        ensures { result.now ≡ name_at (names_of self.now) place }
    {
        &self.names[place]
    }

    /// The place of the node of a name, lost or not.
    ///
    /// `None`: no node of the set has that name.
    ///
    /// Cost: no memory; O(nodes).
    pub fn place_of_name(&self, name: &Atom) -> Option<usize>
        ensures node { is_node (whole_of self.now) name.now ≡ is_some result }
        ensures within { IfSome result (λ place. place < length (names_of self.now)) }
        ensures some { IfSome result (λ place. name_at (names_of self.now) place ≡ name.now) }
    {
        place_of_atom(&self.names, name)
    }

    /// Whether the loss of the node at a place was seen: it counts no more.
    ///
    /// Cost: no memory.
    pub fn is_lost(&self, place: usize) -> bool
        requires { place < length (names_of self.now) }
        ensures { result ≡ lost_of self.now (name_at (names_of self.now) place) }
    {
        self.lost[place]
    }

    /// Whether the node at a place is a live peer: what goes to every peer goes to it.
    ///
    /// Cost: no memory.
    pub fn is_live(&self, place: usize) -> bool
        requires { place < length (names_of self.now) }
        ensures { result ≡ is_peer (live_of self.now) (name_at (names_of self.now) place) }
    {
        place != 0 && !self.is_lost(place)
    }

    /// The place of the greatest live node, by the order of atoms: who is asked for a lock first.
    ///
    /// Cost: no memory; O(nodes).
    pub fn greatest(&self) -> usize
        ensures within { result < length (names_of self.now) }
        ensures counts { lost_of self.now (name_at (names_of self.now) result) ≡ false }
        ensures greatest { name_at (names_of self.now) result ≡ greatest (live_of self.now) }
    {
        greatest_place(&self.names, &self.lost)
    }

    /// Whether both know the same nodes by the same names, have seen the same losses, made as many references, and
    /// have the same open commands with the same gathered, in whatever order.
    ///
    /// Cost: no memory; O(open commands² + open commands * nodes).
    pub fn same(&self, other: &Opens) -> bool
        ensures { IsTrue result ↔ AreSame self.now other.now }
    {
        self.same_nodes(other) && self.same_commands(other)
    }

    fn same_nodes(&self, other: &Opens) -> bool
        ensures { IsTrue result ↔ (names_of self.now ≡ names_of other.now) × (self.now.lost.items ≡ other.now.lost.items) }
    {
        self.names == other.names && self.lost == other.lost
    }

    fn same_commands(&self, other: &Opens) -> bool
        ensures { result ≡ same_commands self.now.references self.now.commands.items other.now.references other.now.commands.items }
    {
        self.references == other.references
            && self.commands.len() == other.commands.len()
            && have_twins(&self.commands, &other.commands)
            && have_twins(&other.commands, &self.commands)
    }

    /// The stage of a command: how far it is.
    ///
    /// Cost: no memory; O(open commands).
    pub fn stage(&self, op: OpId) -> Stage
        ensures { result ≡ stage_seen (stages_of self.now op) }
    {
        self.stage_near(self.recent, op)
    }

    /// The same. `near`: the place that is looked at first.
    fn stage_near(&self, near: usize, op: OpId) -> Stage
        ensures { result ≡ stage_seen (stages_of self.now op) }
    {
        match place_of_op(&self.commands, near, op) {
            None => Stage::Closed,
            Some(place) => {
                let command = &self.commands[place];
                command.stage()
            }
        }
    }

    /// The open command at a place, of `open_count`: each is at one of them.
    ///
    /// Cost: no memory.
    pub fn op_at(&self, place: usize) -> OpId
        requires { place < opened_of self.now }
        ensures { slice_get (ops_of self.now) place ≡ Some result }
    {
        let command = &self.commands[place];
        command.op
    }

    /// The places of the open commands, by `op_at`, have each open command, once, and no other.
    ///
    /// Cost: no memory; nothing is done.
    pub fn has_each_once(&self)
        ensures { AreListed self.now (ops_of self.now) }
    {}

    /// Whether a command is not open.
    ///
    /// Cost: no memory; O(open commands).
    pub fn is_closed(&self, op: OpId) -> bool
        ensures { (result ≡ true) ↔ (stages_of self.now op ≡ Closed) }
    {
        self.stage(op).is_closed()
    }

    /// What a reply of a node under the reference of this number is to what is gathered there. `place`: the node's,
    /// by the names.
    ///
    /// Cost: no memory; O(open commands).
    pub fn heard(&self, number: u32, place: usize) -> Taken
        requires { place < length (names_of self.now) }
        ensures { result ≡ what_of true (gathered (uses_of self.now number) (name_at (names_of self.now) place)) }
    {
        match place_of(&self.commands, self.recent, number) {
            None => Taken::Stranger,
            Some(found) => {
                let command = &self.commands[found];
                command.heard(number, place)
            }
        }
    }

    /// The update of the command that gathers under the reference of this number.
    ///
    /// Cost: no memory; O(open commands).
    pub fn update(&self, number: u32) -> Option<&Update>
        ensures { option_copied result ≡ update_of (uses_of self.now number) }
    {
        match place_of(&self.commands, self.recent, number) {
            None => None,
            Some(place) => {
                let command = &self.commands[place];
                command.update_under(number)
            }
        }
    }

    /// The update of a command that waits for its retry, with no attempt under way.
    ///
    /// Cost: no memory; O(open commands).
    pub fn waiting_update(&self, op: OpId) -> Option<&Update>
        ensures { option_copied result ≡ waiting_of (stages_of self.now op) }
    {
        match place_of_op(&self.commands, self.recent, op) {
            None => None,
            Some(place) => {
                let command = &self.commands[place];
                command.waiting_update()
            }
        }
    }

    /// Whether a node has granted the lock that is asked for under the reference of this number. `place`: the node's,
    /// by the names.
    ///
    /// Cost: no memory; O(open commands).
    pub fn has_granted(&self, number: u32, place: usize) -> bool
        requires locking { is_locking (uses_of self.now number) ≡ true }
        requires place { place < length (names_of self.now) }
        ensures { (op : OpId) (update : Update) (first : Node) (st : Node → Status)
            → uses_of self.now number ≡ Locking op update first st
            → result ≡ is_yes (st (name_at (names_of self.now) place)) }
    {
        match place_of(&self.commands, self.recent, number) {
            None => false,
            Some(found) => {
                let command = &self.commands[found];
                command.has_yes(place)
            }
        }
    }

    /// Whether the node at a place is asked for the lock under the reference of this number, where these are: it
    /// counts, is one of them, and was not asked. A peer is sent the request exactly where it is asked. `place`: the
    /// node's, by the names.
    ///
    /// Cost: no memory; O(open commands).
    pub fn is_asked_by(&self, number: u32, who: Asked, place: usize) -> bool
        requires locking { is_locking (uses_of self.now number) ≡ true }
        requires who { has_place who (length (names_of self.now)) ≡ true }
        requires place { place < length (names_of self.now) }
        ensures counts { (op : OpId) (update : Update) (first : Node) (st : Node → Status)
            → uses_of self.now number ≡ Locking op update first st
            → result ≡ (not (lost_of self.now (name_at (names_of self.now) place)) && asks (whom (names_of self.now) who) st (name_at (names_of self.now) place)) }
        ensures own { (op : OpId) (update : Update) (first : Node) (st : Node → Status)
            → uses_of self.now number ≡ Locking op update first st → place ≡ 0
            → result ≡ asks (whom (names_of self.now) who) st (name_at (names_of self.now) 0) }
        ensures peer { (op : OpId) (update : Update) (first : Node) (st : Node → Status)
            → uses_of self.now number ≡ Locking op update first st → 0 < place
            → result ≡ (is_peer (live_of self.now) (name_at (names_of self.now) place) && asks (whom (names_of self.now) who) st (name_at (names_of self.now) place)) }
    {
        match place_of(&self.commands, self.recent, number) {
            None => false,
            Some(found) => {
                let command = &self.commands[found];
                command.is_asked_by(&self.lost, who, place)
            }
        }
    }

    /// Whether a command waits for its retry: it has no attempt under way, or all has come that it gathers.
    ///
    /// Cost: no memory; O(open commands + nodes).
    pub fn waits(&self, op: OpId) -> bool
        ensures { (s : State) → Shows self.now s → result ≡ waits (live_of self.now) (stages_of self.now op) s }
    {
        self.waits_near(self.recent, op)
    }

    /// The same of a command that is likely at a place, by `op_at`: that place is looked at first. `near`: the place.
    ///
    /// Cost: no memory; O(nodes) where the command is there, else that of `waits`.
    pub fn waits_near(&self, near: usize, op: OpId) -> bool
        ensures { (s : State) → Shows self.now s → result ≡ waits (live_of self.now) (stages_of self.now op) s }
    {
        self.waits_in(near, self.stage_near(near, op))
    }

    fn waits_in(&self, near: usize, stage: Stage) -> bool
        ensures { result ≡ waits_by stage (λ number. is_complete (live_of self.now) (uses_of self.now number)) }
    {
        match stage {
            Stage::Closed => false,
            Stage::Waiting => true,
            Stage::Asking(number) | Stage::Changing(number) => {
                self.is_complete_near(near, number)
            }
        }
    }

    /// Whether all has come that is gathered under the reference of this number, of the live nodes.
    ///
    /// Cost: no memory; O(open commands + nodes).
    pub fn is_complete(&self, number: u32) -> bool
        ensures { result ≡ is_complete (live_of self.now) (uses_of self.now number) }
    {
        self.is_complete_near(self.recent, number)
    }

    /// The same. `near`: the place that is looked at first.
    fn is_complete_near(&self, near: usize, number: u32) -> bool
        ensures { result ≡ is_complete (live_of self.now) (uses_of self.now number) }
    {
        match place_of(&self.commands, near, number) {
            None => false,
            Some(place) => {
                let command = &self.commands[place];
                command.is_complete(&self.lost, number)
            }
        }
    }

    /// What follows for the request for the lock under the reference of this number. `granted`: what the own node
    /// would answer, were it asked.
    ///
    /// Cost: no memory; O(open commands + nodes).
    pub fn outlook(&self, number: u32, granted: bool) -> Outlook
        requires { is_locking (uses_of self.now number) ≡ true }
        ensures { result ≡ outlook_of (live_of self.now) granted (uses_of self.now number) }
    {
        match place_of(&self.commands, self.recent, number) {
            None => Outlook::Wait,
            Some(place) => {
                let command = &self.commands[place];
                command.outlook(&self.lost, granted)
            }
        }
    }

    /// A command that waits begins an attempt, under the next reference. `first`: the node that is asked first, by
    /// the names.
    ///
    /// Cost: no memory; O(open commands + nodes).
    pub fn start(&mut self, op: OpId, first: usize)
        requires waits { stage_seen (stages_of self.old op) ≡ Stage.Waiting }
        requires first { first < length (names_of self.old) }
        requires number { references_of self.old + 1 < 2 ^ 32 }
        ensures turned { (update : Update) → stages_of self.old op ≡ Waiting update
            → Follows self.old self.new (new_attempt (name_at (names_of self.old) first) op update) }
        ensures nodes { names_of self.new ≡ names_of self.old }
    {
        if let Some(place) = place_of_op(&self.commands, self.recent, op) {
            let number = self.references + 1;
            self.references = number;
            self.recent = place;
            let command = &mut self.commands[place];
            command.start(number, first);
        }
    }

    /// These nodes are asked for the lock, those of them that were not and that are live. `granted`: what the own
    /// node answers, by its rule for a peer's request.
    ///
    /// Cost: no memory; O(open commands + nodes).
    pub fn ask(&mut self, number: u32, who: Asked, granted: bool)
        requires locking { is_locking (uses_of self.old number) ≡ true }
        requires who { has_place who (length (names_of self.old)) ≡ true }
        ensures turned { (op : OpId) (update : Update) (first : Node) (st : Node → Status)
            → uses_of self.old number ≡ Locking op update first st
            → (s : State) → Shows self.old s → would_grant (live_of self.old) s (name_of update) ≡ granted
            → Shows self.new (ask (live_of self.old) (whom (names_of self.old) who) number op update first st s).state }
        ensures nodes { names_of self.new ≡ names_of self.old }
    {
        if let Some(place) = place_of(&self.commands, self.recent, number) {
            self.recent = place;
            let command = &mut self.commands[place];
            command.ask(&self.lost, who, granted);
        }
    }

    /// The answer of a node to the request for the lock is counted. `place`: the node's, by the names.
    ///
    /// Cost: no memory; O(open commands).
    pub fn count_answer(&mut self, number: u32, place: usize, granted: bool)
        requires locking { is_locking (uses_of self.old number) ≡ true }
        requires place { place < length (names_of self.old) }
        ensures turned { (op : OpId) (update : Update) (first : Node) (st : Node → Status)
            → uses_of self.old number ≡ Locking op update first st
            → Follows self.old self.new (count_answer number op update first st (name_at (names_of self.old) place) (own_verdict granted)) }
        ensures nodes { names_of self.new ≡ names_of self.old }
    {
        if let Some(found) = place_of(&self.commands, self.recent, number) {
            self.recent = found;
            let command = &mut self.commands[found];
            command.count(place, granted);
        }
    }

    /// The ok of a node is counted. `place`: the node's, by the names.
    ///
    /// Cost: no memory; O(open commands).
    pub fn count_ok(&mut self, number: u32, place: usize)
        requires updating { is_updating (uses_of self.old number) ≡ true }
        requires place { place < length (names_of self.old) }
        ensures turned { (op : OpId) (update : Update) (lock : ℕ) (replied : Node → Bool)
            → uses_of self.old number ≡ Updating op update lock replied
            → Follows self.old self.new (count_ok number op update lock replied (name_at (names_of self.old) place)) }
        ensures nodes { names_of self.new ≡ names_of self.old }
    {
        if let Some(found) = place_of(&self.commands, self.recent, number) {
            self.recent = found;
            let command = &mut self.commands[found];
            command.count(place, true);
        }
    }

    /// The answer of a node to the request for the lock is taken back: it has not answered. `place`: the node's, by
    /// the names.
    ///
    /// Cost: no memory; O(open commands).
    pub fn take_back_answer(&mut self, number: u32, place: usize)
        requires locking { is_locking (uses_of self.old number) ≡ true }
        requires place { place < length (names_of self.old) }
        ensures turned { (op : OpId) (update : Update) (first : Node) (st : Node → Status)
            → uses_of self.old number ≡ Locking op update first st
            → Follows self.old self.new (count_answer number op update first st (name_at (names_of self.old) place) AskedYet) }
        ensures nodes { names_of self.new ≡ names_of self.old }
    {
        if let Some(found) = place_of(&self.commands, self.recent, number) {
            self.recent = found;
            let command = &mut self.commands[found];
            command.take_back(place);
        }
    }

    /// The ok of a node is taken back: it has not replied. `place`: the node's, by the names.
    ///
    /// Cost: no memory; O(open commands).
    pub fn take_back_ok(&mut self, number: u32, place: usize)
        requires updating { is_updating (uses_of self.old number) ≡ true }
        requires place { place < length (names_of self.old) }
        ensures turned { (op : OpId) (update : Update) (lock : ℕ) (replied : Node → Bool)
            → uses_of self.old number ≡ Updating op update lock replied
            → Follows self.old self.new (ok_taken_back number op update lock replied (name_at (names_of self.old) place)) }
        ensures nodes { names_of self.new ≡ names_of self.old }
    {
        if let Some(found) = place_of(&self.commands, self.recent, number) {
            self.recent = found;
            let command = &mut self.commands[found];
            command.take_back(place);
        }
    }

    /// The attempt is given up, and its command waits for the retry.
    ///
    /// Cost: no memory; O(open commands).
    pub fn give_up(&mut self, number: u32)
        requires locking { is_locking (uses_of self.old number) ≡ true }
        ensures turned { (op : OpId) (update : Update) (first : Node) (st : Node → Status)
            → uses_of self.old number ≡ Locking op update first st
            → Follows self.old self.new (give_up (live_of self.old) number op update st) }
        ensures nodes { names_of self.new ≡ names_of self.old }
    {
        if let Some(place) = place_of(&self.commands, self.recent, number) {
            self.recent = place;
            let command = &mut self.commands[place];
            command.wait();
        }
    }

    /// The update begins, under the next reference, and the own node has applied it.
    ///
    /// Cost: no memory; O(open commands + nodes).
    pub fn begin(&mut self, number: u32)
        requires locking { is_locking (uses_of self.old number) ≡ true }
        requires next { references_of self.old + 1 < 2 ^ 32 }
        ensures turned { (op : OpId) (update : Update) (first : Node) (st : Node → Status)
            → uses_of self.old number ≡ Locking op update first st
            → Follows self.old self.new (begin (live_of self.old) number op update) }
        ensures nodes { names_of self.new ≡ names_of self.old }
    {
        if let Some(place) = place_of(&self.commands, self.recent, number) {
            let update = self.references + 1;
            self.references = update;
            self.recent = place;
            let command = &mut self.commands[place];
            command.begin(number, update);
        }
    }

    /// The command ends, whose update every node has applied, and is open no more.
    ///
    /// Cost: no memory; O(open commands).
    pub fn finish(&mut self, number: u32)
        requires updating { is_updating (uses_of self.old number) ≡ true }
        ensures turned { (op : OpId) (update : Update) (lock : ℕ) (replied : Node → Bool)
            → uses_of self.old number ≡ Updating op update lock replied
            → Follows self.old self.new (finish (live_of self.old) number op update lock) }
        ensures nodes { names_of self.new ≡ names_of self.old }
    {
        if let Some(place) = place_of(&self.commands, self.recent, number) {
            drop(self.commands.remove(place));
        }
    }

    /// Looks for the command that has the reference of this number: the calls that follow look there first. Nothing
    /// else changes.
    ///
    /// Cost: no memory; O(open commands).
    pub fn look_for(&mut self, number: u32)
        ensures same { Follows self.old self.new becomes }
        ensures nodes { names_of self.new ≡ names_of self.old }
    {
        if let Some(place) = place_of(&self.commands, self.recent, number) {
            self.recent = place;
        }
    }

    /// Makes room for one more command. Nothing else changes.
    ///
    /// Errors: `AllocError`, which changes nothing.
    ///
    /// Cost: one allocation at most.
    pub fn reserve(&mut self) -> Result<(), AllocError>
        ensures same { Follows self.old self.new becomes }
        ensures nodes { names_of self.new ≡ names_of self.old }
        ensures ok { OnOk result (has_room self.new) }
    {
        self.commands.reserve(1)?;
        Ok(())
    }

    /// Opens a command, for which room was made.
    ///
    /// Cost: no memory.
    pub fn add(&mut self, op: OpId, update: Update)
        requires room { has_room self.old }
        requires closed { stages_of self.old op ≡ Closed }
        ensures turned { Follows self.old self.new (open_command op update) }
        ensures nodes { names_of self.new ≡ names_of self.old }
    {
        self.recent = self.commands.len();
        self.commands.push_reserved(OpenCommand {
            op,
            update,
            phase: Phase::Waiting,
            marks: Marks::none(self.names.len()),
        });
    }

    /// A command that waits is taken back, as if it had not been opened.
    ///
    /// Cost: no memory; O(open commands).
    pub fn take_back(&mut self, op: OpId)
        requires waits { stage_seen (stages_of self.old op) ≡ Stage.Waiting }
        ensures turned { Follows self.old self.new (command_taken_back op) }
        ensures nodes { names_of self.new ≡ names_of self.old }
    {
        if let Some(place) = place_of_op(&self.commands, self.recent, op) {
            drop(self.commands.remove(place));
        }
    }

    /// Sees the loss of a peer: it counts no more, and what is gathered forgets it. `place`: the peer's, by the
    /// names.
    ///
    /// Cost: no memory; O(open commands).
    pub fn lose(&mut self, place: usize)
        requires place { place < length (names_of self.old) }
        requires peer { 0 < place }
        ensures turned { Follows self.old self.new (see_loss (name_at (names_of self.old) place)) }
        ensures nodes { names_of self.new ≡ names_of self.old }
    {
        forget(&mut self.commands, place);
        set_lost(&mut self.lost, place);
    }
}

fn copy_names(names: &Vec<Atom>) -> Result<Vec<Atom>, AllocError>
    ensures { IfOk result (λ copies. copies.items ≡ names.now.items) }
{
    let mut copies = Vec::with_capacity(*names.allocator(), names.len())?;
    for name in names {
        copies.push(name.copy()?)?;
    }
    Ok(copies)
}

fn copy_commands(commands: &Vec<OpenCommand>) -> Result<Vec<OpenCommand>, AllocError>
    ensures { IfOk result (λ copies. copies.items ≡ commands.now.items) }
{
    let alloc = *commands.allocator();
    let mut copies = Vec::with_capacity(alloc, commands.len())?;
    for command in commands {
        copies.push(command.copy(alloc)?)?;
    }
    Ok(copies)
}

fn set_lost(lost: &mut Vec<bool>, place: usize)
    requires { place < length lost.old.items }
    ensures { lost.new.items ≡ slice_set lost.old.items place true }
{
    lost[place] = true;
}

ghost use Rattle.std.specs.Prelude.{Some, slice_get, slice_set};
ghost use Rattle.pg_node_opens.specs.Commands.{Forgets};

/// What each command gathers forgets the node at a place.
fn forget(commands: &mut Vec<OpenCommand>, place: usize)
    requires { (k : ℕ) (command : OpenCommand) → slice_get commands.old.items k ≡ Some command → place < length command.marks }
    ensures len { length commands.new.items ≡ length commands.old.items }
    ensures each { (k : ℕ) (old new : OpenCommand) → slice_get commands.old.items k ≡ Some old
        → slice_get commands.new.items k ≡ Some new → Forgets place old new }
{
    for k in 0..commands.len() {
        commands[k].forget(place);
    }
}
