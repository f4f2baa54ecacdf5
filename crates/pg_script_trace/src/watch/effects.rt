//! What an event did beside: locks, packets that were sent, and commands that wait.

use crate::letter::{Asked, Letter, add_letters};
use crate::seen::Seen;
use crate::texts::reference_text;
use crate::watch::Watch;
use crate::watch::locks::is_same;
use crate::watch::ways::{node_at, outbox, peer_count};
use pg_term::{Reference, Term};
use pg_world::{GroupTable, OpId, World};
use std::alloc::AllocError;

impl Watch {
    ghost use Rattle.std.specs.Prelude.{◌≡◌, ◌≤◌, ◌++◌, ◌-◌, [], ◌∷◌, OnOk, length, map};
    ghost use Rattle.std.specs.List.{range_with_len};
    ghost use Rattle.pg_script_trace.specs.Watched.{sent_on};

    /// What an event of a node did, by which it took this packet.
    pub(crate) fn see_effects<T: GroupTable + Drop>(
        &mut self,
        world: &World<T>,
        node: usize,
        taken: Option<usize>,
    ) -> Result<(), AllocError> {
        self.see_locks(world, node)?;
        let first = self.letters.len();
        self.read_letters(world, node)?;
        self.see_denial(node, taken, first)?;
        self.see_sent(first)?;
        self.see_waiting(world, node)
    }

    /// The locks that changed at a node.
    fn see_locks<T: GroupTable + Drop>(
        &mut self,
        world: &World<T>,
        node: usize,
    ) -> Result<(), AllocError> {
        for place in 0..self.locks.names.len() {
            self.see_lock(world, node, place)?;
        }
        Ok(())
    }

    /// Whether the lock of the name at a place changed at a node, and how.
    fn see_lock<T: GroupTable + Drop>(
        &mut self,
        world: &World<T>,
        node: usize,
        place: usize,
    ) -> Result<(), AllocError> {
        let holder = match self.locks.names.get(place) {
            Some(lock) => holder_at(world, node, &lock.term),
            None => None,
        };
        if is_same(self.locks.holder(place, node), holder) {
            return Ok(());
        }
        self.see_freed(node, place)?;
        self.see_granted(node, place, holder)?;
        self.locks.set_holder(place, node, holder)
    }

    /// A lock is freed at a node, if it was held there.
    fn see_freed(&mut self, node: usize, place: usize) -> Result<(), AllocError> {
        let Some(before) = self.locks.holder(place, node) else {
            return Ok(());
        };
        let by = reference_text(self.alloc, before)?;
        let name = String::from_str(self.alloc, self.locks.text(place))?;
        self.add(Seen::Freed { node, name, by })
    }

    /// A lock is granted at a node, if it is held there now.
    fn see_granted(
        &mut self,
        node: usize,
        place: usize,
        holder: Option<&Reference>,
    ) -> Result<(), AllocError> {
        let Some(after) = holder else {
            return Ok(());
        };
        let to = reference_text(self.alloc, after)?;
        let name = String::from_str(self.alloc, self.locks.text(place))?;
        self.add(Seen::Granted { node, name, to })
    }

    /// Reads the packets that a node has sent: what is in its outboxes after what was there before.
    fn read_letters<T: GroupTable + Drop>(
        &mut self,
        world: &World<T>,
        node: usize,
    ) -> Result<(), AllocError>
        ensures names { self.new.names ≡ self.old.names }
        ensures line { self.new.line ≡ self.old.line }
        ensures sights { self.new.sights ≡ self.old.sights }
        ensures grows { length self.old.letters.items ≤ length self.new.letters.items }
    {
        for peer in 0..peer_count(world, node) {
            let before = self.lens.get(peer).copied().unwrap_or(0);
            if let Some(new) = outbox(world, node, peer).get(before..) {
                add_letters(
                    self.alloc,
                    node,
                    node_at(node, peer),
                    new,
                    &mut self.letters,
                )?;
            }
        }
        Ok(())
    }

    /// The packets from this one on are sent.
    fn see_sent(&mut self, first: usize) -> Result<(), AllocError>
        ensures names { self.new.names ≡ self.old.names }
        ensures line { self.new.line ≡ self.old.line }
        ensures letters { self.new.letters ≡ self.old.letters }
        ensures seen { OnOk result (self.new.sights.items
            ≡ self.old.sights.items ++ map (sent_on self.old.line)
            (range_with_len first (length self.old.letters.items - first))) }
    {
        for packet in first..self.letters.len() {
            self.see_letter(packet)?;
        }
        Ok(())
    }

    /// A packet is sent.
    fn see_letter(&mut self, packet: usize) -> Result<(), AllocError>
        ensures names { self.new.names ≡ self.old.names }
        ensures line { self.new.line ≡ self.old.line }
        ensures letters { self.new.letters ≡ self.old.letters }
        ensures seen { OnOk result (self.new.sights.items ≡ self.old.sights.items
            ++ sent_on self.old.line packet ∷ []) }
    {
        if let Some(letter) = self.letters.get(packet) {
            self.ways.send(letter.from, letter.to, packet)?;
        }
        self.add(Seen::Sent { packet })
    }

    /// The packets that a node sends as it begins.
    pub(crate) fn see_begin<T: GroupTable + Drop>(
        &mut self,
        world: &World<T>,
        node: usize,
    ) -> Result<(), AllocError>
        ensures names { self.new.names ≡ self.old.names }
        ensures line { self.new.line ≡ self.old.line }
        ensures grows { length self.old.letters.items ≤ length self.new.letters.items }
        ensures seen { OnOk result (self.new.sights.items ≡ self.old.sights.items
            ++ map (sent_on self.old.line) (range_with_len (length self.old.letters.items)
            (length self.new.letters.items - length self.old.letters.items))) }
    {
        let first = self.letters.len();
        self.read_letters(world, node)?;
        self.see_sent(first)
    }

    /// Whether the packet that was taken asked for a lock, and was denied it by one of those from the first new one on.
    fn see_denial(
        &mut self,
        node: usize,
        taken: Option<usize>,
        first: usize,
    ) -> Result<(), AllocError> {
        let letters = self.letters.as_slice();
        if !is_denied(letters, first) {
            return Ok(());
        }
        let Some(asked) = asked_by(letters, taken) else {
            return Ok(());
        };
        let name = asked.name.clone()?;
        let to = asked.by.clone()?;
        self.add(Seen::Denied { node, name, to })
    }

    /// The commands of a node that wait, and did not before.
    fn see_waiting<T: GroupTable + Drop>(
        &mut self,
        world: &World<T>,
        node: usize,
    ) -> Result<(), AllocError> {
        let Some(over) = world.node(node) else {
            return Ok(());
        };
        let ops = over.state().waiting()?;
        let seen = self.see_ops(node, ops.as_slice());
        drop(ops);
        seen
    }

    /// These commands of a node wait.
    fn see_ops(&mut self, node: usize, ops: &[OpId]) -> Result<(), AllocError> {
        for op in ops {
            if !self.is_waiting(node, op.number) {
                self.add(Seen::Waits {
                    node,
                    number: op.number,
                })?;
            }
        }
        self.set_waiting(node, ops)
    }

    /// Whether a command of a node waited, as it was seen last.
    fn is_waiting(&self, node: usize, number: u32) -> bool {
        match self.waiting.get(node) {
            Some(numbers) => numbers.as_slice().contains(&number),
            None => false,
        }
    }

    fn set_waiting(&mut self, node: usize, ops: &[OpId]) -> Result<(), AllocError> {
        let Some(waiting) = self.waiting.get_mut(node) else {
            return Ok(());
        };
        waiting.clear();
        for op in ops {
            waiting.push(op.number)?;
        }
        Ok(())
    }

    /// A command is tried again, and waits no more.
    pub(crate) fn forget_waiting(&mut self, node: usize, number: u32) {
        if let Some(waiting) = self.waiting.get_mut(node) {
            waiting.retain(|other| *other != number);
        }
    }
}

/// Whether one of the packets from this one on denies a lock.
fn is_denied(letters: &[Letter], first: usize) -> bool {
    for packet in first..letters.len() {
        if letters[packet].denies {
            return true;
        }
    }
    false
}

/// The lock for which the packet that was taken asked.
fn asked_by(letters: &[Letter], taken: Option<usize>) -> Option<&Asked> {
    letters.get(taken?)?.asks.as_ref()
}

/// Who holds the lock of a name at a node.
fn holder_at<'a, T: GroupTable + Drop>(
    world: &'a World<T>,
    node: usize,
    name: &Term,
) -> Option<&'a Reference> {
    match world.node(node) {
        Some(over) => over.state().holder(name),
        None => None,
    }
}
