ghost use Rattle.std.specs.Prelude.{◌≡◌, ◌≤◌};
ghost use Rattle.pg_ends.specs.Limits.{max_processes};

use crate::fault::EndFault;
use crate::laws::numbered_from_one;
use pg_group::Ended;
use pg_term::{Atom, Pid};
use std::alloc::{AllocError, Global};

/// How many processes a node can make.
pub const MAX_PROCESSES: u32 = 268_435_455;

/// The processes of one node, numbered from 1 in the order in which they are made. The process with the number n has
/// the id `n mod 32768`, the serial `n div 32768` and the creation 1.
#[derive(Debug, Drop)]
pub struct Processes {
    node: Atom,
    made: u32,
    ghost in_range: { made ≤ max_processes },
}

impl Processes {
    ghost use Rattle.std.specs.Prelude.{◌≡◌, ◌≤◌, ◌+◌, ◌↔◌, nat_le, false, Err, IfOk, OnOk, OnErr};
    ghost use Rattle.pg_group.specs.Ended.{ended_of, is_whole};
    ghost use Rattle.pg_ends.specs.Numbers.{pid_of, is_among, first_pids, ended_among};
    ghost use Rattle.pg_ends.specs.Processes.{node_of, made_of, finish_of};
    ghost use Rattle.pg_ends.specs.declared.fault.EndFault.TheVariants.{ProcessLimit};

    /// The processes of a node that has made so many, at most 268,435,455.
    ///
    /// Cost: no memory.
    pub fn new(node: Atom, made: u32) -> Processes
        requires { made ≤ max_processes }
        ensures node { node_of result ≡ node }
        ensures made { made_of result ≡ made }
    {
        Processes { node, made }
    }

    /// As many processes of the same node.
    ///
    /// Errors: `AllocError`.
    ///
    /// Cost: a copy of the name.
    pub fn copy(&self) -> Result<Processes, AllocError>
        ensures node { IfOk result (λ copy. node_of copy ≡ node_of self.now) }
        ensures made { IfOk result (λ copy. made_of copy ≡ made_of self.now) }
    {
        let node = self.node.copy()?;
        Ok(Processes {
            node,
            made: self.made,
        })
    }

    /// The name of the node.
    ///
    /// Cost: no memory.
    pub fn node(&self) -> &Atom
        ensures { result.now ≡ node_of self.now }
    {
        &self.node
    }

    /// How many were made.
    ///
    /// Cost: no memory.
    pub fn made(&self) -> u32
        ensures { result ≡ made_of self.now }
    {
        self.made
    }

    /// Whether as many were made as can be.
    ///
    /// Cost: no memory.
    pub fn is_full(&self) -> bool
        ensures { result ≡ nat_le max_processes (made_of self.now) }
    {
        self.made >= MAX_PROCESSES
    }

    /// Makes a process: it has the next number.
    ///
    /// Errors: `ProcessLimit` where 268,435,455 were made; else `OutOfMemory`. They change nothing.
    ///
    /// Cost: a copy of the name of the node.
    pub fn make(&mut self) -> Result<Pid, EndFault>
        ensures pid { IfOk result (λ pid. pid ≡ pid_of (node_of self.old) (made_of self.old + 1)) }
        ensures made { OnOk result (made_of self.new ≡ made_of self.old + 1) }
        ensures err { OnErr result (made_of self.new ≡ made_of self.old) }
        ensures kept { node_of self.new ≡ node_of self.old }
        ensures limit { (result ≡ Err ProcessLimit) ↔ (made_of self.old ≡ max_processes) }
    {
        if self.made == MAX_PROCESSES {
            return Err(EndFault::ProcessLimit);
        }
        let node = self.node.copy()?;
        self.made += 1;
        Ok(Pid {
            node,
            serial: self.made / 32768,
            id: self.made % 32768,
            creation: 1,
        })
    }

    /// Whether a process can end; it tests and changes nothing.
    ///
    /// Errors: `ForeignPid` for a pid of another node, `NotMade` for one that was not made here, `AlreadyEnded` for
    /// one of a process that has ended.
    ///
    /// Cost: no memory.
    pub fn finish(&self, pid: &Pid, ended: &Ended) -> Result<(), EndFault>
        ensures { result ≡ finish_of self.now pid.now (ended_of ended.now) }
    {
        if pid.node != self.node {
            return Err(EndFault::ForeignPid);
        }
        if !self.has_made(pid) {
            return Err(EndFault::NotMade);
        }
        if ended.has(pid) {
            return Err(EndFault::AlreadyEnded);
        }
        Ok(())
    }

    /// The processes that were made and have ended, by their numbers.
    ///
    /// Errors: `AllocError`.
    ///
    /// Cost: that of `Ended::pids_of`; where the node was put in as a whole, it lists each process that was made.
    pub fn ended(&self, alloc: Global, ended: &Ended) -> Result<Vec<Pid>, AllocError>
        ensures { IfOk result (λ pids. pids.items ≡ ended_among (node_of self.now) (made_of self.now) (ended_of ended.now)) }
    {
        if ended.has_node(&self.node) {
            self.all(alloc)
        } else {
            self.singles(alloc, ended)
        }
    }

    /// All processes that were made.
    fn all(&self, alloc: Global) -> Result<Vec<Pid>, AllocError>
        ensures { IfOk result (λ pids. pids.items ≡ first_pids (node_of self.now) (made_of self.now)) }
    {
        let mut pids = Vec::new(alloc);
        for before in 0..self.made {
            let number = before + 1;
            pids.push(Pid {
                node: self.node.copy()?,
                serial: number / 32768,
                id: number % 32768,
                creation: 1,
            })?;
        }
        Ok(pids)
    }

    /// Those that were put in one by one, and were made.
    fn singles(&self, alloc: Global, ended: &Ended) -> Result<Vec<Pid>, AllocError>
        requires { is_whole ended.now (node_of self.now) ≡ false }
        ensures { IfOk result (λ pids. pids.items ≡ ended_among (node_of self.now) (made_of self.now) (ended_of ended.now)) }
    {
        numbered_from_one();
        let singles = ended.pids_of(alloc, &self.node)?;
        let mut pids = Vec::new(alloc);
        for pid in singles {
            if self.has_made(&pid) {
                pids.push(pid)?;
            }
        }
        Ok(pids)
    }

    /// Whether the number of a pid of this node is one of those that were made.
    fn has_made(&self, pid: &Pid) -> bool
        ensures { result ≡ is_among (made_of self.now) pid.now }
    {
        let serial = pid.serial;
        let id = pid.id;
        let number = u64::from(serial) * 32768 + u64::from(id);
        pid.creation == 1 && id < 32768 && 1 <= number && number <= u64::from(self.made)
    }
}
