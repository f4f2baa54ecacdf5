ghost use Rattle.std.specs.Prelude.{◌≡◌, ◌+◌, ◌<◌, ◌≤◌, ◌^◌, ◌⊎◌, true, false, None, length};
ghost use Rattle.std.specs.Prelude.{Some, OnOk, OnErr, IfOk, IsSome, option_copied};
ghost use Rattle.pg_term.specs.Same.{same_term, same_pid};
ghost use Rattle.pg_group.specs.Ended.{ended_of};
ghost use Rattle.pg_group.specs.Functions.{upd};
ghost use Rattle.pg_group.specs.Value.{apply, count_in};
ghost use Rattle.pg_group.specs.Table.{changed, merged, all_merged, Adds, AreAbsent, HasRoom, LacksRoom, Overfills};
ghost use Rattle.pg_group.specs.declared.update.Update.TheVariants.{Create, Delete, Join, Leave};
ghost use Rattle.pg_index.specs.Groups.{is_used};
ghost use Rattle.pg_index.specs.Index.{Numbers, number_of, table_of, HasGroups, AreNumberedApart, MembersOf};
ghost use Rattle.pg_index.specs.Grown.{IsGrown};
ghost use Rattle.pg_index.specs.declared.memberships.Memberships.{Memberships};

use crate::by_place::GroupsByPlace;
use crate::memberships::Memberships;
use indexmap::IndexMap;
use pg_group::{Ended, GroupTable, Scope, Update};
use pg_index_members::Members;
use pg_term::{Atom, Items, Pid, Term};
use std::alloc::{AllocError, Global};

/// The table for many groups and members: a number for each name, the members of each number in an order that finds
/// them by place, by node and by pid, and the numbers of the groups of each pid.
#[derive(Drop)]
pub struct IndexTable {
    numbers: IndexMap<Term, u32>,
    memberships: Memberships,
    // The place of the name to which a join or a leave came last. Another name may stand there by now.
    last: usize,
    alloc: Global,
    ghost there: { HasGroups (number_of numbers) (is_used memberships.groups) },
    ghost apart: { AreNumberedApart (number_of numbers) },
}

/// The same numbers of the same names: memory for each name.
fn copy_numbers(
    numbers: &IndexMap<Term, u32>,
    alloc: Global,
) -> Result<IndexMap<Term, u32>, AllocError>
    ensures { IfOk result (λ copy. number_of copy ≡ number_of numbers.now) }
{
    let mut copy = IndexMap::new(alloc);
    for (name, number) in numbers.iter() {
        copy.insert(name.copy(alloc)?, *number)?;
    }
    Ok(copy)
}

/// Takes out the names after the first ones, with their groups.
fn cut(numbers: &mut IndexMap<Term, u32>, memberships: &mut Memberships, first: usize)
    requires { first ≤ length numbers.old.entries }
    ensures first { length numbers.new.entries ≡ first }
    ensures kept { (n : Numbers) (m : Memberships) → length n.entries ≤ first
        → IsGrown n m numbers.old memberships.old → IsGrown n m numbers.new memberships.new }
{
    while numbers.len() > first {
        cut_last(numbers, memberships);
    }
}

/// Takes out the last name, with its group.
fn cut_last(numbers: &mut IndexMap<Term, u32>, memberships: &mut Memberships)
    requires { 0 < length numbers.old.entries }
    ensures fewer { length numbers.new.entries + 1 ≡ length numbers.old.entries }
    ensures kept { (n : Numbers) (m : Memberships) → length n.entries < length numbers.old.entries
        → IsGrown n m numbers.old memberships.old → IsGrown n m numbers.new memberships.new }
{
    match numbers.pop() {
        Some((name, number)) => {
            drop(name);
            memberships.close(number);
        }
        None => unreachable!(),
    }
}

/// The number of a group to which a join or a leave comes, whose place is noted.
fn noted(numbers: &IndexMap<Term, u32>, last: &mut usize, name: &Term) -> Option<u32>
    ensures { result ≡ number_of numbers.now name.now }
{
    let (place, _, number) = numbers.get_full(name)?;
    *last = place;
    Some(*number)
}

impl IndexTable {
    /// No group.
    ///
    /// Cost: no memory.
    pub fn new(alloc: Global) -> IndexTable
        ensures { table_of result.numbers result.memberships ≡ (λ name. None) }
    {
        IndexTable {
            numbers: IndexMap::new(alloc),
            memberships: Memberships::new(alloc),
            last: 0,
            alloc,
        }
    }

    /// The number of a group.
    fn number(&self, name: &Term) -> Option<u32>
        ensures { result ≡ number_of self.now.numbers name.now }
    {
        self.numbers.get(name).copied()
    }

    /// The number of a group, found at the place that was noted where it stands there.
    fn number_again(&self, name: &Term) -> Option<u32>
        ensures { result ≡ number_of self.now.numbers name.now }
    {
        match self.numbers.get_index(self.last) {
            Some((found, number)) if *found == *name => Some(*number),
            _ => self.number(name),
        }
    }

    /// The members of a group.
    fn members(&self, name: &Term) -> Option<&Members>
        ensures { MembersOf (table_of self.now.numbers self.now.memberships) name.now (option_copied result) }
    {
        match self.number(name) {
            Some(number) => self.memberships.members(number),
            None => None,
        }
    }

    /// Makes an absent group empty. A group that is there takes no memory. An error changes nothing.
    fn create(&mut self, name: &Term) -> Result<(), AllocError>
        ensures ok { OnOk result (table_of self.new.numbers self.new.memberships
            ≡ upd same_term (table_of self.old.numbers self.old.memberships) name.now
            (apply (table_of self.old.numbers self.old.memberships name.now) (Create name.now))) }
        ensures err { OnErr result (table_of self.new.numbers self.new.memberships
            ≡ table_of self.old.numbers self.old.memberships) }
        ensures memory { OnErr result
            (table_of self.old.numbers self.old.memberships name.now ≡ None) }
    {
        if self.numbers.contains_key(name) {
            return Ok(());
        }
        let copy = name.copy(self.alloc)?;
        self.put(copy)?;
        Ok(())
    }

    /// Makes an absent group empty under a name that is the table's from then on, and gives the number of the group.
    /// An error changes nothing.
    fn put(&mut self, name: Term) -> Result<u32, AllocError>
        ensures number { IfOk result (λ number. number_of self.new.numbers name ≡ Some number) }
        ensures ok { OnOk result (table_of self.new.numbers self.new.memberships
            ≡ upd same_term (table_of self.old.numbers self.old.memberships) name
            (apply (table_of self.old.numbers self.old.memberships name) (Create name))) }
        ensures err { OnErr result (table_of self.new.numbers self.new.memberships
            ≡ table_of self.old.numbers self.old.memberships) }
        ensures kept { (n : Numbers) (m : Memberships) → IsGrown n m self.old.numbers self.old.memberships
            → IsGrown n m self.new.numbers self.new.memberships }
    {
        if let Some(number) = self.number(&name) {
            drop(name);
            return Ok(number);
        }
        let Ok(number) = self.memberships.open() else {
            drop(name);
            return Err(AllocError);
        };
        if let Ok(_) = self.numbers.insert(name, number) {
            return Ok(number);
        }
        self.memberships.close(number);
        Err(AllocError)
    }

    /// Merges a group under a name that is the table's from then on. An error may leave some of it.
    fn merge_own(&mut self, name: Term, members: &[Pid], ended: &Ended) -> Result<(), AllocError>
        ensures ok { OnOk result (table_of self.new.numbers self.new.memberships
            ≡ merged (table_of self.old.numbers self.old.memberships) name members.now (ended_of ended.now)) }
        ensures kept { (n : Numbers) (m : Memberships) → number_of n name ≡ None
            → IsGrown n m self.old.numbers self.old.memberships
            → IsGrown n m self.new.numbers self.new.memberships }
    {
        let number = self.put(name)?;
        self.memberships.raise_all(number, members, ended)
    }

    /// Merges groups that are absent, one after the other. An error may leave some of them, and nothing else changed.
    fn merge_each(
        &mut self,
        groups: Vec<(Term, Items<Pid>)>,
        ended: &Ended,
    ) -> Result<(), AllocError>
        requires { AreAbsent (table_of self.old.numbers self.old.memberships) groups.items }
        ensures ok { OnOk result (table_of self.new.numbers self.new.memberships
            ≡ all_merged (table_of self.old.numbers self.old.memberships) groups.items (ended_of ended.now)) }
        ensures kept { IsGrown self.old.numbers self.old.memberships self.new.numbers self.new.memberships }
    {
        for (name, members) in groups {
            self.merge_own(name, members.as_slice(), ended)?;
        }
        Ok(())
    }

    /// Adds one to the count of a pid in a group that is there. Only a new member takes memory. An error changes nothing.
    fn join(&mut self, name: &Term, pid: &Pid) -> Result<(), AllocError>
        ensures ok { OnOk result (table_of self.new.numbers self.new.memberships
            ≡ upd same_term (table_of self.old.numbers self.old.memberships) name.now
            (apply (table_of self.old.numbers self.old.memberships name.now) (Join name.now pid.now))) }
        ensures err { OnErr result (table_of self.new.numbers self.new.memberships
            ≡ table_of self.old.numbers self.old.memberships) }
        ensures there { OnErr result
            (IsSome (table_of self.old.numbers self.old.memberships name.now)) }
        ensures memory { OnErr result
            ((count_in (table_of self.old.numbers self.old.memberships name.now) pid.now ≡ 0)
            ⊎ LacksRoom (table_of self.old.numbers self.old.memberships name.now) 1) }
    {
        match noted(&self.numbers, &mut self.last, name) {
            Some(number) => self.memberships.add(number, pid, 1),
            None => Ok(()),
        }
    }
}

impl GroupTable for IndexTable {
    ghost contents = { λ table. table_of table.numbers table.memberships };

    /// Its cost is that of a hash.
    fn has(&self, name: &Term) -> bool {
        self.numbers.contains_key(name)
    }

    /// Applies an update to the group that it names, as `GroupTable::apply` has it.
    ///
    /// Errors: `AllocError`, which changes nothing; also for a join where the members, with one more, would pass 64
    /// bits, and for a creation where all numbers of 32 bits are in use.
    ///
    /// Cost: a hash and searches in order for a join or a leave; for a deletion one of each member. Only a group that
    /// is made and a new member take memory.
    fn apply(&mut self, update: &Update, ended: &Ended) -> Result<(), AllocError>
        requires { HasRoom (table_of self.old.numbers self.old.memberships) update.now }
        ensures ok { OnOk result (table_of self.new.numbers self.new.memberships
            ≡ changed (table_of self.old.numbers self.old.memberships) update.now (ended_of ended.now)) }
        ensures err { OnErr result (table_of self.new.numbers self.new.memberships
            ≡ table_of self.old.numbers self.old.memberships) }
        ensures memory { OnErr result
            (Adds (table_of self.old.numbers self.old.memberships) update.now (ended_of ended.now)
            ⊎ Overfills (table_of self.old.numbers self.old.memberships) update.now) }
    {
        match update {
            Update::Create(name) => self.create(name),
            Update::Delete(name) => {
                self.delete(name);
                Ok(())
            }
            Update::Join(_, pid) if ended.has(pid) => Ok(()),
            Update::Join(name, pid) => self.join(name, pid),
            Update::Leave(name, pid) => {
                self.leave(name, pid);
                Ok(())
            }
        }
    }

    /// Its cost is that of a hash and of the group's members.
    fn delete(&mut self, name: &Term) {
        let Some(number) = self.number(name) else {
            return;
        };
        self.numbers.swap_remove(name);
        self.memberships.close(number);
    }

    /// Its cost is that of a hash and of searches in order.
    fn leave(&mut self, name: &Term, pid: &Pid) {
        match noted(&self.numbers, &mut self.last, name) {
            Some(number) => self.memberships.take_one(number, pid),
            None => (),
        }
    }

    fn merge(&mut self, name: &Term, members: &[Pid], ended: &Ended) -> Result<(), AllocError> {
        self.create(name)?;
        match self.number(name) {
            Some(number) => self.memberships.raise_all(number, members, ended),
            None => unreachable!(),
        }
    }

    fn merge_absent(
        &mut self,
        groups: Vec<(Term, Items<Pid>)>,
        ended: &Ended,
    ) -> Result<(), AllocError> {
        let first = self.numbers.len();
        let merged = self.merge_each(groups, ended);
        if merged.is_err() {
            cut(&mut self.numbers, &mut self.memberships, first);
        }
        merged
    }

    /// Its cost is that of the groups of the pid alone.
    fn drop_pid(&mut self, pid: &Pid) {
        self.memberships.drop_pid(pid);
    }

    /// Its cost is that of the memberships that it removes, each with searches in order, and of a walk over the blocks
    /// beside theirs.
    fn drop_node(&mut self, node: &Atom) {
        self.memberships.drop_node(node);
    }

    fn groups(&self) -> Result<Vec<Term>, AllocError> {
        let mut names = Vec::with_capacity(self.alloc, self.numbers.len())?;
        for name in self.numbers.keys() {
            names.push(name.copy(self.alloc)?)?;
        }
        Ok(names)
    }

    /// Its cost is that of a hash and of a search in order.
    fn count(&self, name: &Term, pid: &Pid) -> u64 {
        match self.number(name) {
            Some(number) => self.memberships.count(number, pid),
            None => 0,
        }
    }

    /// Its cost is that of a hash, and for a node of two searches in order, each of which adds up sums of parts and the
    /// counts within one block of members.
    fn size(&self, name: &Term, scope: Scope<'_>) -> Option<u64> {
        match self.members(name) {
            Some(members) => Some(members.size(scope)),
            None => None,
        }
    }

    /// Its cost is that of a hash, of sums of parts and of a walk within one block of members; for a node of a search in
    /// order besides.
    fn pid_at(&self, name: &Term, scope: Scope<'_>, place: u64) -> Option<&Pid> {
        match self.members(name) {
            Some(members) => members.pid_at(scope, place),
            None => None,
        }
    }

    /// Its cost is that of what it lists.
    fn list(&self, alloc: Global, name: &Term, scope: Scope<'_>) -> Result<Vec<Pid>, AllocError> {
        match self.members(name) {
            Some(members) => members.list(alloc, scope),
            None => Ok(Vec::new(alloc)),
        }
    }

    /// Its cost grows with the groups and their members, however often each is one.
    fn copy(&self) -> Result<IndexTable, AllocError> {
        let numbers = copy_numbers(&self.numbers, self.alloc)?;
        let memberships = self.memberships.copy()?;
        Ok(IndexTable {
            numbers,
            memberships,
            last: self.last,
            alloc: self.alloc,
        })
    }
}

impl GroupsByPlace for IndexTable {
    ghost use Rattle.std.specs.HashMap.{keys};

    // The order of the map, which is that in which they were made where none was deleted.
    ghost order = { λ table. keys table.numbers };

    /// Its cost is O(1).
    fn group_count(&self) -> usize {
        self.numbers.len()
    }

    /// Its cost is O(1).
    fn name_at(&self, place: usize) -> &Term {
        match self.numbers.get_index(place) {
            Some((name, _)) => name,
            None => unreachable!(),
        }
    }

    /// Its cost is that of a comparison of names, where a join or a leave came last to this group, else of a hash; and of a search in order.
    fn count_if_there(&self, name: &Term, pid: &Pid) -> Option<u64> {
        match self.number_again(name) {
            Some(number) => Some(self.memberships.count(number, pid)),
            None => None,
        }
    }
}
