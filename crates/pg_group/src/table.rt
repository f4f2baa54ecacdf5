ghost use Rattle.std.specs.Prelude.{◌≡◌, ◌↔◌, ◌⊎◌, IsTrue, None, IsSome, IfSome, IfOk, OnOk};
ghost use Rattle.std.specs.Prelude.{OnErr, Option, List, length, min, slice_get, option_copied};
ghost use Rattle.pg_term.specs.declared.pid.Pid.{Pid};
ghost use Rattle.pg_term.specs.declared.term.Term.{Term};
ghost use Rattle.pg_group.specs.Ended.{ended_of};
ghost use Rattle.pg_term.specs.Same.{same_term};
ghost use Rattle.pg_group.specs.declared.update.Update.TheVariants.{Leave};
ghost use Rattle.pg_group.specs.Functions.{upd};
ghost use Rattle.pg_group.specs.Value.{apply, count_in};
ghost use Rattle.pg_group.specs.Table.{Table, changed, HasRoom, Adds, Overfills, AreNames};
ghost use Rattle.pg_group.specs.Table.{merged, PartlyMerged, all_merged, AreAbsent, without, without_node};
ghost use Rattle.pg_group.specs.Scope.{in_scope};
ghost use Rattle.pg_group.specs.Members.{IsMemberList};

use crate::ended::Ended;
use crate::scope::Scope;
use crate::update::Update;
use pg_term::{Atom, Items, Pid, Term};
use std::alloc::{AllocError, Global};

/// A table of process groups, however it is kept.
pub trait GroupTable {
    /// What it says: the group of each name.
    ghost contents: { Self → Table };

    /// Whether the group is there.
    ///
    /// Cost: no memory.
    fn has(&self, name: &Term) -> bool
        ensures { IsTrue result ↔ IsSome (contents self.now name.now) };

    /// Applies an update to the group that it names; a join of a pid that has ended adds nothing.
    ///
    /// Errors: `AllocError`, which changes nothing. It comes only where a group or a member is added, or where the
    /// members of the group would pass 64 bits.
    ///
    /// Cost: no memory for a deletion, a leave, a join of a pid that has ended, and one more count of a member.
    fn apply(&mut self, update: &Update, ended: &Ended) -> Result<(), AllocError>
        requires { HasRoom (contents self.old) update.now }
        ensures ok { OnOk result (contents self.new ≡ changed (contents self.old) update.now (ended_of ended.now)) }
        ensures err { OnErr result (contents self.new ≡ contents self.old) }
        ensures memory { OnErr result (Adds (contents self.old) update.now (ended_of ended.now)
            ⊎ Overfills (contents self.old) update.now) };

    /// Makes a group absent.
    ///
    /// Cost: no memory.
    fn delete(&mut self, name: &Term)
        ensures { contents self.new ≡ upd same_term (contents self.old) name.now None };

    /// Takes one from the count of a pid in a group, where it is a member.
    ///
    /// Cost: no memory.
    fn leave(&mut self, name: &Term, pid: &Pid)
        ensures { contents self.new ≡ upd same_term (contents self.old) name.now
            (apply (contents self.old name.now) (Leave name.now pid.now)) };

    /// Takes in what another node says of a group: makes it if it is missing, and raises the count of each pid that
    /// has not ended to how often it is in `members`, where that is more.
    ///
    /// Errors: `AllocError`, which leaves all other groups as they were; the group may have been made and counts been
    /// raised, none above what the whole call would have made it.
    ///
    /// Cost: grows with `members`.
    fn merge(&mut self, name: &Term, members: &[Pid], ended: &Ended) -> Result<(), AllocError>
        ensures ok { OnOk result
            (contents self.new ≡ merged (contents self.old) name.now members.now (ended_of ended.now)) }
        ensures err { OnErr result
            (PartlyMerged (contents self.old) (contents self.new) name.now members.now (ended_of ended.now)) };

    /// Takes in what another node says of groups that are absent: makes each under its name, which is the table's
    /// from then on, with the count of each pid that has not ended as often as it is in the group's list. A name may
    /// stand there more than once: it has the greatest counts.
    ///
    /// Errors: `AllocError`, which changes nothing.
    ///
    /// Cost: grows with `groups`.
    fn merge_absent(
        &mut self,
        groups: Vec<(Term, Items<Pid>)>,
        ended: &Ended,
    ) -> Result<(), AllocError>
        requires { AreAbsent (contents self.old) groups.items }
        ensures ok { OnOk result
            (contents self.new ≡ all_merged (contents self.old) groups.items (ended_of ended.now)) }
        ensures err { OnErr result (contents self.new ≡ contents self.old) };

    /// Takes a pid out of every group, with all its counts; the groups stay.
    ///
    /// Cost: no memory; grows with the groups.
    fn drop_pid(&mut self, pid: &Pid)
        ensures { contents self.new ≡ without (contents self.old) pid.now };

    /// Takes every pid of a node out of every group, as where the node is lost; the groups stay.
    ///
    /// Cost: no memory; grows with the groups and their members.
    fn drop_node(&mut self, node: &Atom)
        ensures { contents self.new ≡ without_node (contents self.old) node.now };

    /// The names of the groups, each once.
    ///
    /// Errors: `AllocError`.
    ///
    /// Cost: grows with the names.
    fn groups(&self) -> Result<Vec<Term>, AllocError>
        ensures { IfOk result (λ names. AreNames (contents self.now) names.items) };

    /// How often a pid is a member of a group: 0 where it is none, or the group is absent.
    ///
    /// Cost: no memory.
    fn count(&self, name: &Term, pid: &Pid) -> u64
        ensures { result ≡ count_in (contents self.now name.now) pid.now };

    /// How many members a group has, each as often as its count, or `u64::MAX` where there are more; `None` where the
    /// group is absent.
    ///
    /// Cost: no memory; may grow with the members.
    fn size(&self, name: &Term, scope: Scope<'_>) -> Option<u64>
        ensures there { IsSome result ↔ IsSome (contents self.now name.now) }
        ensures value { IfSome result (λ size. (pids : List Pid)
            × (IsMemberList (contents self.now name.now) (in_scope scope.entry) pids × (size ≡ min (length pids) u64.MAX))) };

    /// The member at a place, counted from 0, in the list of the members of a group: pids in their order, each as
    /// often as its count. `None` past the end, and where the group is absent.
    ///
    /// Cost: no memory; may grow with the members.
    fn pid_at(&self, name: &Term, scope: Scope<'_>, place: u64) -> Option<&Pid>
        ensures { (pids : List Pid) × (IsMemberList (contents self.now name.now) (in_scope scope.entry) pids
            × (option_copied result ≡ slice_get pids place)) };

    /// The members of a group: pids in their order, each as often as its count; none where the group is absent.
    ///
    /// Errors: `AllocError`.
    ///
    /// Cost: memory for each; may grow with all members of the group.
    fn list(&self, alloc: Global, name: &Term, scope: Scope<'_>) -> Result<Vec<Pid>, AllocError>
        ensures { IfOk result (λ pids. IsMemberList (contents self.now name.now) (in_scope scope.entry) pids.items) };

    /// A table of the same meaning.
    ///
    /// Errors: `AllocError`.
    ///
    /// Cost: grows with the table.
    fn copy(&self) -> Result<Self, AllocError>
    where
        Self: Sized,
        ensures { IfOk result (λ table. contents table ≡ contents self.now) };
}
