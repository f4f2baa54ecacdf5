ghost use Rattle.std.specs.Prelude.{◌≡◌, ◌<◌, List, Some, length, slice_get};
ghost use Rattle.std.specs.Option.{option_map};
ghost use Rattle.pg_term.specs.declared.term.Term.{Term};
ghost use Rattle.pg_group.specs.Table.{AreNames};

use pg_group::GroupTable;
use pg_term::{Pid, Term};

/// A table whose groups are found by their places, so that all of them are visited without memory.
pub trait GroupsByPlace: GroupTable {
    /// The names of the groups, in an order that lasts until the table changes.
    ghost order: { Self → List Term };

    /// How many groups there are.
    ///
    /// Cost: no memory.
    fn group_count(&self) -> usize
        ensures names { AreNames (Self.contents self.now) (order self.now) }
        ensures count { result ≡ length (order self.now) };

    /// The name of the group at a place, counted from 0.
    ///
    /// Cost: no memory.
    fn name_at(&self, place: usize) -> &Term
        requires { place < length (order self.now) }
        ensures { slice_get (order self.now) place ≡ Some result.now };

    /// How often a pid is a member of a group: 0 where it is none, and `None` where the group is absent. Sooner found than by `count` where a join or a leave
    /// came last to this group.
    ///
    /// Cost: no memory.
    fn count_if_there(&self, name: &Term, pid: &Pid) -> Option<u64>
        ensures { result ≡ option_map (λ counts. counts pid.now) (Self.contents self.now name.now) };
}
