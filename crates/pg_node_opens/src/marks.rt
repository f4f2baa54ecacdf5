ghost use Rattle.std.specs.Prelude.{◌≡◌, ℕ, ◌<◌, ◌≤◌, false, Some, cond, nat_eq, length, get_or, slice_set};
ghost use Rattle.pg_step.specs.PgMulticall.Replies.{replies_of};
ghost use Rattle.pg_node_opens.specs.declared.mark.Mark.TheVariants.{Unasked, Asked as AskedYet, Yes};
ghost use Rattle.pg_node_opens.specs.Marks.{has_yes, verdict_mark, mark_at, asked_in, first_mark, heard_by, lock_heard};
ghost use Rattle.pg_node_opens.specs.Marks.{all_below, all_marks, same_mark, same_test, same_marks, same_replies};

use crate::mark::{Asked, Mark, Wanted};
use pg_step::{Gather, Places, Taken};
use std::marker::Model;

/// What is gathered of the nodes that a command asks, of at most 16: four words, without memory. Contracts see the list of
/// the nodes' marks, by their places.
#[derive(Debug, Drop)]
pub struct Marks {
    // A node grants that has granted the lock, or applied the update.
    gather: Gather,
    // How many nodes there are.
    count: usize,
}

impl Model for Marks {
    ghost use Rattle.std.specs.Prelude.{◌≤◌, List};
    ghost use Rattle.pg_node_opens.specs.declared.mark.Mark.{Mark};

    ghost Value = { List Mark };

    ghost use Rattle.pg_node_opens.specs.Kept.{marks_in};

    ghost view = { marks_in };

    ghost invariant = { λ marks. marks.count ≤ 16 };
}

impl Marks {
    /// Nobody was asked, of so many nodes.
    ///
    /// Cost: no memory.
    pub fn none(count: usize) -> Marks
        requires few { count ≤ 16 }
        ensures marks { (place : ℕ) → place < count → get_or result place Unasked ≡ first_mark Unasked place }
        ensures len { length result ≡ count }
    {
        Marks {
            gather: Gather::new(Places::none()),
            count,
        }
    }

    /// The own node alone was asked, and has granted or applied, of so many nodes.
    ///
    /// Cost: no memory.
    pub fn of_own(count: usize) -> Marks
        requires few { count ≤ 16 }
        ensures marks { (place : ℕ) → place < count → get_or result place Unasked ≡ first_mark Yes place }
        ensures len { length result ≡ count }
    {
        let mut gather = Gather::new(Places::none());
        count_reply(&mut gather, 0, true);
        Marks { gather, count }
    }

    /// How many nodes there are.
    ///
    /// Cost: no memory.
    pub fn len(&self) -> usize
        ensures len { result ≡ length self.now }
        ensures few { result ≤ 16 }
    {
        self.count
    }

    /// The same marks.
    ///
    /// Cost: no memory.
    pub fn copy(&self) -> Marks
        ensures { result ≡ self.now }
    {
        Marks {
            gather: self.gather,
            count: self.count,
        }
    }

    /// The mark of the node at a place.
    ///
    /// Cost: no memory.
    pub fn at(&self, place: usize) -> Mark
        requires { place < length self.now }
        ensures { result ≡ get_or self.now place Unasked }
    {
        Mark::of(self.gather.reply(place))
    }

    /// What an answer of the node at a place would be to the request for the lock. In the second round the one that was
    /// asked first is not asked.
    ///
    /// Cost: no memory.
    pub fn heard(&self, place: usize, is_first: bool) -> Taken
        requires { place < length self.now }
        ensures { result ≡ lock_heard (get_or self.now place Unasked) is_first }
    {
        heard_by(self.gather.what(place), is_first)
    }

    /// The node at a place was asked, and has not answered, whatever came of it before.
    ///
    /// Cost: no memory.
    pub fn ask_one(&mut self, place: usize)
        requires { place < length self.old }
        ensures { self.new ≡ slice_set self.old place AskedYet }
    {
        self.gather.ask(place);
    }

    /// The answer of the node at a place is counted, whatever came of it before.
    ///
    /// Cost: no memory.
    pub fn count(&mut self, place: usize, granted: bool)
        requires { place < length self.old }
        ensures { self.new ≡ slice_set self.old place (verdict_mark granted) }
    {
        count_reply(&mut self.gather, place, granted);
    }

    /// The node at a place is forgotten: it was not asked.
    ///
    /// Cost: no memory.
    pub fn forget(&mut self, place: usize)
        requires { place < length self.old }
        ensures { self.new ≡ slice_set self.old place Unasked }
    {
        self.gather.forget(place);
    }

    /// Whether the node at a place is asked, where these are.
    ///
    /// Cost: no memory.
    pub fn is_asked_by(&self, is_lost: bool, who: Asked, place: usize) -> bool
        requires { place < length self.now }
        ensures { result ≡ asked_in (get_or self.now place Unasked) is_lost who place }
    {
        !is_lost && who.is_wanted(place) && self.at(place).is_unasked()
    }

    /// Asks the node at a place, where these are asked: the own one answers at once.
    fn ask_at(&mut self, is_lost: bool, who: Asked, place: usize, granted: bool)
        requires { place < length self.old }
        ensures { self.new ≡ slice_set self.old place (mark_at (get_or self.old place Unasked) is_lost who place granted) }
    {
        if !self.is_asked_by(is_lost, who, place) {
            return;
        }
        if place == 0 {
            self.count(place, granted);
        } else {
            self.ask_one(place);
        }
    }

    /// Asks these nodes, of those that are live and were not asked. `granted`: what the own one, at place 0, answers at once.
    ///
    /// Cost: no memory; O(nodes).
    pub fn ask(&mut self, lost: &[bool], who: Asked, granted: bool)
        requires { length lost.now ≡ length self.old }
        ensures marks { (place : ℕ) → place < length self.old
            → get_or self.new place Unasked
            ≡ mark_at (get_or self.old place Unasked) (get_or lost.now place false) who place granted }
        ensures len { length self.new ≡ length self.old }
    {
        for place in 0..lost.len() {
            self.ask_at(lost[place], who, place, granted);
        }
    }

    /// Whether all live nodes have a mark as wanted, once these were asked, as by `ask`.
    ///
    /// Cost: no memory; O(nodes).
    pub fn all_pass(&self, lost: &[bool], wanted: Wanted, who: Asked, granted: bool) -> bool
        requires { length lost.now ≡ length self.now }
        ensures { result ≡ all_marks self.now lost.now wanted who granted }
    {
        let mut all = true;
        for place in 0..lost.len() {
            let is_lost = lost[place];
            let mark = self.at(place).asked_at(is_lost, who, place, granted);
            all = (is_lost || mark.passes(wanted)) && all;
        }
        all
    }

    /// Whether both have the same marks, of as many nodes.
    ///
    /// Cost: no memory; O(nodes).
    pub fn same(&self, other: &Marks) -> bool
        ensures { result ≡ same_marks self.now other.now }
    {
        self.len() == other.len() && self.agree(other)
    }

    fn agree(&self, other: &Marks) -> bool
        requires { length self.now ≡ length other.now }
        ensures { result ≡ all_below (length self.now) (λ place. same_mark (get_or self.now place Unasked) (get_or other.now place Unasked)) }
    {
        let mut all = true;
        for place in 0..self.len() {
            all = self.at(place) == other.at(place) && all;
        }
        all
    }

    /// Whether both have a yes at the same places, of as many nodes.
    ///
    /// Cost: no memory; O(nodes).
    pub fn same_replies(&self, other: &Marks) -> bool
        ensures { result ≡ same_replies self.now other.now }
    {
        self.len() == other.len() && self.agree_on_replies(other)
    }

    fn agree_on_replies(&self, other: &Marks) -> bool
        requires { length self.now ≡ length other.now }
        ensures { result ≡ all_below (length self.now) (λ place. same_test (has_yes (get_or self.now place Unasked)) (has_yes (get_or other.now place Unasked))) }
    {
        let mut all = true;
        for place in 0..self.len() {
            all = same_test(self.at(place).is_yes(), other.at(place).is_yes()) && all;
        }
        all
    }
}

/// The reply of the node at a place is counted, whatever came of it before.
fn count_reply(gather: &mut Gather, place: usize, granted: bool)
    requires { place < 16 }
    ensures { (other : ℕ) → replies_of gather.new other ≡ cond (nat_eq place other) (Some (Some granted)) (replies_of gather.old other) }
{
    gather.ask(place);
    gather.take(place, granted);
}

fn heard_by(taken: Taken, is_first: bool) -> Taken
    ensures { result ≡ heard_by taken is_first }
{
    match taken {
        Taken::Double if is_first => Taken::Stranger,
        Taken::Counted | Taken::Stranger | Taken::Double => taken,
    }
}

fn same_test(one: bool, other: bool) -> bool
    ensures { result ≡ same_test one other }
{
    if one { other } else { !other }
}
