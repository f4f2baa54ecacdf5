ghost use Rattle.std.specs.Prelude.{◌≡◌, ◌≢◌, ◌↔◌, ◌<◌, ℕ, Bool, Option, true, Some, None};

use crate::places::{MAX_PLACES, Places};

/// What became of a reply.
#[derive(Clone, Copy, Debug, PartialEq, Eq)]
pub enum Taken {
    /// It is the first reply of a node that was asked.
    Counted,
    /// It answers another call, or its node was not asked.
    Stranger,
    /// Its node has replied.
    Double,
}

/// The replies to one call of several nodes, as `gen_server:multi_call/2` gathers them: who was asked, who has replied, and who has
/// granted what the call is about. A node is named by its place in the set.
#[derive(Clone, Copy, Debug, PartialEq, Eq)]
pub struct Gather {
    asked: Places,
    replied: Places,
    granted: Places,
}

impl Gather {
    ghost use Rattle.pg_multicall.specs.Gathered.{what_of};
    ghost use Rattle.pg_multicall.specs.Places.{has_of};
    ghost use Rattle.pg_multicall.specs.Replies.{asked_of, after, asked_anew, forgotten, replies_of};

    /// These were asked, and none has replied.
    ///
    /// Cost: no memory.
    pub fn new(asked: Places) -> Gather
        ensures { (place : ℕ) → replies_of result place ≡ asked_of (has_of asked) place }
    {
        Gather {
            asked,
            replied: Places::none(),
            granted: Places::none(),
        }
    }

    /// Asks the node at a place, whatever came of it before: it has not replied then, and a reply that it gave is taken back. All else stays
    /// as it was.
    ///
    /// Cost: no memory.
    pub fn ask(&mut self, place: usize)
        requires { place < MAX_PLACES }
        ensures { (other : ℕ) → replies_of self.new other ≡ asked_anew (replies_of self.old) place other }
    {
        self.asked = self.asked.with(place);
        self.replied = self.replied.without(place);
        self.granted = self.granted.without(place);
    }

    /// What a reply of the node at a place would be, were it taken now.
    ///
    /// Cost: no memory.
    pub fn what(&self, place: usize) -> Taken
        ensures { result ≡ what_of true (replies_of self.now place) }
    {
        match self.reply(place) {
            None => Taken::Stranger,
            Some(None) => Taken::Counted,
            Some(Some(_)) => Taken::Double,
        }
    }

    /// Takes the reply of the node at a place: whether it grants, or has done, what it was asked for. Only a counted
    /// reply changes anything.
    ///
    /// Cost: no memory.
    pub fn take(&mut self, place: usize, granted: bool) -> Taken
        ensures what { result ≡ what_of true (replies_of self.old place) }
        ensures after { (other : ℕ) → replies_of self.new other ≡ after result (replies_of self.old) place granted other }
    {
        if !self.asked.has(place) {
            return Taken::Stranger;
        }
        if self.replied.has(place) {
            return Taken::Double;
        }
        self.replied = self.replied.with(place);
        self.granted = self.granted.with_or_without(place, granted);
        Taken::Counted
    }

    /// Forgets the node at a place, as where it is lost: it is asked no longer, and its reply counts no longer. All
    /// else stays as it was.
    ///
    /// Cost: no memory.
    pub fn forget(&mut self, place: usize)
        ensures { (other : ℕ) → replies_of self.new other ≡ forgotten (replies_of self.old) place other }
    {
        self.asked = self.asked.without(place);
        self.replied = self.replied.without(place);
        self.granted = self.granted.without(place);
    }

    /// What has come of the node at a place: `None` where it was not asked, `Some(None)` where it has not replied,
    /// and else its reply.
    ///
    /// Cost: no memory.
    pub fn reply(&self, place: usize) -> Option<Option<bool>>
        ensures { result ≡ replies_of self.now place }
    {
        if !self.asked.has(place) {
            None
        } else if !self.replied.has(place) {
            Some(None)
        } else {
            Some(Some(self.granted.has(place)))
        }
    }

    /// Whether each node that was asked has replied.
    ///
    /// Cost: no memory.
    pub fn complete(&self) -> bool
        ensures { (result ≡ true) ↔ ((place : ℕ) → replies_of self.now place ≢ Some None) }
    {
        self.asked.are_within(self.replied)
    }

    /// Whether each node that was asked has granted.
    ///
    /// Cost: no memory.
    pub fn is_granted(&self) -> bool
        ensures { (result ≡ true) ↔ ((place : ℕ) (reply : Option Bool) → replies_of self.now place ≡ Some reply → reply ≡ Some true) }
    {
        self.complete() && self.asked.are_within(self.granted)
    }
}
