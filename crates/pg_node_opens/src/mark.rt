ghost use Rattle.std.specs.Prelude.{◌≡◌};
ghost use Rattle.pg_step.specs.Attempts.{is_unasked};
ghost use Rattle.pg_node_opens.specs.Marks.{status_of, has_yes, verdict_mark, mark_of, asked_mark};
ghost use Rattle.pg_node_opens.specs.Marks.{passes, is_wanted, mark_at};

/// What has come of a node that a command asks: for the lock, or to apply the update.
#[derive(Clone, Copy, Debug, PartialEq, Eq)]
pub enum Mark {
    /// It was not asked.
    Unasked,
    /// It has not answered.
    Asked,
    /// It has granted the lock, or applied the update.
    Yes,
    /// It has denied the lock.
    No,
}

/// What the mark of each live node has to be.
#[derive(Clone, Copy, Debug, PartialEq, Eq)]
pub enum Wanted {
    /// No answer is missing.
    Answered,
    /// It has not denied.
    NotDenied,
    /// It has granted, or applied.
    Granted,
}

/// Who is asked.
#[derive(Clone, Copy, Debug, PartialEq, Eq)]
pub enum Asked {
    /// Nobody.
    Nobody,
    /// The node at this place.
    One(usize),
    /// Every node.
    All,
}

impl Asked {
    /// Whether the node at a place is among them.
    ///
    /// Cost: no memory.
    pub fn is_wanted(self, place: usize) -> bool
        ensures { result ≡ is_wanted self place }
    {
        match self {
            Asked::Nobody => false,
            Asked::One(only) => only == place,
            Asked::All => true,
        }
    }
}

impl Mark {
    /// The answer of a node.
    fn of_answer(granted: bool) -> Mark
        ensures { result ≡ verdict_mark granted }
    {
        if granted { Mark::Yes } else { Mark::No }
    }

    /// The mark of a node, by what is gathered of it.
    ///
    /// Cost: no memory.
    pub fn of(reply: Option<Option<bool>>) -> Mark
        ensures { result ≡ mark_of reply }
    {
        match reply {
            None => Mark::Unasked,
            Some(None) => Mark::Asked,
            Some(Some(granted)) => Mark::of_answer(granted),
        }
    }

    /// Whether the node has granted the lock, or applied the update.
    ///
    /// Cost: no memory.
    pub fn is_yes(self) -> bool
        ensures { result ≡ has_yes self }
    {
        match self {
            Mark::Yes => true,
            Mark::Unasked | Mark::Asked | Mark::No => false,
        }
    }

    /// Whether the node was not asked.
    ///
    /// Cost: no memory.
    pub fn is_unasked(self) -> bool
        ensures { result ≡ is_unasked (status_of self) }
    {
        match self {
            Mark::Unasked => true,
            Mark::Asked | Mark::Yes | Mark::No => false,
        }
    }

    /// The mark of a node once it was asked, where `wanted` says so: the own one answers at once.
    fn asked(self, wanted: bool, is_own: bool, granted: bool) -> Mark
        ensures { result ≡ asked_mark self wanted is_own granted }
    {
        match self {
            Mark::Unasked => {
                if !wanted {
                    Mark::Unasked
                } else if is_own {
                    Mark::of_answer(granted)
                } else {
                    Mark::Asked
                }
            }
            Mark::Asked | Mark::Yes | Mark::No => self,
        }
    }

    /// The mark of the node at a place once these were asked. `granted`: what the own one, at place 0, answers at once.
    ///
    /// Cost: no memory.
    pub fn asked_at(self, is_lost: bool, who: Asked, place: usize, granted: bool) -> Mark
        ensures { result ≡ mark_at self is_lost who place granted }
    {
        self.asked(!is_lost && who.is_wanted(place), place == 0, granted)
    }

    /// Whether it is as wanted.
    ///
    /// Cost: no memory.
    pub fn passes(self, wanted: Wanted) -> bool
        ensures { result ≡ passes wanted (status_of self) }
    {
        match wanted {
            Wanted::Answered => match self {
                Mark::Asked => false,
                Mark::Unasked | Mark::Yes | Mark::No => true,
            },
            Wanted::NotDenied => match self {
                Mark::No => false,
                Mark::Unasked | Mark::Asked | Mark::Yes => true,
            },
            Wanted::Granted => self.is_yes(),
        }
    }
}
