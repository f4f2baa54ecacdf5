//! Where a node is told of the losses of its peers.

ghost use Rattle.std.specs.Prelude.{◌≡◌, ◌⊎◌, ◌<◌, [], ◌∷◌, length, IfSome, IfNone};

use pg_node::SlotIn;

/// How many notices are on their way to a node at most.
pub const NOTICE_PLACES: usize = 16;

/// The loss of a peer, as a node is told of it.
#[derive(Clone, Copy, Debug, PartialEq, Eq)]
pub struct Notice {
    /// The place of the peer among the peers of the node.
    pub peer: usize,
    /// The clock of the peer at last.
    pub last: u32,
}

/// Where notices come, and that of which the loss is to be seen next.
#[derive(Drop)]
pub(crate) struct Notices {
    pub inlet: SlotIn<Notice>,
    next: Option<Notice>,
}

impl Notices {
    ghost use Rattle.pg_node.specs.PgRing.Slots.{slots_left, taken};
    ghost use Rattle.pg_node_run.specs.Notices.{NoticesGo, inlet_of, kept_of};

    /// Where notices come, of which none is to be seen yet.
    ///
    /// Cost: no memory.
    pub fn new(inlet: SlotIn<Notice>) -> Notices
        ensures inlet { inlet_of result ≡ inlet }
        ensures kept { kept_of result ≡ [] }
    {
        Notices { inlet, next: None }
    }

    /// The notice of which the loss is to be seen next, if one came.
    ///
    /// Cost: no memory.
    pub fn next(&mut self) -> Option<Notice>
        ensures goes { NoticesGo [] self.old self.new }
        ensures some { IfSome result (λ notice. kept_of self.new ≡ notice ∷ []) }
        ensures none { IfNone result (kept_of self.new ≡ []) }
        ensures looked { kept_of self.old ≡ []
            → (slots_left (inlet_of self.new) ≡ []) ⊎ (length (taken (inlet_of self.old)) < length (taken (inlet_of self.new))) }
    {
        match self.next {
            Some(notice) => Some(notice),
            None => {
                self.next = self.inlet.take_one();
                self.next
            }
        }
    }

    /// The loss in the next notice was seen.
    ///
    /// Cost: no memory.
    pub fn pass(&mut self)
        ensures inlet { inlet_of self.new ≡ inlet_of self.old }
        ensures kept { kept_of self.new ≡ [] }
    {
        self.next = None;
    }
}
