//! When a change that was denied its lock is tried again, and when the next one is handed over.

/// How many changes of a group that other nodes change too a port makes one after another.
const STREAK: u32 = 4;

/// For how many changes a group counts as changed by other nodes, once one is seen to.
const SHARED: u32 = 64;

/// What is seen of the lock of a group at the own node.
#[derive(Clone, Copy, Debug, PartialEq, Eq)]
pub enum Seen {
    /// Nobody holds it, and the node may grant it.
    Free,
    /// The own node holds it, or may not grant it yet.
    Own,
    /// Another node holds it.
    Other,
}

/// How a port gives way to other nodes that change its group, and what it saw of the lock since its change was tried.
#[derive(Clone, Copy, Debug, PartialEq, Eq)]
pub struct Courtesy {
    // How many changes were answered since another node was seen to hold the lock.
    streak: u32,
    // For how many more changes the group counts as changed by other nodes.
    shared: u32,
    // A tick came while it gave way.
    has_waited: bool,
    // Another node held the lock since the change was tried.
    saw_other: bool,
    // That the change was denied its lock was told.
    is_told: bool,
}

impl Courtesy {
    ghost use Rattle.std.specs.Prelude.{◌≡◌, ◌≤◌, ◌<◌, ◌↔◌, ◌-◌, ◌&&◌, ◌||◌, not, false, true, IsTrue};
    ghost use Rattle.pg_node_process.specs.Retries.{after_answer, after_look, after_share, after_tick, after_trial, at_first, is_due, gives_way, ticks_left};

    /// That of a port to which nothing came.
    ///
    /// Cost: no memory, here and below.
    pub fn new() -> Courtesy
        ensures value { result ≡ at_first }
        ensures ready { ticks_left result ≡ 0 }
    {
        Courtesy {
            streak: 0,
            shared: 0,
            has_waited: false,
            saw_other: false,
            is_told: false,
        }
    }

    /// Whether the next change is to wait for other nodes.
    pub fn gives_way(self) -> bool
        ensures value { result ≡ gives_way self }
        ensures ticks { IsTrue result ↔ (0 < ticks_left self) }
        ensures few { ticks_left self ≤ 2 }
    {
        self.shared > 0 && self.streak >= STREAK
    }

    /// A look at the lock of the group that the port changes, or changes next. `is_tick`: time has passed since the last look.
    pub fn look(&mut self, seen: Seen, is_tick: bool)
        ensures value { self.new ≡ after_look seen is_tick self.old }
        ensures fewer { IsTrue is_tick → ticks_left self.new ≤ ticks_left self.old - 1 }
        ensures more { ticks_left self.new ≤ ticks_left self.old }
    {
        if seen == Seen::Other {
            self.streak = 0;
            self.shared = SHARED;
            self.saw_other = true;
        } else if is_tick {
            self.tick();
        }
    }

    /// Time has passed: by the second tick a port has given way for long enough.
    fn tick(&mut self)
        ensures value { self.new ≡ after_tick self.old }
    {
        let gives_way = self.gives_way();
        if gives_way && self.has_waited {
            self.streak = 0;
        }
        self.has_waited = gives_way && !self.has_waited;
    }

    /// Other nodes change the group, too.
    pub fn share(&mut self)
        ensures value { self.new ≡ after_share self.old }
        ensures same { 0 < ticks_left self.old → ticks_left self.new ≡ ticks_left self.old }
    {
        self.shared = SHARED;
    }

    /// Whether a change that was denied its lock is tried now: where the lock is free, and another node held it since it was tried, or this
    /// is a tick.
    pub fn is_due(self, seen: Seen, is_tick: bool) -> bool
        ensures { result ≡ is_due seen is_tick self }
    {
        seen == Seen::Free && (is_tick || self.saw_other)
    }

    /// The change is tried.
    pub fn try_now(&mut self)
        ensures value { self.new ≡ after_trial self.old }
        ensures same { ticks_left self.new ≡ ticks_left self.old }
    {
        self.saw_other = false;
        self.is_told = false;
    }

    /// The change was denied its lock; whether that is to be told, as it is once for each trial.
    pub fn tell(&mut self) -> bool
        ensures value { result ≡ not self.old.is_told }
        ensures told { self.new ≡ record self.old { is_told = true } }
    {
        let is_new = !self.is_told;
        self.is_told = true;
        is_new
    }

    /// The change was answered, and the next one is tried first when it is handed over.
    pub fn close(&mut self)
        ensures value { self.new ≡ after_answer self.old }
    {
        self.streak = self.streak.saturating_add(1);
        self.shared = self.shared.saturating_sub(1);
        self.try_now();
    }
}
