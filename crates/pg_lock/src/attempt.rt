ghost use Rattle.std.specs.Prelude.{◌≡◌};

/// How far a command is with the lock of its group at all nodes, in the manner of `global:trans/3` of the global
/// manual page, in two rounds: the greatest node is asked alone, and the rest once it has granted.
#[derive(Clone, Copy, Debug, PartialEq, Eq)]
pub enum Attempt {
    /// An attempt was given up, and the command waits for its retry.
    Waiting,
    /// The greatest node is asked.
    AskingFirst,
    /// The greatest node has granted, and the rest are asked.
    AskingRest,
    /// Every node has granted.
    Held,
}

impl Attempt {
    ghost use Rattle.pg_lock.specs.Attempts.{first_attempt, after_round, retry_of, does_wait};

    /// The attempt of a new command.
    ///
    /// Cost: no memory.
    pub fn new() -> Attempt
        ensures { result ≡ first_attempt }
    {
        Self::AskingFirst
    }

    /// What follows once all nodes that were asked in the round have answered. `granted`: each of them has granted.
    /// Where nobody is asked, nothing follows.
    ///
    /// Cost: no memory.
    pub fn after_round(self, granted: bool) -> Attempt
        ensures { result ≡ after_round self granted }
    {
        match self {
            Attempt::AskingFirst if granted => Attempt::AskingRest,
            Attempt::AskingRest if granted => Attempt::Held,
            Attempt::AskingFirst | Attempt::AskingRest => Attempt::Waiting,
            Attempt::Waiting | Attempt::Held => self,
        }
    }

    /// A new attempt of a command that waits; `None` for one that does not.
    ///
    /// Cost: no memory.
    pub fn retried(self) -> Option<Attempt>
        ensures { result ≡ retry_of self }
    {
        if self.waits() {
            Some(Attempt::new())
        } else {
            None
        }
    }

    /// Whether the command waits for its retry.
    ///
    /// Cost: no memory.
    pub fn waits(self) -> bool
        ensures { result ≡ does_wait self }
    {
        self == Attempt::Waiting
    }
}
