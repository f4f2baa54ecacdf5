ghost use Rattle.std.specs.Prelude.{◌≡◌};
ghost use Rattle.pg_node_opens.specs.Outlooks.{outlook_by};

/// What follows for a command that asks for the lock, by the answers that are in.
#[derive(Clone, Copy, Debug, PartialEq, Eq)]
pub enum Outlook {
    /// An answer is missing.
    Wait,
    /// One has denied, or the own node does, which alone was not asked: the attempt is given up.
    GiveUp,
    /// The rest is asked, and the command waits for the answers.
    Ask,
    /// The rest is asked, which is at most the own node, and all have granted: the update begins.
    Begin,
}

impl Outlook {
    /// By whether all asked have answered, and the round they answered goes on; and whether, once the rest is asked,
    /// all have granted, and no answer is missing.
    ///
    /// Cost: no memory.
    pub fn of(answered: bool, goes_on: bool, granted: bool, none_missing: bool) -> Outlook
        ensures { result ≡ outlook_by answered goes_on granted none_missing }
    {
        if !answered {
            Outlook::Wait
        } else if !goes_on {
            Outlook::GiveUp
        } else if granted {
            Outlook::Begin
        } else if none_missing {
            Outlook::GiveUp
        } else {
            Outlook::Ask
        }
    }
}
