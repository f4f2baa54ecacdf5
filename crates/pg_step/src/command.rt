use pg_term::{Pid, Term};

/// What a client asks of its node.
#[derive(Debug, Drop)]
pub enum Command {
    /// Makes an absent group empty (`create/1` of the pg2 manual page).
    Create(Term),
    /// Makes a group absent (`delete/1`).
    Delete(Term),
    /// Adds a process to a group once more (`join/2`).
    Join(Term, Pid),
    /// Takes a process out of a group once (`leave/2`).
    Leave(Term, Pid),
    /// Makes a process on the node.
    Make,
    /// Ends a process of the node.
    Finish(Pid),
    /// Asks for all members of a group (`get_members/1`).
    Members(Term),
    /// Asks for the members of a group on the node (`get_local_members/1`).
    LocalMembers(Term),
    /// Asks for the names of all groups (`which_groups/0`).
    WhichGroups,
    /// Asks for the member that a word picks (`get_closest_pid/1`).
    Closest(Term, u32),
}

/// A command by the port that gave it and its number there: 1, 2, .. in the order of the port's commands.
#[derive(Clone, Copy, Debug, PartialEq, Eq)]
pub struct OpId {
    pub port: u16,
    pub number: u32,
}
