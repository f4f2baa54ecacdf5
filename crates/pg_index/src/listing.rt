/// What a pid says of a process beside its node. Compared by serial, id and creation.
#[derive(Clone, Copy, Debug, PartialEq, Eq, PartialOrd, Ord)]
pub struct Process {
    pub serial: u32,
    pub id: u32,
    pub creation: u32,
}

/// That a process of some node is a member of a group. The listings of a process are together, in the order of
/// groups.
#[derive(Clone, Copy, Debug, PartialEq, Eq, PartialOrd, Ord)]
pub struct Listing {
    pub process: Process,
    /// The group's number.
    pub group: u32,
}
