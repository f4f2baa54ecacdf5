/// What kind of term is at the start of some bytes. In the order of kinds in Erlang's order of terms.
#[derive(Clone, Copy, Debug, PartialEq, Eq)]
pub enum Kind {
    /// An integer.
    Integer,
    /// An atom.
    Atom,
    /// A reference.
    Reference,
    /// A process identifier.
    Pid,
    /// A tuple.
    Tuple,
    /// A list.
    List,
    /// A binary.
    Binary,
}
