use pg_term::{Atom, Items, Pid, Term};

/// A node as it starts.
#[derive(Debug, Drop)]
pub struct Start {
    pub name: Atom,
    /// How many processes it has made.
    pub made: u32,
    /// How many ports it has, at which commands come in.
    pub ports: u16,
    /// Its groups with their members, each as often as it joined, in the order in which its exchange lists them.
    pub groups: Items<(Term, Items<Pid>)>,
}
