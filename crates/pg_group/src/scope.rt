ghost use Rattle.std.specs.Prelude.{◌≡◌};

use pg_term::{Atom, Pid};

/// Which members of a group are asked for (`get_members/1` and `get_local_members/1` of the pg2 manual page).
#[derive(Clone, Copy)]
pub enum Scope<'a> {
    /// All members.
    All,
    /// The members on one node.
    At(&'a Atom),
}

impl Scope<'_> {
    ghost use Rattle.pg_group.specs.Scope.{in_scope};

    /// Whether the pid is one that is asked for.
    ///
    /// Cost: no memory.
    pub fn has(&self, pid: &Pid) -> bool
        ensures { result ≡ in_scope self.now pid.now }
    {
        match self {
            Scope::All => true,
            Scope::At(node) => **node == pid.node,
        }
    }
}
