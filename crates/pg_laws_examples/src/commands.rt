ghost use Rattle.std.specs.Prelude.{◌≡◌, true, false};
ghost use Rattle.pg_term.specs.declared.term.Term.{Term};
ghost use Rattle.pg_laws.specs.PgMessageTypes.Name.{is_name};
ghost use Rattle.pg_laws_examples.specs.RefusedCommands.{LargeNames, ForeignMembers, RefusedEnds};
ghost use Rattle.pg_laws_examples.specs.RefusedCommands.{ProcessesMade, LookedFor, OpenCommands};

/// Each command whose name is too large is refused so, whatever else is wrong with it.
pub fn large_names()
    ensures { (name : Term) → is_name name ≡ false → LargeNames name }
{}

/// A process of no node of the set neither joins nor leaves.
pub fn foreign_members()
    ensures { (g : Term) → is_name g ≡ true → ForeignMembers g }
{}

/// An end is refused of a foreign process, at an unformed node, of a process that was not made, and of one that has ended, in
/// this order.
pub fn refused_ends()
    ensures { RefusedEnds }
{}

/// A node makes 268,435,455 processes.
pub fn process_limit()
    ensures { ProcessesMade }
{}

/// A create of a group that is there is answered at once, and so is a join or a leave of one that is not; a delete never looks.
pub fn looked_for()
    ensures { (g : Term) → is_name g ≡ true → LookedFor g }
{}

/// A node has 256 open commands at most. A further change is refused, but for what the look answers. A
/// command that is not open is not tried again.
pub fn busy_node()
    ensures { (g : Term) → is_name g ≡ true → OpenCommands g }
{}
