ghost use Rattle.std.specs.Prelude.{◌≡◌, Some, true};
ghost use Rattle.pg_term.specs.declared.term.Term.{Term};
ghost use Rattle.pg_laws.specs.PgMessageTypes.Name.{is_name};
ghost use Rattle.pg_laws.specs.PgStep.declared.refusal.Refusal.TheVariants.{NotLost};
ghost use Rattle.pg_laws_examples.specs.Examples.{two_nodes};
ghost use Rattle.pg_laws_examples.specs.LossExamples.{losing_start, see_refusal, ReadyByLoss, HeldUntilRetry, Drained};
ghost use Rattle.pg_laws_examples.specs.LossExamples.{LockOfTheLost, MembersOfTheLost, LossWithClocks};

/// Nobody sees the loss of a node that is there.
pub fn no_loss_to_see()
    ensures { see_refusal two_nodes (losing_start two_nodes) 0 1 ≡ Some NotLost }
{}

/// The greatest node is lost while it alone is asked for a lock. Seeing that sends nothing; the command waits, and its retry
/// asks the others under the same reference.
pub fn ready_by_loss()
    ensures { (g : Term) → is_name g ≡ true → ReadyByLoss g }
{}

/// A node is lost that alone had not answered a request for a lock. The command is ready, and keeps the lock until its retry:
/// another of its group is denied until then.
pub fn held_until_retry()
    ensures { (g : Term) → is_name g ≡ true → HeldUntilRetry g }
{}

/// A node is lost whose update is on the way to another. That one takes it before it sees the loss; who has no packet of it
/// on the way does not.
pub fn drained()
    ensures { (g : Term) → is_name g ≡ true → Drained g }
{}

/// A node is lost that holds a lock. Who sees that frees it, and the live nodes go on without the lost. A loss is seen
/// once.
pub fn lock_of_the_lost()
    ensures { (g : Term) → is_name g ≡ true → LockOfTheLost g }
{}

/// The processes of a lost node leave each group at who sees the loss, and a later join of one adds nothing.
pub fn members_of_the_lost()
    ensures { (g : Term) → is_name g ≡ true → MembersOfTheLost g }
{}

/// With clocks: who sees a loss is later than the last event of the lost node. And each reason why a loss is not seen, and
/// why a node is not lost, in its place.
pub fn loss_with_clocks()
    ensures { LossWithClocks }
{}
