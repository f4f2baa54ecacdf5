ghost use Rattle.std.specs.Prelude.{◌≡◌, ◌≤◌, ℕ, List, IsTrue};
ghost use Rattle.pg_term.specs.declared.pid.Pid.{Pid};
ghost use Rattle.pg_ends.specs.Numbers.{pid_of, number_in, is_among};

/// The processes that a node has made are those of the numbers from 1, each with a pid of its own.
pub fn numbered_from_one()
    ensures number { (node : List ℕ) (n : ℕ) → number_in (pid_of node n) ≡ n }
    ensures made { (node : List ℕ) (made n : ℕ) → 1 ≤ n → n ≤ made → IsTrue (is_among made (pid_of node n)) }
    ensures first { (made : ℕ) (pid : Pid) → IsTrue (is_among made pid) → 1 ≤ number_in pid }
    ensures last { (made : ℕ) (pid : Pid) → IsTrue (is_among made pid) → number_in pid ≤ made }
    ensures only { (made : ℕ) (pid : Pid) → IsTrue (is_among made pid) → pid ≡ pid_of pid.node (number_in pid) }
{}
