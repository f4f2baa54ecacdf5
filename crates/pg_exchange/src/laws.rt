ghost use Rattle.std.specs.Prelude.{◌≡◌, Bool};
ghost use Rattle.pg_term.specs.declared.pid.Pid.{Pid};
ghost use Rattle.pg_term.specs.declared.term.Term.{Term};
ghost use Rattle.pg_group.specs.Value.{less, merge};
ghost use Rattle.pg_group.specs.Table.{Table};
ghost use Rattle.pg_exchange.specs.GroupList.{GroupList, all_merged, announced_table, IsSnapshot};

use pg_group::{left_out_at_once, merged_in_any_order};
use pg_term::equality;

/// An exchange merges each group of a table with what is announced of it, without the ended; a snapshot announces the
/// table that it was taken of.
pub fn exchange_merges_tables()
    ensures taken { (table : Table) (groups : GroupList) (ended : Pid → Bool) (name : Term)
        → all_merged table groups ended name ≡ merge (table name) (less (announced_table groups name) ended) }
    ensures announced { (table : Table) (groups : GroupList) (name : Term)
        → IsSnapshot table groups → announced_table groups name ≡ table name }
    ensures snapshot { (table other : Table) (groups : GroupList) (ended : Pid → Bool) (name : Term)
        → IsSnapshot other groups
        → all_merged table groups ended name ≡ merge (table name) (less (other name) ended) }
{
    equality();
    merged_in_any_order();
    left_out_at_once();
}
