//! A node over bytes that can't announce its groups says why, whichever growth of memory is refused.

ghost use Rattle.std.specs.Prelude.{◌≡◌, ◌≤◌, ◌^◌, None, IfOk};
ghost use Rattle.pg_term.specs.declared.pid.Pid.{Pid};
ghost use Rattle.pg_term.specs.declared.term.Term.{Term};
ghost use Rattle.pg_group.specs.Value.{count_in};
ghost use Rattle.pg_group.specs.Table.{HasRoom};

use pg_group::{Ended, GroupTable, Update, one_more_at_most};
use pg_node::{GroupsByPlace, IndexTable, Node, NodeConfig};
use pg_term::faults::{NOT_A_MESSAGE, OUT_OF_MEMORY};
use pg_term::{Atom, Items, Term};
use std::alloc::{AllocError, Global};
use std::process::Abort;

// The table after its first update.
fn updated<T: GroupTable + Drop>(alloc: Global, table: T, update: &Update) -> Result<T, AllocError>
    requires empty { T.contents table ≡ (λ name. None) }
    requires room { HasRoom (T.contents table) update.now }
    ensures { IfOk result (λ after. (name : Term) (pid : Pid) → count_in (T.contents after name) pid ≤ 2 ^ 32) }
{
    one_more_at_most();
    let mut after = table;
    after.apply(update, &Ended::new(alloc))?;
    Ok(after)
}

// The number of the fault by which a node of this table does not begin.
fn fault_of<T: GroupsByPlace + Drop>(alloc: Global, own: Atom, table: T) -> Option<u8>
    requires { (name : Term) (pid : Pid) → count_in (T.contents table name) pid ≤ 2 ^ 32 }
{
    let peers = Vec::new(alloc);
    let config = NodeConfig {
        own,
        peers,
        made: 0,
        ports: 1,
    };
    match Node::new(alloc, config, table) {
        Ok(node) => {
            drop(node);
            None
        }
        Err(fault) => Some(fault.number()),
    }
}

// The same, where the table has a group with a name of so many bytes.
fn begin(alloc: Global, bytes: usize) -> Result<Option<u8>, AllocError> {
    let name = match Vec::from_elem(alloc, 0, bytes) {
        Ok(name) => name,
        Err(AllocError) => return Err(AllocError),
    };
    let Ok(own) = Atom::new(alloc, "a") else {
        drop(name);
        return Err(AllocError);
    };
    let create = Update::Create(Term::Binary(Items::from_vec(name)));
    let told = match updated(alloc, IndexTable::new(alloc), &create) {
        Ok(table) => Ok(fault_of(alloc, own, table)),
        Err(AllocError) => {
            drop(own);
            Err(AllocError)
        }
    };
    drop(create);
    told
}

#[test]
fn name_too_large(rt: HostRuntime) {
    // Where the first call has no memory for its table, the second has.
    let one = begin(rt.alloc(), 1030);
    let other = begin(rt.alloc(), 1030);
    let told = Ok(Some(NOT_A_MESSAGE));
    assert!(rt; one == told || other == told, "one");
    assert!(rt; one == told || one == Err(AllocError), "first");
    assert!(rt; other == told || other == Err(AllocError), "second");
}

#[test]
fn name_that_fits(rt: HostRuntime) {
    let one = begin(rt.alloc(), 1000);
    let other = begin(rt.alloc(), 1000);
    let lacks = Ok(Some(OUT_OF_MEMORY));
    assert!(rt; one == Ok(None) || other == Ok(None), "one");
    assert!(rt;
        one == Ok(None) || one == lacks || one == Err(AllocError),
        "first"
    );
    assert!(rt;
        other == Ok(None) || other == lacks || other == Err(AllocError),
        "second"
    );
}
