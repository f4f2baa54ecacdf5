ghost use Rattle.std.specs.Prelude.{◌≡◌, None, OnOk, OnErr};
ghost use Rattle.pg_group.specs.Ended.{ended_of};
ghost use Rattle.pg_group.specs.Table.{changed, Adds, HasRoom};

use crate::ended::Ended;
use crate::rows::{self, Rows, create, delete, join, leave};
use crate::scope::Scope;
use crate::table::GroupTable;
use crate::update::Update;
use pg_term::{Atom, Items, Pid, Term};
use std::alloc::{AllocError, Global};
use std::collections::BTreeMap;

/// The plain table: a row for each group, ordered by name, with a count for each member, ordered by pid. A pid that
/// is no member any more leaves no trace.
#[derive(Drop)]
pub struct RowTable {
    rows: Rows,
    alloc: Global,
}

impl RowTable {
    ghost use Rattle.pg_group.specs.Rows.{table_of};

    /// No group.
    ///
    /// Cost: no memory.
    pub fn new(alloc: Global) -> RowTable
        ensures { table_of result.rows ≡ (λ name. None) }
    {
        RowTable {
            rows: BTreeMap::new(alloc),
            alloc,
        }
    }
}

impl GroupTable for RowTable {
    ghost use Rattle.pg_group.specs.Rows.{table_of};

    ghost contents = { λ table. table_of table.rows };

    fn has(&self, name: &Term) -> bool {
        self.rows.contains_key(name)
    }

    /// Only a group that is made and a new member take memory.
    fn apply(&mut self, update: &Update, ended: &Ended) -> Result<(), AllocError>
        requires { HasRoom (table_of self.old.rows) update.now }
        ensures ok { OnOk result
            (table_of self.new.rows ≡ changed (table_of self.old.rows) update.now (ended_of ended.now)) }
        ensures err { OnErr result (table_of self.new.rows ≡ table_of self.old.rows) }
        ensures memory { OnErr result (Adds (table_of self.old.rows) update.now (ended_of ended.now)) }
    {
        match update {
            Update::Create(name) => create(&mut self.rows, self.alloc, name),
            Update::Delete(name) => {
                self.delete(name);
                Ok(())
            }
            Update::Join(_, pid) if ended.has(pid) => Ok(()),
            Update::Join(name, pid) => join(&mut self.rows, name, pid),
            Update::Leave(name, pid) => {
                self.leave(name, pid);
                Ok(())
            }
        }
    }

    fn delete(&mut self, name: &Term) {
        delete(&mut self.rows, name);
    }

    fn leave(&mut self, name: &Term, pid: &Pid) {
        leave(&mut self.rows, name, pid);
    }

    fn merge(&mut self, name: &Term, members: &[Pid], ended: &Ended) -> Result<(), AllocError> {
        rows::merge(&mut self.rows, self.alloc, name, members, ended)
    }

    /// Into a copy of the table, whatever its size.
    fn merge_absent(
        &mut self,
        groups: Vec<(Term, Items<Pid>)>,
        ended: &Ended,
    ) -> Result<(), AllocError> {
        let mut rows = rows::copy(&self.rows, self.alloc)?;
        rows::merge_all(&mut rows, self.alloc, groups.as_slice(), ended)?;
        self.rows = rows;
        Ok(())
    }

    fn drop_pid(&mut self, pid: &Pid) {
        rows::drop_pid(&mut self.rows, pid);
    }

    fn drop_node(&mut self, node: &Atom) {
        rows::drop_node(&mut self.rows, node);
    }

    fn groups(&self) -> Result<Vec<Term>, AllocError> {
        let mut names = Vec::with_capacity(self.alloc, self.rows.len())?;
        for name in self.rows.keys() {
            names.push(name.copy(self.alloc)?)?;
        }
        Ok(names)
    }

    fn count(&self, name: &Term, pid: &Pid) -> u64 {
        match self.rows.get(name) {
            Some(members) => members.count(pid),
            None => 0,
        }
    }

    fn size(&self, name: &Term, scope: Scope<'_>) -> Option<u64> {
        match self.rows.get(name) {
            Some(members) => Some(members.size(scope)),
            None => None,
        }
    }

    fn pid_at(&self, name: &Term, scope: Scope<'_>, place: u64) -> Option<&Pid> {
        match self.rows.get(name) {
            Some(members) => members.pid_at(scope, place),
            None => None,
        }
    }

    /// By one walk over the group.
    fn list(&self, alloc: Global, name: &Term, scope: Scope<'_>) -> Result<Vec<Pid>, AllocError> {
        match self.rows.get(name) {
            Some(members) => members.list(alloc, scope),
            None => Ok(Vec::new(alloc)),
        }
    }

    fn copy(&self) -> Result<RowTable, AllocError> {
        Ok(RowTable {
            rows: rows::copy(&self.rows, self.alloc)?,
            alloc: self.alloc,
        })
    }
}
