ghost use Rattle.std.specs.Prelude.{◌≡◌, IfSome, IfNone};
ghost use Rattle.pg_index_members.specs.Forms.{rows_of};

use crate::block::Block;
use crate::edge::Edge;
use crate::level::Level;
use crate::part::Part;
use crate::row::Row;
use pg_group::Scope;
use pg_term::{Atom, Pid};
use std::alloc::{AllocError, Global};
use std::mem;

/// How the rows of a group are kept.
#[derive(Drop)]
pub enum Form {
    /// In one block, as they are at first.
    Few(Block),
    /// In levels of blocks, once they were too many for one.
    Many(Level<Level<Level<Block>>>),
}

/// Moves the rows of a full block into levels, if there is memory for these.
fn levels_of(block: &mut Block) -> Option<Level<Level<Level<Block>>>>
    ensures some { IfSome result (λ levels. levels ≡ block.old) }
    ensures none { IfNone result (block.new ≡ block.old) }
{
    if !block.is_full() {
        return None;
    }
    let alloc = block.allocator();
    let Ok(blocks) = Vec::with_capacity(alloc, 2) else {
        return None;
    };
    let Ok(lower) = Vec::with_capacity(alloc, 2) else {
        return None;
    };
    let Ok(upper) = Vec::with_capacity(alloc, 2) else {
        return None;
    };
    let whole = mem::replace(block, Block::new(alloc));
    let level = Level::of(alloc, blocks, whole);
    let level = Level::of(alloc, lower, level);
    Some(Level::of(alloc, upper, level))
}

impl Form {
    /// Puts levels in the place of a full block, if there is memory for them.
    fn grow(&mut self)
        ensures { rows_of self.new ≡ rows_of self.old }
    {
        let levels = match self {
            Form::Few(block) => levels_of(block),
            Form::Many(_) => None,
        };
        if let Some(levels) = levels {
            drop(mem::replace(self, Form::Many(levels)));
        }
    }
}

impl Part for Form {
    ghost rows = { rows_of };

    fn new(alloc: Global) -> Form {
        Form::Few(Block::new(alloc))
    }

    fn is_empty(&self) -> bool {
        match self {
            Form::Few(block) => block.is_empty(),
            Form::Many(levels) => levels.is_empty(),
        }
    }

    fn total(&self) -> u64 {
        match self {
            Form::Few(block) => block.total(),
            Form::Many(levels) => levels.total(),
        }
    }

    fn is_before(&self, edge: Edge<'_>) -> bool {
        match self {
            Form::Few(block) => block.is_before(edge),
            Form::Many(levels) => levels.is_before(edge),
        }
    }

    fn count(&self, pid: &Pid) -> u64 {
        match self {
            Form::Few(block) => block.count(pid),
            Form::Many(levels) => levels.count(pid),
        }
    }

    fn add(&mut self, pid: &Pid, more: u64) -> Result<u64, AllocError> {
        let count = match self {
            Form::Few(block) => block.add(pid, more)?,
            Form::Many(levels) => levels.add(pid, more)?,
        };
        if count == more {
            self.grow();
        }
        Ok(count)
    }

    fn take(&mut self, pid: &Pid, most: u64) -> u64 {
        match self {
            Form::Few(block) => {
                let count = block.take(pid, most);
                block.shrink();
                count
            }
            Form::Many(levels) => levels.take(pid, most),
        }
    }

    fn take_last(&mut self) -> Option<Row> {
        match self {
            Form::Few(block) => block.take_last(),
            Form::Many(levels) => levels.take_last(),
        }
    }

    fn at(&self, place: u64) -> Option<&Pid> {
        match self {
            Form::Few(block) => block.at(place),
            Form::Many(levels) => levels.at(place),
        }
    }

    fn rank(&self, edge: Edge<'_>) -> u64 {
        match self {
            Form::Few(block) => block.rank(edge),
            Form::Many(levels) => levels.rank(edge),
        }
    }

    /// The uppermost level is not split.
    fn split(&mut self) -> Result<Option<Form>, AllocError> {
        Ok(None)
    }

    fn copy(&self) -> Result<Form, AllocError> {
        match self {
            Form::Few(block) => Ok(Form::Few(block.copy()?)),
            Form::Many(levels) => Ok(Form::Many(levels.copy()?)),
        }
    }

    fn list(&self, scope: Scope<'_>, pids: &mut Vec<Pid>) -> Result<(), AllocError> {
        match self {
            Form::Few(block) => block.list(scope, pids),
            Form::Many(levels) => levels.list(scope, pids),
        }
    }
}
