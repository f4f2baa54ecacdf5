//! How far a plan has come.

ghost use Rattle.std.specs.Prelude.{◌≡◌, ◌↔◌, ◌-◌, IsTrue, IfOk, OnOk, slice_get};
ghost use Rattle.pg_explore.specs.Moments.{progress_of, no_progress, with_command, with_loss, with_retry};

use std::alloc::{AllocError, Global};

/// How much of what is planned of a node has come in, and how often each of its commands was tried again.
#[derive(Debug, Drop)]
pub struct Strand {
    pub come: usize,
    /// By the numbers of the commands, from 1 on.
    pub retries: Vec<u32>,
}

impl Strand {
    /// Nothing has come in. It takes no memory.
    pub(crate) fn new(alloc: Global) -> Strand
        ensures { progress_of result ≡ no_progress }
    {
        Strand {
            come: 0,
            retries: Vec::new(alloc),
        }
    }

    /// The same.
    ///
    /// Errors: `AllocError`.
    pub(crate) fn copy(&self, alloc: Global) -> Result<Strand, AllocError>
        ensures { IfOk result (λ copy. progress_of copy ≡ progress_of self.now) }
    {
        let retries = Vec::from_slice(alloc, self.retries.as_slice())?;
        Ok(Strand {
            come: self.come,
            retries,
        })
    }

    /// Whether both have come as far. It takes no memory.
    pub(crate) fn same(&self, other: &Strand) -> bool
        ensures { IsTrue result ↔ (progress_of self.now ≡ progress_of other.now) }
    {
        self.come == other.come && self.retries.as_slice() == other.retries.as_slice()
    }

    /// How often a command was tried again; `None` where it has not come in. It takes no memory.
    pub(crate) fn retries_of(&self, number: u32) -> Option<u32>
        ensures { result ≡ slice_get (progress_of self.now).retries (number - 1) }
    {
        self.retries
            .as_slice()
            .get(number.saturating_sub(1) as usize)
            .copied()
    }

    /// A command came in.
    ///
    /// Errors: `AllocError`, also where the count is 2^64 - 1.
    pub(crate) fn add_command(&mut self) -> Result<(), AllocError>
        ensures { OnOk result (progress_of self.new ≡ with_command (progress_of self.old)) }
    {
        self.count()?;
        self.retries.push(0)?;
        Ok(())
    }

    /// The node was lost.
    ///
    /// Errors: `AllocError`, where the count is 2^64 - 1.
    pub(crate) fn add_loss(&mut self) -> Result<(), AllocError>
        ensures { OnOk result (progress_of self.new ≡ with_loss (progress_of self.old)) }
    {
        self.count()
    }

    /// One more came in.
    ///
    /// Errors: `AllocError`, where the count is 2^64 - 1.
    fn count(&mut self) -> Result<(), AllocError>
        ensures { OnOk result (progress_of self.new ≡ with_loss (progress_of self.old)) }
    {
        match self.come.checked_add(1) {
            Some(come) => {
                self.come = come;
                Ok(())
            }
            None => Err(AllocError),
        }
    }

    /// A command was tried again.
    ///
    /// Errors: `AllocError`, where the count is 2^32 - 1.
    pub(crate) fn add_retry(&mut self, number: u32) -> Result<(), AllocError>
        ensures { OnOk result (progress_of self.new ≡ with_retry number (progress_of self.old)) }
    {
        let place = number.saturating_sub(1) as usize;
        if place < self.retries.len() {
            match self.retries[place].checked_add(1) {
                Some(made) => self.retries[place] = made,
                None => return Err(AllocError),
            }
        }
        Ok(())
    }
}
