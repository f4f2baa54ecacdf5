//! Places by a number.

ghost use Rattle.std.specs.Prelude.{◌≡◌, length};

use std::alloc::{AllocError, Global};

/// How many bins there are.
const BINS: usize = 65_536;

/// A place, and the number under which it is found.
#[derive(Clone, Copy, Debug)]
pub(crate) struct Spot {
    pub(crate) number: u64,
    pub(crate) place: usize,
}

/// The places of some numbers.
#[derive(Drop)]
pub(crate) struct Bin {
    spots: Vec<Spot>,
}

impl Bin {
    ghost use Rattle.std.specs.Prelude.{◌++◌, ◌∷◌, [], OnOk, OnErr};
    ghost use Rattle.pg_explore.specs.Bins.{spots_in};

    /// One more.
    ///
    /// Errors: `AllocError`, by which nothing changes.
    fn add(&mut self, spot: Spot) -> Result<(), AllocError>
        ensures ok { OnOk result (spots_in self.new ≡ spots_in self.old ++ spot ∷ []) }
        ensures err { OnErr result (spots_in self.new ≡ spots_in self.old) }
    {
        self.spots.push(spot)?;
        Ok(())
    }
}

/// Places by a number: those of one number are in one bin.
#[derive(Drop)]
pub(crate) struct Bins {
    bins: Vec<Bin>,
    ghost size: { length bins.items ≡ 65536 },
}

impl Bins {
    ghost use Rattle.std.specs.Prelude.{◌<◌, OnOk};
    ghost use Rattle.std.specs.List.{Contains};
    ghost use Rattle.pg_explore.specs.Bins.{Keeps, bin_of, spots_of};

    /// Empty bins.
    ///
    /// Errors: `AllocError`.
    pub(crate) fn new(alloc: Global) -> Result<Bins, AllocError> {
        let mut bins = Vec::with_capacity(alloc, BINS)?;
        for place in 0..BINS {
            bins.push(Bin {
                spots: Vec::new(alloc),
            })?;
        }
        Ok(Bins { bins })
    }

    /// The bin of a number. It takes no memory.
    pub(crate) fn bin(&self, number: u64) -> &[Spot]
        ensures { result.now ≡ spots_of self.now number }
    {
        let bin = &self.bins[Bins::bin_of(number)];
        bin.spots.as_slice()
    }

    /// Puts a place into the bin of its number.
    ///
    /// Errors: `AllocError`.
    pub(crate) fn add(&mut self, number: u64, place: usize) -> Result<(), AllocError>
        ensures added { OnOk result (Contains (spots_of self.new number) (record { number = number; place = place })) }
        ensures kept { Keeps self.old self.new }
    {
        let bin = &mut self.bins[Bins::bin_of(number)];
        bin.add(Spot { number, place })
    }

    /// Which bin is that of a number.
    fn bin_of(number: u64) -> usize
        ensures value { result ≡ bin_of number }
        ensures small { result < 65_536 }
    {
        (number >> 48) as usize
    }
}
