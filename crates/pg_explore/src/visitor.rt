//! Who is lent the moments of an exploration.

ghost use Rattle.std.specs.Prelude.{List, Option, None, OnOk};
ghost use Rattle.pg_explore.specs.declared.explored.Met.{Met};
ghost use Rattle.pg_explore.specs.declared.visitor.Led.{Led};
ghost use Rattle.pg_explore.specs.Lent.{IsLent};
ghost use Rattle.pg_explore.specs.Ways.{IsLentWays};

use crate::explored::Met;
use crate::moves::Move;
use std::alloc::AllocError;

/// A step that can be made at a moment, and the place of the moment to which it leads.
#[derive(Debug, Drop)]
pub struct Led {
    pub step: Move,
    pub place: usize,
}

/// Is lent each moment of an exploration once, in the order in which they are met.
pub trait Visitor {
    /// What it was lent; `None`, where it keeps nothing of it.
    ghost lent: { Self → Option (List Met) } = { λ visitor. None };

    /// With which steps; `None`, where it keeps nothing of them.
    ghost ways: { Self → Option (List (List Led)) } = { λ visitor. None };

    /// Is lent the moment of a place, with the steps that happen there.
    ///
    /// Errors: `AllocError`, which ends the exploration.
    ///
    /// Cost: the visitor's own.
    fn visit(&mut self, place: usize, met: &Met, led: &[Led]) -> Result<(), AllocError>
        ensures lent { OnOk result (IsLent (lent self.old) (lent self.new) met.now) }
        ensures ways { OnOk result (IsLentWays (ways self.old) (ways self.new) led.now) };
}
