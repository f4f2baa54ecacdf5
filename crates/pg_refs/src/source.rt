ghost use Rattle.std.specs.Prelude.{◌≡◌, ◌≤◌, ◌+◌, ◌^◌, ◌↔◌, Err, IfOk, OnOk, OnErr};
ghost use Rattle.pg_refs.specs.Numbered.{numbered};

use crate::fault::RefFault;
use crate::numbers::reference_of;
use pg_term::{Atom, Reference};
use std::marker::Model;

/// How many references a node makes at most.
pub const MAX_REFERENCES: u32 = 1 << 31;

// How many references share a second word.
pub(crate) const FIRST_WORDS: u32 = 1 << 18;

/// The references that a node makes: seen as the node and how many it made.
#[derive(Debug, Drop)]
pub struct RefSource {
    node: Atom,
    made: u32,
}

impl Model for RefSource {
    ghost use Rattle.std.specs.Prelude.{◌≤◌};
    ghost use Rattle.pg_refs.specs.declared.source.TheConstants.{MAX_REFERENCES};
    ghost use Rattle.pg_refs.specs.Numbered.{Made, made_code};

    ghost Value = { Made };

    ghost coded = { made_code };

    ghost view = { λ s. record { node = s.node; made = s.made } };

    ghost invariant = { λ s. s.made ≤ MAX_REFERENCES };
}

impl RefSource {
    /// No reference was made yet.
    ///
    /// Cost: no memory.
    pub fn new(node: Atom) -> RefSource
        ensures { result ≡ record { node = node; made = 0 } }
    {
        RefSource { node, made: 0 }
    }

    /// The next reference: number c, counted from 1, has creation 1 and the words `c mod 2^18`, `c div 2^18` and 0
    /// (`make_ref/0` of the erlang module makes references that are unique).
    ///
    /// Errors: `ClockFull` once 2^31 were made; else `OutOfMemory`. They change nothing.
    ///
    /// Cost: a copy of the name of the node.
    pub fn next(&mut self) -> Result<Reference, RefFault>
        ensures value { IfOk result (λ reference. reference ≡ numbered self.old.node (self.old.made + 1)) }
        ensures ok { OnOk result (self.new ≡ record self.old { made = self.old.made + 1 }) }
        ensures full { (result ≡ Err RefFault.ClockFull) ↔ (self.old.made ≡ 2 ^ 31) }
        ensures err { OnErr result (self.new ≡ self.old) }
    {
        if self.made == MAX_REFERENCES {
            return Err(RefFault::ClockFull);
        }
        let number = self.made + 1;
        let reference = reference_of(&self.node, number)?;
        self.made = number;
        Ok(reference)
    }
}
