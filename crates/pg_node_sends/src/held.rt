//! A value in a block of its own.

use std::alloc::Global;
use std::marker::Model;

/// A value in a block of its own, which contracts see as the value. It keeps what holds it small, and hands the value
/// back where there is no block.
#[derive(Debug, Drop)]
pub struct Held<T> {
    place: Box<T>,
}

impl<T> Model for Held<T> {
    ghost Value = { T };

    ghost coded = { T.code };

    ghost view = { λ it. it.place.value };
}

impl<T> Held<T> {
    ghost use Rattle.std.specs.Prelude.{◌≡◌, IfOk, IfErr};

    /// The value in a block.
    ///
    /// Errors: where there is no memory, the value is handed back.
    ///
    /// Cost: one allocation.
    pub fn new(alloc: Global, value: T) -> Result<Held<T>, T>
        ensures ok { IfOk result (λ it. it ≡ value) }
        ensures err { IfErr result (λ back. back ≡ value) }
    {
        match Box::new(alloc, value) {
            Ok(place) => Ok(Held { place }),
            Err(failed) => Err(failed.value),
        }
    }

    /// The value.
    ///
    /// Cost: no memory.
    pub fn get(&self) -> &T
        ensures { result.now ≡ self.now }
    {
        &self.place
    }

    /// The value, out of its block.
    ///
    /// Cost: no memory.
    pub fn into_inner(self) -> T
        ensures { result ≡ self }
    {
        let Held { place } = self;
        Box::into_inner(place)
    }

    /// The value out of its block, where there is one.
    ///
    /// Cost: no memory.
    pub fn unpack(held: Option<Held<T>>) -> Option<T>
        ensures { result ≡ held }
    {
        match held {
            Some(held) => Some(held.into_inner()),
            None => None,
        }
    }
}
