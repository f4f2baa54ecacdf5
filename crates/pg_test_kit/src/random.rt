//! Numbers that look random, for tests and figures: the same ones from the same seed (PCG32, `rand_pcg`).

ghost use Rattle.std.specs.Prelude.{◌<◌};

use rand_core::utils::NextWord;
use rand_pcg::Pcg32;

/// A source of numbers.
#[derive(Drop)]
pub struct Random {
    words: Pcg32,
}

impl Random {
    /// The source of a seed.
    ///
    /// Cost: no memory.
    pub fn new(seed: u64) -> Random {
        Random {
            words: Pcg32::new(seed, 1),
        }
    }

    /// The next number, of 32 bits.
    ///
    /// Cost: no memory.
    pub fn word(&mut self) -> u32 {
        self.words.next_word()
    }

    /// A number below `limit`; 0 where that is 0.
    ///
    /// Cost: no memory.
    pub fn below(&mut self, limit: u32) -> u32
        ensures { 0 < limit → result < limit }
    {
        self.words.next_word() % limit.max(1)
    }

    /// One of these values; `None` where there is none.
    ///
    /// Cost: no memory.
    pub fn pick<'a, V>(&mut self, values: &'a [V]) -> Option<&'a V> {
        let count = u32::try_from(values.len()).unwrap_or(u32::MAX);
        values.get(self.below(count) as usize)
    }
}
