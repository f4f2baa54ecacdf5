ghost use Rattle.std.specs.Prelude.{IsTrue, IsFalse};
ghost use Rattle.pg_ring.specs.Capacity.{IsCapacity, IsBadCapacity};

/// The greatest capacity of a ring, in bytes or in values. This project's own limit.
pub const MAX_CAPACITY: usize = 65_536;

/// Whether a ring may have room for this many: 1 to 65,536.
///
/// Cost: no memory.
pub fn is_capacity(cap: usize) -> bool
    ensures yes { IsTrue result → IsCapacity cap }
    ensures no { IsFalse result → IsBadCapacity cap }
{
    1 <= cap && cap <= MAX_CAPACITY
}
