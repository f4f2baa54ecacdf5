ghost use Rattle.std.specs.Prelude.{◌≡◌, ◌≤◌, List, ℕ, [], ◌++◌, length, take, drop};

/// Where bytes can be put, to be taken in the same order elsewhere.
pub trait Link {
    /// `accepts a xs b`: the link `a` became `b` by taking in the bytes `xs`, in this order.
    ghost accepts: { Self → List ℕ → Self → Type 0 };

    /// `moves a offered count`: of `offered` bytes the link `a` takes in `count`.
    ghost moves: { Self → ℕ → ℕ → Type 0 };

    /// Appends the first bytes of `bytes` to what was sent, as many as the link takes now, and returns how many: none
    /// where the link is full. It never waits.
    ///
    /// Cost: no memory; O(bytes moved).
    fn put(&mut self, bytes: &[u8]) -> usize
        ensures within { result ≤ length bytes.now }
        ensures moved { accepts self.old (take result bytes.now) self.new }
        ensures many { moves self.old (length bytes.now) result };

    // A link that took in nothing may be as it was.
    ghost rests: { (a : Self) → accepts a [] a };

    // What is taken in twice is taken in, one after the other.
    ghost composes: { (a b c : Self) (xs ys : List ℕ) → accepts a xs b → accepts b ys c → accepts a (xs ++ ys) c };

    // One list of bytes leads from a link to what it became.
    ghost agrees: { (a b : Self) (xs ys : List ℕ) → accepts a xs b → accepts a ys b → xs ≡ ys };

    // A link that is offered nothing may take in nothing: a `put` of nothing can be left out.
    ghost idles: { (a : Self) → moves a 0 0 };
}

/// Where the bytes that were put can be taken.
pub trait Inlet {
    /// `gives a xs b`: the inlet `a` became `b` by giving the bytes `xs`, in this order.
    ghost gives: { Self → List ℕ → Self → Type 0 };

    /// `moves a asked count`: where `asked` bytes are asked for, the inlet `a` gives `count`.
    ghost moves: { Self → ℕ → ℕ → Type 0 };

    /// Fills the first places of `into` with the next unread bytes, as many as there are now, and returns how many;
    /// the other places stay. None where nothing is unread. It never waits.
    ///
    /// Cost: no memory; O(bytes moved).
    fn take(&mut self, into: &mut [u8]) -> usize
        ensures within { result ≤ length into.old }
        ensures moved { gives self.old (take result into.new) self.new }
        ensures others { drop result into.new ≡ drop result into.old }
        ensures many { moves self.old (length into.old) result };

    // An inlet that gave nothing may be as it was.
    ghost rests: { (a : Self) → gives a [] a };

    // What is given twice is given, one after the other.
    ghost composes: { (a b c : Self) (xs ys : List ℕ) → gives a xs b → gives b ys c → gives a (xs ++ ys) c };

    // One list of bytes leads from an inlet to what it became.
    ghost agrees: { (a b : Self) (xs ys : List ℕ) → gives a xs b → gives a ys b → xs ≡ ys };
}
