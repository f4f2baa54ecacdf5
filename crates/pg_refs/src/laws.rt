ghost use Rattle.std.specs.Prelude.{◌≡◌, ◌<◌, ◌^◌, ℕ, List};
ghost use Rattle.pg_refs.specs.Numbered.{numbered, number_in};

/// No two references of a node are one, and the number of a reference can be read from it.
pub fn fresh_references()
    ensures number { (node : List ℕ) (c : ℕ) → number_in (numbered node c) ≡ c }
    ensures different { (node : List ℕ) (c d : ℕ) → numbered node c ≡ numbered node d → c ≡ d }
{}
