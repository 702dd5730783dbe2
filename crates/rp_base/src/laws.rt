ghost use Rattle.std.specs.Cmp.{IsEquivalence};
ghost use Rattle.rp_base.specs.PlainValues.{equal_to};

/// Python's `==` on plain values is an equivalence: each value equals itself, two are equal both ways round, and what
/// equals one of two equal values equals the other.
pub fn equality_is_an_equivalence()
    ensures { IsEquivalence equal_to }
{}
