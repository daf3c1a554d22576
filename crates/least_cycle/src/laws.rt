ghost use Rattle.least_cycle.specs.Answer.{HasNoBoth, HasOneLeastCycle};

/// Where there is a ranking there is no cycle, for callers' proofs. It does nothing.
pub fn never_both()
    ensures { HasNoBoth }
{}

/// A graph has one least cycle at most, for callers' proofs. It does nothing.
pub fn one_least_cycle()
    ensures { HasOneLeastCycle }
{}
