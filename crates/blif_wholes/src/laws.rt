ghost use Rattle.blif_wholes.specs.Laws.{HasOneRefusal, NeverBoth};

use net_faults::one_fault;

/// Tells a caller's proof that nets and atoms are refused in one way at most, and that those of a
/// netlist aren't. It does nothing.
pub fn one_whole()
    ensures one { HasOneRefusal }
    ensures never { NeverBoth }
{
    one_fault();
}
