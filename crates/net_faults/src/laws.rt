ghost use Rattle.net_faults.specs.Laws.{HasOneFault};

use least_cycle::{never_both, one_least_cycle};

/// Tells a caller's proof that one net at most is the first without a driver, that one cycle
/// through LUTs at most is the least, and that neither is there where nets have drivers and LUTs
/// have ranks. It does nothing.
pub fn one_fault()
    ensures { HasOneFault }
{
    never_both();
    one_least_cycle();
}
