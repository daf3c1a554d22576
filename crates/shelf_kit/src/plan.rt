ghost use Rattle.std.specs.Prelude.{◌≡◌, ◌≤◌, ◌↔◌, IsTrue, Contains, if◌then◌else◌};
ghost use Rattle.vtr_base.specs.Outside.{Rose};
ghost use Rattle.shelf_kit.specs.Counts.{counted};

/// Numbers the next call, and says whether it is one that is to fail. Such a call is a fault.
pub(crate) fn starts_failing(fails: &[u64], calls: &mut u64, faults: &mut u64) -> bool
    ensures planned { IsTrue result ↔ Contains fails.now calls.old }
    ensures calls { calls.new ≡ counted calls.old }
    ensures rose { IsTrue result → Rose faults.old faults.new }
    ensures count { faults.old ≤ faults.new }
    ensures faults { faults.new ≡ (if result then counted faults.old else faults.old) }
{
    let failing = fails.contains(calls);
    *calls = calls.saturating_add(1);
    if failing {
        *faults = faults.saturating_add(1);
    }
    failing
}
