ghost use Rattle.std.specs.Prelude.{◌↔◌, IsTrue};
ghost use Rattle.std.specs.Bool.{MatchBool};
ghost use Rattle.real_text.specs.Order.{AreRising, AreBefore, IsReached};
ghost use Rattle.real_text.specs.Steps.{IsEntered};

use pb_expand::PinIx;
use task_types::Entry;

/// Whether all entries, whose pins ascend, are at pins before this one.
pub(crate) fn are_before(entries: &[Entry], pin: PinIx) -> bool
    requires { AreRising entries.now }
    ensures { MatchBool result (AreBefore entries.now pin.0) (IsReached entries.now pin.0) }
{
    match entries.last() {
        None => true,
        Some(last) => last.pin.0 < pin.0,
    }
}

/// Whether something comes in at the pin. It goes through the entries.
pub(crate) fn is_entered(entries: &[Entry], pin: PinIx) -> bool
    ensures { IsTrue result ↔ IsEntered entries.now pin.0 }
{
    for entry in entries {
        if entry.pin.0 == pin.0 {
            return true;
        }
    }
    false
}
