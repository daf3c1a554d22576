ghost use Rattle.std.specs.Prelude.{◌≡◌, ◌<◌, ◌↔◌, Some, IsTrue};
ghost use Rattle.task_types.specs.Realises.{net_at};
ghost use Rattle.task_types.specs.Open.{MayEnterBy, SurelyEntersBy};

use pb_expand::PinIx;
use task_trail::Trail;
use task_types::{Entries, Entry};

/// Whether a net may come in at a pin: where the task leaves that open, nothing else is decided
/// there, and else it is fixed so.
pub fn may_enter(entries: &Entries, trail: &Trail, net: u32, pin: PinIx) -> bool
    requires { pin.0 < trail.now.pins }
    ensures { IsTrue result ↔ MayEnterBy entries.now trail.now.made net pin.0 }
{
    match entries {
        Entries::Fixed(entries) => is_entry(entries.as_slice(), net, pin),
        Entries::Free => match trail.entry_in(pin) {
            None => true,
            Some(None) => false,
            Some(Some(decided)) => decided == net,
        },
    }
}

/// Whether it is decided or fixed that a net comes in at a pin.
pub fn surely_enters(entries: &Entries, trail: &Trail, net: u32, pin: PinIx) -> bool
    requires { pin.0 < trail.now.pins }
    ensures { IsTrue result ↔ SurelyEntersBy entries.now trail.now.made net pin.0 }
{
    match entries {
        Entries::Fixed(entries) => is_entry(entries.as_slice(), net, pin),
        Entries::Free => match trail.entry_in(pin) {
            None => false,
            Some(None) => false,
            Some(Some(decided)) => decided == net,
        },
    }
}

/// Whether the first of some entries at a pin is that net.
fn is_entry(entries: &[Entry], net: u32, pin: PinIx) -> bool
    ensures { IsTrue result ↔ (net_at entries.now pin.0 ≡ Some net) }
{
    for entry in entries {
        if entry.pin.0 == pin.0 {
            return entry.net == net;
        }
    }
    false
}
