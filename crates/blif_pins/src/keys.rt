ghost use Rattle.std.specs.Prelude.{IfOk};
ghost use Rattle.blif_pins.specs.Keys.{TakesKey};

use indexmap::IndexSet;
use std::alloc::AllocError;

/// The bits of ports that pins are at, by the ports' numbers.
pub(crate) type Keys = IndexSet<(u32, u32)>;

/// Takes a bit of a port, and tells whether it wasn't taken before.
pub(crate) fn take_key(keys: &mut Keys, key: (u32, u32)) -> Result<bool, AllocError>
    ensures { IfOk result (λ is_new. TakesKey keys.old.keys key is_new keys.new.keys) }
{
    let is_new = keys.insert(key)?;
    Ok(is_new)
}
