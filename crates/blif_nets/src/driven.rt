ghost use Rattle.std.specs.Prelude.{◌≡◌, ◌++◌, ◌∷◌, [], IfOk, MatchBool, MatchOption};
ghost use Rattle.vtr_base.specs.Lists.{Has};
ghost use Rattle.blif_nets.specs.Growth.{AddsAll, FindsKnown};

use indexmap::IndexSet;
use std::alloc::AllocError;

/// The nets that are driven, by number. Contracts see `keys`, which are in the order in which lines
/// drive them.
pub type Driven = IndexSet<u32>;

/// Drives nets, or tells the first of them that is driven already.
pub fn drive_all(driven: &mut Driven, nets: &[u32]) -> Result<Option<u32>, AllocError>
    ensures { IfOk result (λ known. MatchOption known
        (AddsAll driven.old.keys nets.now driven.new.keys)
        (FindsKnown driven.old.keys nets.now)) }
{
    for net in nets {
        if !drive(driven, *net)? {
            return Ok(Some(*net));
        }
    }
    Ok(None)
}

/// Drives a net, and tells whether it wasn't driven before.
fn drive(driven: &mut Driven, net: u32) -> Result<bool, AllocError>
    ensures { IfOk result (λ is_new. MatchBool is_new
        ((Has driven.old.keys net → ⊥) × (driven.new.keys ≡ driven.old.keys ++ net ∷ []))
        (Has driven.old.keys net)) }
{
    let is_new = driven.insert(net)?;
    Ok(is_new)
}
