ghost use Rattle.std.specs.Prelude.{◌≡◌, ◌⊎◌, IfOk, IfErr};
ghost use Rattle.meta_lines.specs.declared.error.LineError.TheVariants.{OutOfMemory};
ghost use Rattle.meta_said.specs.Inters.{SaysInter, RefusesInter};

use crate::firsts::first_text;
use arch_types::Inter;
use meta_lines::{LineError, PinFeatures, read_mux};
use mode_edges::ModeNames;
use sqlite_items::Items;
use std::alloc::Global;

/// The features of an interconnect's input pins, where it has a `fasm_mux`; `names` are those of
/// its mode. A pin without a line has none.
pub fn read_inter(
    alloc: Global,
    names: &ModeNames<'_, '_>,
    inter: &Inter,
) -> Result<Option<Items<PinFeatures>>, LineError>
    ensures ok { IfOk result (λ given. SaysInter names.now.block names.now.mode inter.now given) }
    ensures refused { IfErr result (λ e.
        (e ≡ OutOfMemory) ⊎ RefusesInter names.now.block names.now.mode inter.now e) }
{
    let Some(text) = first_text(inter.metas.as_slice(), b"fasm_mux") else {
        return Ok(None);
    };
    Ok(Some(read_mux(alloc, names, inter, text)?))
}
