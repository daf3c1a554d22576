ghost use Rattle.std.specs.Prelude.{◌≤◌, ◌++◌, ◌∷◌, [], List, length, IfOk};
ghost use Rattle.blif_items.specs.Items.{ElemSaid, is_lut, is_latch, is_cell};
ghost use Rattle.blif_items.specs.Seen.{IsOpen};

use blif_covers::Cover;
use blif_items::{Open, Params, PinAt};
use sqlite_items::Items;
use std::alloc::{AllocError, Global};
use vtr_base::Text;

/// A `.names` without rows.
pub(crate) fn open_lut(
    alloc: Global,
    output: &str,
    inputs: Items<u32>,
    net: u32,
) -> Result<Open, AllocError>
    requires { length inputs ≤ 8 }
    ensures { IfOk result (λ next. (all : List ElemSaid)
        → IsOpen all (all ++ is_lut output.now inputs net [] ∷ []) next) }
{
    let cover = Cover::new(alloc, inputs.len() as u32)?;
    let name = Text::from_str(alloc, output)?;
    Ok(Open::Lut {
        name,
        inputs,
        output: net,
        cover,
    })
}

/// A `.latch` with its nets: data, output and control.
pub(crate) fn open_latch(
    alloc: Global,
    output: &str,
    nets: (u32, u32, u32),
) -> Result<Open, AllocError>
    ensures { IfOk result (λ next. (all : List ElemSaid)
        → IsOpen all (all ++ is_latch output.now nets.0 nets.1 nets.2 ∷ []) next) }
{
    let (loaded, made, control) = nets;
    let name = Text::from_str(alloc, output)?;
    Ok(Open::Latch {
        name,
        loaded,
        made,
        control,
    })
}

/// A box without parameters.
pub(crate) fn open_box(alloc: Global, name: Text, model: u32, pins: Items<PinAt>) -> Open
    ensures { (all : List ElemSaid) → IsOpen all (all ++ is_cell name model pins [] ∷ []) result }
{
    Open::Box {
        name,
        model,
        pins,
        params: Params::new(alloc),
    }
}
