ghost use Rattle.std.specs.Prelude.{IfOk, IfErr};
ghost use Rattle.pb_expand.specs.Types.{own_modes, modes_below, modes_in_tree};
ghost use Rattle.pb_expand.specs.Refusals.{AreSound, TellsFirstIn};

use crate::graph::modes_in;
use arch_types::PbType;
use mode_edges::{EdgeError, ModeNames, PortNames};
use std::alloc::Global;

/// Whether each interconnect of a tree of pb_types names pins rightly. The first that doesn't is
/// told: pb_types in preorder, of each its modes in order, of each mode its interconnects.
pub(crate) fn check_tree(alloc: Global, block: &PbType) -> Result<(), EdgeError>
    ensures sound { IfOk result (λ _. AreSound (modes_in_tree block.now)) }
    ensures fault { IfErr result (λ e. TellsFirstIn (modes_in_tree block.now) e) }
{
    check_own(alloc, block)?;
    for mode in modes_in(block) {
        for kid in mode.kids.as_slice() {
            check_tree(alloc, kid)?;
        }
    }
    Ok(())
}

/// Whether each interconnect of the modes of one pb_type names pins rightly.
fn check_own(alloc: Global, block: &PbType) -> Result<(), EdgeError>
    ensures sound { IfOk result (λ _. AreSound (own_modes block.now)) }
    ensures fault { IfErr result (λ e. TellsFirstIn (own_modes block.now) e) }
{
    let ports = PortNames::new(alloc, block)?;
    for mode in modes_in(block) {
        let names = ModeNames::new(alloc, &ports, mode)?;
        names.check(alloc)?;
    }
    Ok(())
}
