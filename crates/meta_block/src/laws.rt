ghost use Rattle.arch_types.specs.declared.block.PbType.{PbType};
ghost use Rattle.meta_block.specs.Blocks.{SaysBlock, RefusesBlock};
ghost use Rattle.meta_block.specs.Answers.{HasOneAnswer};

use meta_said::{one_inter, one_owner};

/// Tells a caller's proof that the metadata of a block type says one list of values at most, is
/// refused in one way at most, and never both. It does nothing.
pub fn one_block()
    ensures { (block : PbType) → HasOneAnswer (SaysBlock block) (RefusesBlock block) }
{
    one_owner();
    one_inter();
}
