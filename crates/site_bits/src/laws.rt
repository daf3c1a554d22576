ghost use Rattle.std.specs.Prelude.{List};
ghost use Rattle.arch_types.specs.declared.block.PbType.{PbType};
ghost use Rattle.meta_block.specs.declared.types.OwnerSaid.{OwnerSaid};
ghost use Rattle.meta_block.specs.Blocks.{SaysBlock};
ghost use Rattle.site_bits.specs.Laws.{AreBitsOnce, HasWords};

use lut_fields::owners_say;
use meta_said::{one_inter, one_owner};

/// Tells a caller's proof that each way in a block type has one list of prefixes at most, and each
/// choice one list of bits. It does nothing.
pub fn one_list_of_bits()
    ensures { (block : PbType) → AreBitsOnce block }
{
    one_owner();
    one_inter();
}

/// Tells a caller's proof that where the metadata of a block type says something, each way in it has
/// prefixes. It does nothing.
pub fn each_way_has_words()
    ensures { (block : PbType) (saids : List OwnerSaid) → SaysBlock block saids → HasWords block }
{
    owners_say();
}
