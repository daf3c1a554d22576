ghost use Rattle.std.specs.Prelude.{◌≡◌, ◌^◌, ℕ, List};
ghost use Rattle.arch_types.specs.Address.{Address};
ghost use Rattle.arch_types.specs.declared.block.PbType.{PbType};
ghost use Rattle.meta_lines.specs.declared.types.Field.{Field};
ghost use Rattle.lut_widths.specs.Fields.{width_of};
ghost use Rattle.meta_block.specs.declared.types.OwnerSaid.{OwnerSaid};
ghost use Rattle.meta_block.specs.Blocks.{SaysBlock};
ghost use Rattle.lut_fields.specs.Places.{OwnersSay};
ghost use Rattle.lut_fields.specs.LutFields.{HasField};

use meta_said::one_owner;

/// Tells a caller's proof that where the metadata of a block type says something, so does that of
/// each owner at each address of it, and that the fields of LUTs fit there. It does nothing.
pub fn owners_say()
    ensures { (block : PbType) (saids : List OwnerSaid) → SaysBlock block saids → OwnersSay block }
{}

/// Tells a caller's proof that where the metadata of a block type says something, the field of each
/// LUT has as many bits as the LUT's table. It does nothing.
pub fn fields_fit()
    ensures { (block : PbType) (saids : List OwnerSaid) → SaysBlock block saids
        → (a : Address) (k line : ℕ) (field : Field) → HasField block a k line field
        → width_of field ≡ 2 ^ k }
{
    one_owner();
}
