ghost use Rattle.std.specs.Prelude.{ℕ};
ghost use Rattle.arch_types.specs.declared.block.PbType.{PbType};
ghost use Rattle.arch_types.specs.declared.block.Mode.{Mode};
ghost use Rattle.arch_types.specs.declared.block.Inter.{Inter};
ghost use Rattle.meta_lines.specs.Features.{ListsFeatures, RefusesList};
ghost use Rattle.meta_lines.specs.Fields.{ListsChildren, RefusesChildren, ListsParams, RefusesParams};
ghost use Rattle.meta_lines.specs.Meanings.{HasOneMeaning};
ghost use Rattle.meta_lines.specs.Muxes.{ListsMux, RefusesMuxText};
ghost use Rattle.meta_lines.specs.Only.{SaysType, RefusesType, SaysField, RefusesField};
ghost use Rattle.meta_lines.specs.Prefixes.{ArePrefixes, RefusesPrefixes};

use meta_parts::one_form;

/// Tells a caller's proof that a text of each kind of metadata says one value at most, is refused in
/// one way at most, and never both. It does nothing.
pub fn one_meaning()
    ensures prefix { (count : ℕ) → HasOneMeaning (λ text prefixes. ArePrefixes text count prefixes)
        (λ text e. RefusesPrefixes text count e) }
    ensures features { HasOneMeaning ListsFeatures RefusesList }
    ensures mux { (block : PbType) (mode : Mode) (inter : Inter) →
        HasOneMeaning (λ text given. ListsMux block mode inter text given)
        (λ text e. RefusesMuxText block mode inter text e) }
    ensures kind { HasOneMeaning SaysType RefusesType }
    ensures lut { HasOneMeaning SaysField RefusesField }
    ensures children { HasOneMeaning ListsChildren RefusesChildren }
    ensures params { HasOneMeaning ListsParams RefusesParams }
{
    one_form();
    mode_edges::one_reading();
}
