ghost use Rattle.std.specs.Prelude.{◌↔◌, ℕ, List, Option, IsSome};
ghost use Rattle.arch_types.specs.declared.block.Meta.{Meta};
ghost use Rattle.arch_types.specs.declared.block.PbType.{PbType};
ghost use Rattle.arch_types.specs.declared.block.Mode.{Mode};
ghost use Rattle.arch_types.specs.declared.block.Inter.{Inter};
ghost use Rattle.meta_said.specs.Answers.{HasOneAnswer};
ghost use Rattle.meta_said.specs.Owners.{HoldsLuts, Says, IsRefused};
ghost use Rattle.meta_said.specs.declared.types.OwnerMeta.{OwnerMeta};
ghost use Rattle.meta_said.specs.Inters.{SaysInter, RefusesInter};

use meta_lines::one_meaning;

/// Tells a caller's proof that the metadata of a pb_type or of a mode says one value at most, is
/// refused in one way at most, and never both. It does nothing.
pub fn one_owner()
    ensures { (count : Option ℕ) (metas : List Meta) → HasOneAnswer (Says count metas)
        (IsRefused count metas) }
{
    one_meaning();
}

/// Tells a caller's proof the same of the metadata of an interconnect. It does nothing.
pub fn one_inter()
    ensures { (block : PbType) (mode : Mode) (inter : Inter) →
        HasOneAnswer (SaysInter block mode inter) (RefusesInter block mode inter) }
{
    one_meaning();
}

/// Tells a caller's proof that fields of LUTs are said exactly by owners that hold LUTs. It does
/// nothing.
pub fn luts_are_held()
    ensures { (count : Option ℕ) (metas : List Meta) (said : OwnerMeta) → Says count metas said
        → IsSome said.luts ↔ HoldsLuts metas }
{}
