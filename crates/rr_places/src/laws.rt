ghost use Rattle.std.specs.Prelude.{◌≡◌, List};
ghost use Rattle.elem_text.specs.declared.elem.Elem.{Elem};
ghost use Rattle.arch_types.specs.declared.arch.Tile.{Tile};
ghost use Rattle.rr_items.specs.declared.switches.Switch.{Switch};
ghost use Rattle.rr_places.specs.declared.error.PlaceError.{PlaceError};
ghost use Rattle.rr_places.specs.Switches.{AreSwitches, IsSwitchRefused};
ghost use Rattle.rr_places.specs.Types.{NumberedType, AreTypes, IsTypeRefused};

use rr_items::one_item;

/// Tells a caller's proof that a file says one list of switches, and one list of block types. It
/// does nothing.
pub fn one_list()
    ensures switches { (root : Elem) (a b : List Switch)
        → AreSwitches root a → AreSwitches root b → a ≡ b }
    ensures types { (tiles : List Tile) (root : Elem) (a b : List NumberedType)
        → AreTypes tiles root a → AreTypes tiles root b → a ≡ b }
{
    one_item();
}

/// Tells a caller's proof that a file's switches and its block types are refused in one way, and
/// never where they are read. It does nothing.
pub fn one_refusal()
    ensures switches { (root : Elem) (d e : PlaceError)
        → IsSwitchRefused root d → IsSwitchRefused root e → d ≡ e }
    ensures switches_never_both { (root : Elem) (a : List Switch) (e : PlaceError)
        → AreSwitches root a → IsSwitchRefused root e → ⊥ }
    ensures types { (tiles : List Tile) (root : Elem) (d e : PlaceError)
        → IsTypeRefused tiles root d → IsTypeRefused tiles root e → d ≡ e }
    ensures types_never_both { (tiles : List Tile) (root : Elem) (a : List NumberedType)
        (e : PlaceError) → AreTypes tiles root a → IsTypeRefused tiles root e → ⊥ }
{
    one_item();
}
