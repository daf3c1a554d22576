ghost use Rattle.std.specs.Prelude.{◌≡◌, ℕ, Bool, List, Some};
ghost use Rattle.elem_text.specs.declared.elem.Elem.{Elem};
ghost use Rattle.arch_types.specs.declared.arch.ArchParts.{ArchParts};
ghost use Rattle.arch_types.specs.WellFormed.{IsWellFormed};
ghost use Rattle.rr_items.specs.declared.carriers.TilePin.{TilePin};
ghost use Rattle.rr_items.specs.declared.nodes.NodeKind.{NodeKind};
ghost use Rattle.rr_nodes.specs.declared.pins.FoundPin.{FoundPin};
ghost use Rattle.rr_nodes.specs.declared.placed.PlacedNode.{PlacedNode};
ghost use Rattle.rr_places.specs.Types.{NumberedType, AreTypes};
ghost use Rattle.rr_tables.specs.Layouts.{IsLayout, IsPinOf};
ghost use Rattle.rr_tables.specs.Looks.{LayoutParts, pin_of, kind_of, HasKind};
ghost use Rattle.rr_tables.specs.Tiles.{FitTiles};

/// Tells a caller's proof that the block types of a file fit the tiles of its architecture. It does
/// nothing.
pub fn types_fit()
    ensures { (a : ArchParts) (root : Elem) (types : List NumberedType) →
        IsWellFormed a → AreTypes a.tiles root types → FitTiles a.tiles types }
{}

/// Tells a caller's proof that a pin that is found is one of the block type at its location, and
/// that it lies on one side of the block. It does nothing.
pub fn found_pins()
    ensures found { (l : LayoutParts) (x y ptc : ℕ) (found : FoundPin) →
        IsLayout l → pin_of l x y ptc ≡ Some found → IsPinOf l found.pin found.is_output }
    ensures one_side { (l : LayoutParts) (pin : TilePin) (s t : Bool) →
        IsLayout l → IsPinOf l pin s → IsPinOf l pin t → s ≡ t }
{}

/// Tells a caller's proof that a kind that is found is that of a node. It does nothing.
pub fn found_kinds()
    ensures { (nodes : List PlacedNode) (id : ℕ) (kind : NodeKind) →
        kind_of nodes id ≡ Some kind → HasKind nodes id kind }
{}
