ghost use Rattle.std.specs.Prelude.{◌<◌, ℕ, List, length};
ghost use Rattle.vtr_base.specs.Lists.{Has};
ghost use Rattle.arch_types.specs.declared.arch.CellModel.{CellModel};
ghost use Rattle.blif_boxes.specs.Pins.{PinSaid};
ghost use Rattle.blif_books.specs.Books.{BookSaid};
ghost use Rattle.blif_items.specs.declared.elem.PinAt.{PinAt as Placed};
ghost use Rattle.blif_items.specs.Items.{outs_of};
ghost use Rattle.blif_items.specs.Pins.{PlacesPins};

/// Tells a caller's proof that the nets at outputs of a box are mentioned. It does nothing.
pub fn outputs_are_nets()
    ensures { (model : CellModel) (ps : List PinSaid) (old new : BookSaid) (pins : List Placed)
        (net : ℕ) → PlacesPins model ps old new pins → Has (outs_of pins) net
        → net < length new.nets }
{}
