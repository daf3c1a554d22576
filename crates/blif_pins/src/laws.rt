ghost use Rattle.std.specs.Prelude.{◌≡◌, ℕ, List};
ghost use Rattle.arch_types.specs.declared.arch.CellModel.{CellModel};
ghost use Rattle.blif_boxes.specs.Pins.{PinSaid};
ghost use Rattle.blif_pins.specs.Pins.{ArePins};

/// Tells a caller's proof that words say one list of pins of a box. It does nothing.
pub fn one_reading()
    ensures { (model : CellModel) (words : List (List ℕ)) (ps qs : List PinSaid)
        → ArePins model words ps → ArePins model words qs → ps ≡ qs }
{
    blif_boxes::one_reading();
}
