ghost use Rattle.order_laws.specs.Laws.{LinesKeep, PinsKeep};

/// Tells a caller's proof what the lines of a netlist keep: they are its atoms, group by group, and
/// nothing is driven or named twice by them. It does nothing.
pub fn line_law()
    ensures { LinesKeep }
{}

/// Tells a caller's proof that no two pins in the line of a box are at the same bit of a port. It
/// does nothing.
pub fn pin_law()
    ensures { PinsKeep }
{}
