ghost use Rattle.blif_phases.specs.Laws.{HasOneStep, HasOneStop, NeverBoth};

/// Tells a caller's proof that a line leads to one phase and says one thing, or stops for one
/// reason, and never both. It does nothing.
pub fn one_reading()
    ensures steps { HasOneStep }
    ensures stops { HasOneStop }
    ensures never { NeverBoth }
{
    blif_lines::one_reading();
    blif_elems::one_reading();
}
