ghost use Rattle.blif_net.specs.Laws.{HasOneNetlist, HasOneRefusal, NeverBoth};

/// Tells a caller's proof that a file says one netlist, or is refused for one reason, and never
/// both. It does nothing.
pub fn one_netlist()
    ensures netlist { HasOneNetlist }
    ensures refusal { HasOneRefusal }
    ensures never { NeverBoth }
{
    blif_files::one_file();
    blif_wholes::one_whole();
}
