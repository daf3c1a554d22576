ghost use Rattle.task_types.specs.Nets.{HasOneNet};

use net_types::Netlist;

/// A law of netlists, for callers' proofs: no atom drives two nets from one pin. It does nothing.
pub fn one_net_law(net: &Netlist)
    ensures { HasOneNet net.now.atoms }
{
    net.law();
}
