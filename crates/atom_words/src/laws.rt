ghost use Rattle.atom_words.specs.Laws.{AreAtomWords, AreNetWords};

use net_types::Netlist;

/// A law of netlists, for callers' proofs: the names of the nets and of the atoms are words. It
/// does nothing.
pub fn names_are_words(net: &Netlist)
    ensures nets { AreNetWords net.now.nets }
    ensures atoms { AreAtomWords net.now.atoms }
{
    net.law();
}
