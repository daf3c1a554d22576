ghost use Rattle.atom_lists.specs.Laws.{SpellsOneList, IsReadWhereSpelled, RefusesInOneWay};

use net_types::Netlist;

/// The laws of the text, so that what `read_atoms` promises of its answers decides each answer: a
/// text spells at most one list of atoms, one that spells a list is refused by want of memory
/// alone, and else it is refused in one way. It does nothing.
pub fn laws_of_lists(net: &Netlist)
    ensures one { SpellsOneList net.now.atoms }
    ensures read { IsReadWhereSpelled net.now.atoms }
    ensures refused { RefusesInOneWay net.now.atoms }
{
    net.law();
}
