ghost use Rattle.arch_links.specs.Laws.{AreLinkedOrNot};

/// The law of the rules, so that what `check_links` promises of its answers decides each answer: no
/// file has its parts tied together and a first place at which they aren't. It does nothing.
#[tactic(auto, using(crate::proofs::Exact::linked_or_not))]
pub fn law_of_the_links()
    ensures { AreLinkedOrNot }
{}
