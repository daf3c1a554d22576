ghost use Rattle.arch_rules.specs.Laws.{IsFineOrBroken};

/// The law of the rules, so that what `check_file` promises of its answers decides each answer: no
/// file breaks no rule and has a first one that it breaks. It does nothing.
#[tactic(auto, using(crate::proofs::Exact::fine_or_broken))]
pub fn law_of_the_rules()
    ensures { IsFineOrBroken }
{}
