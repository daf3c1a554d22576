ghost use Rattle.arch_files.specs.Laws.{SpellsOneArch, IsReadWhereSpelled};

/// The laws of architecture files, so that what `read_arch` promises of its answers decides each
/// answer: a file spells one architecture at most, and one that spells one breaks no rule. It does
/// nothing.
pub fn laws_of_files()
    ensures one { SpellsOneArch }
    ensures read { IsReadWhereSpelled }
{}
