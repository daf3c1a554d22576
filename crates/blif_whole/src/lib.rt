//! Every file is made of lines: the law that whoever reads a BLIF file (Berkeley Logic Interchange
//! Format) only as far as its first refused line still speaks of all its lines.
#![tactic(auto)]

ghost use Rattle.std.specs.Prelude.{ℕ, List};
ghost use Rattle.blif_whole.specs.Whole.{HasLines};

/// Tells a caller's proof that physical lines make a list of lines, whatever stands in them. It
/// does nothing.
pub fn every_file_has_lines()
    ensures { (number : ℕ) (physical : List (List ℕ)) → HasLines number physical }
{}
