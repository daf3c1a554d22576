ghost use Rattle.std.specs.Prelude.{ℕ, List};
ghost use Rattle.blif_lines.specs.Lines.{AreLines, LineSaid};
ghost use Rattle.model_words.specs.Laws.{HavePlainWords};

/// Tells a caller's proof what the words of the lines of a file are, and that all texts of lines
/// stand in the file. It does nothing.
pub fn word_law()
    ensures { (bytes : List ℕ) (ls : List LineSaid) → AreLines bytes ls
        → HavePlainWords bytes ls }
{
    blif_lines::one_reading();
}
