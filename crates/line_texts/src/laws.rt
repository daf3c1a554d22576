ghost use Rattle.std.specs.Prelude.{ℕ, List};
ghost use Rattle.std.specs.List.{All};
ghost use Rattle.line_texts.specs.Written.{HasWrittenLines, IsWrittenLine};

/// Tells a caller's proof that a text of lines, each ended by a line feed, has these lines, one a
/// physical line. It does nothing.
pub fn text_lines()
    ensures { (texts : List (List ℕ)) → All IsWrittenLine texts → HasWrittenLines texts }
{}
