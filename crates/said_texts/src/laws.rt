ghost use Rattle.said_texts.specs.Laws.{SayStatements};

/// Tells a caller's proof that the lines of the text of a netlist say the statements of its atoms,
/// behind `.model top` and before `.end`. It does nothing.
pub fn said_texts()
    ensures { SayStatements }
{
    line_texts::text_lines();
    word_texts::text_words();
    blif_elems::keyword_lines();
}
