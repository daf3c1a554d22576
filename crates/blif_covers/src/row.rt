ghost use Rattle.std.specs.Prelude.{◌≡◌, ◌↔◌, Bool, IsTrue, MatchOption, map};
ghost use Rattle.std.specs.List.{AllPass};
ghost use Rattle.blif_covers.specs.Covers.{RowSaid};
ghost use Rattle.blif_covers.specs.Rows.{IsRow, IsRowOf, is_literal, output_word};
ghost use Rattle.blif_covers.specs.Seen.{row_seen};

/// A row of a cover.
#[derive(Clone, Copy, Debug)]
pub struct Row<'a> {
    /// A character for each input: `0`, `1`, or `-` for both values.
    pub pattern: &'a [u8],
    /// The value of the output where the row covers the inputs' values.
    pub output: bool,
}

/// Reads the words of a row of a LUT with so many inputs: the pattern and the output, or the
/// output alone where there are no inputs.
pub fn read_row<'a>(words: &[&'a str], inputs: u32) -> Option<Row<'a>>
    ensures { MatchOption result
        ((r : RowSaid) → IsRow inputs (map (λ w. w.now) words.now) r → ⊥)
        (λ r. IsRow inputs (map (λ w. w.now) words.now) (row_seen r)) }
{
    match words {
        [output] => row_of(&[], output.as_bytes(), inputs),
        [pattern, output] if !pattern.is_empty() => {
            row_of(pattern.as_bytes(), output.as_bytes(), inputs)
        }
        _ => None,
    }
}

/// The row of this pattern and this output.
fn row_of<'a>(pattern: &'a [u8], output: &[u8], inputs: u32) -> Option<Row<'a>>
    ensures { MatchOption result ((r : RowSaid) → IsRowOf inputs pattern.now output.now r → ⊥)
        (λ r. IsRowOf inputs pattern.now output.now (row_seen r)) }
{
    if pattern.len() != inputs as usize {
        return None;
    }
    if !are_literals(pattern) {
        return None;
    }
    let output = output_of(output)?;
    Some(Row { pattern, output })
}

/// Whether a text is characters `0`, `1` and `-` alone.
fn are_literals(pattern: &[u8]) -> bool
    ensures { IsTrue result ↔ AllPass is_literal pattern.now }
{
    pattern.iter().all(|b| is_literal_byte(*b))
}

fn is_literal_byte(byte: u8) -> bool
    ensures { result ≡ is_literal byte }
{
    matches!(byte, b'0' | b'1' | b'-')
}

/// The value of an output's word.
fn output_of(word: &[u8]) -> Option<bool>
    ensures { MatchOption result ((b : Bool) → word.now ≡ output_word b → ⊥)
        (λ b. word.now ≡ output_word b) }
{
    match word {
        [b'0'] => Some(false),
        [b'1'] => Some(true),
        _ => None,
    }
}
