ghost use Rattle.std.specs.Prelude.{MatchOption};
ghost use Rattle.fasm_text.specs.Lines.{Giving, Gives, HasField};
ghost use Rattle.fasm_text.specs.Read.{giving_of, IsFieldOf};

use crate::field::{Field, read_field};
use crate::parts::one_word;
use crate::value::{Value, read_value};
use vtr_base::cut;

/// A field and the value that a line gives it.
#[derive(Clone, Copy)]
pub(crate) struct Given<'a> {
    pub field: Field<'a>,
    pub value: Value<'a>,
}

/// Reads what a line that isn't empty says before its comment.
pub(crate) fn read_given(said: &[u8]) -> Option<Given<'_>>
    ensures { MatchOption result ((g : Giving) → Gives said.now g → ⊥)
        (λ r. Gives said.now (giving_of r)) }
{
    let Some((left, right)) = cut(said, b'=') else {
        let field = word_of_field(said)?;
        return Some(Given {
            field,
            value: Value::One,
        });
    };
    let field = word_of_field(left)?;
    let value = read_value(one_word(right)?)?;
    Some(Given { field, value })
}

/// The field that is the one word of a text.
fn word_of_field(text: &[u8]) -> Option<Field<'_>>
    ensures { MatchOption result ((g : Giving) → HasField text.now g → ⊥)
        (λ f. IsFieldOf text.now f) }
{
    read_field(one_word(text)?)
}
