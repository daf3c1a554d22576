ghost use Rattle.std.specs.Prelude.{ℕ, MatchOption};
ghost use Rattle.tree_lines.specs.Words.{IsNumber, IsNeed};

use task_types::Task;
use text_parts::{Number, number_up_to};

/// The value of decimal digits, where it is a number of 32 bits.
pub(crate) fn number(word: &[u8]) -> Option<u32>
    ensures { MatchOption result ((n : ℕ) → IsNumber word.now n → ⊥) (IsNumber word.now) }
{
    match number_up_to(word, u64::from(u32::MAX)) {
        Number::Value(value) => Some(value as u32),
        Number::NoDigits | Number::Over => None,
    }
}

/// The need of the task whose number this is.
pub(crate) fn need(word: &[u8], task: &Task) -> Option<u32>
    ensures { MatchOption result ((n : ℕ) → IsNeed task.now word.now n → ⊥)
        (IsNeed task.now word.now) }
{
    let need = number(word)?;
    if need as usize >= task.needs.len() {
        return None;
    }
    Some(need)
}
