ghost use Rattle.std.specs.Prelude.{◌≡◌, ◌++◌, ◌↔◌, not, List, IfOk, IfErr, OnOk, IsTrue};
ghost use Rattle.std.specs.List.{AllPass};
ghost use Rattle.fasm_text.specs.Sets.{NamedBit, IsDividedAt};
ghost use Rattle.fasm_text.specs.Texts.{LineSets, TextSets, RefusesLine, RefusesText};

use crate::line::read_given;
use crate::parts::{are_blanks, before_comment};
use crate::value::put_bits;
use crate::{FasmError, SetBits};
use std::alloc::Global;
use text_parts::next_line;

/// Reads FASM text: a line is empty, or a field (`NAME`, `NAME[n]` or `NAME[hi:lo]`) with or
/// without `= VALUE`, and `#` begins a comment. Annotations are refused. The first line that breaks
/// a rule is told.
pub fn read_fasm(alloc: Global, bytes: &[u8]) -> Result<SetBits, FasmError>
    ensures sets { IfOk result (λ set. TextSets bytes.now set) }
    ensures refused { IfErr result (RefusesText bytes.now) }
{
    let mut set = SetBits::new(alloc);
    let mut bits = Vec::new(alloc);
    let mut rest = bytes;
    let mut number: u32 = 1;
    while let Some((line, behind)) = next_line(rest) {
        read_line(line, number, &mut bits, &mut set)?;
        number = number.saturating_add(1);
        rest = behind;
    }
    Ok(set)
}

/// Appends the bits that a line sets. `bits` has no meaning before and after.
fn read_line(
    line: &[u8],
    number: u32,
    bits: &mut Vec<bool>,
    set: &mut SetBits,
) -> Result<(), FasmError>
    ensures sets { OnOk result
        ((here : List NamedBit) × LineSets line.now here × (set.new ≡ set.old ++ here)) }
    ensures refused { IfErr result (RefusesLine line.now number) }
{
    let said = before_comment(line);
    if are_blanks(said) {
        return Ok(());
    }
    let Some(given) = read_given(said) else {
        return Err(FasmError::BadFasm { line: number });
    };
    put_bits(bits, &given.value)?;
    let width = (given.field.range.hi - given.field.range.lo) as usize + 1;
    let (inside, past) = divided(bits, width);
    if !are_off(past) {
        return Err(FasmError::ValueWide { line: number });
    }
    set.add(given.field.name, given.field.range.lo, inside)?;
    Ok(())
}

/// The first bits, up to so many, and those behind them.
fn divided(bits: &[bool], width: usize) -> (&[bool], &[bool])
    ensures { IsDividedAt width bits.now result.0.now result.1.now }
{
    if bits.len() < width {
        return (bits, &[]);
    }
    bits.split_at(width)
}

/// Whether no bit is on.
fn are_off(bits: &[bool]) -> bool
    ensures { IsTrue result ↔ AllPass not bits.now }
{
    bits.iter().all(|on| !*on)
}
