ghost use Rattle.std.specs.Prelude.{◌≡◌, ◌++◌, [], OnOk, if◌then◌else◌};
ghost use Rattle.blif_text.specs.Rows.{low_text, pattern_text, row_text, rows_text};

use std::alloc::AllocError;
use vtr_base::Bits;

/// Appends a row with output 1 for each index at which a table of so many inputs is on.
pub(crate) fn put_rows(out: &mut Vec<u8>, inputs: usize, table: &Bits) -> Result<(), AllocError>
    ensures { OnOk result (out.new.items ≡ out.old.items ++ rows_text inputs 0 table.now) }
{
    for index in 0..table.len() {
        put_row_where(out, inputs, index, table.get(index))?;
    }
    Ok(())
}

/// Appends the row of an index where the table is on there.
fn put_row_where(
    out: &mut Vec<u8>,
    inputs: usize,
    index: u32,
    is_on: bool,
) -> Result<(), AllocError>
    ensures { OnOk result (out.new.items ≡ out.old.items
        ++ (if is_on then row_text inputs index else [])) }
{
    if !is_on {
        return Ok(());
    }
    put_row(out, inputs, index)
}

/// Appends the row of an index: a character for each input, and the output, which stands alone
/// where there are no inputs.
fn put_row(out: &mut Vec<u8>, inputs: usize, index: u32) -> Result<(), AllocError>
    ensures { OnOk result (out.new.items ≡ out.old.items ++ row_text inputs index) }
{
    if inputs == 0 {
        return out.extend_from_slice(b"1\n");
    }
    put_pattern(out, inputs, index)?;
    out.extend_from_slice(b" 1\n")
}

/// Appends the values of so many inputs at an index, the lowest bit first.
fn put_pattern(out: &mut Vec<u8>, inputs: usize, index: u32) -> Result<(), AllocError>
    ensures { OnOk result (out.new.items ≡ out.old.items ++ pattern_text inputs index) }
{
    let mut left = index;
    for _input in 0..inputs {
        out.push(low_digit(left))?;
        left /= 2;
    }
    Ok(())
}

/// The digit of the lowest bit.
fn low_digit(index: u32) -> u8
    ensures { result ≡ low_text index }
{
    if index % 2 == 1 { b'1' } else { b'0' }
}
