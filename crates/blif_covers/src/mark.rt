ghost use Rattle.std.specs.Prelude.{◌≡◌, ◌≤◌, ◌<◌, ◌+◌, ◌*◌, ◌^◌, map, not, length};
ghost use Rattle.std.specs.List.{AllPass};
ghost use Rattle.blif_covers.specs.Rows.{is_literal};
ghost use Rattle.blif_covers.specs.Seen.{TurnsOn};

use vtr_base::Bits;

/// Turns on the bits of the values that a pattern covers; `behind` is the index of the values of
/// the inputs behind the pattern's.
pub(crate) fn mark(table: &mut Bits, pattern: &[u8], behind: u32)
    requires literals { AllPass is_literal pattern.now }
    requires inside { (behind + 1) * 2 ^ length pattern.now ≤ length table.old }
    requires small { length table.old ≤ 256 }
    ensures { TurnsOn pattern.now behind table.old table.new }
{
    let Some((last, front)) = pattern.split_last() else {
        table.put(behind, true);
        return;
    };
    if *last == b'0' {
        return mark(table, front, 2 * behind);
    }
    if *last == b'1' {
        return mark(table, front, 2 * behind + 1);
    }
    mark(table, front, 2 * behind);
    mark(table, front, 2 * behind + 1);
}

/// How many values so many inputs have.
pub(crate) fn table_width(inputs: u32) -> u32
    requires { inputs ≤ 8 }
    ensures { result ≡ 2 ^ inputs }
{
    1 << inputs
}

/// The table that is on where this one is off.
pub(crate) fn inverted(table: Bits) -> Bits
    ensures { result ≡ map not table }
{
    let mut table = table;
    for index in 0..table.len() {
        let on = table.get(index);
        table.put(index, !on);
    }
    table
}
