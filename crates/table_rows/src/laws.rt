ghost use Rattle.std.specs.Prelude.{◌≡◌, ◌^◌, ℕ, Bool, true, List, length};
ghost use Rattle.vtr_base.specs.Lists.{Has};
ghost use Rattle.blif_covers.specs.Covers.{IsTableOf, RowSaid};
ghost use Rattle.blif_covers.specs.Rows.{IsRow};
ghost use Rattle.table_rows.specs.Rows.{row_at, rows_from, words_at};

/// Tells a caller's proof that a table is that of its rows, one with output 1 for each index at
/// which it is on, and that the words of such a row are that row. It does nothing.
pub fn rows_say_table()
    ensures table { (inputs : ℕ) (table : List Bool) → length table ≡ 2 ^ inputs
        → IsTableOf inputs (rows_from inputs 0 table) table }
    ensures words { (inputs index : ℕ)
        → IsRow inputs (words_at inputs index) (row_at inputs index) }
    ensures outputs { (inputs index : ℕ) (table : List Bool) (r : RowSaid)
        → Has (rows_from inputs index table) r → r.output ≡ true }
{}
