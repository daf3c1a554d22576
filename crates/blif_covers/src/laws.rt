ghost use Rattle.std.specs.Prelude.{◌≡◌, ℕ, Bool, List};
ghost use Rattle.blif_covers.specs.Covers.{IsTableOf, RowSaid};
ghost use Rattle.blif_covers.specs.Rows.{IsRow};

/// Tells a caller's proof that words are one row, and that rows say one table. It does nothing.
pub fn one_table()
    ensures row { (inputs : ℕ) (words : List (List ℕ)) (r s : RowSaid)
        → IsRow inputs words r → IsRow inputs words s → r ≡ s }
    ensures table { (inputs : ℕ) (rows : List RowSaid) (a b : List Bool)
        → IsTableOf inputs rows a → IsTableOf inputs rows b → a ≡ b }
{}
