ghost use Rattle.std.specs.Prelude.{◌≡◌, ◌≤◌, ◌^◌, length};

use crate::Row;
use crate::mark::{inverted, mark, table_width};
use std::alloc::{AllocError, Global};
use vtr_base::Bits;

/// The greatest number of inputs of a LUT.
pub const MOST_INPUTS: u32 = 8;

/// A cover whose rows are read one by one. All of them have one output.
#[derive(Debug, Drop)]
pub struct Cover {
    /// Whether a row covers the values with this index.
    covered: Bits,
    inputs: u32,
    /// The output of all rows so far.
    output: Option<bool>,
    ghost width: { length covered ≡ 2 ^ inputs },
    ghost few: { inputs ≤ 8 },
}

impl Cover {
    ghost use Rattle.std.specs.Prelude.{◌≡◌, ◌≤◌, ◌↔◌, ◌++◌, ◌∷◌, [], List, length, IfOk, IsTrue};
    ghost use Rattle.std.specs.List.{All, AllPass};
    ghost use Rattle.blif_covers.specs.Covers.{RowSaid, IsTableOf};
    ghost use Rattle.blif_covers.specs.Rows.{is_literal};
    ghost use Rattle.blif_covers.specs.Seen.{HoldsRows, row_seen};

    /// A cover of so many inputs without rows.
    pub fn new(alloc: Global, inputs: u32) -> Result<Cover, AllocError>
        requires { inputs ≤ 8 }
        ensures rows { IfOk result (HoldsRows []) }
        ensures inputs { IfOk result (λ c. c.inputs ≡ inputs) }
    {
        Ok(Cover {
            covered: Bits::zeros(alloc, table_width(inputs))?,
            inputs,
            output: None,
        })
    }

    /// How many inputs it has.
    pub fn inputs(&self) -> u32
        ensures { result ≡ self.now.inputs }
    {
        self.inputs
    }

    /// Whether no row so far has another output.
    pub fn takes(&self, output: bool) -> bool
        ensures { (rows : List RowSaid) → HoldsRows rows self.now
            → IsTrue result ↔ All (λ r. r.output ≡ output) rows }
    {
        match self.output {
            Some(known) => known == output,
            None => true,
        }
    }

    /// Adds a row behind the others. It has a character for each input, and the output of the rows
    /// so far.
    pub fn add(&mut self, row: Row<'_>)
        requires width { length row.pattern.now ≡ self.old.inputs }
        requires literals { AllPass is_literal row.pattern.now }
        ensures rows { (rows : List RowSaid) → HoldsRows rows self.old
            → All (λ r. r.output ≡ row.entry.output) rows
            → HoldsRows (rows ++ row_seen row.entry ∷ []) self.new }
        ensures inputs { self.new.inputs ≡ self.old.inputs }
    {
        mark(&mut self.covered, row.pattern, 0);
        self.output = Some(row.output);
    }

    /// The table that the rows say.
    pub fn into_table(self) -> Bits
        ensures { (rows : List RowSaid) → HoldsRows rows self → IsTableOf self.inputs rows result }
    {
        let Some(output) = self.output else {
            return self.covered;
        };
        if output {
            self.covered
        } else {
            inverted(self.covered)
        }
    }
}
