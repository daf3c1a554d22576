use pb_expand::{PbIx, PinIx};
use std::alloc::AllocError;
use vtr_base::Bits;

/// A site of one block type, by the numbers of its graph.
#[derive(Clone, Copy, Debug, PartialEq, Eq)]
pub enum LSite {
    /// The mode of an instance that isn't a leaf.
    Mode(PbIx),
    /// A pin in one mode of the owner of the edges into it; the mode by its number.
    Pin(PinIx, u32),
    /// Whether a leaf is used.
    Used(PbIx),
    /// What a LUT, a `.names` leaf, holds.
    Lut(PbIx),
}

/// What a LUT holds.
#[derive(Debug, Drop)]
pub enum LutChoice {
    /// It passes what feeds this input.
    Wire(u32),
    /// Its value at each index of a table of 2^k bits; bit j of an index is the value of input j.
    Table(Bits),
}

impl Clone for LutChoice {
    ghost use Rattle.std.specs.Prelude.{◌≡◌};

    ghost is_clone = { λ choice copy. copy ≡ choice };

    fn clone(&self) -> Result<LutChoice, AllocError> {
        match self {
            LutChoice::Wire(input) => Ok(LutChoice::Wire(*input)),
            LutChoice::Table(table) => Ok(LutChoice::Table(table.clone()?)),
        }
    }
}
