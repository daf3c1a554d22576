use sqlite_items::Items;
use vtr_base::{Bits, Text};

/// An element of a model by the name of its atom, with its nets by number.
#[derive(Drop)]
pub enum Elem {
    /// `.names`: inputs in the order of its line, and the value of the output for each index of
    /// them, input j having bit j.
    Lut {
        name: Text,
        inputs: Items<u32>,
        output: u32,
        table: Bits,
    },
    /// `.latch`
    Latch {
        name: Text,
        loaded: u32,
        made: u32,
        control: u32,
    },
    /// `.subckt`: the number of its model, its connected pins in the order of its line, and its
    /// parameters with their values. The name is that of the net at its first connected output,
    /// or `box:K` where K boxes stand before it.
    Box {
        name: Text,
        model: u32,
        pins: Items<PinAt>,
        params: Items<(Text, Text)>,
    },
}

/// A connected pin of a box.
#[derive(Drop)]
pub struct PinAt {
    pub port: Text,
    pub bit: u32,
    /// The net there.
    pub net: u32,
    pub is_output: bool,
}
