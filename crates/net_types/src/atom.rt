use arch_types::AtomKind;
use sqlite_items::Items;
use vtr_base::{Bits, Text};

/// An atom: one primitive of a netlist, which is an input, an output, or what one element of its
/// file says.
#[derive(Debug, Drop)]
pub struct Atom {
    /// Of an input, a LUT and a latch the name of its net, of an output `out:` and the name of its
    /// net; of a box the name of the net at its first connected output, or `box:K`, where K boxes
    /// stand before it.
    pub name: Text,
    pub kind: AtomKind,
    /// The connected inputs: of an output and of a LUT `in`, bit by bit; of a latch `in`, then
    /// `clk`; of a box those of its line, in that order.
    pub ins: Items<Conn>,
    /// The connected outputs: of an input, a LUT and a latch `out`; of a box those of its line, in
    /// that order.
    pub outs: Items<Conn>,
    /// Of a LUT its value for each index of its inputs, bit j of an index being the value of input
    /// j; empty for others.
    pub table: Bits,
    /// Names and values of the parameters of a box; empty for others.
    pub params: Items<(Text, Text)>,
}

/// A connection of an atom: a bit of a port, and the net there, by its number.
#[derive(Debug, Drop)]
pub struct Conn {
    pub port: Text,
    pub bit: u32,
    pub net: u32,
}
