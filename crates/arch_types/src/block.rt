ghost use Rattle.arch_types.specs.Address.{instances_of};
ghost use Rattle.arch_types.specs.Numbering.{IsNumbering};

use sqlite_items::Items;
use vtr_base::Text;

/// A pb_type (VTR architecture reference, "Complex blocks"): a leaf, or a block that in each of
/// its modes holds children and the interconnects among them.
#[cycle(arch)]
#[derive(Debug, Drop)]
pub struct PbType {
    pub name: Text,
    /// `num_pb`: how many instances of it its parent has. 1 at a block type.
    pub count: u32,
    pub ports: Items<Port>,
    pub kind: Kind,
    pub metas: Items<Meta>,
}

impl PbType {
    /// A law of block types, for callers' proofs: their instances in preorder, by mode, then by
    /// child, then by instance, are all that there are, and each has one place. It does nothing.
    #[tactic(auto, using(crate::proofs::Numbered::is_numbering))]
    pub fn numbering(&self)
        ensures { IsNumbering self.now (instances_of self.now) }
    {}
}

/// What a pb_type is: a leaf by its `blif_model`, or a block with modes. A block that names no
/// mode has the one mode `default`.
#[cycle(arch)]
#[derive(Debug, Drop)]
pub enum Kind {
    /// `.input`
    InPad,
    /// `.output`
    OutPad,
    /// `.names`
    Lut,
    /// `.latch`
    Latch,
    /// `.subckt`, with the number of its model among those of the architecture.
    Cell(u32),
    Modes(Items<Mode>),
}

/// One mode of a pb_type. Only one mode of an instance is in use at a time.
#[cycle(arch)]
#[derive(Debug, Drop)]
pub struct Mode {
    pub name: Text,
    pub kids: Items<PbType>,
    pub inters: Items<Inter>,
    pub metas: Items<Meta>,
}

/// One interconnect of a mode. `input` and `output` are lists of pin words as the file has them.
#[derive(Debug, Drop)]
pub struct Inter {
    pub name: Text,
    pub kind: InterKind,
    pub input: Text,
    pub output: Text,
    pub patterns: Items<Pattern>,
    pub metas: Items<Meta>,
}

/// How an interconnect joins its input pins to its output pins.
#[derive(Clone, Copy, Debug, PartialEq, Eq)]
pub enum InterKind {
    /// The n-th input pin to the n-th output pin.
    Direct,
    /// Every input pin to every output pin.
    Complete,
    /// Each input pin to the one output pin.
    Mux,
}

/// A `pack_pattern` of an interconnect.
#[derive(Debug, Drop)]
pub struct Pattern {
    pub name: Text,
    pub in_port: Text,
    pub out_port: Text,
}

/// A `meta` of a `metadata` element.
#[derive(Debug, Drop)]
pub struct Meta {
    pub name: Text,
    pub text: Text,
}

/// A port of a pb_type or of a tile, of `width` pins.
#[derive(Debug, Drop)]
pub struct Port {
    pub name: Text,
    pub side: Side,
    pub width: u32,
}

/// Which way a port leads, seen from its own block.
#[derive(Clone, Copy, Debug, PartialEq, Eq)]
pub enum Side {
    Input,
    Output,
    Clock,
}

/// What a leaf holds, and what an atom of a netlist is.
#[derive(Clone, Copy, Debug, PartialEq, Eq)]
pub enum AtomKind {
    InPad,
    OutPad,
    Lut,
    Latch,
    /// A `.subckt`, with the number of its model.
    Cell(u32),
}
