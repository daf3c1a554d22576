use arch_types::AtomKind;

/// The number of an instance of a block type: its place in preorder.
#[derive(Clone, Copy, Debug, PartialEq, Eq, PartialOrd, Ord, Hash)]
pub struct PbIx(pub u32);

/// The number of a pin of a block type: by instance, then port, then bit.
#[derive(Clone, Copy, Debug, PartialEq, Eq, PartialOrd, Ord, Hash)]
pub struct PinIx(pub u32);

/// The number of an edge of a block type.
#[derive(Clone, Copy, Debug, PartialEq, Eq, PartialOrd, Ord, Hash)]
pub struct EdgeIx(pub u32);

/// How an instance hangs on its parent: the parent's mode, the child in that mode, and which
/// instance of the child.
#[derive(Clone, Copy, Debug, PartialEq, Eq, Hash)]
pub struct Step {
    pub parent: PbIx,
    pub mode: u32,
    pub child: u32,
    pub instance: u32,
}

/// What a pin is: a bit of a port of an instance.
#[derive(Clone, Copy, Debug, PartialEq, Eq, Hash)]
pub struct PinAt {
    pub pb: PbIx,
    pub port: u32,
    pub bit: u32,
}

/// An edge from pin `src` to pin `dst`, given in a mode of the instance `owner` by the
/// interconnect of number `inter` of that mode.
#[derive(Clone, Copy, Debug, PartialEq, Eq)]
pub struct Edge {
    pub src: PinIx,
    pub dst: PinIx,
    pub owner: PbIx,
    pub mode: u32,
    pub inter: u32,
}

/// What an instance is: a leaf, or a block with so many modes.
#[derive(Clone, Copy, Debug, PartialEq, Eq)]
pub enum PbKind {
    Leaf(AtomKind),
    Modes(u32),
}
