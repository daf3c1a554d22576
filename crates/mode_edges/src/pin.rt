/// An instance of a child of a mode.
#[derive(Clone, Copy, Debug, PartialEq, Eq, Hash)]
pub struct ChildAt {
    pub child: u32,
    pub instance: u32,
}

/// A pin as the interconnects of a mode see it: of the block itself where `owner` is `None`, or of
/// an instance of a child.
#[derive(Clone, Copy, Debug, PartialEq, Eq, Hash)]
pub struct LocalPin {
    pub owner: Option<ChildAt>,
    pub port: u32,
    pub bit: u32,
}

/// An edge of a mode, with the number of the interconnect that owns it.
#[derive(Clone, Copy, Debug, PartialEq, Eq)]
pub struct LocalEdge {
    pub src: LocalPin,
    pub dst: LocalPin,
    pub inter: u32,
}

/// Which end of an edge a list of pin words names.
#[derive(Clone, Copy, Debug, PartialEq, Eq)]
pub enum EdgeEnd {
    Source,
    End,
}

/// The two ends of an edge.
#[derive(Clone, Copy, Debug, PartialEq, Eq, Hash)]
pub struct Pair {
    pub src: LocalPin,
    pub dst: LocalPin,
}
