use pb_expand::{EdgeIx, PbIx, PinIx};

/// A variable with one of its options.
#[derive(Clone, Copy, Debug, PartialEq, Eq)]
pub enum Decision {
    /// The mode of an instance.
    Mode(PbIx, u32),
    /// What a leaf is used for.
    Occupant(PbIx, Occupant),
    /// The edge that a pin takes in a mode, if any.
    Edge(PinIx, u32, Option<EdgeIx>),
    /// The net that comes in at a pin of the block, by its place in the task, if any.
    Entry(PinIx, Option<u32>),
}

/// What a leaf is used for.
#[derive(Clone, Copy, Debug, PartialEq, Eq)]
pub enum Occupant {
    Nobody,
    /// It is the home of an atom, which goes by its place in the task.
    Atom(u32),
    /// It is a LUT that passes this input on.
    Wire(u32),
}
