use blif_items::Elem;
use names::Names;
use sqlite_items::Items;

/// A model as its lines put it together. Nets go by their numbers.
#[derive(Drop)]
pub struct ModelParts {
    /// The names of the nets, in the order in which the lines mention them first.
    pub nets: Names,
    /// The nets of `.inputs`, in the order of the file.
    pub inputs: Items<u32>,
    /// The nets of `.outputs`, in the order of the file.
    pub outputs: Items<u32>,
    /// What the lines `.names`, `.latch` and `.subckt` say, in the order of the file.
    pub elems: Items<Elem>,
}
