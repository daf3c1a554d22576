use sqlite_items::Items;
use vtr_base::Text;

/// An edge between the nodes of these ids, by the switch of this id. `features` is the text in
/// which it lists its features, as it stands in the file, and empty where it lists none.
#[derive(Debug, Drop)]
pub struct FileEdge {
    pub src: u32,
    pub dst: u32,
    pub switch: u32,
    pub features: Text,
}

/// The edges of a routing graph file between pins and wires, in the file's order.
#[derive(Debug, Drop)]
pub struct Edges {
    pub kept: Items<FileEdge>,
}
