use sqlite_items::Items;

/// A directed graph whose nodes are the numbers below `nodes`.
#[derive(Debug, Drop)]
pub struct Plain {
    pub nodes: u32,
    /// From and to. An edge may stand several times, and may lead from a node to itself.
    pub edges: Items<(u32, u32)>,
}

/// What stands between starts and ends: as many paths as were wanted, or too few nodes to let them
/// by.
#[derive(Debug, Drop)]
pub enum Flow {
    /// Paths, each the list of its nodes from a start to an end.
    Paths(Items<Items<u32>>),
    /// Nodes that every path from a start to an end meets, each once. A start or an end may stand
    /// among them.
    CutSet(Items<u32>),
}
