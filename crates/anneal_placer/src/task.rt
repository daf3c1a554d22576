/// A site: its kind, and the column and the row in which it stands.
#[derive(Clone, Copy, Debug, PartialEq, Eq, Drop)]
pub struct SiteAt {
    pub kind: u32,
    pub x: u32,
    pub y: u32,
}

/// What is to be placed, and where it may stand.
#[derive(Debug, Drop)]
pub struct AnnealTask {
    /// The kind of each block.
    pub blocks: Vec<u32>,
    /// The sites.
    pub sites: Vec<SiteAt>,
    /// The pairs of a block's kind and a site's kind that go together.
    pub fits: Vec<(u32, u32)>,
    /// The blocks of each net.
    pub nets: Vec<Vec<u32>>,
}
