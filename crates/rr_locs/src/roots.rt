/// The root of a block in the grid: its place, its tile, and how many sub blocks the tile has.
#[derive(Clone, Copy, Debug, PartialEq, Eq)]
pub struct TileRoot {
    pub x: u32,
    pub y: u32,
    pub tile: u32,
    pub capacity: u32,
}

/// A location: a place, a sub block and the tile. Locations go by x, then y, then sub.
#[derive(Clone, Copy, Debug, PartialEq, Eq, PartialOrd, Ord)]
pub struct LocAt {
    pub x: u32,
    pub y: u32,
    pub sub: u32,
    pub tile: u32,
}
