//! An architecture as the VTR architecture reference describes it: the tree of pb_types with
//! modes, children, interconnects and ports, and beside it models, tiles and layouts.
#![tactic(auto)]

mod arch;
mod block;
mod tree;

pub use arch::{Arch, ArchParts, CellModel, Layout, Single, Tile};
pub use block::{AtomKind, Inter, InterKind, Kind, Meta, Mode, Pattern, PbType, Port, Side};
pub use tree::walk;
