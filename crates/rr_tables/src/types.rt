ghost use Rattle.rr_tables.specs.Looks.{knows_type};

use rr_grid::BlockTypeIds;
use rr_places::BlockTypes;

/// The block types of a routing graph file, as its grid asks for them.
#[derive(Drop)]
pub struct KnownTypes {
    pub types: BlockTypes,
}

impl BlockTypeIds for KnownTypes {
    ghost known = { λ t. knows_type t.types };

    fn has_block_type(&self, id: u32) -> bool {
        self.types.block_type(id).is_some()
    }
}
