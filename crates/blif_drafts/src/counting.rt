ghost use Rattle.std.specs.Prelude.{◌≡◌, ◌+◌, IfOk};
ghost use Rattle.blif_drafts.specs.Seen.{box_count};

use blif_items::Open;
use std::alloc::AllocError;

/// The number of boxes with one more element.
pub(crate) fn count_box(boxes: u32, next: &Open) -> Result<u32, AllocError>
    ensures { IfOk result (λ count. count ≡ boxes + box_count next.now) }
{
    match next {
        Open::Nothing => Ok(boxes),
        Open::Lut { .. } => Ok(boxes),
        Open::Latch { .. } => Ok(boxes),
        Open::Box { .. } => one_more(boxes),
    }
}

fn one_more(boxes: u32) -> Result<u32, AllocError>
    ensures { IfOk result (λ count. count ≡ boxes + 1) }
{
    if boxes == u32::MAX {
        return Err(AllocError);
    }
    Ok(boxes + 1)
}
