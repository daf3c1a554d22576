ghost use Rattle.std.specs.Prelude.{◌≡◌, ◌⊎◌, List, IfErr, OnOk};
ghost use Rattle.blif_elems.specs.Seen.{texts};
ghost use Rattle.blif_covers.specs.Covers.{RowSaid};
ghost use Rattle.blif_covers.specs.Seen.{HoldsRows};
ghost use Rattle.blif_errors.specs.declared.error.BlifError.TheVariants.{OutOfMemory};
ghost use Rattle.blif_items.specs.Rows.{PutsRow, RefusesToPut};

use blif_covers::{Cover, read_row};
use blif_errors::BlifError;
use std::alloc::Global;
use vtr_base::{Place, Text};

/// Adds a row to the cover of a `.names`.
pub fn put_row(
    alloc: Global,
    name: &Text,
    cover: &mut Cover,
    words: &[&str],
    place: Place,
) -> Result<(), BlifError>
    ensures put { OnOk result ((rows : List RowSaid) → HoldsRows rows cover.old
        → PutsRow cover.old.inputs rows (texts words.now) cover.new) }
    ensures inputs { cover.new.inputs ≡ cover.old.inputs }
    ensures refused { IfErr result (λ e. (e ≡ OutOfMemory)
        ⊎ ((rows : List RowSaid) → HoldsRows rows cover.old
        → RefusesToPut cover.old.inputs rows name.now place (texts words.now) e)) }
{
    let Some(row) = read_row(words, cover.inputs()) else {
        return Err(BlifError::BadLine { place });
    };
    if !cover.takes(row.output) {
        let net = name.copy(alloc)?;
        return Err(BlifError::MixedCover { net });
    }
    cover.add(row);
    Ok(())
}
