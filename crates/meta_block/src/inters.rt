ghost use Rattle.std.specs.Prelude.{◌≡◌, ◌⊎◌, ◌++◌, ◌∷◌, [], map, IfOk, IfErr, OnOk};
ghost use Rattle.arch_types.specs.Tree.{inters_of};
ghost use Rattle.meta_said.specs.Inters.{SaysInter};
ghost use Rattle.meta_block.specs.declared.error.MetaError.TheVariants.{OutOfMemory};
ghost use Rattle.meta_block.specs.Ways.{way_text};
ghost use Rattle.meta_block.specs.Owners.{RefusesPins, RefusesOwners, inter_at};
ghost use Rattle.meta_block.specs.Blocks.{inter_owners, way_to};
ghost use Rattle.meta_block.specs.Steps.{AddsSaid};

use crate::error::{MetaError, owner_error};
use crate::types::OwnerSaid;
use arch_types::{Inter, Mode};
use meta_lines::PinFeatures;
use meta_said::read_inter;
use mode_edges::{ModeNames, PortNames};
use sqlite_items::Items;
use std::alloc::Global;
use vtr_base::Text;

/// Appends what the interconnects of a mode say, whose way this is; `ports` are those of its
/// pb_type.
pub(crate) fn read_inters<'a>(
    alloc: Global,
    way: &mut Vec<&'a Text>,
    ports: &PortNames<'a>,
    mode: &'a Mode,
    said: &mut Vec<OwnerSaid>,
) -> Result<(), MetaError>
    ensures way { OnOk result (way.new.items ≡ way.old.items) }
    ensures ok { OnOk result (AddsSaid (inter_owners (map (λ n. n.now) way.old.items) ports.now
        mode.now) said.old.items said.new.items) }
    ensures refused { IfErr result (λ e. (e ≡ OutOfMemory)
        ⊎ RefusesOwners (inter_owners (map (λ n. n.now) way.old.items) ports.now mode.now) e) }
{
    let names = ModeNames::new(alloc, ports, mode)?;
    for inter in mode.inters.as_slice() {
        add_inter(alloc, way, &names, inter, said)?;
    }
    Ok(())
}

/// Appends what an interconnect says.
fn add_inter<'a>(
    alloc: Global,
    way: &mut Vec<&'a Text>,
    names: &ModeNames<'_, 'a>,
    inter: &'a Inter,
    said: &mut Vec<OwnerSaid>,
) -> Result<(), MetaError>
    ensures way { OnOk result (way.new.items ≡ way.old.items) }
    ensures ok { OnOk result (AddsSaid (inter_at (way_to (map (λ n. n.now) way.old.items)
        inter.now.name) names.now.block names.now.mode inter.now ∷ []) said.old.items
        said.new.items) }
    ensures refused { IfErr result (λ e. (e ≡ OutOfMemory)
        ⊎ RefusesPins (way_text (way_to (map (λ n. n.now) way.old.items) inter.now.name))
        names.now.block names.now.mode inter.now e) }
{
    way.push(&inter.name)?;
    let given = pins_said(alloc, way.as_slice(), names, inter)?;
    said.push(OwnerSaid::Inter(given))?;
    way.pop();
    Ok(())
}

/// What the text of an interconnect says, at the end of the way.
fn pins_said(
    alloc: Global,
    way: &[&Text],
    names: &ModeNames<'_, '_>,
    inter: &Inter,
) -> Result<Option<Items<PinFeatures>>, MetaError>
    ensures ok { IfOk result (λ given. SaysInter names.now.block names.now.mode inter.now given) }
    ensures refused { IfErr result (λ e. (e ≡ OutOfMemory)
        ⊎ RefusesPins (way_text (map (λ n. n.now) way.now)) names.now.block names.now.mode
        inter.now e) }
{
    match read_inter(alloc, names, inter) {
        Ok(given) => Ok(given),
        Err(e) => Err(owner_error(alloc, way, e)),
    }
}
