ghost use Rattle.std.specs.Prelude.{◌≡◌, ◌⊎◌, map, IfOk, IfErr, OnOk};
ghost use Rattle.std.specs.List.{flat_map};
ghost use Rattle.meta_block.specs.declared.error.MetaError.TheVariants.{OutOfMemory};
ghost use Rattle.meta_block.specs.Owners.{RefusesOwners};
ghost use Rattle.meta_block.specs.Blocks.{SaysBlock, RefusesBlock, owners_below, mode_owners, opened, opened_mode};
ghost use Rattle.meta_block.specs.Steps.{AddsSaid};

use crate::error::MetaError;
use crate::inters::read_inters;
use crate::owner::{mode_said, pb_type_said};
use crate::types::OwnerSaid;
use arch_types::{Kind, Mode, PbType};
use mode_edges::PortNames;
use sqlite_items::Items;
use std::alloc::Global;
use vtr_base::Text;

/// What the metadata of a block type says, owner by owner: a pb_type, then mode by mode the mode,
/// its interconnects, and its children with the owners in them. Of an owner the texts are read
/// first, in file order, and then the widths of its `fasm_lut` are looked at.
pub fn read_block(alloc: Global, block: &PbType) -> Result<Items<OwnerSaid>, MetaError>
    ensures ok { IfOk result (λ saids. SaysBlock block.now saids) }
    ensures refused { IfErr result (λ e. (e ≡ OutOfMemory) ⊎ RefusesBlock block.now e) }
{
    let mut way = Vec::new(alloc);
    let mut said = Vec::new(alloc);
    read_pb_type(alloc, &mut way, block, &mut said)?;
    Ok(Items::from_vec(said))
}

/// Appends what a pb_type and the owners in it say; the way leads to its parent.
#[cycle(owners)]
fn read_pb_type<'a>(
    alloc: Global,
    way: &mut Vec<&'a Text>,
    block: &'a PbType,
    said: &mut Vec<OwnerSaid>,
) -> Result<(), MetaError>
    ensures way { OnOk result (way.new.items ≡ way.old.items) }
    ensures ok { OnOk result (AddsSaid (owners_below (map (λ n. n.now) way.old.items) block.now)
        said.old.items said.new.items) }
    ensures refused { IfErr result (λ e. (e ≡ OutOfMemory)
        ⊎ RefusesOwners (owners_below (map (λ n. n.now) way.old.items) block.now) e) }
{
    way.push(&block.name)?;
    read_opened(alloc, way, block, said)?;
    way.pop();
    Ok(())
}

/// The same, where the way leads to the pb_type itself.
#[cycle(owners)]
fn read_opened<'a>(
    alloc: Global,
    way: &mut Vec<&'a Text>,
    block: &'a PbType,
    said: &mut Vec<OwnerSaid>,
) -> Result<(), MetaError>
    ensures way { OnOk result (way.new.items ≡ way.old.items) }
    ensures ok { OnOk result (AddsSaid (opened (map (λ n. n.now) way.old.items) block.now)
        said.old.items said.new.items) }
    ensures refused { IfErr result (λ e. (e ≡ OutOfMemory)
        ⊎ RefusesOwners (opened (map (λ n. n.now) way.old.items) block.now) e) }
{
    let own = pb_type_said(alloc, way.as_slice(), block)?;
    said.push(OwnerSaid::PbType(own))?;
    match &block.kind {
        Kind::Modes(modes) => {
            let ports = PortNames::new(alloc, block)?;
            read_modes(alloc, way, &ports, modes.as_slice(), said)?;
            Ok(())
        }
        Kind::InPad | Kind::OutPad | Kind::Lut | Kind::Latch | Kind::Cell(_) => Ok(()),
    }
}

/// Appends what modes and the owners in them say; the way leads to their pb_type.
#[cycle(owners)]
fn read_modes<'a>(
    alloc: Global,
    way: &mut Vec<&'a Text>,
    ports: &PortNames<'a>,
    modes: &'a [Mode],
    said: &mut Vec<OwnerSaid>,
) -> Result<(), MetaError>
    ensures way { OnOk result (way.new.items ≡ way.old.items) }
    ensures ok { OnOk result (AddsSaid (flat_map (mode_owners (map (λ n. n.now) way.old.items)
        ports.now) modes.now) said.old.items said.new.items) }
    ensures refused { IfErr result (λ e. (e ≡ OutOfMemory) ⊎ RefusesOwners (flat_map
        (mode_owners (map (λ n. n.now) way.old.items) ports.now) modes.now) e) }
{
    for mode in modes {
        read_mode(alloc, way, ports, mode, said)?;
    }
    Ok(())
}

/// Appends what a mode and the owners in it say.
#[cycle(owners)]
fn read_mode<'a>(
    alloc: Global,
    way: &mut Vec<&'a Text>,
    ports: &PortNames<'a>,
    mode: &'a Mode,
    said: &mut Vec<OwnerSaid>,
) -> Result<(), MetaError>
    ensures way { OnOk result (way.new.items ≡ way.old.items) }
    ensures ok { OnOk result (AddsSaid (mode_owners (map (λ n. n.now) way.old.items) ports.now
        mode.now) said.old.items said.new.items) }
    ensures refused { IfErr result (λ e. (e ≡ OutOfMemory)
        ⊎ RefusesOwners (mode_owners (map (λ n. n.now) way.old.items) ports.now mode.now) e) }
{
    way.push(&mode.name)?;
    read_opened_mode(alloc, way, ports, mode, said)?;
    way.pop();
    Ok(())
}

/// The same, where the way leads to the mode itself.
#[cycle(owners)]
fn read_opened_mode<'a>(
    alloc: Global,
    way: &mut Vec<&'a Text>,
    ports: &PortNames<'a>,
    mode: &'a Mode,
    said: &mut Vec<OwnerSaid>,
) -> Result<(), MetaError>
    ensures way { OnOk result (way.new.items ≡ way.old.items) }
    ensures ok { OnOk result (AddsSaid (opened_mode (map (λ n. n.now) way.old.items) ports.now
        mode.now) said.old.items said.new.items) }
    ensures refused { IfErr result (λ e. (e ≡ OutOfMemory)
        ⊎ RefusesOwners (opened_mode (map (λ n. n.now) way.old.items) ports.now mode.now) e) }
{
    let own = mode_said(alloc, way.as_slice(), mode)?;
    said.push(OwnerSaid::Mode(own))?;
    read_inters(alloc, way, ports, mode, said)?;
    read_kids(alloc, way, mode.kids.as_slice(), said)?;
    Ok(())
}

/// Appends what children and the owners in them say; the way leads to their mode.
#[cycle(owners)]
fn read_kids<'a>(
    alloc: Global,
    way: &mut Vec<&'a Text>,
    kids: &'a [PbType],
    said: &mut Vec<OwnerSaid>,
) -> Result<(), MetaError>
    ensures way { OnOk result (way.new.items ≡ way.old.items) }
    ensures ok { OnOk result (AddsSaid (flat_map (owners_below (map (λ n. n.now) way.old.items))
        kids.now) said.old.items said.new.items) }
    ensures refused { IfErr result (λ e. (e ≡ OutOfMemory)
        ⊎ RefusesOwners (flat_map (owners_below (map (λ n. n.now) way.old.items)) kids.now) e) }
{
    for kid in kids {
        read_pb_type(alloc, way, kid, said)?;
    }
    Ok(())
}
