ghost use Rattle.std.specs.Prelude.{◌≡◌, ◌≤◌, ◌<◌, ◌+◌, ◌^◌, ℕ, ◌++◌, ◌∷◌, [], ◌⊎◌, Some, true, IfOk, OnOk, IsErrOf, map, length, slice_get};
ghost use Rattle.vtr_base.specs.Lists.{up_from};
ghost use Rattle.arch_types.specs.Address.{instances_of};
ghost use Rattle.pb_expand.specs.Graph.{pin_at, pins_of_ports, pins_of};
ghost use Rattle.pb_expand.specs.Rows.{addresses, IsTree};
ghost use Rattle.arch_types.specs.Numbering.{IsNumbering};
ghost use Rattle.pb_expand.specs.Making.{AreBlocks, AreShort, AreFirsts, pins_over};
ghost use Rattle.pb_expand.specs.Shapes.{AreShapes};
ghost use Rattle.pb_expand.specs.declared.error.SizeError.{SizeError};

use crate::edges::owner_of;
use crate::error::SizeError;
use crate::graph::{child_below, modes_in};
use crate::rows::{push_below, short};
use crate::shape::{Shape, shapes_of};
use crate::{PbIx, PinAt, Step};
use arch_types::{PbType, Port};
use indexmap::IndexSet;
use mode_edges::ChildAt;
use std::alloc::{AllocError, Global};
use std::hash::Hash;

const MOST_PINS: usize = 1048576;

/// The instances and pins of a block type by number.
#[derive(Drop)]
pub(crate) struct GraphRows<'a> {
    pub blocks: Vec<&'a PbType>,
    /// For each instance one of the same pb_type: the first of them, which stands for itself.
    pub firsts: Vec<PbIx>,
    pub shapes: Vec<Shape>,
    pub rows: IndexSet<Step>,
    pub pins: IndexSet<PinAt>,
}

impl GraphRows<'_> {
    /// The instances, the pins, the first instances and the shapes, without the pb_types that they
    /// were made from.
    pub fn into_parts(self) -> (IndexSet<Step>, IndexSet<PinAt>, Vec<PbIx>, Vec<Shape>)
        ensures { result ≡ (
          self.entry.rows,
          self.entry.pins,
          self.entry.firsts,
          self.entry.shapes,
        ) }
    {
        let GraphRows {
            blocks: _,
            firsts,
            shapes,
            rows,
            pins,
        } = self;
        (rows, pins, firsts, shapes)
    }
}

/// Numbers the instances and pins of a block type.
pub(crate) fn places_of(alloc: Global, root: &PbType) -> Result<GraphRows<'_>, SizeError>
    ensures tree { IfOk result (λ p. IsTree p.rows.keys) }
    ensures instances { IfOk result (λ p. addresses p.rows.keys ≡ instances_of root.now) }
    ensures blocks { IfOk result (λ p. AreBlocks root.now (instances_of root.now)
        (map (λ b. b.now) p.blocks.items)) }
    ensures short { IfOk result (λ p. AreShort (map (λ b. b.now) p.blocks.items)) }
    ensures firsts { IfOk result (λ p. AreFirsts (instances_of root.now) p.firsts.items) }
    ensures shapes { IfOk result (λ p. AreShapes (map (λ b. b.now) p.blocks.items) p.shapes.items) }
    ensures pins { IfOk result (λ p. p.pins.keys ≡ pins_of root.now) }
    ensures few_rows { IfOk result (λ p. length p.rows.keys ≤ 1048575) }
    ensures few_pins { IfOk result (λ p. length p.pins.keys ≤ 1048576) }
    ensures many { IsErrOf result SizeError.TooMany → (1048576 < length (instances_of root.now))
        ⊎ (1048576 < length (pins_of root.now)) }
{
    let mut rows = Vec::new(alloc);
    push_below(&mut rows, PbIx(0), root)?;
    let blocks = blocks_of(alloc, root, rows.as_slice())?;
    let pins = pins_of_blocks(alloc, blocks.as_slice())?;
    root.numbering();
    let row_set = set_of(alloc, rows.as_slice())?;
    let firsts = firsts_of(alloc, root, &row_set)?;
    let shapes = shapes_of(alloc, blocks.as_slice())?;
    Ok(GraphRows {
        blocks,
        firsts,
        shapes,
        rows: row_set,
        pins: set_of(alloc, pins.as_slice())?,
    })
}

/// The pb_types of all instances.
fn blocks_of<'a>(
    alloc: Global,
    root: &'a PbType,
    rows: &[Step],
) -> Result<Vec<&'a PbType>, AllocError>
    requires tree { IsTree rows.now }
    requires instances { addresses rows.now ≡ instances_of root.now }
    ensures blocks { IfOk result (λ bs. AreBlocks root.now (instances_of root.now)
        (map (λ b. b.now) bs.items)) }
    ensures short { IfOk result (λ bs. AreShort (map (λ b. b.now) bs.items)) }
{
    let mut blocks = Vec::new(alloc);
    push_block(&mut blocks, root)?;
    for row in rows {
        let parent: &'a PbType = blocks[row.parent.0 as usize];
        push_block(&mut blocks, child_below(parent, *row))?;
    }
    Ok(blocks)
}

/// Adds a pb_type whose modes and ports can be numbered.
fn push_block<'a>(blocks: &mut Vec<&'a PbType>, block: &'a PbType) -> Result<(), AllocError>
    requires { AreShort (map (λ b. b.now) blocks.old.items) }
    ensures added { OnOk result (map (λ b. b.now) blocks.new.items ≡ map (λ b. b.now)
        blocks.old.items ++ block.now ∷ []) }
    ensures short { OnOk result (AreShort (map (λ b. b.now) blocks.new.items)) }
{
    let _ = short(modes_in(block))?;
    let _ = short(block.ports.as_slice())?;
    blocks.push(block)?;
    Ok(())
}

/// For each instance the first one of its pb_type: its parent's first one has the same child as
/// instance 0.
fn firsts_of(alloc: Global, root: &PbType, rows: &IndexSet<Step>) -> Result<Vec<PbIx>, AllocError>
    requires tree { IsTree rows.now.keys }
    requires few { length rows.now.keys ≤ 1048575 }
    requires numbering { IsNumbering root.now (addresses rows.now.keys) }
    ensures { IfOk result (λ fs. AreFirsts (addresses rows.now.keys) fs.items) }
{
    let mut firsts = Vec::with_capacity(alloc, rows.len() + 1)?;
    firsts.push(PbIx(0))?;
    for row in rows.as_slice() {
        let parent = firsts[row.parent.0 as usize];
        let child = ChildAt {
            child: row.child,
            instance: 0,
        };
        firsts.push(owner_of(rows, parent, row.mode, Some(child)))?;
    }
    Ok(firsts)
}

/// The pins of all instances.
fn pins_of_blocks(alloc: Global, blocks: &[&PbType]) -> Result<Vec<PinAt>, SizeError>
    requires { length blocks.now ≤ 1048576 }
    ensures pins { IfOk result (λ ps. ps.items ≡ pins_over 0 (map (λ b. b.now) blocks.now)) }
    ensures few { IfOk result (λ ps. length ps.items ≤ 1048576) }
    ensures many { IsErrOf result SizeError.TooMany → 1048576 < length
        (pins_over 0 (map (λ b. b.now) blocks.now)) }
{
    let mut pins = Vec::new(alloc);
    for (pb, block) in blocks.iter().enumerate() {
        push_ports(&mut pins, PbIx(pb as u32), short(block.ports.as_slice())?)?;
    }
    Ok(pins)
}

/// Adds the pins of an instance.
fn push_ports(pins: &mut Vec<PinAt>, pb: PbIx, ports: &[Port]) -> Result<(), SizeError>
    requires { length ports.now < 2 ^ 32 }
    ensures added { OnOk result (pins.new.items ≡ pins.old.items ++ pins_of_ports pb.0 0
        ports.now) }
    ensures few { OnOk result (length pins.old.items ≤ 1048576 → length pins.new.items ≤ 1048576) }
    ensures many { IsErrOf result SizeError.TooMany → 1048576 < length pins.old.items + length
        (pins_of_ports pb.0 0 ports.now) }
{
    for (port, is) in ports.iter().enumerate() {
        push_bits(pins, pb, port as u32, is.width)?;
    }
    Ok(())
}

/// Adds the pins of a port.
fn push_bits(pins: &mut Vec<PinAt>, pb: PbIx, port: u32, width: u32) -> Result<(), SizeError>
    ensures added { OnOk result (pins.new.items ≡ pins.old.items ++ map (pin_at pb.0 port)
        (up_from 0 width)) }
    ensures few { OnOk result (length pins.old.items ≤ 1048576 → length pins.new.items ≤ 1048576) }
    ensures many { IsErrOf result SizeError.TooMany → 1048576 < length pins.old.items + width }
{
    for bit in 0..width {
        if pins.len() >= MOST_PINS {
            return Err(SizeError::TooMany);
        }
        pins.push(PinAt { pb, port, bit })?;
    }
    Ok(())
}

/// The set of these items, each at its place in the list.
fn set_of<T: Copy + Eq + Hash + Drop>(alloc: Global, items: &[T]) -> Result<IndexSet<T>, AllocError>
    requires { (i j : ℕ) (x y : T) → slice_get items.now i ≡ Some x → slice_get items.now j ≡ Some y
        → T.eq x y ≡ true → i ≡ j }
    ensures { IfOk result (λ s. s.keys ≡ items.now) }
{
    let mut set = IndexSet::new(alloc);
    for item in items {
        set.insert(*item)?;
    }
    Ok(set)
}
