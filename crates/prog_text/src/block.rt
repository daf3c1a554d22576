ghost use Rattle.std.specs.Prelude.{◌≡◌, IfOk, length};
ghost use Rattle.arch_types.specs.Tree.{modes_of, name_of_mode};
ghost use Rattle.prog_text.specs.Table.{IsTableOf, AreKidTables, AreBlockNames, name_in, kid_name, port_name};

use crate::table::NameTable;
use arch_types::{Kind, Mode, PbType, Port};
use std::alloc::{AllocError, Global};

/// The names of a pb_type: of its modes, of the children in each of them, and of its ports.
#[derive(Drop)]
pub(crate) struct BlockNames {
    pub(crate) modes: NameTable,
    /// For each mode the table of its children.
    pub(crate) kids: Vec<NameTable>,
    pub(crate) ports: NameTable,
}

impl BlockNames {
    /// Makes the tables: an entry for each mode, each child and each port.
    pub(crate) fn new(alloc: Global, block: &PbType) -> Result<BlockNames, AllocError>
        ensures { IfOk result (AreBlockNames block.now) }
    {
        let modes = modes_in(block);
        Ok(BlockNames {
            modes: mode_table(alloc, modes)?,
            kids: kid_tables(alloc, modes)?,
            ports: port_table(alloc, block.ports.as_slice())?,
        })
    }
}

/// The modes by name.
fn mode_table(alloc: Global, modes: &[Mode]) -> Result<NameTable, AllocError>
    ensures { IfOk result (λ table. IsTableOf (name_in name_of_mode modes.now) (length modes.now)
        table.numbers) }
{
    let mut table = NameTable::new(alloc);
    for (place, mode) in modes.iter().enumerate() {
        table.put(alloc, mode.name.as_bytes(), place)?;
    }
    Ok(table)
}

/// For each mode its children by name.
fn kid_tables(alloc: Global, modes: &[Mode]) -> Result<Vec<NameTable>, AllocError>
    ensures { IfOk result (λ tables. AreKidTables modes.now (length modes.now) tables.items) }
{
    let mut tables = Vec::new(alloc);
    for mode in modes {
        let table = kid_table(alloc, mode.kids.as_slice())?;
        tables.push(table)?;
    }
    Ok(tables)
}

/// The children by name.
fn kid_table(alloc: Global, kids: &[PbType]) -> Result<NameTable, AllocError>
    ensures { IfOk result (λ table. IsTableOf (name_in kid_name kids.now) (length kids.now)
        table.numbers) }
{
    let mut table = NameTable::new(alloc);
    for (place, kid) in kids.iter().enumerate() {
        table.put(alloc, kid.name.as_bytes(), place)?;
    }
    Ok(table)
}

/// The ports by name.
fn port_table(alloc: Global, ports: &[Port]) -> Result<NameTable, AllocError>
    ensures { IfOk result (λ table. IsTableOf (name_in port_name ports.now) (length ports.now)
        table.numbers) }
{
    let mut table = NameTable::new(alloc);
    for (place, port) in ports.iter().enumerate() {
        table.put(alloc, port.name.as_bytes(), place)?;
    }
    Ok(table)
}

/// The modes of a pb_type; a leaf has none.
fn modes_in(block: &PbType) -> &[Mode]
    ensures { result.now ≡ modes_of block.now.kind }
{
    match &block.kind {
        Kind::InPad | Kind::OutPad | Kind::Lut | Kind::Latch | Kind::Cell(_) => &[],
        Kind::Modes(modes) => modes.as_slice(),
    }
}
