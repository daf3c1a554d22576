ghost use Rattle.std.specs.Prelude.{◌≡◌, IfOk};

use arch_types::{Inter, Kind, Meta, Mode, Pattern, PbType, Port};
use sqlite_items::Items;
use std::alloc::{AllocError, Global};

/// A copy of a pb_type with all that stands below it.
#[cycle(copies)]
pub(crate) fn copy_block(alloc: Global, block: &PbType) -> Result<PbType, AllocError>
    ensures { IfOk result (λ b. b ≡ block.now) }
{
    Ok(PbType {
        name: block.name.copy(alloc)?,
        count: block.count,
        ports: copy_ports(alloc, block.ports.as_slice())?,
        kind: copy_kind(alloc, &block.kind)?,
        metas: copy_metas(alloc, block.metas.as_slice())?,
    })
}

#[cycle(copies)]
fn copy_kind(alloc: Global, kind: &Kind) -> Result<Kind, AllocError>
    ensures { IfOk result (λ k. k ≡ kind.now) }
{
    match kind {
        Kind::InPad => Ok(Kind::InPad),
        Kind::OutPad => Ok(Kind::OutPad),
        Kind::Lut => Ok(Kind::Lut),
        Kind::Latch => Ok(Kind::Latch),
        Kind::Cell(model) => Ok(Kind::Cell(*model)),
        Kind::Modes(modes) => Ok(Kind::Modes(copy_modes(alloc, modes.as_slice())?)),
    }
}

#[cycle(copies)]
fn copy_modes(alloc: Global, modes: &[Mode]) -> Result<Items<Mode>, AllocError>
    ensures { IfOk result (λ ms. ms ≡ modes.now) }
{
    let mut copies = Items::new(alloc);
    for mode in modes {
        copies.push(copy_mode(alloc, mode)?)?;
    }
    Ok(copies)
}

#[cycle(copies)]
fn copy_mode(alloc: Global, mode: &Mode) -> Result<Mode, AllocError>
    ensures { IfOk result (λ m. m ≡ mode.now) }
{
    Ok(Mode {
        name: mode.name.copy(alloc)?,
        kids: copy_blocks(alloc, mode.kids.as_slice())?,
        inters: copy_inters(alloc, mode.inters.as_slice())?,
        metas: copy_metas(alloc, mode.metas.as_slice())?,
    })
}

#[cycle(copies)]
fn copy_blocks(alloc: Global, blocks: &[PbType]) -> Result<Items<PbType>, AllocError>
    ensures { IfOk result (λ bs. bs ≡ blocks.now) }
{
    let mut copies = Items::new(alloc);
    for block in blocks {
        copies.push(copy_block(alloc, block)?)?;
    }
    Ok(copies)
}

fn copy_ports(alloc: Global, ports: &[Port]) -> Result<Items<Port>, AllocError>
    ensures { IfOk result (λ ps. ps ≡ ports.now) }
{
    let mut copies = Items::new(alloc);
    for port in ports {
        copies.push(Port {
            name: port.name.copy(alloc)?,
            side: port.side,
            width: port.width,
        })?;
    }
    Ok(copies)
}

fn copy_metas(alloc: Global, metas: &[Meta]) -> Result<Items<Meta>, AllocError>
    ensures { IfOk result (λ ms. ms ≡ metas.now) }
{
    let mut copies = Items::new(alloc);
    for meta in metas {
        copies.push(Meta {
            name: meta.name.copy(alloc)?,
            text: meta.text.copy(alloc)?,
        })?;
    }
    Ok(copies)
}

fn copy_patterns(alloc: Global, patterns: &[Pattern]) -> Result<Items<Pattern>, AllocError>
    ensures { IfOk result (λ ps. ps ≡ patterns.now) }
{
    let mut copies = Items::new(alloc);
    for pattern in patterns {
        copies.push(Pattern {
            name: pattern.name.copy(alloc)?,
            in_port: pattern.in_port.copy(alloc)?,
            out_port: pattern.out_port.copy(alloc)?,
        })?;
    }
    Ok(copies)
}

fn copy_inters(alloc: Global, inters: &[Inter]) -> Result<Items<Inter>, AllocError>
    ensures { IfOk result (λ is. is ≡ inters.now) }
{
    let mut copies = Items::new(alloc);
    for inter in inters {
        copies.push(Inter {
            name: inter.name.copy(alloc)?,
            kind: inter.kind,
            input: inter.input.copy(alloc)?,
            output: inter.output.copy(alloc)?,
            patterns: copy_patterns(alloc, inter.patterns.as_slice())?,
            metas: copy_metas(alloc, inter.metas.as_slice())?,
        })?;
    }
    Ok(copies)
}
