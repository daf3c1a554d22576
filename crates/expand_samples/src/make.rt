use arch_types::{Inter, InterKind, Kind, Mode, PbType, Port, Side};
use sqlite_items::Items;
use std::alloc::{AllocError, Global};
use vtr_base::Text;

/// A port: its name, its side and how many pins it has.
pub type PortRow<'a> = (&'a str, Side, u32);

/// An interconnect: its name, its kind, and the pin words of its `input` and its `output`.
pub type InterRow<'a> = (&'a str, InterKind, &'a str, &'a str);

/// Ports in the order of these rows.
pub fn ports(alloc: Global, rows: &[PortRow<'_>]) -> Result<Items<Port>, AllocError> {
    let mut ports = Items::new(alloc);
    for (name, side, width) in rows {
        ports.push(Port {
            name: Text::from_str(alloc, name)?,
            side: *side,
            width: *width,
        })?;
    }
    Ok(ports)
}

/// Interconnects in the order of these rows.
pub fn inters(alloc: Global, rows: &[InterRow<'_>]) -> Result<Items<Inter>, AllocError> {
    let mut inters = Items::new(alloc);
    for (name, kind, input, output) in rows {
        inters.push(Inter {
            name: Text::from_str(alloc, name)?,
            kind: *kind,
            input: Text::from_str(alloc, input)?,
            output: Text::from_str(alloc, output)?,
            patterns: Items::new(alloc),
            metas: Items::new(alloc),
        })?;
    }
    Ok(inters)
}

/// A leaf of which its parent has `count`.
pub fn leaf(
    alloc: Global,
    name: &str,
    count: u32,
    kind: Kind,
    rows: &[PortRow<'_>],
) -> Result<PbType, AllocError> {
    Ok(PbType {
        name: Text::from_str(alloc, name)?,
        count,
        ports: ports(alloc, rows)?,
        kind,
        metas: Items::new(alloc),
    })
}

/// A block with modes of which its parent has `count`.
pub fn block(
    alloc: Global,
    name: &str,
    count: u32,
    rows: &[PortRow<'_>],
    modes: Items<Mode>,
) -> Result<PbType, AllocError> {
    leaf(alloc, name, count, Kind::Modes(modes), rows)
}

/// A mode with its children and its interconnects.
pub fn mode(
    alloc: Global,
    name: &str,
    kids: Items<PbType>,
    rows: &[InterRow<'_>],
) -> Result<Mode, AllocError> {
    Ok(Mode {
        name: Text::from_str(alloc, name)?,
        kids,
        inters: inters(alloc, rows)?,
        metas: Items::new(alloc),
    })
}

/// One child.
pub fn one_kid(alloc: Global, kid: PbType) -> Result<Items<PbType>, AllocError> {
    let mut kids = Items::new(alloc);
    kids.push(kid)?;
    Ok(kids)
}

/// One mode.
pub fn one_mode(alloc: Global, mode: Mode) -> Result<Items<Mode>, AllocError> {
    let mut modes = Items::new(alloc);
    modes.push(mode)?;
    Ok(modes)
}
