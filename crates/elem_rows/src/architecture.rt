use arch_types::{ArchParts, CellModel, Inter, Kind, Layout, Meta, Mode, PbType, Port, Tile, walk};
use std::alloc::{AllocError, Global};
use std::fmt::Write;
use vtr_base::Text;

/// Appends what an architecture says: models with their ports; tiles with their capacity, sites and
/// ports; layouts with their singles; and the pb_types in preorder, each with its count, ports and
/// metas, its modes with their children and metas, and the interconnects of each.
pub fn put_architecture(
    alloc: Global,
    out: &mut String,
    arch: &ArchParts,
) -> Result<(), AllocError> {
    for model in arch.models.as_slice() {
        put_model(out, model)?;
    }
    for tile in arch.tiles.as_slice() {
        put_tile(out, tile)?;
    }
    for layout in arch.layouts.as_slice() {
        put_layout(out, layout)?;
    }
    for block in arch.blocks.as_slice() {
        for part in walk(alloc, block)? {
            put_pb_type(out, part)?;
        }
    }
    Ok(())
}

fn put_names(out: &mut String, names: &[Text]) -> Result<(), AllocError> {
    for name in names {
        write!(out, " {}", name.as_str())?;
    }
    Ok(())
}

fn put_ports(out: &mut String, ports: &[Port]) -> Result<(), AllocError> {
    for port in ports {
        write!(
            out,
            " {} {:?} {},",
            port.name.as_str(),
            port.side,
            port.width
        )?;
    }
    Ok(())
}

fn put_metas(out: &mut String, metas: &[Meta]) -> Result<(), AllocError> {
    for meta in metas {
        write!(out, " {}={}", meta.name.as_str(), meta.text.as_str())?;
    }
    Ok(())
}

fn put_model(out: &mut String, model: &CellModel) -> Result<(), AllocError> {
    write!(out, "model {}:", model.name.as_str())?;
    put_names(out, model.ins.as_slice())?;
    write!(out, " ->")?;
    put_names(out, model.outs.as_slice())?;
    writeln!(out)
}

fn put_tile(out: &mut String, tile: &Tile) -> Result<(), AllocError> {
    write!(
        out,
        "tile {} {}",
        tile.name.as_str(),
        tile.sub_name.as_str()
    )?;
    write!(out, " {}", tile.capacity)?;
    for site in tile.sites.as_slice() {
        write!(out, " {site}")?;
    }
    write!(out, ":")?;
    put_ports(out, tile.ports.as_slice())?;
    writeln!(out)
}

fn put_layout(out: &mut String, layout: &Layout) -> Result<(), AllocError> {
    writeln!(out, "layout {} {}", layout.width, layout.height)?;
    for single in layout.singles.as_slice() {
        write!(
            out,
            "single {} {} {}",
            single.tile.as_str(),
            single.x,
            single.y
        )?;
        writeln!(out, " {} '{}'", single.priority, single.prefix.as_str())?;
    }
    Ok(())
}

fn put_inter(out: &mut String, inter: &Inter) -> Result<(), AllocError> {
    write!(out, "{:?} {}", inter.kind, inter.name.as_str())?;
    write!(
        out,
        " '{}' '{}'",
        inter.input.as_str(),
        inter.output.as_str()
    )?;
    for pattern in inter.patterns.as_slice() {
        write!(
            out,
            " [{} {}",
            pattern.name.as_str(),
            pattern.in_port.as_str()
        )?;
        write!(out, " {}]", pattern.out_port.as_str())?;
    }
    put_metas(out, inter.metas.as_slice())?;
    writeln!(out)
}

fn put_mode(out: &mut String, mode: &Mode) -> Result<(), AllocError> {
    write!(out, "mode {}:", mode.name.as_str())?;
    for kid in mode.kids.as_slice() {
        write!(out, " {}", kid.name.as_str())?;
    }
    put_metas(out, mode.metas.as_slice())?;
    writeln!(out)?;
    for inter in mode.inters.as_slice() {
        put_inter(out, inter)?;
    }
    Ok(())
}

fn put_kind(out: &mut String, kind: &Kind) -> Result<(), AllocError> {
    match kind {
        Kind::InPad => write!(out, "InPad"),
        Kind::OutPad => write!(out, "OutPad"),
        Kind::Lut => write!(out, "Lut"),
        Kind::Latch => write!(out, "Latch"),
        Kind::Cell(model) => write!(out, "Cell {model}"),
        Kind::Modes(_) => write!(out, "Modes"),
    }
}

fn put_pb_type(out: &mut String, block: &PbType) -> Result<(), AllocError> {
    write!(out, "{} {} ", block.name.as_str(), block.count)?;
    put_kind(out, &block.kind)?;
    write!(out, ":")?;
    put_ports(out, block.ports.as_slice())?;
    put_metas(out, block.metas.as_slice())?;
    writeln!(out)?;
    if let Kind::Modes(modes) = &block.kind {
        for mode in modes.as_slice() {
            put_mode(out, mode)?;
        }
    }
    Ok(())
}
