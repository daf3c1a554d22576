ghost use Rattle.std.specs.Prelude.{◌≡◌, ◌<◌, ◌++◌, ◌∷◌, [], OnOk, Some, length, slice_get};
ghost use Rattle.prog_map.specs.Choices.{IsProgOf, IsModeOf};
ghost use Rattle.prog_map.specs.declared.setting.Setting.TheVariants.{Mode, Pick, Used, Lut};
ghost use Rattle.prog_text.specs.Spelling.{IsInside, site_text, line_of, digits_of, choice_text, bit_digit};

use crate::{put_instance, put_pin};
use pb_expand::{EdgeIx, PbGraph, PbIx, PinIx};
use prog_map::{LSite, LutChoice, Prog};
use std::alloc::AllocError;
use vtr_base::{Bits, put_number};

/// Appends the line of a site, or nothing where the site is off.
pub(crate) fn put_site(
    line: &mut Vec<u8>,
    graph: &PbGraph,
    prog: &Prog,
    site: LSite,
) -> Result<(), AllocError>
    requires inside { IsInside graph.now site }
    requires of { IsProgOf graph.now prog.now }
    ensures { OnOk result (line.new.items ≡ line.old.items ++ site_text graph.now prog.now site) }
{
    match site {
        LSite::Mode(pb) => match prog.mode_of(pb) {
            Some(mode) => put_mode(line, graph, pb, mode),
            None => Ok(()),
        },
        LSite::Pin(pin, mode) => match prog.edge_of(pin, mode) {
            Some(edge) => put_pick(line, graph, pin, mode, edge),
            None => Ok(()),
        },
        LSite::Used(pb) => {
            if !prog.used(pb) {
                return Ok(());
            }
            put_used(line, graph, pb)
        }
        LSite::Lut(pb) => match prog.lut(pb) {
            Some(choice) => put_lut(line, graph, pb, choice),
            None => Ok(()),
        },
    }
}

/// Appends `mode INST MODE` and a line feed.
fn put_mode(line: &mut Vec<u8>, graph: &PbGraph, pb: PbIx, mode: u32) -> Result<(), AllocError>
    requires inside { pb.0 < length graph.now.instances }
    requires mode { IsModeOf graph.now pb.0 mode }
    ensures { OnOk result (line.new.items ≡ line.old.items
        ++ (line_of graph.now (Mode pb mode) ++ 10 ∷ [])) }
{
    line.extend_from_slice(b"mode ")?;
    put_instance(line, graph, pb)?;
    line.push(b' ')?;
    line.extend_from_slice(graph.mode_name(pb, mode).as_bytes())?;
    line.push(b'\n')?;
    Ok(())
}

/// Appends `pin PIN MODE PIN` and a line feed.
fn put_pick(
    line: &mut Vec<u8>,
    graph: &PbGraph,
    pin: PinIx,
    mode: u32,
    number: EdgeIx,
) -> Result<(), AllocError>
    requires pin { pin.0 < length graph.now.pins }
    requires edge { number.0 < length graph.now.edges }
    ensures { OnOk result (line.new.items ≡ line.old.items
        ++ (line_of graph.now (Pick pin mode number) ++ 10 ∷ [])) }
{
    graph.law();
    let edge = graph.edge(number);
    line.extend_from_slice(b"pin ")?;
    put_pin(line, graph, pin)?;
    line.push(b' ')?;
    line.extend_from_slice(graph.mode_name(edge.owner, edge.mode).as_bytes())?;
    line.push(b' ')?;
    put_pin(line, graph, edge.src)?;
    line.push(b'\n')?;
    Ok(())
}

/// Appends `used INST` and a line feed.
fn put_used(line: &mut Vec<u8>, graph: &PbGraph, pb: PbIx) -> Result<(), AllocError>
    requires { pb.0 < length graph.now.instances }
    ensures { OnOk result (line.new.items ≡ line.old.items
        ++ (line_of graph.now (Used pb) ++ 10 ∷ [])) }
{
    line.extend_from_slice(b"used ")?;
    put_instance(line, graph, pb)?;
    line.push(b'\n')?;
    Ok(())
}

/// Appends `lut INST wire K` or `lut INST table BITS`, and a line feed.
fn put_lut(
    line: &mut Vec<u8>,
    graph: &PbGraph,
    pb: PbIx,
    choice: &LutChoice,
) -> Result<(), AllocError>
    requires { pb.0 < length graph.now.instances }
    ensures { OnOk result (line.new.items ≡ line.old.items
        ++ (line_of graph.now (Lut pb choice.now) ++ 10 ∷ [])) }
{
    line.extend_from_slice(b"lut ")?;
    put_instance(line, graph, pb)?;
    line.push(b' ')?;
    put_choice(line, choice)?;
    line.push(b'\n')?;
    Ok(())
}

/// Appends `wire K` or `table BITS`.
fn put_choice(line: &mut Vec<u8>, choice: &LutChoice) -> Result<(), AllocError>
    ensures { OnOk result (line.new.items ≡ line.old.items ++ choice_text choice.now) }
{
    match choice {
        LutChoice::Wire(input) => {
            line.extend_from_slice(b"wire ")?;
            put_number(line, u64::from(*input))
        }
        LutChoice::Table(table) => {
            line.extend_from_slice(b"table ")?;
            put_digits(line, table)
        }
    }
}

/// Appends the digits of a table, the highest bit first.
fn put_digits(line: &mut Vec<u8>, table: &Bits) -> Result<(), AllocError>
    ensures { OnOk result (line.new.items ≡ line.old.items ++ digits_of table.now) }
{
    let mut place = table.len();
    while place > 0 {
        place -= 1;
        line.push(digit_of(table.get(place)))?;
    }
    Ok(())
}

/// 0 or 1.
fn digit_of(bit: bool) -> u8
    ensures { result ≡ bit_digit bit }
{
    if bit { b'1' } else { b'0' }
}
