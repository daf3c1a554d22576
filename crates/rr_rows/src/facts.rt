ghost use Rattle.std.specs.Prelude.{◌<◌, length};

use arch_types::Arch;
use rr_files::{LocIx, Rr};
use rr_wires::{REdgeIx, WireIx};
use std::alloc::{AllocError, Global};
use std::fmt::Write;

/// Of how many locations at most facts are told, beside the last.
const SHOWN: u32 = 8;

/// The ids of nodes from 0 of which facts are told, beside the greatest id.
const ASKED: u32 = 10;

/// What a graph says, a line for each fact: its size; its locations, with the wire and the class of
/// each pin; its wires, with the pairs that lead into each and out of it; the pairs; and nodes.
pub fn facts_of(alloc: Global, graph: &Rr, arch: &Arch) -> Result<Vec<String>, AllocError> {
    let mut facts = Vec::new(alloc);
    let (columns, rows) = graph.size();
    facts.push(format!(in alloc; "size {columns} {rows}")?)?;
    put_locations(alloc, &mut facts, graph, arch)?;
    put_wires(alloc, &mut facts, graph)?;
    put_pairs(alloc, &mut facts, graph)?;
    for id in 0..ASKED {
        facts.push(node_fact(alloc, graph, id)?)?;
    }
    facts.push(node_fact(alloc, graph, i32::MAX as u32)?)?;
    Ok(facts)
}

fn put_locations(
    alloc: Global,
    facts: &mut Vec<String>,
    graph: &Rr,
    arch: &Arch,
) -> Result<(), AllocError> {
    let count = graph.locs();
    facts.push(format!(in alloc; "locations {count}")?)?;
    for number in 0..count {
        if number < SHOWN || number == count - 1 {
            put_location(alloc, facts, graph, arch, LocIx(number))?;
        }
    }
    Ok(())
}

/// `location L: TILE X Y SUB`, and for each pin `pin L PORT[BIT]: WIRE, CLASS`.
fn put_location(
    alloc: Global,
    facts: &mut Vec<String>,
    graph: &Rr,
    arch: &Arch,
    number: LocIx,
) -> Result<(), AllocError>
    requires { number.0 < length graph.now.layout.locs }
{
    let place = graph.loc(number);
    let Some(tile) = arch.tiles.as_slice().get(place.tile as usize) else {
        return Ok(());
    };
    let (index, name) = (number.0, tile.name.as_str());
    let (x, y, sub) = (place.x, place.y, place.sub);
    facts.push(format!(in alloc; "location {index}: {name} {x} {y} {sub}")?)?;
    for (port, at) in tile.ports.as_slice().iter().zip(0u32..) {
        for bit in 0..port.width {
            let name = port.name.as_str();
            let mut fact = format!(in alloc; "pin {index} {name}[{bit}]: ")?;
            put_wire(&mut fact, graph.pin_wire(number, at, bit))?;
            match graph.class_of(number, at, bit) {
                Some(class) => write!(fact, ", class {class}")?,
                None => write!(fact, ", no class")?,
            }
            facts.push(fact)?;
        }
    }
    Ok(())
}

fn put_wire(fact: &mut String, wire: Option<WireIx>) -> Result<(), AllocError> {
    match wire {
        Some(WireIx(number)) => write!(fact, "wire {number}"),
        None => write!(fact, "no wire"),
    }
}

/// `wire W: node N, in P .., out P ..`, N the least id of its nodes.
fn put_wires(alloc: Global, facts: &mut Vec<String>, graph: &Rr) -> Result<(), AllocError> {
    let count = graph.wires();
    facts.push(format!(in alloc; "wires {count}")?)?;
    for number in 0..count {
        let node = graph.node_of_wire(WireIx(number));
        let mut fact = format!(in alloc; "wire {number}: node {node}, in")?;
        put_numbers(&mut fact, graph.wires_into(WireIx(number)))?;
        write!(fact, ", out")?;
        put_numbers(&mut fact, graph.wires_out_of(WireIx(number)))?;
        facts.push(fact)?;
    }
    Ok(())
}

fn put_numbers(fact: &mut String, pairs: &[REdgeIx]) -> Result<(), AllocError> {
    for REdgeIx(number) in pairs {
        write!(fact, " {number}")?;
    }
    Ok(())
}

/// `pair P: wires W V, nodes N M, switch S, 'FEATURES'`.
fn put_pairs(alloc: Global, facts: &mut Vec<String>, graph: &Rr) -> Result<(), AllocError> {
    let count = graph.redges();
    facts.push(format!(in alloc; "pairs {count}")?)?;
    for number in 0..count {
        let pair = graph.redge(REdgeIx(number));
        let (src, dst) = (pair.src.0, pair.dst.0);
        let (from, to, switch) = (pair.src_node, pair.dst_node, pair.switch);
        let mut fact = format!(in alloc; "pair {number}: wires {src} {dst}, nodes {from} {to}")?;
        let features = graph.edge_features(REdgeIx(number));
        write!(fact, ", switch {switch}, '{features}'")?;
        facts.push(fact)?;
    }
    Ok(())
}

/// `node N: KIND X Y, WIRE`, or `node N: none`.
fn node_fact(alloc: Global, graph: &Rr, id: u32) -> Result<String, AllocError> {
    let Some(node) = graph.node_at(id) else {
        return format!(in alloc; "node {id}: none");
    };
    let mut fact = format!(in alloc; "node {id}: {:?} {} {}, ", node.kind, node.x, node.y)?;
    put_wire(&mut fact, graph.wire_of_node(id))?;
    Ok(fact)
}
