ghost use Rattle.std.specs.Prelude.{◌<◌, length};

use arch_types::{Arch, AtomKind};
use net_types::{Atom, Conn, Netlist};
use std::alloc::{AllocError, Global};
use std::fmt::Write;
use vtr_base::Bits;

/// Of how many nets and atoms at most facts are told, beside their numbers.
const SHOWN: u32 = 16;

/// What a netlist says, a line for each fact: how many nets and atoms it has; the first nets, with
/// what makes and takes each; and the first atoms, with their connections, tables and parameters.
pub fn facts_of(alloc: Global, netlist: &Netlist, arch: &Arch) -> Result<Vec<String>, AllocError> {
    let mut facts = Vec::new(alloc);
    let nets = netlist.nets().count();
    let atoms = netlist.atoms().len();
    facts.push(format!(in alloc; "{nets} nets, {atoms} atoms")?)?;
    for net in 0..nets.min(SHOWN) {
        facts.push(net_fact(alloc, netlist, net)?)?;
    }
    for (number, atom) in netlist.atoms().iter().enumerate().take(SHOWN as usize) {
        facts.push(atom_fact(alloc, netlist, arch, number, atom)?)?;
    }
    Ok(facts)
}

/// `net N NAME: from ATOM, to ATOM.PLACE ..`
fn net_fact(alloc: Global, netlist: &Netlist, net: u32) -> Result<String, AllocError>
    requires { net < length netlist.now.nets }
{
    let (name, driver) = (netlist.name(net), netlist.driver(net));
    let mut fact = format!(in alloc; "net {net} {name}: from {driver}, to")?;
    for (atom, place) in netlist.sinks(net) {
        write!(fact, " {atom}.{place}")?;
    }
    Ok(fact)
}

/// `atom N NAME KIND: in PORT[BIT]=NET .., out PORT[BIT]=NET ..`, and then `, table BITS`, the
/// value at the highest index first, of a LUT, and `, NAME=VALUE` for each parameter of a box.
fn atom_fact(
    alloc: Global,
    netlist: &Netlist,
    arch: &Arch,
    number: usize,
    atom: &Atom,
) -> Result<String, AllocError> {
    let name = atom.name.as_str();
    let mut fact = format!(in alloc; "atom {number} {name} ")?;
    put_kind(&mut fact, arch, atom.kind)?;
    write!(fact, ": in")?;
    put_conns(&mut fact, netlist, atom.ins.as_slice())?;
    write!(fact, ", out")?;
    put_conns(&mut fact, netlist, atom.outs.as_slice())?;
    if !atom.table.is_empty() {
        write!(fact, ", table ")?;
        put_table(&mut fact, &atom.table)?;
    }
    for (name, value) in atom.params.as_slice() {
        let (name, value) = (name.as_str(), value.as_str());
        write!(fact, ", {name}={value}")?;
    }
    Ok(fact)
}

fn put_kind(fact: &mut String, arch: &Arch, kind: AtomKind) -> Result<(), AllocError> {
    match kind {
        AtomKind::InPad => fact.push_str("input"),
        AtomKind::OutPad => fact.push_str("output"),
        AtomKind::Lut => fact.push_str("lut"),
        AtomKind::Latch => fact.push_str("latch"),
        AtomKind::Cell(model) => match arch.models.as_slice().get(model as usize) {
            Some(model) => fact.push_str(model.name.as_str()),
            None => fact.push_str("box"),
        },
    }
}

fn put_conns(fact: &mut String, netlist: &Netlist, conns: &[Conn]) -> Result<(), AllocError> {
    for conn in conns {
        let (port, bit) = (conn.port.as_str(), conn.bit);
        write!(fact, " {port}[{bit}]=")?;
        if conn.net < netlist.nets().count() {
            fact.push_str(netlist.name(conn.net))?;
        }
    }
    Ok(())
}

/// The values of a table, that at the highest index first.
fn put_table(fact: &mut String, table: &Bits) -> Result<(), AllocError> {
    for index in (0..table.len()).rev() {
        fact.push_str(if table.get(index) { "1" } else { "0" })?;
    }
    Ok(())
}
