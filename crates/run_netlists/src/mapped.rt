ghost use Rattle.std.specs.Prelude.{◌≡◌, ◌≤◌, IfOk, IfErr};
ghost use Rattle.run_base.specs.Worlds.{world};
ghost use Rattle.run_netlists.specs.Netlists.{ReadsMapped, StopsAtMapped};
ghost use Rattle.run_netlists.specs.Valid.{IsValidMapped};

use crate::netlist::netlist_of;
use net_types::Netlist;
use run_base::{Stop, fetch};
use run_inputs::{Expanded, read_expanded, valid_is_read};
use run_laws::fetch_laws;
use std::alloc::Global;
use vtr_base::Shelf;

/// An architecture with the graphs of its block types, and a netlist whose boxes are of its models.
#[derive(Drop)]
pub struct Mapped {
    pub expanded: Expanded,
    pub netlist: Netlist,
}

/// The architecture and the netlist of two files: `arch` is fetched and read, and its block types
/// are expanded; then `blif` is fetched and read.
pub fn read_mapped<S: Shelf>(
    alloc: Global,
    arch: &str,
    blif: &str,
    shelf: &mut S,
) -> Result<Mapped, Stop>
    ensures held { S.files shelf.new ≡ S.files shelf.old }
    ensures count { S.faults shelf.old ≤ S.faults shelf.new }
    ensures reads { let w = world (S.files shelf.old) (S.faults shelf.old) (S.faults shelf.new) in
        IfOk result (ReadsMapped w arch.now blif.now) }
    ensures stopped { let w = world (S.files shelf.old) (S.faults shelf.old) (S.faults shelf.new) in
        IfErr result (StopsAtMapped w arch.now blif.now) }
    ensures complete { let w = world (S.files shelf.old) (S.faults shelf.old) (S.faults shelf.new)
        in IsValidMapped w arch.now blif.now → IfErr result (λ s. s ≡ Stop.Memory) }
{
    fetch_laws();
    valid_is_read();
    let expanded = read_expanded(alloc, arch, shelf)?;
    let bytes = fetch(alloc, blif, shelf)?;
    let netlist = netlist_of(alloc, blif, bytes.as_slice(), &expanded.architecture)?;
    Ok(Mapped { expanded, netlist })
}
