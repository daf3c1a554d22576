ghost use Rattle.std.specs.Prelude.{◌≡◌, ◌⊎◌, IfErr, IfOk};
ghost use Rattle.blif_errors.specs.declared.error.BlifError.TheVariants.{OutOfMemory};
ghost use Rattle.blif_net.specs.Netlists.{IsRefused, SaysNetlist};

use arch_types::Arch;
use blif_errors::BlifError;
use blif_files::read_parts;
use blif_wholes::into_netlist;
use net_types::Netlist;
use std::alloc::Global;

/// Reads the netlist that a file says, whose boxes are of the architecture's models. Refusals of
/// lines come in the order of the lines, and those of the whole after them. It takes time linear in
/// the size of the file, and files of 2^32 - 1 bytes and more are told as want of memory.
pub fn read_blif(alloc: Global, bytes: &[u8], arch: &Arch) -> Result<Netlist, BlifError>
    ensures netlist { IfOk result (SaysNetlist arch.now.models bytes.now) }
    ensures refused { IfErr result (λ e. (e ≡ OutOfMemory)
        ⊎ IsRefused arch.now.models bytes.now e) }
{
    let parts = read_parts(alloc, bytes, arch)?;
    let netlist = into_netlist(alloc, parts)?;
    netlist.law();
    Ok(netlist)
}
