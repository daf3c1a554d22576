ghost use Rattle.std.specs.Prelude.{◌≡◌, IfOk, IfErr};
ghost use Rattle.net_types.specs.declared.parts.NetlistParts.{NetlistParts};
ghost use Rattle.blif_net.specs.Netlists.{SaysNetlist};
ghost use Rattle.run_netlists.specs.Netlists.{IsRefusedNetlist};

use arch_types::Arch;
use blif_net::{one_netlist, read_blif};
use net_types::Netlist;
use run_base::{Stop, refused_by};
use std::alloc::Global;

/// The netlist that the bytes of its file spell, whose boxes are of the architecture's models.
pub fn netlist_of(
    alloc: Global,
    file: &str,
    bytes: &[u8],
    architecture: &Arch,
) -> Result<Netlist, Stop>
    ensures says { IfOk result (SaysNetlist architecture.now.models bytes.now) }
    ensures stopped { IfErr result (IsRefusedNetlist architecture.now file.now bytes.now) }
    ensures complete { (n : NetlistParts) → SaysNetlist architecture.now.models bytes.now n
        → IfErr result (λ s. s ≡ Stop.Memory) }
{
    one_netlist();
    match read_blif(alloc, bytes, architecture) {
        Ok(netlist) => Ok(netlist),
        Err(error) => Err(refused_by(alloc, file, &error)),
    }
}
