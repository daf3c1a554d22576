ghost use Rattle.std.specs.Prelude.{◌<◌, ◌^◌, IfOk, IfErr, length};
ghost use Rattle.arch_files.specs.Files.{SpellsArch, IsRefused};

use crate::ArchError;
use arch_build::arch_said;
use arch_laws::well_formed;
use arch_links::check_links;
use arch_rules::check_file;
use arch_types::Arch;
use elem_text::read_elems;
use std::alloc::Global;

/// The architecture that the bytes of a file spell. It keeps all rules of architecture files, as
/// each `Arch` does. After a refusal nothing was made.
pub fn read_arch(alloc: Global, bytes: &[u8]) -> Result<Arch, ArchError>
    requires few { length bytes.now < 2 ^ 32 }
    ensures spells { IfOk result (λ a. SpellsArch bytes.now a) }
    ensures refused { IfErr result (IsRefused bytes.now) }
{
    let root = read_elems(alloc, bytes)?;
    check_file(alloc, &root)?;
    let parts = arch_said(alloc, &root)?;
    check_links(alloc, &root, &parts)?;
    well_formed(&root, &parts);
    Ok(parts.into_arch())
}
