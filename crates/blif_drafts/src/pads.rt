ghost use Rattle.std.specs.Prelude.{◌≡◌, map, IfOk};
ghost use Rattle.blif_elems.specs.Seen.{texts};
ghost use Rattle.blif_parts.specs.Adds.{out_name};

use std::alloc::{AllocError, Global};
use vtr_base::Text;

/// The names of the atoms of outputs.
pub(crate) fn output_names(alloc: Global, nets: &[&str]) -> Result<Vec<Text>, AllocError>
    ensures { IfOk result (λ names. names.items ≡ map out_name (texts nets.now)) }
{
    let mut names = Vec::new(alloc);
    for net in nets {
        names.push(output_name(alloc, net)?)?;
    }
    Ok(names)
}

/// The name of the atom of an output.
fn output_name(alloc: Global, net: &str) -> Result<Text, AllocError>
    ensures { IfOk result (λ name. name ≡ out_name net.now) }
{
    let mut name = Text::from_str(alloc, "out:")?;
    name.push_str(net)?;
    Ok(name)
}

/// Texts, lent.
pub(crate) fn lend_all<'a>(alloc: Global, names: &'a [Text]) -> Result<Vec<&'a str>, AllocError>
    ensures { IfOk result (λ lent. texts lent.items ≡ names.now) }
{
    let mut lent = Vec::new(alloc);
    for name in names {
        lent.push(name.as_str())?;
    }
    Ok(lent)
}
