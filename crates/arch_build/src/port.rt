ghost use Rattle.std.specs.Prelude.{◌≡◌, ◌++◌, IfOk, OnOk};
ghost use Rattle.std.specs.List.{flat_map};
ghost use Rattle.arch_build.specs.Said.{inside, side_of, said_port};

use crate::part::{copied, count_in};
use arch_types::{Port, Side};
use elem_attrs::has_tag;
use elem_text::Elem;
use sqlite_items::Items;
use std::alloc::{AllocError, Global};

/// The ports among the children of an element, in their order.
pub(crate) fn ports_in(alloc: Global, owner: &Elem) -> Result<Items<Port>, AllocError>
    ensures { IfOk result (λ ports. ports ≡ flat_map said_port (inside owner.now)) }
{
    let mut ports = Items::new(alloc);
    for elem in owner.kids.as_slice() {
        push_port(alloc, &mut ports, elem)?;
    }
    Ok(ports)
}

fn push_port(alloc: Global, ports: &mut Items<Port>, elem: &Elem) -> Result<(), AllocError>
    ensures { OnOk result (ports.new ≡ ports.old ++ said_port elem.now) }
{
    let Some(side) = side_of(elem) else {
        return Ok(());
    };
    let name = copied(alloc, elem, b"name")?;
    let width = count_in(elem, b"num_pins");
    ports.push(Port { name, side, width })?;
    Ok(())
}

/// Which way the port leads that the element is by its name.
fn side_of(elem: &Elem) -> Option<Side>
    ensures { result ≡ side_of elem.now }
{
    if has_tag(elem, b"input") {
        Some(Side::Input)
    } else if has_tag(elem, b"output") {
        Some(Side::Output)
    } else if has_tag(elem, b"clock") {
        Some(Side::Clock)
    } else {
        None
    }
}
