ghost use Rattle.std.specs.Prelude.{◌≡◌, ◌++◌, codes, IfOk, OnOk};
ghost use Rattle.std.specs.List.{flat_map};
ghost use Rattle.arch_build.specs.Said.{inside, within, said_model, said_port_name};

use crate::part::copied;
use arch_types::CellModel;
use elem_attrs::has_tag;
use elem_text::Elem;
use sqlite_items::Items;
use std::alloc::{AllocError, Global};
use vtr_base::Text;

/// Adds the models in an element that is a list of them.
pub(crate) fn push_models(
    alloc: Global,
    models: &mut Items<CellModel>,
    list: &Elem,
) -> Result<(), AllocError>
    ensures { OnOk result (models.new ≡ models.old ++ within (codes "models") said_model list.now) }
{
    if has_tag(list, b"models") {
        for elem in list.kids.as_slice() {
            push_model(alloc, models, elem)?;
        }
    }
    Ok(())
}

fn push_model(alloc: Global, models: &mut Items<CellModel>, elem: &Elem) -> Result<(), AllocError>
    ensures { OnOk result (models.new ≡ models.old ++ said_model elem.now) }
{
    if has_tag(elem, b"model") {
        let model = CellModel {
            name: copied(alloc, elem, b"name")?,
            ins: port_names(alloc, elem, b"input_ports")?,
            outs: port_names(alloc, elem, b"output_ports")?,
        };
        models.push(model)?;
    }
    Ok(())
}

/// The names of the ports of a model in its lists of that name.
fn port_names(alloc: Global, model: &Elem, list: &[u8]) -> Result<Items<Text>, AllocError>
    ensures { IfOk result (λ names. names ≡ flat_map (within list.now said_port_name)
        (inside model.now)) }
{
    let mut names = Items::new(alloc);
    for elem in model.kids.as_slice() {
        push_port_names(alloc, &mut names, elem, list)?;
    }
    Ok(names)
}

fn push_port_names(
    alloc: Global,
    names: &mut Items<Text>,
    elem: &Elem,
    list: &[u8],
) -> Result<(), AllocError>
    ensures { OnOk result (names.new ≡ names.old ++ within list.now said_port_name elem.now) }
{
    if has_tag(elem, list) {
        for port in elem.kids.as_slice() {
            push_port_name(alloc, names, port)?;
        }
    }
    Ok(())
}

fn push_port_name(alloc: Global, names: &mut Items<Text>, port: &Elem) -> Result<(), AllocError>
    ensures { OnOk result (names.new ≡ names.old ++ said_port_name port.now) }
{
    if has_tag(port, b"port") {
        names.push(copied(alloc, port, b"name")?)?;
    }
    Ok(())
}
