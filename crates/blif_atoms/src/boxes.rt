ghost use Rattle.std.specs.Prelude.{◌≡◌, ◌++◌, ◌∷◌, [], true, false, IfOk, OnOk};
ghost use Rattle.blif_parts.specs.Atoms.{conns_on};

use crate::order::reversed;
use blif_items::PinAt;
use net_types::Conn;
use sqlite_items::Items;
use std::alloc::{AllocError, Global};

/// The connections of a box: those of its inputs, and those of its outputs.
#[derive(Drop)]
pub(crate) struct Sides {
    pub(crate) ins: Items<Conn>,
    pub(crate) outs: Items<Conn>,
}

impl Sides {
    /// The connections of these pins, each side in the order of the line.
    pub(crate) fn of(alloc: Global, pins: Items<PinAt>) -> Result<Sides, AllocError>
        ensures ins { IfOk result (λ sides. sides.ins ≡ conns_on false pins) }
        ensures outs { IfOk result (λ sides. sides.outs ≡ conns_on true pins) }
    {
        let mut ins = Vec::new(alloc);
        let mut outs = Vec::new(alloc);
        let mut left = reversed(alloc, pins)?;
        'pins: while let Some(pin) = left.pop() {
            push_pin(&mut ins, &mut outs, pin)?;
        }
        Ok(Sides {
            ins: Items::from_vec(ins),
            outs: Items::from_vec(outs),
        })
    }
}

/// Appends the connection of a pin on its side.
fn push_pin(ins: &mut Vec<Conn>, outs: &mut Vec<Conn>, pin: PinAt) -> Result<(), AllocError>
    ensures ins { OnOk result (ins.new.items ≡ ins.old.items ++ conns_on false (pin ∷ [])) }
    ensures outs { OnOk result (outs.new.items ≡ outs.old.items ++ conns_on true (pin ∷ [])) }
{
    let PinAt {
        port,
        bit,
        net,
        is_output,
    } = pin;
    let conn = Conn { port, bit, net };
    if is_output {
        outs.push(conn)?;
        return Ok(());
    }
    ins.push(conn)?;
    Ok(())
}
