ghost use Rattle.std.specs.Prelude.{◌≡◌, MatchOption};
ghost use Rattle.rr_items.specs.Switches.{SaysSwitch, names_two_way};

use elem_attrs::value_or_empty;
use elem_reading::number_within;
use elem_text::Elem;

/// A switch of a routing graph. One that is two-way (`pass_gate`, `short` or `buffer`) may stand in
/// the file, and no edge may use it.
#[derive(Clone, Copy, Debug, PartialEq, Eq)]
pub struct Switch {
    pub id: u32,
    pub two_way: bool,
}

/// The switch that a `switch` element says.
pub fn read_switch(elem: &Elem) -> Option<Switch>
    ensures { MatchOption result ((switch : Switch) → SaysSwitch elem.now switch → ⊥)
        (SaysSwitch elem.now) }
{
    let id = number_within(elem, b"id", i32::MAX as u32)?;
    Some(Switch {
        id,
        two_way: is_two_way(value_or_empty(elem, b"type")),
    })
}

/// Whether this is the name of a two-way kind of switch.
fn is_two_way(kind: &[u8]) -> bool
    ensures { result ≡ names_two_way kind.now }
{
    kind == b"pass_gate".as_slice() || kind == b"short".as_slice() || kind == b"buffer".as_slice()
}
