ghost use Rattle.std.specs.Prelude.{MatchOption};
ghost use Rattle.rr_items.specs.Ends.{SaysEnds};

use elem_reading::number_within;
use elem_text::Elem;

/// What an `edge` names: its two nodes and its switch, by their ids.
#[derive(Clone, Copy, Debug, PartialEq, Eq)]
pub struct EdgeEnds {
    pub source: u32,
    pub sink: u32,
    pub switch: u32,
}

/// The ends of an edge, where each of the three attributes holds an id.
pub fn edge_ends(elem: &Elem) -> Option<EdgeEnds>
    ensures { MatchOption result ((ends : EdgeEnds) → SaysEnds elem.now ends → ⊥)
        (SaysEnds elem.now) }
{
    let source = number_within(elem, b"src_node", i32::MAX as u32)?;
    let sink = number_within(elem, b"sink_node", i32::MAX as u32)?;
    let switch = number_within(elem, b"switch_id", i32::MAX as u32)?;
    Some(EdgeEnds {
        source,
        sink,
        switch,
    })
}
