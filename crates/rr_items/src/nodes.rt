ghost use Rattle.std.specs.Prelude.{◌≡◌, ℕ, Option, MatchBool, MatchOption, IfOk, IfErr};
ghost use Rattle.rr_items.specs.NodeItems.{kind_name, HasKind, HasLayer, SaysSpan, SaysPin, SaysNodeAt, SaysNode, IsNodeFault, IsNodeOnGround};

use crate::ground::is_on_ground;
use elem_attrs::attribute;
use elem_reading::{first_kid, number_attribute, number_within};
use elem_text::Elem;
use text_parts::Number;
use vtr_base::Text;

/// What a node of a routing graph is.
#[derive(Clone, Copy, Debug, PartialEq, Eq)]
pub enum NodeKind {
    Source,
    Sink,
    Opin,
    Ipin,
    Chanx,
    Chany,
}

/// The places that a node reaches over, from the lower ends to the higher ones.
#[derive(Clone, Copy, Debug, PartialEq, Eq)]
pub struct Span {
    pub x_low: u32,
    pub x_high: u32,
    pub y_low: u32,
    pub y_high: u32,
}

/// A node of a routing graph. `pin` is the number of a pin node's pin in its block type.
#[derive(Clone, Copy, Debug, PartialEq, Eq)]
pub struct Node {
    pub id: u32,
    pub kind: NodeKind,
    pub span: Span,
    pub pin: Option<u32>,
}

/// Why a `node` is none.
#[derive(Clone, Copy, Debug, PartialEq, Eq)]
pub enum NodeFault {
    /// It lacks something, or a number, its type or its place isn't one.
    Item,
    /// It stands in another layer than 0.
    Layer,
}

/// The node that a `node` element says.
pub fn read_node(elem: &Elem) -> Result<Node, NodeFault>
    ensures ok { IfOk result (IsNodeOnGround elem.now) }
    ensures fault { IfErr result (IsNodeFault elem.now) }
{
    let Some(loc) = first_kid(elem, b"loc") else {
        return Err(NodeFault::Item);
    };
    let Some(node) = node_at(elem, loc) else {
        return Err(NodeFault::Item);
    };
    if !is_on_ground(loc) {
        return Err(NodeFault::Layer);
    }
    Ok(node)
}

/// The node that an element and its `loc` say, whatever their layer.
fn node_at(elem: &Elem, loc: &Elem) -> Option<Node>
    ensures { MatchOption result ((node : Node) → SaysNodeAt elem.now loc.now node → ⊥)
        (SaysNodeAt elem.now loc.now) }
{
    let id = number_within(elem, b"id", i32::MAX as u32)?;
    let kind = kind_of(elem)?;
    let span = span_of(loc)?;
    let pin = pin_of(loc, kind)?;
    if !has_layer(loc) {
        return None;
    }
    Some(Node {
        id,
        kind,
        span,
        pin,
    })
}

/// What the element's `type` says.
fn kind_of(elem: &Elem) -> Option<NodeKind>
    ensures { MatchOption result ((kind : NodeKind) → HasKind elem.now kind → ⊥)
        (HasKind elem.now) }
{
    kind_named(attribute(elem, b"type")?)
}

/// The kind that has this name.
fn kind_named(name: &Text) -> Option<NodeKind>
    ensures { MatchOption result ((kind : NodeKind) → name.now ≡ kind_name kind → ⊥)
        (λ kind. name.now ≡ kind_name kind) }
{
    if name.is(b"SOURCE") {
        return Some(NodeKind::Source);
    }
    if name.is(b"SINK") {
        return Some(NodeKind::Sink);
    }
    if name.is(b"OPIN") {
        return Some(NodeKind::Opin);
    }
    if name.is(b"IPIN") {
        return Some(NodeKind::Ipin);
    }
    if name.is(b"CHANX") {
        return Some(NodeKind::Chanx);
    }
    if name.is(b"CHANY") {
        return Some(NodeKind::Chany);
    }
    None
}

/// The places of a `loc`.
fn span_of(loc: &Elem) -> Option<Span>
    ensures { MatchOption result ((span : Span) → SaysSpan loc.now span → ⊥) (SaysSpan loc.now) }
{
    let x_low = number_within(loc, b"xlow", i32::MAX as u32)?;
    let x_high = number_within(loc, b"xhigh", i32::MAX as u32)?;
    let y_low = number_within(loc, b"ylow", i32::MAX as u32)?;
    let y_high = number_within(loc, b"yhigh", i32::MAX as u32)?;
    if x_high < x_low {
        return None;
    }
    if y_high < y_low {
        return None;
    }
    Some(Span {
        x_low,
        x_high,
        y_low,
        y_high,
    })
}

/// The pin's number of a pin node, and none of another node.
fn pin_of(loc: &Elem, kind: NodeKind) -> Option<Option<u32>>
    ensures { MatchOption result ((pin : Option ℕ) → SaysPin loc.now kind pin → ⊥)
        (SaysPin loc.now kind) }
{
    match kind {
        NodeKind::Opin | NodeKind::Ipin => {
            let number = number_within(loc, b"ptc", i32::MAX as u32)?;
            Some(Some(number))
        }
        NodeKind::Source | NodeKind::Sink | NodeKind::Chanx | NodeKind::Chany => Some(None),
    }
}

/// Whether the element has no `layer`, or one of digits.
fn has_layer(loc: &Elem) -> bool
    ensures { MatchBool result (HasLayer loc.now) (HasLayer loc.now → ⊥) }
{
    match number_attribute(loc, b"layer", 0) {
        None => true,
        Some(Number::Value(_)) => true,
        Some(Number::Over) => true,
        Some(Number::NoDigits) => false,
    }
}
