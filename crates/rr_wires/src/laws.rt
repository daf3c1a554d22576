ghost use Rattle.std.specs.Prelude.{◌≡◌, List, map};
ghost use Rattle.list_laws.specs.Orders.{Once};
ghost use Rattle.rr_items.specs.declared.carriers.CarriedNode.{CarriedNode};
ghost use Rattle.rr_wires.specs.declared.types.NodeEdge.{NodeEdge};
ghost use Rattle.rr_wires.specs.declared.types.OwnedEdge.{OwnedEdge};
ghost use Rattle.rr_wires.specs.declared.types.REdgeIx.{REdgeIx};
ghost use Rattle.rr_wires.specs.declared.types.WireIx.{WireIx};
ghost use Rattle.rr_wires.specs.Numbering.{Numbering, WireGraph};
ghost use Rattle.rr_wires.specs.Wires.{IsGraphOf, IsNumberingOf, TellsWires};
ghost use Rattle.rr_wires.specs.Tables.{AreEdgesInto, AreEdgesOutOf};

/// Tells a caller's proof that nodes and edges have one graph of wires, and a wire one list of
/// pairs into it and out of it. It does nothing.
pub fn one_graph()
    ensures graph { (nodes : List CarriedNode) (edges : List NodeEdge) (g h : WireGraph)
        → IsGraphOf nodes edges g → IsGraphOf nodes edges h → g ≡ h }
    ensures into { (edges : List OwnedEdge) (w : WireIx) (xs ys : List REdgeIx)
        → AreEdgesInto edges w xs → AreEdgesInto edges w ys → xs ≡ ys }
    ensures out_of { (edges : List OwnedEdge) (w : WireIx) (xs ys : List REdgeIx)
        → AreEdgesOutOf edges w xs → AreEdgesOutOf edges w ys → xs ≡ ys }
{}

/// Tells a caller's proof that two nodes have one number exactly where they are one wire: one node,
/// or two of one tile pin. It does nothing.
pub fn one_wire()
    ensures { (nodes : List CarriedNode) (n : Numbering) → Once (map (λ m. m.id) nodes)
        → IsNumberingOf nodes n → TellsWires nodes n }
{}
