ghost use Rattle.std.specs.Prelude.{◌≡◌};
ghost use Rattle.elem_text.specs.declared.elem.Elem.{Elem};
ghost use Rattle.rr_items.specs.declared.ends.EdgeEnds.{EdgeEnds};
ghost use Rattle.rr_items.specs.declared.grid.GridPlace.{GridPlace};
ghost use Rattle.rr_items.specs.declared.nodes.Node.{Node};
ghost use Rattle.rr_items.specs.declared.switches.Switch.{Switch};
ghost use Rattle.rr_items.specs.Ends.{SaysEnds};
ghost use Rattle.rr_items.specs.Grid.{SaysPlace};
ghost use Rattle.rr_items.specs.NodeItems.{SaysNode};
ghost use Rattle.rr_items.specs.Switches.{SaysSwitch};

/// Tells a caller's proof that an element says one item of a sort at most. It does nothing.
pub fn one_item()
    ensures ends { (e : Elem) (p q : EdgeEnds) → SaysEnds e p → SaysEnds e q → p ≡ q }
    ensures place { (e : Elem) (p q : GridPlace) → SaysPlace e p → SaysPlace e q → p ≡ q }
    ensures node { (e : Elem) (p q : Node) → SaysNode e p → SaysNode e q → p ≡ q }
    ensures switch { (e : Elem) (p q : Switch) → SaysSwitch e p → SaysSwitch e q → p ≡ q }
{}
