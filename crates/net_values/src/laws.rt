ghost use Rattle.std.specs.Prelude.{◌≡◌, ◌↔◌, ℕ, Bool, true, List, length};
ghost use Rattle.blif_covers.specs.Covers.{IsOn, IsTableOf, RowSaid};
ghost use Rattle.net_types.specs.declared.parts.NetlistParts.{NetlistParts};
ghost use Rattle.net_types.specs.WellFormed.{IsNetlist};
ghost use Rattle.net_values.specs.Valuations.{HasOneValuation, IsLookedUp, NetValues};

/// Tells a caller's proof that a netlist has one valuation for each choice of what inputs, latches
/// and boxes give, and that a LUT whose table a cover says is on where the cover is. It does
/// nothing.
pub fn one_valuation()
    ensures one { (n : NetlistParts) (given : NetValues) → IsNetlist n
        → HasOneValuation n given }
    ensures cover { (inputs : ℕ) (rows : List RowSaid) (table values : List Bool) (value : Bool)
        → IsTableOf inputs rows table → length values ≡ inputs → IsLookedUp table values value
        → (value ≡ true) ↔ IsOn rows values }
{}
