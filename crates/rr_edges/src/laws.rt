ghost use Rattle.std.specs.Prelude.{◌≡◌, List};
ghost use Rattle.elem_text.specs.declared.elem.Elem.{Elem};
ghost use Rattle.rr_edges.specs.declared.error.EdgeError.{EdgeError};
ghost use Rattle.rr_edges.specs.declared.kept.FileEdge.{FileEdge};
ghost use Rattle.rr_edges.specs.Known.{Known};
ghost use Rattle.rr_edges.specs.FileEdges.{SaysEdges, Refuses};

use rr_items::one_item;

/// Tells a caller's proof that a file says its edges in one way, or is refused in one way, and not
/// both. It does nothing.
pub fn one_reading_of_edges()
    ensures said { (known : Known) (elems : List Elem) (p q : List FileEdge) →
        SaysEdges known elems p → SaysEdges known elems q → p ≡ q }
    ensures refused { (known : Known) (elems : List Elem) (p q : EdgeError) →
        Refuses known elems p → Refuses known elems q → p ≡ q }
    ensures apart { (known : Known) (elems : List Elem) (p : List FileEdge) (error : EdgeError) →
        SaysEdges known elems p → Refuses known elems error → ⊥ }
{
    one_item();
}
