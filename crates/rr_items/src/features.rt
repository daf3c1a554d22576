ghost use Rattle.std.specs.Prelude.{◌≡◌, ◌&&◌, codes};
ghost use Rattle.std.specs.List.{find};
ghost use Rattle.std.specs.Option.{option_copied};
ghost use Rattle.elem_text.specs.declared.elem.Elem.{out-Elem};
ghost use Rattle.elem_attrs.specs.Attributes.{has_tag};
ghost use Rattle.rr_items.specs.Features.{lists_features, features_meta as the_meta, edge_features};

use elem_attrs::{has_tag, value_or_empty};
use elem_text::Elem;

/// The text in which an `edge` lists its features (FPGA assembly metadata: `fasm_features`), as it
/// stands in the file. It is empty where the edge has none.
pub fn features_of_edge(edge: &Elem) -> &str
    ensures { result.now ≡ edge_features edge.now }
{
    match features_meta(edge) {
        Some(meta) => meta.text.as_str(),
        None => "",
    }
}

/// The first `meta` of the edge's `metadata` that lists features.
fn features_meta(edge: &Elem) -> Option<&Elem>
    ensures { option_copied result ≡ the_meta edge.now }
{
    for metadata in edge.kids.as_slice() {
        if has_tag(metadata, b"metadata") {
            let found = features_within(metadata);
            if found.is_some() {
                return found;
            }
        }
    }
    None
}

/// The first `meta` of one `metadata` that lists features.
fn features_within(metadata: &Elem) -> Option<&Elem>
    ensures { option_copied result
        ≡ find (λ kid. has_tag kid (codes "meta") && lists_features kid)
        (out-Elem metadata.now).kids }
{
    metadata
        .kids
        .as_slice()
        .iter()
        .find(|kid| is_meta_of_features(*kid))
}

/// Whether the element is a `meta` that lists features.
fn is_meta_of_features(kid: &Elem) -> bool
    ensures { result ≡ (has_tag kid.now (codes "meta") && lists_features kid.now) }
{
    has_tag(kid, b"meta") && value_or_empty(kid, b"name") == b"fasm_features".as_slice()
}
